//! Handles and forms, which are made and called.

ghost use Rattle.std.specs.Prelude.{◌≡◌, ◌≤◌, ◌+◌, ◌^◌, [], length, IfOk};
ghost use Rattle.mh_values.specs.HasType.{HaveTypes};
ghost use Rattle.mh_seats.specs.Room.{limit};
ghost use Rattle.mh_intern.specs.Views.{new_seat};
ghost use Rattle.mh_handle.specs.Passes.{seat_at};
ghost use Rattle.mh_handle.specs.Works.{HoldsTypes, IsReady};
ghost use Rattle.mh_steps.specs.AnyTypes.{ExchangesAny};
ghost use Rattle.mh_handle.specs.Stands.{StandsForSome};

use crate::concats;
use crate::forms::{forms, splits};
use mh_adapt::bind;
use mh_astype::{invoke_exact, invoke_exact_on};
use mh_base::{Frozen, NoMemory, Seq};
use mh_edit::Key;
use mh_form::Machine;
use mh_handle::{FormTable, Handle, HandleError, Work};
use mh_intern::{TypeSeat, TypeTable};
use mh_leaves::{Leaves, ManifestError, read_manifest};
use mh_steps::{
    ADD, Broken, Joined, LESS, MANIFEST, Root, SAME, SUB, Start, Step, TEXT, Typed, check, made,
};
use mh_values::{Items, LeafId, Num, Outcome, Value, are_typed};
use std::alloc::Global;
use std::sync::Wait;

/// What is measured.
#[derive(Clone, Copy)]
pub(crate) enum Row {
    /// A call of a leaf under a bind, a filter and a conversion.
    RunThreeNames,
    /// An edit that the pass has seen.
    EditSeen,
    /// A copy of a handle with a value bound; the pass has seen the form.
    BindSeen,
    /// A handle of 254 parameters, on a table of its own. A drop each made the last 60.
    Drops60,
    /// The same, all calls in one machine.
    RunThreeNamesKept,
    /// A call of a tree of weight 256, which calls its leaf 128 times.
    Tree256,
    /// The same, all calls in one machine.
    Tree256Kept,
    /// A form more on one table.
    NewForm,
    /// A pass that knows 1,000 forms split in two, and the two joined.
    SplitJoined,
    /// A call on a text of 4,096 characters, which goes through 60 filters.
    LongText,
    /// The same, all calls in one machine.
    LongTextKept,
    /// A call on a text of one character, which goes through 60 filters.
    ShortText,
    /// A call that joins texts.
    Concat(concats::Row),
    /// A call of a loop or of a branch, all calls in one machine.
    Branch(Branch),
}

/// What is called of the roots that choose or repeat.
#[derive(Clone, Copy)]
pub(crate) enum Branch {
    /// 64 turns over a leaf.
    Loop64,
    /// The first of 16 cases.
    FirstCase,
    /// The last of them.
    LastCase,
    /// The target of a guard.
    Guard,
}

/// The cases of a switch.
static CASES: [LeafId; 16] = [ADD; 16];

/// The first argument goes through the leaf `same`.
const FILTERED: Step = Step::Joined(SAME, Joined::Filter(0));

/// An int is taken first, and dropped.
const DROPPED: Step = Step::Typed("(I)V", Typed::Drop(0));

const THREE_NAMES: [Step; 3] = [
    Step::Bind(0, "I:5"),
    FILTERED,
    Step::Typed("(I)J", Typed::AsType),
];

const TREE: [Step; 8] = [
    Step::Doubled,
    Step::Doubled,
    Step::Doubled,
    Step::Doubled,
    Step::Doubled,
    Step::Doubled,
    Step::Doubled,
    DROPPED,
];

/// A descriptor of 193 ints.
const INTS_193: &str = "(\
    IIIIIIIIIIIIIIIIIIIIIIIIIIIIIIIIIIIIIIIIIIIIIIIIIIIIIIIIIIIIIIII\
    IIIIIIIIIIIIIIIIIIIIIIIIIIIIIIIIIIIIIIIIIIIIIIIIIIIIIIIIIIIIIIII\
    IIIIIIIIIIIIIIIIIIIIIIIIIIIIIIIIIIIIIIIIIIIIIIIIIIIIIIIIIIIIIIII\
    I)V";

/// Arguments of a call.
#[derive(Clone, Copy)]
pub(crate) enum Args {
    Ints(&'static [i32]),
    /// This many texts, each of this many characters, in memory of its own.
    Texts(usize, usize),
}

/// The machines that calls use.
#[derive(Clone, Copy)]
pub(crate) enum Machines {
    /// Each call has a new one.
    New,
    /// All calls have one.
    Kept,
}

/// How a handle is called: with these arguments, and in these machines.
#[derive(Clone, Copy)]
pub(crate) struct Call {
    pub(crate) args: Args,
    pub(crate) machines: Machines,
}

/// What is called: a root with the steps that adapt it, and how.
#[derive(Clone, Copy)]
pub(crate) struct Subject<'a> {
    pub(crate) root: Root,
    pub(crate) steps: &'a [Step],
    pub(crate) call: Call,
}

/// Ints as arguments.
fn int_args(alloc: Global, numbers: &[i32]) -> Result<Items, NoMemory> {
    let mut args = Seq::new(alloc);
    for number in numbers {
        args.push(Value::Prim(Num::I(*number)))?;
    }
    Ok(args)
}

/// A text of this many characters.
fn text_of(alloc: Global, length: usize) -> Result<Value, NoMemory> {
    let mut characters = Seq::new(alloc);
    for _ in 0..length {
        characters.push('x')?;
    }
    Ok(Value::Text(Frozen::of(alloc, characters)?))
}

/// This many texts as arguments, each of this many characters.
fn text_args(alloc: Global, count: usize, length: usize) -> Result<Items, NoMemory> {
    let mut args = Seq::new(alloc);
    for _ in 0..count {
        args.push(text_of(alloc, length)?)?;
    }
    Ok(args)
}

fn items_of(alloc: Global, args: Args) -> Result<Items, NoMemory> {
    match args {
        Args::Ints(numbers) => int_args(alloc, numbers),
        Args::Texts(count, length) => text_args(alloc, count, length),
    }
}

/// Calls a handle, and counts the leaf calls.
fn run_once<'t>(
    alloc: Global,
    handle: &Handle<'t>,
    leaves: &Leaves,
    args: &Items,
) -> Result<u64, NoMemory>
    requires typed { HaveTypes leaves.now.classes args.now handle.now.ty.params }
    requires stands { StandsForSome leaves.now handle.now }
{
    let answer = invoke_exact(alloc, handle, leaves, handle.ty(), args, 0)?;
    Ok(answer.calls().len() as u64)
}

/// Calls a handle this many times, and counts the leaf calls.
fn run_each<'t>(
    alloc: Global,
    handle: &Handle<'t>,
    leaves: &Leaves,
    args: &Items,
    turns: u32,
) -> Result<u64, NoMemory>
    requires typed { HaveTypes leaves.now.classes args.now handle.now.ty.params }
    requires stands { StandsForSome leaves.now handle.now }
{
    let mut calls: u64 = 0;
    for _ in 0..turns {
        calls = calls.wrapping_add(run_once(alloc, handle, leaves, args)?);
    }
    Ok(calls)
}

/// How many characters a call returned: 0 if it did not return a text.
fn characters_of(outcome: &Outcome) -> u64 {
    match outcome {
        Outcome::Return(Some(Value::Text(text))) => text.len() as u64,
        _ => 0,
    }
}

/// Calls a handle this many times in one machine, and counts the leaf calls and the characters of
/// the texts that it returned.
fn run_kept<'t>(
    alloc: Global,
    handle: &Handle<'t>,
    leaves: &Leaves,
    args: &Items,
    turns: u32,
) -> Result<u64, NoMemory>
    requires typed { HaveTypes leaves.now.classes args.now handle.now.ty.params }
    requires stands { StandsForSome leaves.now handle.now }
{
    let mut machine = Machine::new(alloc);
    let mut sum: u64 = 0;
    for _ in 0..turns {
        let ended = invoke_exact_on(&mut machine, handle, leaves, handle.ty(), args, 0)?;
        sum = sum.wrapping_add(machine.calls().len() as u64);
        sum = sum.wrapping_add(characters_of(&ended.outcome));
    }
    Ok(sum)
}

/// Asks this many times for the form of a handle with its first parameter bound.
fn edit_each<'t, R: Wait>(
    w: &mut Work<'_, 't>,
    rt: &R,
    handle: &Handle<'t>,
    turns: u32,
) -> Result<u64, HandleError>
    requires ready { IsReady w.old turns }
    ensures types { w.new.types ≡ w.old.types }
    ensures seat { w.new.seat.now ≡ w.old.seat.now }
{
    if handle.ty().params.is_empty() {
        return Ok(0);
    }
    let mut sum: u64 = 0;
    for turn in 0..turns {
        let form = w.edit(rt, handle.form(), Key::Bind { pos: 0 })?;
        sum = sum.wrapping_add(form.number());
    }
    Ok(sum)
}

/// Binds the first parameter of this many copies of a handle.
fn bind_each<'t, R: Wait>(
    w: &mut Work<'_, 't>,
    rt: &R,
    handle: &Handle<'t>,
    turns: u32,
) -> Result<u64, HandleError>
    requires ready { IsReady w.old (1 + turns) }
    requires held { HoldsTypes w.old handle.now.held }
    ensures of_types { w.new.seat.now.table ≡ w.new.types.now }
    ensures types { ExchangesAny [] [] w.old.seat.now w.new.seat.now }
{
    let mut sum: u64 = 0;
    for turn in 0..turns {
        let copy = handle.copy(w)?;
        let bound = bind(w, rt, copy, 0, Value::Boxed(Num::I(1)))?;
        sum = sum.wrapping_add(bound.form().number());
        bound.give_back(w);
    }
    Ok(sum)
}

/// Calls a handle this many times.
pub(crate) fn called<'t>(
    alloc: Global,
    handle: &Handle<'t>,
    leaves: &Leaves,
    call: Call,
    turns: u32,
) -> Result<u64, Broken>
    requires stands { StandsForSome leaves.now handle.now }
{
    let args = items_of(alloc, call.args)?;
    if !are_typed(
        args.as_slice(),
        handle.ty().params.as_slice(),
        leaves.classes(),
    ) {
        return Err(Broken::Fixture("arguments of other types than the parameters"));
    }
    match call.machines {
        Machines::New => Ok(run_each(alloc, handle, leaves, &args, turns)?),
        Machines::Kept => Ok(run_kept(alloc, handle, leaves, &args, turns)?),
    }
}

/// Makes a handle, and calls it this many times.
pub(crate) fn calls<'t, R: Wait>(
    w: &mut Work<'_, 't>,
    rt: &R,
    subject: Subject<'_>,
    turns: u32,
) -> Result<u64, Broken>
    requires ready { IsReady w.old 219 }
    requires few { length subject.steps.now ≤ 100 }
{
    let leaves = w.leaves;
    check(w.alloc, leaves, subject.root, subject.steps)?;
    let handle = made(w, rt, subject.root, subject.steps)?;
    let sum = called(w.alloc, &handle, leaves, subject.call, turns);
    handle.give_back(w);
    Ok(sum?)
}

/// Makes a handle, and asks this many times for its form with the first parameter bound.
fn edits<'t, R: Wait>(w: &mut Work<'_, 't>, rt: &R, turns: u32) -> Result<u64, Broken>
    requires ready { IsReady w.old (219 + turns) }
{
    check(w.alloc, w.leaves, Root::Leaf(ADD), &[FILTERED])?;
    let handle = made(w, rt, Root::Leaf(ADD), &[FILTERED])?;
    let sum = edit_each(w, rt, &handle, turns);
    handle.give_back(w);
    Ok(sum?)
}

/// Makes a handle, and binds this many copies of it.
fn binds<'t, R: Wait>(w: &mut Work<'_, 't>, rt: &R, turns: u32) -> Result<u64, Broken>
    requires ready { IsReady w.old (220 + turns) }
{
    check(w.alloc, w.leaves, Root::Leaf(ADD), &[FILTERED])?;
    let handle = made(w, rt, Root::Leaf(ADD), &[FILTERED])?;
    let sum = bind_each(w, rt, &handle, turns);
    handle.give_back(w);
    Ok(sum?)
}

/// A drop of 193 ints, and 60 drops of one.
fn drops() -> [Step; 61]
    ensures { length result ≤ 100 }
{
    let mut steps = [DROPPED; 61];
    steps[0] = Step::Typed(INTS_193, Typed::Drop(0));
    steps
}

/// Makes a handle of 254 parameters.
fn many_drops<'t, R: Wait>(w: &mut Work<'_, 't>, rt: &R) -> Result<u64, Broken>
    requires ready { IsReady w.old 219 }
{
    check(w.alloc, w.leaves, Root::Leaf(SAME), &drops())?;
    let handle = made(w, rt, Root::Leaf(SAME), &drops())?;
    let number = handle.form().number();
    handle.give_back(w);
    Ok(number)
}

/// Sixty filters of a text.
fn text_filters() -> [Step; 60]
    ensures { length result ≤ 100 }
{
    [Step::Joined(TEXT, Joined::Filter(0)); 60]
}

/// Calls a handle this many times on a text, which goes through 60 filters.
fn texts<'t, R: Wait>(
    w: &mut Work<'_, 't>,
    rt: &R,
    length: usize,
    machines: Machines,
    turns: u32,
) -> Result<u64, Broken>
    requires ready { IsReady w.old 219 }
{
    let subject = Subject {
        root: Root::Leaf(TEXT),
        steps: &text_filters(),
        call: Call {
            args: Args::Texts(1, length),
            machines,
        },
    };
    calls(w, rt, subject, turns)
}

/// Calls a handle of ints this many times.
fn three_names<'t, R: Wait>(
    w: &mut Work<'_, 't>,
    rt: &R,
    machines: Machines,
    turns: u32,
) -> Result<u64, Broken>
    requires ready { IsReady w.old 219 }
{
    let subject = Subject {
        root: Root::Leaf(ADD),
        steps: &THREE_NAMES,
        call: Call {
            args: Args::Ints(&[7]),
            machines,
        },
    };
    calls(w, rt, subject, turns)
}

/// Calls a tree of weight 256 this many times.
fn tree<'t, R: Wait>(
    w: &mut Work<'_, 't>,
    rt: &R,
    machines: Machines,
    turns: u32,
) -> Result<u64, Broken>
    requires ready { IsReady w.old 219 }
{
    let subject = Subject {
        root: Root::Leaf(SAME),
        steps: &TREE,
        call: Call {
            args: Args::Ints(&[1, 2]),
            machines,
        },
    };
    calls(w, rt, subject, turns)
}

impl Branch {
    fn root(self) -> Root {
        match self {
            Branch::Loop64 => Root::Counted("I:64", ADD),
            Branch::FirstCase | Branch::LastCase => Root::Switch(ADD, &CASES),
            Branch::Guard => Root::Guard(LESS, ADD, SUB),
        }
    }

    fn args(self) -> Args {
        match self {
            Branch::Loop64 => Args::Ints(&[]),
            Branch::FirstCase | Branch::Guard => Args::Ints(&[0, 5]),
            Branch::LastCase => Args::Ints(&[15, 5]),
        }
    }
}

/// Calls such a root this many times.
fn branches<'t, R: Wait>(
    w: &mut Work<'_, 't>,
    rt: &R,
    branch: Branch,
    turns: u32,
) -> Result<u64, Broken>
    requires ready { IsReady w.old 219 }
{
    let subject = Subject {
        root: branch.root(),
        steps: &[],
        call: Call {
            args: branch.args(),
            machines: Machines::Kept,
        },
    };
    calls(w, rt, subject, turns)
}

/// The work of a row, this many times, on one table.
fn row_on<'t, R: Wait>(w: &mut Work<'_, 't>, rt: &R, row: Row, turns: u32) -> Result<u64, Broken>
    requires ready { IsReady w.old (2 ^ 33) }
{
    match row {
        Row::RunThreeNames => three_names(w, rt, Machines::New, turns),
        Row::RunThreeNamesKept => three_names(w, rt, Machines::Kept, turns),
        Row::EditSeen => edits(w, rt, turns),
        Row::BindSeen => binds(w, rt, turns),
        Row::Drops60 => many_drops(w, rt),
        Row::Tree256 => tree(w, rt, Machines::New, turns),
        Row::Tree256Kept => tree(w, rt, Machines::Kept, turns),
        Row::NewForm => Ok(forms(w, rt, turns)?),
        Row::SplitJoined => Ok(splits(w, rt, turns)?),
        Row::LongText => texts(w, rt, 4096, Machines::New, turns),
        Row::LongTextKept => texts(w, rt, 4096, Machines::Kept, turns),
        Row::ShortText => texts(w, rt, 1, Machines::New, turns),
        Row::Concat(row) => concats::measured(w, rt, row, turns),
        Row::Branch(branch) => branches(w, rt, branch, turns),
    }
}

/// The work of a row, this many times, by the first pass over a table.
fn first_on<R: Wait>(
    rt: &R,
    start: Start<'_>,
    held: &mut TypeSeat,
    row: Row,
    turns: u32,
) -> Result<u64, Broken>
    requires first { start.seat ≡ seat_at start.table.now 0 }
    requires held { held.old ≡ new_seat start.types.now limit }
{
    let Start {
        alloc,
        table,
        seat,
        types,
        leaves,
    } = start;
    let mut pass = table.first_pass(alloc, seat)?;
    let mut w = Work {
        alloc,
        types,
        seat: held,
        forms: table,
        pass: &mut pass,
        leaves,
    };
    let done = row_on(&mut w, rt, row, turns);
    let Work {
        alloc: _,
        types: _,
        seat: _,
        forms: _,
        pass: _,
        leaves: _,
    } = w;
    done
}

/// The work of a row, this many times, on a table of its own.
fn once<R: Wait>(
    rt: &R,
    alloc: Global,
    leaves: &Leaves,
    row: Row,
    turns: u32,
) -> Result<u64, Broken> {
    let (types, mut held) = TypeTable::new(alloc)?;
    let (table, seat) = FormTable::new(alloc)?;
    let start = Start {
        alloc,
        table: &table,
        seat,
        types: &types,
        leaves,
    };
    first_on(rt, start, &mut held, row, turns)
}

/// The leaves of a row.
fn leaves_of(alloc: Global, row: Row) -> Result<Leaves, ManifestError> {
    let manifest = match row {
        Row::Concat(_) => concats::MANIFEST,
        _ => MANIFEST,
    };
    read_manifest(alloc, manifest)
}

/// The work of a row, this many times. The answer depends on all of it.
pub(crate) fn measured<R: Wait>(
    rt: &R,
    alloc: Global,
    row: Row,
    turns: u32,
) -> Result<u64, Broken> {
    let leaves = leaves_of(alloc, row)?;
    if !matches!(row, Row::Drops60) {
        return once(rt, alloc, &leaves, row, turns);
    }
    let mut sum: u64 = 0;
    for _ in 0..turns {
        sum = sum.wrapping_add(once(rt, alloc, &leaves, row, 1)?);
    }
    Ok(sum)
}
