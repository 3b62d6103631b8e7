//! Texts that are joined, by concatenations and by leaves.

ghost use Rattle.std.specs.Prelude.{◌≡◌, ◌≤◌, ◌^◌, [], length, IfOk, Ok};
ghost use Rattle.mh_tree.specs.Rows.{concat_row};
ghost use Rattle.mh_handle.specs.Stands.{StandsForSome};
ghost use Rattle.mh_handle.specs.Works.{GoesOn, IsReady, leaves_of};
ghost use Rattle.mh_steps.specs.AnyTypes.{TradesAny};

use crate::rows::{Args, Call, Machines, Subject, called, calls};
use mh_base::{Frozen, NoMemory, Seq};
use mh_concat::{concat, read_recipe};
use mh_form::Pieces;
use mh_handle::{Handle, HandleError, Work};
use mh_steps::{Broken, Joined, Root, Step};
use mh_values::{ClassId, Classes, LeafId, MethodTy, Str, Ty};
use std::alloc::Global;
use std::sync::Wait;

/// What is measured, all calls in one machine.
#[derive(Clone, Copy)]
pub(crate) enum Row {
    /// A concatenation of this many texts of 4 characters.
    Pieces(usize),
    /// A concatenation of 200 texts of 4,096 characters, which is refused.
    TooLong,
    /// Two texts of 4 characters, which a leaf joins.
    TwoByLeaves,
    /// Ten of these texts, joined by a leaf two by two.
    TenByLeaves,
    /// A hundred of these texts, joined by a leaf two by two.
    HundredByLeaves,
}

/// The leaf of these rows, which joins two texts.
pub(crate) const MANIFEST: &[u8] = b"class demo/Host java/lang/Object
static demo/Host join (Ljava/lang/String;Ljava/lang/String;)Ljava/lang/String; concat
";

const JOIN: LeafId = LeafId(0);

/// The first two texts are joined first.
const JOINED: Step = Step::Joined(JOIN, Joined::Collect(0));

/// In a recipe, the next argument.
const ARGUMENT: char = '\u{1}';

const STRING: Ty = Ty::Class(ClassId::STRING);

/// The type of a call that joins this many texts.
fn texts_type(alloc: Global, count: usize) -> Result<MethodTy, NoMemory> {
    let mut params = Seq::new(alloc);
    for _ in 0..count {
        params.push(STRING)?;
    }
    Ok(MethodTy {
        params,
        ret: Some(STRING),
    })
}

/// The recipe of this many arguments.
fn recipe_of(alloc: Global, count: usize) -> Result<Str, NoMemory> {
    let mut characters = Seq::new(alloc);
    for _ in 0..count {
        characters.push(ARGUMENT)?;
    }
    Frozen::of(alloc, characters)
}

/// The pieces that are the parameters of a type. If no concatenation has the type, the answer is
/// lack of memory.
fn pieces_of(alloc: Global, ty: &MethodTy, classes: &Classes) -> Result<Pieces, NoMemory>
    ensures { IfOk result (λ pieces. concat_row classes.now ty.now pieces ≡ Ok ty.now) }
{
    let recipe = recipe_of(alloc, ty.params.len())?;
    let constants = Seq::new(alloc);
    match read_recipe(alloc, &recipe, &constants, ty, classes) {
        Ok(pieces) => Ok(pieces),
        Err(_) => Err(NoMemory),
    }
}

/// A handle that joins this many texts.
fn joining<'t, R: Wait>(
    w: &mut Work<'_, 't>,
    rt: &R,
    count: usize,
) -> Result<Handle<'t>, HandleError>
    requires ready { IsReady w.old 1 }
    ensures goes_on { GoesOn 1 w.old w.new }
    ensures types { TradesAny [] w.old w.new result }
    ensures stands { IfOk result (StandsForSome (leaves_of w.old)) }
{
    let ty = texts_type(w.alloc, count)?;
    let pieces = pieces_of(w.alloc, &ty, w.classes())?;
    concat(w, rt, &ty, &pieces)
}

/// A call on this many texts, each of this many characters.
fn call_on(count: usize, length: usize) -> Call {
    Call {
        args: Args::Texts(count, length),
        machines: Machines::Kept,
    }
}

/// Joins this many texts, each of this many characters, this many times.
fn joins<'t, R: Wait>(
    w: &mut Work<'_, 't>,
    rt: &R,
    count: usize,
    length: usize,
    turns: u32,
) -> Result<u64, Broken>
    requires ready { IsReady w.old 1 }
{
    let leaves = w.leaves;
    let handle = joining(w, rt, count)?;
    let sum = called(w.alloc, &handle, leaves, call_on(count, length), turns);
    handle.give_back(w);
    Ok(sum?)
}

/// Joins this many texts of 4 characters by a leaf, this many times: each step joins two of them
/// before.
fn by_leaves<'t, R: Wait>(
    w: &mut Work<'_, 't>,
    rt: &R,
    steps: &[Step],
    count: usize,
    turns: u32,
) -> Result<u64, Broken>
    requires ready { IsReady w.old 219 }
    requires few { length steps.now ≤ 100 }
{
    let subject = Subject {
        root: Root::Leaf(JOIN),
        steps,
        call: call_on(count, 4),
    };
    calls(w, rt, subject, turns)
}

/// The work of a row, this many times, on one table.
pub(crate) fn measured<'t, R: Wait>(
    w: &mut Work<'_, 't>,
    rt: &R,
    row: Row,
    turns: u32,
) -> Result<u64, Broken>
    requires ready { IsReady w.old (2 ^ 33) }
{
    match row {
        Row::Pieces(count) => joins(w, rt, count, 4, turns),
        Row::TooLong => joins(w, rt, 200, 4_096, turns),
        Row::TwoByLeaves => by_leaves(w, rt, &[], 2, turns),
        Row::TenByLeaves => by_leaves(w, rt, &[JOINED; 8], 10, turns),
        Row::HundredByLeaves => by_leaves(w, rt, &[JOINED; 98], 100, turns),
    }
}
