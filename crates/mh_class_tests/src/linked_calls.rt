//! Call sites that a script links, and what comes of a call, as texts.

ghost use Rattle.std.specs.Prelude.{◌≡◌, ◌≤◌, ◌^◌, [], slice_get, Some, IfOk, IsTrue};
ghost use Rattle.mh_seats.specs.Room.{limit};
ghost use Rattle.mh_intern.specs.Views.{new_seat};
ghost use Rattle.mh_handle.specs.Passes.{seat_at};
ghost use Rattle.mh_handle.specs.Works.{GoesOn, IsReady, leaves_of};
ghost use Rattle.mh_jobs.specs.Given.{IsJob};
ghost use Rattle.mh_condy.specs.Nodes.{unresolved};
ghost use Rattle.mh_attempt.specs.Asked.{attempt_draws};
ghost use Rattle.mh_attempt.specs.Constants.{HasPlaces};
ghost use Rattle.mh_steps.specs.AnyTypes.{ExchangesAny};
ghost use Rattle.mh_class_tests.specs.Alone.{alone};

use crate::linked_files::{Constants, LINKED, Site, class_file};
use crate::untried::Untried;
use mh_attempt::{ConstantsOf, Linkage, Linked, WorkError, attempt};
use mh_base::NoMemory;
use mh_classfile::read;
use mh_condy::{ConstPass, ConstTable};
use mh_handle::{Answer, FormTable, Work};
use mh_intern::{TypeSeat, TypeTable};
use mh_jobs::{ConstJobs, Job, Run, job_of};
use mh_leaves::{Leaves, read_manifest};
use mh_script::{ScriptError, Scripts, read_scripts};
use mh_steps::{Broken, MANIFEST, Start, items_of};
use mh_texts::{show_exc, show_value};
use mh_values::{Classes, Exc, Items, Outcome, are_typed};
use std::alloc::Global;
use std::marker::Brand;
use std::sync::Wait;
use std::test::Fail;

/// A call site, the lines of the script that links it, the arguments of a call, and what is
/// expected. That is how the call ends, with the leaves that it calls and the number of keys of the
/// form that runs; or the error that is recorded.
#[derive(Clone, Copy)]
pub(crate) struct Case {
    pub name: &'static str,
    pub ty: &'static str,
    pub lines: &'static str,
    pub arguments: &'static [&'static str],
    pub wanted: &'static str,
}

/// The static argument of the site, and the number of the attempt.
#[derive(Clone, Copy)]
pub(crate) struct Attempt {
    pub argument: Constants,
    pub serial: u64,
}

/// The number of an attempt, and the arguments of a call of what it links.
#[derive(Clone, Copy)]
struct Turn<'a> {
    serial: u64,
    args: &'a Items,
}

/// What comes of an attempt, and how many types are held once its linkage was given back.
#[derive(Drop)]
struct Came {
    text: Vec<u8>,
    types: u32,
}

/// The script `made/Boot.link` of these lines.
fn scripts_of(alloc: Global, lines: &str) -> Result<Scripts, ScriptError> {
    let file = format!(in alloc; "script made/Boot link ()V\n{lines}\nend\n")?;
    read_scripts(alloc, file.as_bytes())
}

/// Looks for what [`job_for`] would answer as lack of memory though there is some.
fn check_site(alloc: Global, site: Site) -> Result<(), Untried> {
    let file = class_file(alloc, site)?;
    let view = read(alloc, &file, 1)?;
    if view.sites() == 0 {
        return Err(Untried::Broken(Broken::Fixture("a class file without a site")));
    }
    if view.dynamics() != 0 {
        return Err(Untried::Broken(Broken::Fixture("a class file with a Dynamic entry")));
    }
    Ok(())
}

/// The job of a site that was checked.
fn job_for(alloc: Global, leaves: &Leaves, scripts: &Scripts, site: Site) -> Result<Job, NoMemory>
    ensures job { IfOk result (λ job. IsJob leaves.now scripts.now job) }
    ensures site { IfOk result (λ job. job.site ≡ 0) }
    ensures places { IfOk result (λ job. HasPlaces (alone leaves.now scripts.now job) job) }
{
    let file = class_file(alloc, site)?;
    let Ok(view) = read(alloc, &file, 1) else {
        return Err(NoMemory);
    };
    if view.sites() == 0 || view.dynamics() != 0 {
        return Err(NoMemory);
    }
    job_of(alloc, &view, 0, 0, 0, scripts, leaves)
}

/// A word before an exception.
fn exc_text(alloc: Global, word: &[u8], exc: &Exc, classes: &Classes) -> Result<Vec<u8>, NoMemory> {
    let shown = show_exc(alloc, exc, classes)?;
    let mut text = Vec::from_slice(alloc, word)?;
    text.extend_from_slice(&shown)?;
    Ok(text)
}

fn outcome_text(alloc: Global, outcome: &Outcome, classes: &Classes) -> Result<Vec<u8>, NoMemory> {
    match outcome {
        Outcome::Return(None) => Ok(Vec::from_slice(alloc, b"void")?),
        Outcome::Return(Some(value)) => show_value(alloc, value, classes),
        Outcome::Throw(exc) => exc_text(alloc, b"throws ", exc, classes),
    }
}

fn push_number(alloc: Global, text: &mut Vec<u8>, number: u32) -> Result<(), NoMemory> {
    let number = format!(in alloc; " {number}")?;
    text.extend_from_slice(number.as_bytes())?;
    Ok(())
}

fn answer_text(alloc: Global, answer: &Answer, classes: &Classes) -> Result<Vec<u8>, NoMemory> {
    let mut text = outcome_text(alloc, answer.outcome(), classes)?;
    text.extend_from_slice(b" calls")?;
    let calls = answer.calls();
    for at in 0..calls.len() {
        push_number(alloc, &mut text, calls.leaf(at).0)?;
    }
    text.extend_from_slice(b" keys")?;
    push_number(alloc, &mut text, answer.keys())?;
    Ok(text)
}

/// How a call of a linked site ends, or why it cannot be made.
fn call_text<J: Run>(
    alloc: Global,
    linkage: &Linkage<'_, J>,
    leaves: &Leaves,
    args: &Items,
) -> Result<Vec<u8>, NoMemory>
    requires { leaves.now ≡ J.given.leaves }
{
    let Some(ty) = linkage.job().ty() else {
        return Ok(Vec::from_slice(alloc, b"a site without a type")?);
    };
    if !are_typed(args.as_slice(), ty.params.as_slice(), leaves.classes()) {
        return Ok(Vec::from_slice(alloc, b"arguments of other types than the site's")?);
    }
    let answer = linkage.call(alloc, leaves, args)?;
    answer_text(alloc, &answer, leaves.classes())
}

/// The error that is recorded, or how a call of the target ends.
fn linkage_text<J: Run>(
    alloc: Global,
    linkage: &Linkage<'_, J>,
    leaves: &Leaves,
    args: &Items,
) -> Result<Vec<u8>, NoMemory>
    requires { leaves.now ≡ J.given.leaves }
{
    match linkage.linked() {
        Linked::Target(_) => call_text(alloc, linkage, leaves, args),
        Linked::Error(exc) => exc_text(alloc, b"error ", exc, leaves.classes()),
    }
}

/// Whether an attempt may have this number.
fn is_serial(serial: u64) -> bool
    ensures { IsTrue result → (1 ≤ serial) × (serial ≤ 2 ^ 62) }
{
    1 <= serial && serial <= 1 << 62
}

/// What comes of an attempt for a job of the run that `J` names. The linkage is given back.
fn attempt_text<'s, 't, J: Run, R: Wait>(
    w: &mut Work<'_, 't>,
    rt: &R,
    constants: &'s ConstTable<'t, ConstantsOf<J>>,
    asked: &mut ConstPass<'s, 't, ConstantsOf<J>>,
    scripts: &Scripts,
    job: &'t Job,
    turn: Turn<'_>,
) -> Result<Vec<u8>, WorkError>
    requires named { slice_get J.given.jobs job.now.site ≡ Some job.now }
    requires scripts { scripts.now ≡ J.given.scripts }
    requires leaves { leaves_of w.old ≡ J.given.leaves }
    requires job { IsJob J.given.leaves J.given.scripts job.now }
    requires places { HasPlaces J.given job.now }
    requires pass { asked.old.table ≡ constants.now }
    requires room { unresolved asked.old.known ≤ asked.old.seat.room }
    requires ready { IsReady w.old attempt_draws }
    ensures goes_on { GoesOn attempt_draws w.old w.new }
    ensures types { ExchangesAny [] [] w.old.seat.now w.new.seat.now }
{
    if !is_serial(turn.serial) {
        return Err(WorkError::NoMemory);
    }
    let leaves = w.leaves;
    let linkage = attempt::<J, R>(w, rt, constants, asked, scripts, job, turn.serial)?;
    let text = linkage_text(w.alloc, &linkage, leaves, turn.args);
    linkage.give_back(w);
    Ok(text?)
}

/// The same on tables of its own, in a run that has no dynamic constants.
fn named_text<'t, J: Run, R: Wait>(
    rt: &R,
    start: Start<'t>,
    held: &mut TypeSeat,
    scripts: &'t Scripts,
    job: &'t Job,
    turn: Turn<'_>,
) -> Result<Vec<u8>, WorkError>
    requires named { slice_get J.given.jobs job.now.site ≡ Some job.now }
    requires scripts { scripts.now ≡ J.given.scripts }
    requires leaves { start.leaves.now ≡ J.given.leaves }
    requires job { IsJob J.given.leaves J.given.scripts job.now }
    requires places { HasPlaces J.given job.now }
    requires constants { J.given.constants ≡ [] }
    requires first { start.seat ≡ seat_at start.table.now 0 }
    requires held { held.old ≡ new_seat start.types.now limit }
    ensures types { ExchangesAny [] [] held.old held.new }
{
    let Start {
        alloc,
        table,
        seat,
        types,
        leaves,
    } = start;
    let none = ConstJobs::new(alloc);
    let (constants, asked) = ConstTable::<ConstantsOf<J>>::new(alloc, &none, scripts, leaves)?;
    let mut asked = constants.first_pass(asked)?;
    let mut pass = table.first_pass(alloc, seat)?;
    let mut w = Work {
        alloc,
        types,
        seat: held,
        forms: table,
        pass: &mut pass,
        leaves,
    };
    let text = attempt_text::<J, R>(&mut w, rt, &constants, &mut asked, scripts, job, turn);
    let Work {
        alloc: _,
        types: _,
        seat: _,
        forms: _,
        pass: _,
        leaves: _,
    } = w;
    text
}

/// What comes of a job that is the only one of its run.
fn job_text<'t, R: Wait>(
    rt: &R,
    start: Start<'t>,
    held: &mut TypeSeat,
    scripts: &'t Scripts,
    job: &'t Job,
    turn: Turn<'_>,
) -> Result<Vec<u8>, WorkError>
    requires job { IsJob start.leaves.now scripts.now job.now }
    requires places { HasPlaces (alone start.leaves.now scripts.now job.now) job.now }
    requires site { job.now.site ≡ 0 }
    requires first { start.seat ≡ seat_at start.table.now 0 }
    requires held { held.old ≡ new_seat start.types.now limit }
    ensures types { ExchangesAny [] [] held.old held.new }
{
    named_text::<Brand, R>(rt, start, held, scripts, job, turn)
}

/// What comes of a case.
fn came_of<R: Wait>(
    rt: &R,
    alloc: Global,
    leaves: &Leaves,
    attempt: Attempt,
    case: &Case,
) -> Result<Came, Untried> {
    let site = Site {
        ty: case.ty,
        argument: attempt.argument,
        ..LINKED
    };
    if !is_serial(attempt.serial) {
        return Err(Untried::Broken(Broken::Fixture("a number that no attempt has")));
    }
    let args = items_of(alloc, case.arguments, leaves.classes())?;
    let turn = Turn {
        serial: attempt.serial,
        args: &args,
    };
    let scripts = scripts_of(alloc, case.lines)?;
    check_site(alloc, site)?;
    let job = job_for(alloc, leaves, &scripts, site)?;
    let (types, mut held) = TypeTable::new(alloc)?;
    let (table, seat) = FormTable::new(alloc)?;
    let start = Start {
        alloc,
        table: &table,
        seat,
        types: &types,
        leaves,
    };
    let text = job_text(rt, start, &mut held, &scripts, &job, turn)?;
    Ok(Came {
        text,
        types: types.close(held),
    })
}

/// A case that does not end as is wanted, or after which types are still held: its name, how it
/// ended, and how many types are held.
#[derive(Drop)]
pub(crate) struct Differs {
    name: &'static str,
    came: Vec<u8>,
    types: u32,
}

impl Differs {
    pub(crate) fn told(&self) -> Fail {
        let (name, types) = (self.name, self.types);
        let came = str::from_utf8(&self.came).unwrap_or("?");
        Fail::new(format_args!("{name}: {came}; types held: {types}"))
    }
}

/// The first such case.
pub(crate) fn first_failing<R: Wait>(
    rt: &R,
    alloc: Global,
    attempt: Attempt,
    cases: &[Case],
) -> Result<Option<Differs>, Untried> {
    let leaves = read_manifest(alloc, MANIFEST)?;
    for case in cases {
        let came = came_of(rt, alloc, &leaves, attempt, case)?;
        if came.text.as_slice() != case.wanted.as_bytes() || came.types != 0 {
            return Ok(Some(Differs {
                name: case.name,
                came: came.text,
                types: came.types,
            }));
        }
    }
    Ok(None)
}
