//! Attempts to link call sites.

ghost use Rattle.std.specs.Prelude.{◌≡◌, ◌+◌, ◌≤◌, ◌<◌, ◌^◌, length, slice_get, Some, IfOk, OnOk};
ghost use Rattle.mh_handle.specs.Recipe.{recipe};
ghost use Rattle.mh_handle.specs.Works.{GoesOn, IsReady, leaves_of};
ghost use Rattle.mh_jobs.specs.Given.{IsJob};
ghost use Rattle.mh_jobs.specs.Thrown.{caused, recorded};
ghost use Rattle.mh_script.specs.Limits.{CanRun};
ghost use Rattle.mh_link.specs.Linked.{IsThere, at_start, held_by, linked, outcome, ran, target_of};
ghost use Rattle.mh_link.specs.Sites.{edits_at, types_at};
ghost use Rattle.mh_attempt.specs.Asked.{Asks, AsksOrThrows, attempt_draws};
ghost use Rattle.mh_attempt.specs.AskedTypes.{AsksTypes, AsksTypesOrThrows, job_types, script_types, target_types};
ghost use Rattle.mh_condy.specs.Nodes.{unresolved};
ghost use Rattle.mh_condy.specs.Resolving.{GoesOnResolving};
ghost use Rattle.mh_attempt.specs.Constants.{AsksConstants, AsksFirst, HasPlaces, call_in, given_in};
ghost use Rattle.mh_attempt.specs.Linkage.{AddsLinkage, AddsLinked, HasTypes, IsLinkedBy, held_in, target_recipes};
ghost use Rattle.mh_attempt.specs.Lines.{TellsTarget};
ghost use Rattle.mh_attempt.specs.Recipes.{attempt_recipes, script_recipes};
ghost use Rattle.mh_attempt.specs.Registers.{HasLeaves};
ghost use Rattle.mh_attempt.specs.Several.{AddsTypes};

use crate::call::{ask, call_of};
use crate::concatenation::make_concatenation;
use crate::constants::ConstantsOf;
use crate::error::WorkError;
use crate::linkage::{Linkage, Linked};
use crate::registers::Registers;
use crate::script::run_lines;
use mh_base::{Copied, Frozen, NoMemory, Seq};
use mh_condy::{ConstPass, ConstTable};
use mh_handle::{Handle, HandleError, Work};
use mh_jobs::{BootstrapCall, Job, Method, Run};
use mh_script::{Script, Scripts};
use mh_values::{Cause, ClassId, Classes, Exc, ExcParts};
use std::alloc::Global;
use std::sync::Wait;

/// An exception as the cause of a `BootstrapMethodError`.
fn caused(alloc: Global, exc: &Exc) -> Result<Exc, NoMemory>
    ensures { IfOk result (λ error. error ≡ caused exc.now) }
{
    let message = Seq::from_vec(Vec::from_slice(alloc, exc.message())?);
    let cause = Cause {
        class: exc.class(),
        message: Frozen::of(alloc, message)?,
    };
    let parts = ExcParts {
        class: ClassId::BOOTSTRAP_METHOD_ERROR,
        message: Frozen::new(),
        cause: Some(cause),
    };
    Exc::of(alloc, parts)
}

/// What is recorded if an exception is thrown: the exception itself if it is an `Error`, otherwise
/// a `BootstrapMethodError` with the exception as its cause.
fn recorded(alloc: Global, classes: &Classes, exc: Exc) -> Result<Exc, NoMemory>
    ensures { IfOk result (λ error. error ≡ recorded classes.now exc) }
{
    if classes.subclass(exc.class(), ClassId::ERROR) {
        Ok(exc)
    } else {
        caused(alloc, &exc)
    }
}

/// The target that a script returns, in the attempt with a serial number. At the end, what the
/// registers hold is given back.
fn run_script<'t, R: Wait>(
    w: &mut Work<'_, 't>,
    rt: &R,
    script: &Script,
    call: &BootstrapCall,
    serial: u64,
) -> Result<Handle<'t>, HandleError>
    requires ready { IsReady w.old attempt_draws }
    requires runs { CanRun script.now }
    requires leaves { HasLeaves (leaves_of w.old) call.now }
    requires serial { serial < 2 ^ 63 }
    ensures goes_on { GoesOn attempt_draws w.old w.new }
    ensures types { AddsTypes w.old w.new result }
    ensures target { TellsTarget
        (ran (leaves_of w.old) script.now.steps script.now.end (at_start call.now serial))
        w.old result }
    ensures asks { AsksOrThrows (script_recipes
        (leaves_of w.old) script.now.steps script.now.end (at_start call.now serial))
        w.old w.new result }
    ensures asked { AsksTypesOrThrows (script_types
        (leaves_of w.old) script.now.steps script.now.end (at_start call.now serial))
        w.old w.new result }
{
    let mut registers = Registers::new(w.alloc, call, serial);
    let target = run_lines(w, rt, &mut registers, script.steps.as_slice(), &script.end);
    registers.give_back(w);
    target
}

/// The target that a call of a bootstrap method returns, in the attempt with a serial number.
fn call_bootstrap<'t, R: Wait>(
    w: &mut Work<'_, 't>,
    rt: &R,
    scripts: &Scripts,
    call: &BootstrapCall,
    serial: u64,
) -> Result<Handle<'t>, HandleError>
    requires ready { IsReady w.old attempt_draws }
    requires method { IsThere scripts.now call.now.method }
    requires leaves { HasLeaves (leaves_of w.old) call.now }
    requires serial { serial < 2 ^ 63 }
    ensures goes_on { GoesOn attempt_draws w.old w.new }
    ensures types { AddsTypes w.old w.new result }
    ensures target { TellsTarget (target_of (leaves_of w.old) scripts.now serial call.now)
        w.old result }
    ensures asks { AsksOrThrows (target_recipes (leaves_of w.old) scripts.now serial call.now)
        w.old w.new result }
    ensures asked { AsksTypesOrThrows (target_types (leaves_of w.old) scripts.now serial call.now)
        w.old w.new result }
{
    match call.method {
        Method::Script(id) => run_script(w, rt, scripts.get(id), call, serial),
        Method::Concat => make_concatenation(w, rt, call),
    }
}

/// The target of a job, in the attempt with a serial number, where constants are what the pass has
/// learnt of them. If the job or one of its static arguments has an exception, it is thrown before
/// a script runs.
fn target<'t, J: Run, R: Wait>(
    w: &mut Work<'_, 't>,
    rt: &R,
    constants: &ConstPass<'_, 't, ConstantsOf<J>>,
    scripts: &Scripts,
    job: &Job,
    serial: u64,
) -> Result<Handle<'t>, HandleError>
    requires ready { IsReady w.old attempt_draws }
    requires job { IsJob (leaves_of w.old) scripts.now job.now }
    requires places { HasPlaces J.given job.now }
    requires serial { serial < 2 ^ 63 }
    ensures goes_on { GoesOn attempt_draws w.old w.new }
    ensures types { AddsTypes w.old w.new result }
    ensures target { TellsTarget
        (outcome (leaves_of w.old) scripts.now (call_in constants.now job.now) serial)
        w.old result }
    ensures asks { AsksOrThrows
        (attempt_recipes (leaves_of w.old) scripts.now (call_in constants.now job.now) serial)
        w.old w.new result }
    ensures asked { AsksTypesOrThrows
        (job_types (leaves_of w.old) scripts.now (call_in constants.now job.now) serial)
        w.old w.new result }
{
    let call = call_of(w.alloc, constants, job)?;
    call_bootstrap(w, rt, scripts, &call, serial)
}

/// What is linked for a job, in the attempt with a serial number, where constants are what the pass
/// has learnt of them.
fn link<'t, J: Run, R: Wait>(
    w: &mut Work<'_, 't>,
    rt: &R,
    constants: &ConstPass<'_, 't, ConstantsOf<J>>,
    scripts: &Scripts,
    job: &Job,
    serial: u64,
) -> Result<Linked<'t>, WorkError>
    requires ready { IsReady w.old attempt_draws }
    requires job { IsJob (leaves_of w.old) scripts.now job.now }
    requires places { HasPlaces J.given job.now }
    requires serial { serial < 2 ^ 63 }
    ensures goes_on { GoesOn attempt_draws w.old w.new }
    ensures types { AddsLinked w.old w.new result }
    ensures linked { IfOk result (λ made. IsLinkedBy (leaves_of w.old) made
        (linked (leaves_of w.old) scripts.now (call_in constants.now job.now) serial)) }
    ensures holds { IfOk result (λ made. HasTypes (held_in made) (held_by (leaves_of w.old)
        (linked (leaves_of w.old) scripts.now (call_in constants.now job.now) serial))) }
    ensures asks { Asks
        (attempt_recipes (leaves_of w.old) scripts.now (call_in constants.now job.now) serial)
        w.old w.new result }
    ensures asked { AsksTypes
        (job_types (leaves_of w.old) scripts.now (call_in constants.now job.now) serial)
        w.old w.new result }
{
    match target(w, rt, constants, scripts, job, serial) {
        Ok(target) => {
            // The target holds its type and those of its side parts.
            let _ty = target.ty();
            Ok(Linked::Target(target))
        }
        Err(HandleError::Refused(exc)) => {
            let error = recorded(w.alloc, w.classes(), exc)?;
            Ok(Linked::Error(error))
        }
        Err(HandleError::NoMemory) => Err(WorkError::NoMemory),
        Err(HandleError::FormsFull { drawn }) => Err(WorkError::FormsFull { drawn }),
        Err(HandleError::TypesFull { bucket }) => Err(WorkError::TypesFull { bucket }),
    }
}

/// Attempts to link the call site of a job, with a serial number that no other attempt of the run
/// has. It resolves the dynamic constants among the static arguments first, in order, up to the
/// first that is an error. Then it runs the script's lines and records how they end, an exception
/// as an error. It gives back the handles that the lines made, except the target.
///
/// It answers `FormsFull` if no number is left for a form that the script asks for. It answers
/// `TypesFull` if the bucket of a type is full of other types that are held. It then records
/// nothing. The pass over the constants must have room for as many serials as there are constants
/// that it has not learnt.
pub fn attempt<'s, 't, J: Run, R: Wait>(
    w: &mut Work<'_, 't>,
    rt: &R,
    constants: &'s ConstTable<'t, ConstantsOf<J>>,
    asked: &mut ConstPass<'s, 't, ConstantsOf<J>>,
    scripts: &Scripts,
    job: &'t Job,
    serial: u64,
) -> Result<Linkage<'t, J>, WorkError>
    requires named { slice_get J.given.jobs job.now.site ≡ Some job.now }
    requires scripts { scripts.now ≡ J.given.scripts }
    requires leaves { leaves_of w.old ≡ J.given.leaves }
    requires job { IsJob J.given.leaves J.given.scripts job.now }
    requires places { HasPlaces J.given job.now }
    requires serial { (1 ≤ serial) × (serial ≤ 2 ^ 62) }
    requires ready { IsReady w.old attempt_draws }
    requires pass { asked.old.table ≡ constants.now }
    requires room { unresolved asked.old.known ≤ asked.old.seat.room }
    ensures of { IfOk result (λ l. (l.job ≡ job.now) × (l.serial ≡ serial)) }
    ensures goes_on { GoesOn attempt_draws w.old w.new }
    ensures types { AddsLinkage w.old w.new result }

    // The constants that the job's call looks at are resolved, and the pass knows what it found.
    ensures resolving { GoesOnResolving asked.old asked.new }
    ensures constants { IfOk result
        (λ l. AsksConstants J.given job.now asked.old asked.new l.under) }
    ensures before { AsksFirst J.given job.now asked.old asked.new
        w.old.seat.now w.new.seat.now result }
    ensures room_left { OnOk result (unresolved asked.new.known ≤ asked.new.seat.room) }

    // However it ends, few serials of constants were drawn.
    ensures few { asked.old.seat.room ≤ unresolved asked.old.known + asked.new.seat.room }

    // What is asked for is what the attempt asks for where constants are what the pass has learnt.
    ensures asks { Asks
        (edits_at (recipe J.given.leaves) (given_in asked.new J.given) job.now.site serial)
        w.old w.new result }
    ensures asked { AsksTypes (types_at (given_in asked.new J.given) job.now.site serial)
        w.old w.new result }
{
    let findings = ask(w.alloc, rt, constants, asked, job)?;
    let linked = link(w, rt, asked, scripts, job, serial)?;
    Ok(Linkage::new(job, serial, linked, &findings))
}
