//! The call of a bootstrap method, with its static arguments resolved.

ghost use Rattle.std.specs.Prelude.{◌≡◌, ◌+◌, ◌<◌, ◌≤◌, length, Ok, IfOk, OnOk};
ghost use Rattle.mh_link.specs.Named.{run_of};
ghost use Rattle.mh_link.specs.Resolved.{call_under, resolved};
ghost use Rattle.mh_condy.specs.Nodes.{found_in, unresolved};
ghost use Rattle.mh_condy.specs.Resolving.{GoesOnResolving};
ghost use Rattle.mh_condy.specs.Runs.{HavePlaces};
ghost use Rattle.mh_attempt.specs.Constants.{AsksConstants, HasPlace, HasPlaces, call_in, constant_argument, part_under};
ghost use Rattle.mh_attempt.specs.Told.{Tells};

use crate::constants::ConstantsOf;
use crate::thrown::thrown;
use mh_base::{Copied, Frozen, NoMemory, Seq};
use mh_condy::{Asked, ConstPass, ConstTable, ConstValue, Finding};
use mh_jobs::{Argument, Bootstrap, BootstrapCall, Job, Part, Run, StaticArguments};
use mh_tree::CheckError;
use mh_values::ClassId;
use std::alloc::Global;
use std::sync::Wait;

/// Resolves the constants among the static arguments of a job, in order, up to the first that is an
/// error. The answer is what was found of each.
pub(crate) fn ask<'s, 't, J: Run, R: Wait>(
    alloc: Global,
    rt: &R,
    constants: &'s ConstTable<'t, ConstantsOf<J>>,
    asked: &mut ConstPass<'s, 't, ConstantsOf<J>>,
    job: &Job,
) -> Result<Vec<Finding>, NoMemory>
    requires pass { asked.old.table ≡ constants.now }
    requires places { HasPlaces J.given job.now }
    requires room { unresolved asked.old.known ≤ asked.old.seat.room }
    ensures resolving { GoesOnResolving asked.old asked.new }
    ensures asks { IfOk result
        (λ findings. AsksConstants J.given job.now asked.old asked.new findings.items) }
    ensures few { asked.old.seat.room ≤ unresolved asked.old.known + asked.new.seat.room }
    ensures room_left { OnOk result (unresolved asked.new.known ≤ asked.new.seat.room) }
{
    asked.told();
    match &job.call {
        Ok(call) => {
            let found = constants.ask(rt, asked, &call.arguments)?;
            let Asked {
                findings,
                thrown: _thrown,
            } = found;
            Ok(findings)
        }
        Err(_) => Ok(Vec::new(alloc)),
    }
}

/// Arguments as a list to be shared. No arguments take no memory.
fn frozen(alloc: Global, arguments: Seq<Argument>) -> Result<Frozen<Argument>, NoMemory>
    ensures { IfOk result (λ frozen. frozen ≡ arguments) }
{
    if arguments.is_empty() {
        return Ok(Frozen::new());
    }
    Frozen::of(alloc, arguments)
}

/// A dynamic constant as a static argument: what the pass has learnt of it.
fn constant_argument<J: Run>(
    alloc: Global,
    asked: &ConstPass<'_, '_, ConstantsOf<J>>,
    c: u32,
) -> Result<Argument, CheckError>
    requires { c < length (run_of J.given).jobs }
    ensures { Tells result (constant_argument (found_in asked.now.known c)) }
{
    let Some(node) = asked.seen(c) else {
        return Err(thrown(alloc, ClassId::UNSUPPORTED_OPERATION, b"constant"));
    };
    match node.value() {
        ConstValue::Value(value) => Ok(Argument::Value(value.copy(alloc)?)),
        ConstValue::Error(exc) => Err(CheckError::Refused(exc.copy(alloc)?)),
    }
}

/// A static argument.
fn argument_of<J: Run>(
    alloc: Global,
    asked: &ConstPass<'_, '_, ConstantsOf<J>>,
    part: &Part,
) -> Result<Argument, CheckError>
    requires { HasPlace (run_of J.given) part.now }
    ensures { Tells result (part_under (found_in asked.now.known) part.now) }
{
    match part {
        Part::Known(argument) => Ok(argument.copy(alloc)?),
        Part::Constant(c) => constant_argument(alloc, asked, *c),
    }
}

/// The static arguments of a bootstrap method, where constants are what the pass has learnt of
/// them.
#[tactic(auto, using(crate::proofs::linking::Resolving::resolving))]
fn arguments_of<J: Run>(
    alloc: Global,
    asked: &ConstPass<'_, '_, ConstantsOf<J>>,
    arguments: &StaticArguments,
) -> Result<Frozen<Argument>, CheckError>
    requires { HavePlaces (run_of J.given) arguments.now.parts }
    ensures { Tells result (resolved (found_in asked.now.known) arguments.now) }
{
    let mut found = Seq::new(alloc);
    for part in arguments.parts.as_slice() {
        found.push(argument_of(alloc, asked, part)?)?;
    }
    match &arguments.thrown {
        Some(exc) => Err(CheckError::Refused(exc.copy(alloc)?)),
        None => Ok(frozen(alloc, found)?),
    }
}

/// The call of a bootstrap method with its static arguments resolved.
fn resolved_call<J: Run>(
    alloc: Global,
    asked: &ConstPass<'_, '_, ConstantsOf<J>>,
    call: &Bootstrap,
) -> Result<BootstrapCall, CheckError>
    requires { HavePlaces (run_of J.given) call.now.arguments.parts }
    ensures { Tells result (call_under (found_in asked.now.known) (Ok call.now)) }
{
    let arguments = arguments_of(alloc, asked, &call.arguments)?;
    Ok(BootstrapCall {
        method: call.method,
        name: call.name.copy()?,
        ty: call.ty.share()?,
        arguments,
    })
}

/// The call of the bootstrap method at a job's site, or what is thrown in its place.
pub(crate) fn call_of<J: Run>(
    alloc: Global,
    asked: &ConstPass<'_, '_, ConstantsOf<J>>,
    job: &Job,
) -> Result<BootstrapCall, CheckError>
    requires { HasPlaces J.given job.now }
    ensures { Tells result (call_in asked.now job.now) }
{
    match &job.call {
        Ok(call) => resolved_call(alloc, asked, call),
        Err(exc) => Err(CheckError::Refused(exc.copy(alloc)?)),
    }
}
