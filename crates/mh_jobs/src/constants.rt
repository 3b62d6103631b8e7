ghost use Rattle.std.specs.Prelude.{◌≡◌, ◌+◌, ◌<◌, ◌^◌, length, Some, IfOk};
ghost use Rattle.mh_jobs.specs.Constants.{const_call, const_job, const_job_of, const_script, const_type};
ghost use Rattle.mh_jobs.specs.Job.{constants_at};
ghost use Rattle.mh_jobs.specs.Parts.{entry_of, static_arguments};
ghost use Rattle.mh_jobs.specs.Told.{TellsResolved};

use crate::argument::text_of;
use crate::error::ResolutionError;
use crate::names::script_of;
use crate::thrown::{no_one_type, unsupported};
use crate::unresolved::{Entry, Numbering, StaticArguments, entry_at};
use mh_base::{Frozen, NoMemory};
use mh_classfile::{ClassView, DynamicView, HandleRef};
use mh_leaves::Leaves;
use mh_script::{ScriptId, Scripts};
use mh_values::{Classes, Exc, Str, Ty, read_type};
use std::alloc::Global;

/// The script that gives the value of a dynamic constant, and what it is called with: the name and
/// the type of the constant, and the static arguments.
#[derive(Debug, Drop)]
pub struct ConstBootstrap {
    pub script: ScriptId,
    pub name: Str,
    pub ty: Ty,
    pub arguments: StaticArguments,
}

/// A dynamic constant of a run, resolved as far as it can be.
#[derive(Debug, Drop)]
pub struct ConstJob {
    /// The number of the constant in the run.
    pub number: u32,
    /// All dynamic constants among the static arguments of its bootstrap method, even if the rest
    /// cannot be resolved.
    pub names: Frozen<u32>,
    /// The call of the script, or what is thrown in its place.
    pub call: Result<ConstBootstrap, Exc>,
}

/// The script that a handle names.
fn const_script(
    alloc: Global,
    from: &Numbering<'_, '_>,
    handle: &HandleRef<'_>,
) -> Result<ScriptId, ResolutionError>
    ensures { TellsResolved result (const_script
        from.now.leaves.now.classes from.now.scripts.now handle.now) }
{
    if handle.kind != 6 {
        return Err(unsupported(alloc, b"constant"));
    }
    script_of(alloc, from.leaves.classes(), from.scripts, handle)
}

/// The type of a constant by the text of its descriptor.
fn const_type(alloc: Global, classes: &Classes, text: &[u8]) -> Result<Ty, ResolutionError>
    ensures { TellsResolved result (const_type classes.now text.now) }
{
    match read_type(text, classes) {
        Ok(ty) => Ok(ty),
        Err(error) => Err(no_one_type(alloc, text, error)),
    }
}

/// What a Dynamic entry calls, given what is read of its static arguments.
fn const_call(
    alloc: Global,
    from: &Numbering<'_, '_>,
    dynamic: &DynamicView<'_>,
    arguments: StaticArguments,
) -> Result<ConstBootstrap, ResolutionError>
    requires { arguments ≡ static_arguments from.now.leaves.now from.now.view.now from.now.first
        (constants_at from.now.view.now dynamic.now.bootstrap) }
    ensures { TellsResolved result (const_call from.now.leaves.now from.now.scripts.now
        from.now.view.now from.now.first dynamic.now) }
{
    if dynamic.bootstrap >= from.view.bootstraps() {
        return Err(unsupported(alloc, b"constant"));
    }
    let handle = from.view.bootstrap(dynamic.bootstrap);
    let script = const_script(alloc, from, &handle)?;
    let ty = const_type(alloc, from.leaves.classes(), dynamic.descriptor.bytes())?;
    let name = text_of(alloc, &dynamic.name)?;
    Ok(ConstBootstrap {
        script,
        name,
        ty,
        arguments,
    })
}

/// What a Dynamic entry calls, or what is thrown in its place.
fn call_or_thrown(
    alloc: Global,
    from: &Numbering<'_, '_>,
    dynamic: &DynamicView<'_>,
    arguments: StaticArguments,
) -> Result<Result<ConstBootstrap, Exc>, NoMemory>
    requires { arguments ≡ static_arguments from.now.leaves.now from.now.view.now from.now.first
        (constants_at from.now.view.now dynamic.now.bootstrap) }
    ensures { IfOk result (λ call. call ≡ const_call from.now.leaves.now from.now.scripts.now
        from.now.view.now from.now.first dynamic.now) }
{
    match const_call(alloc, from, dynamic, arguments) {
        Ok(call) => Ok(Ok(call)),
        Err(ResolutionError::Thrown(exc)) => Ok(Err(exc)),
        Err(ResolutionError::NoMemory) => Err(NoMemory),
    }
}

/// The job of a Dynamic entry, which has a number in the run.
pub(crate) fn const_job(
    alloc: Global,
    from: &Numbering<'_, '_>,
    number: u32,
    dynamic: &DynamicView<'_>,
    entry: Entry,
) -> Result<ConstJob, NoMemory>
    requires { entry ≡ entry_of from.now.leaves.now from.now.view.now from.now.first
        (constants_at from.now.view.now dynamic.now.bootstrap) }
    ensures { IfOk result (λ made. made ≡ const_job from.now.leaves.now from.now.scripts.now
        from.now.view.now from.now.first number dynamic.now) }
{
    let Entry { arguments, names } = entry;
    let call = call_or_thrown(alloc, from, dynamic, arguments)?;
    Ok(ConstJob {
        number,
        names,
        call,
    })
}

/// The job of a class's Dynamic entry `d`, if the classes before it have `first` dynamic constants;
/// so its number in the run is `first` and `d` together. An `invokestatic` handle names the script
/// that gives its value. If something is wrong, the first such thing is kept in its place, in the
/// order handle, type and name (JVMS SE 17, 5.4.3.6). The exceptions and their messages are those
/// of [`crate::job_of`], except that a text that is no type, and a type that is left out, are
/// `UnsupportedOperationException` with the message `type`. Static arguments are read up to the
/// first that is refused, whose exception is kept with them.
pub fn const_job_of(
    alloc: Global,
    view: &ClassView<'_>,
    d: u16,
    first: u32,
    scripts: &Scripts,
    leaves: &Leaves,
) -> Result<ConstJob, NoMemory>
    requires dynamic { d < length view.now.dynamics }
    requires few { first + length view.now.dynamics < 2 ^ 32 }
    ensures { IfOk result
        (λ made. const_job_of leaves.now scripts.now view.now d first ≡ Some made) }
{
    let from = Numbering {
        view,
        scripts,
        leaves,
        first,
    };
    let dynamic = view.dynamic(d);
    let entry = entry_at(alloc, &from, dynamic.bootstrap)?;
    const_job(alloc, &from, first + d as u32, &dynamic, entry)
}
