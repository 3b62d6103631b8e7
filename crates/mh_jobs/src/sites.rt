ghost use Rattle.std.specs.Prelude.{◌≡◌, IfOk};
ghost use Rattle.mh_jobs.specs.Job.{bootstrap_method, constants_at, site_type};
ghost use Rattle.mh_jobs.specs.Parts.{static_arguments};
ghost use Rattle.mh_jobs.specs.Sites.{site_bootstrap, site_job};
ghost use Rattle.mh_jobs.specs.Told.{TellsResolved};

use crate::argument::text_of;
use crate::error::ResolutionError;
use crate::names::{is_built_in, script_of};
use crate::thrown::unsupported;
use crate::types::TypeOrThrown;
use crate::unresolved::{Numbering, StaticArguments};
use crate::{Job, Method};
use mh_base::{Copied, NoMemory, Shared};
use mh_classfile::{HandleRef, SiteView};
use mh_leaves::Leaves;
use mh_script::Scripts;
use mh_values::{Exc, MethodTy, Str};
use std::alloc::Global;

/// A bootstrap method and what it is called with: the name and the type of the call site, and the
/// static arguments, before dynamic constants are resolved.
#[derive(Debug, Drop)]
pub struct Bootstrap {
    pub method: Method,
    pub name: Str,
    pub ty: Shared<MethodTy>,
    pub arguments: StaticArguments,
}

/// What is read of a call site: its type, or what is thrown in its place, and the static arguments
/// of its bootstrap method.
#[derive(Drop)]
pub(crate) struct SiteRead {
    pub ty: TypeOrThrown,
    pub arguments: StaticArguments,
}

/// The bootstrap method that a handle names: a built-in one, or else that of a script.
fn bootstrap_method(
    alloc: Global,
    leaves: &Leaves,
    scripts: &Scripts,
    handle: &HandleRef<'_>,
) -> Result<Method, ResolutionError>
    ensures { TellsResolved result (bootstrap_method leaves.now.classes scripts.now handle.now) }
{
    if handle.kind != 6 {
        return Err(unsupported(alloc, b"constant"));
    }
    if is_built_in(handle) {
        return Ok(Method::Concat);
    }
    let script = script_of(alloc, leaves.classes(), scripts, handle)?;
    Ok(Method::Script(script))
}

/// A copy of a type that was read.
fn shared(alloc: Global, ty: &TypeOrThrown) -> Result<Shared<MethodTy>, ResolutionError>
    ensures { TellsResolved result ty.now }
{
    match ty {
        Ok(ty) => Ok(ty.share()?),
        Err(exc) => Err(ResolutionError::Thrown(exc.copy(alloc)?)),
    }
}

/// What a call site of a type calls, given what is read of its static arguments.
fn site_bootstrap(
    alloc: Global,
    from: &Numbering<'_, '_>,
    site: &SiteView<'_>,
    ty: &TypeOrThrown,
    arguments: StaticArguments,
) -> Result<Bootstrap, ResolutionError>
    requires ty { ty.now ≡ site_type from.now.leaves.now.classes site.now }
    requires arguments { arguments
        ≡ static_arguments from.now.leaves.now from.now.view.now from.now.first
        (constants_at from.now.view.now site.now.bootstrap) }
    ensures { TellsResolved result (site_bootstrap from.now.leaves.now from.now.scripts.now
        from.now.view.now from.now.first site.now) }
{
    if site.bootstrap >= from.view.bootstraps() {
        return Err(unsupported(alloc, b"constant"));
    }
    let handle = from.view.bootstrap(site.bootstrap);
    let method = bootstrap_method(alloc, from.leaves, from.scripts, &handle)?;
    let ty = shared(alloc, ty)?;
    let name = text_of(alloc, &site.name)?;
    Ok(Bootstrap {
        method,
        name,
        ty,
        arguments,
    })
}

/// What a call site of a type calls, or what is thrown in its place.
fn bootstrap_or_thrown(
    alloc: Global,
    from: &Numbering<'_, '_>,
    site: &SiteView<'_>,
    ty: &TypeOrThrown,
    arguments: StaticArguments,
) -> Result<Result<Bootstrap, Exc>, NoMemory>
    requires ty { ty.now ≡ site_type from.now.leaves.now.classes site.now }
    requires arguments { arguments
        ≡ static_arguments from.now.leaves.now from.now.view.now from.now.first
        (constants_at from.now.view.now site.now.bootstrap) }
    ensures { IfOk result (λ call. call ≡ site_bootstrap
        from.now.leaves.now from.now.scripts.now from.now.view.now from.now.first site.now) }
{
    match site_bootstrap(alloc, from, site, ty, arguments) {
        Ok(call) => Ok(Ok(call)),
        Err(ResolutionError::Thrown(exc)) => Ok(Err(exc)),
        Err(ResolutionError::NoMemory) => Err(NoMemory),
    }
}

/// The job of a call site, which has a number in the run.
pub(crate) fn site_job(
    alloc: Global,
    from: &Numbering<'_, '_>,
    number: u32,
    site: &SiteView<'_>,
    read: SiteRead,
) -> Result<Job, NoMemory>
    requires ty { read.ty ≡ site_type from.now.leaves.now.classes site.now }
    requires arguments { read.arguments
        ≡ static_arguments from.now.leaves.now from.now.view.now from.now.first
        (constants_at from.now.view.now site.now.bootstrap) }
    ensures { IfOk result (λ made. made ≡ site_job from.now.leaves.now from.now.scripts.now
        from.now.view.now from.now.first number site.now) }
{
    let SiteRead { ty, arguments } = read;
    let call = bootstrap_or_thrown(alloc, from, site, &ty, arguments)?;
    Ok(Job {
        site: number,
        ty: ty.ok(),
        call,
    })
}
