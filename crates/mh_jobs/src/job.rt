ghost use Rattle.std.specs.Prelude.{◌≡◌, ◌+◌, ◌<◌, ◌^◌, length, Some, IfOk};
ghost use Rattle.std.specs.Option.{option_copied};
ghost use Rattle.mh_jobs.specs.Sites.{job_of};

use crate::sites::{Bootstrap, SiteRead, site_job};
use crate::types::read_type;
use crate::unresolved::{Numbering, entry_at};
use mh_base::{Copied, Frozen, NoMemory, Shared};
use mh_classfile::ClassView;
use mh_leaves::Leaves;
use mh_script::{ScriptId, Scripts};
use mh_values::{Exc, LeafId, MethodTy, Str, Ty, Value};
use std::alloc::Global;

/// A static argument of a bootstrap method (JVMS SE 17, 5.4.3.6).
#[derive(Debug, Drop)]
pub enum Argument {
    /// A boxed number or a text.
    Value(Value),
    MethodType(Shared<MethodTy>),
    Class(Ty),
    /// A method handle, which is that of a leaf.
    Leaf(LeafId),
}

impl Copied for Argument {
    fn copy(&self, alloc: Global) -> Result<Argument, NoMemory> {
        Ok(match self {
            Argument::Value(value) => Argument::Value(value.copy(alloc)?),
            Argument::MethodType(ty) => Argument::MethodType(ty.share()?),
            Argument::Class(ty) => Argument::Class(*ty),
            Argument::Leaf(leaf) => Argument::Leaf(*leaf),
        })
    }
}

/// A bootstrap method.
#[derive(Clone, Copy, Debug)]
pub enum Method {
    /// The method that a script stands for.
    Script(ScriptId),
    /// `java.lang.invoke.StringConcatFactory.makeConcatWithConstants`, which is built in.
    Concat,
}

/// A bootstrap method and what an attempt calls it with: the name and the type of the call site,
/// and the static arguments, in which the dynamic constants are resolved.
#[derive(Debug, Drop)]
pub struct BootstrapCall {
    pub method: Method,
    pub name: Str,
    pub ty: Shared<MethodTy>,
    pub arguments: Frozen<Argument>,
}

/// A call site of a run, resolved as far as it can be before an attempt.
#[derive(Debug, Drop)]
pub struct Job {
    /// The number of the site in the run.
    pub site: u32,
    /// The site's type, if it can be read, even if the rest cannot be resolved.
    pub ty: Option<Shared<MethodTy>>,
    /// The bootstrap method and its parts, or what is thrown in their place.
    pub call: Result<Bootstrap, Exc>,
}

impl Job {
    /// The number of the site in the run.
    pub fn site(&self) -> u32
        ensures { result ≡ self.now.site }
    {
        self.site
    }

    /// The site's type. There is none if and only if the descriptor names an unknown class or a
    /// type that `mh` lacks.
    pub fn ty(&self) -> Option<&MethodTy>
        ensures { option_copied result ≡ self.now.ty }
    {
        match &self.ty {
            Some(ty) => Some(ty.get()),
            None => None,
        }
    }
}

/// The job of a class's site `k`, whose number in the run is `site`, where the classes before it
/// have `first` dynamic constants: the bootstrap method that links it with the name, the type and
/// the static arguments, or the first of what is wrong, in that order (JVMS SE 17, 5.4.3.6). A
/// script of the name of a built-in method does not count. `NoClassDefFoundError` names a class
/// that is not there, or an owner that is neither a class nor that of a script; `NoSuchMethodError`
/// a script or a leaf; `UnsupportedOperationException` has the message `constant` for a bootstrap
/// method that is not called by `invokestatic`, `type` for a type that is left out, and for texts
/// `lone surrogate` or `string too long` (above 4,096 characters).
///
/// Static arguments are read up to the first that is refused. What it throws is kept with them,
/// since an attempt resolves the dynamic constants before it: the exceptions above, and the message
/// `constant` for other constants or handles than those that [`Argument`] has.
pub fn job_of(
    alloc: Global,
    view: &ClassView<'_>,
    k: u32,
    site: u32,
    first: u32,
    scripts: &Scripts,
    leaves: &Leaves,
) -> Result<Job, NoMemory>
    requires site { k < length view.now.sites }
    requires few { first + length view.now.dynamics < 2 ^ 32 }
    ensures { IfOk result
        (λ made. job_of leaves.now scripts.now view.now k site first ≡ Some made) }
{
    let from = Numbering {
        view,
        scripts,
        leaves,
        first,
    };
    let at = view.site(k);
    let ty = read_type(alloc, leaves.classes(), at.descriptor.bytes())?;
    let entry = entry_at(alloc, &from, at.bootstrap)?;
    let read = SiteRead {
        ty,
        arguments: entry.arguments,
    };
    site_job(alloc, &from, site, &at, read)
}
