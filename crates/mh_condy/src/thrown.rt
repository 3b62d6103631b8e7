ghost use Rattle.std.specs.Prelude.{◌≡◌};
ghost use Rattle.mh_values.specs.Class.{class_cast_class};
ghost use Rattle.mh_values.specs.Exception.{saying};
ghost use Rattle.mh_jobs.specs.Names.{class_of};
ghost use Rattle.mh_jobs.specs.Thrown.{plainly};
ghost use Rattle.mh_link.specs.Operands.{no_argument};
ghost use Rattle.mh_condy.specs.Told.{Tells, Throws};
ghost use Rattle.std.specs.Prelude.{codes};

use mh_base::NoMemory;
use mh_values::{ClassId, Classes, Exc};
use std::alloc::Global;

/// Why the script of a constant gives no value.
#[derive(Debug, Drop)]
pub(crate) enum Failure {
    NoMemory,
    /// This exception is thrown.
    Thrown(Exc),
}

impl From<NoMemory> for Failure {
    ghost use Rattle.mh_condy.specs.declared.thrown.Failure.TheVariants.{NoMemory};

    ghost from_gives = { λ _ failure. failure ≡ NoMemory };

    fn from(_: NoMemory) -> Self {
        Failure::NoMemory
    }
}

/// An exception with this message.
pub(crate) fn thrown(alloc: Global, class: ClassId, message: &[u8]) -> Failure
    ensures { Throws result (saying class message.now) }
{
    match Exc::saying(alloc, class, message) {
        Ok(exc) => Failure::Thrown(exc),
        Err(NoMemory) => Failure::NoMemory,
    }
}

/// The class of a name, which stands in a script.
pub(crate) fn class_of(alloc: Global, classes: &Classes, name: &[u8]) -> Result<ClassId, Failure>
    ensures { Tells result (class_of plainly classes.now name.now) }
{
    match classes.find(name) {
        Some(class) => Ok(class),
        None => Err(thrown(alloc, ClassId::NO_CLASS_DEF_FOUND, name)),
    }
}

/// A static argument, or what a register holds, is not there.
pub(crate) fn no_argument(alloc: Global) -> Failure
    ensures { Throws result no_argument }
{
    thrown(alloc, ClassId::WRONG_METHOD_TYPE, b"arguments")
}

/// A static argument, or what a register holds, is of another sort.
pub(crate) fn wrong_sort(alloc: Global) -> Failure
    ensures { Throws result (saying class_cast_class (codes "arguments")) }
{
    thrown(alloc, ClassId::CLASS_CAST, b"arguments")
}
