//! Exceptions that are thrown while a script runs.

ghost use Rattle.mh_values.specs.Exception.{saying};
ghost use Rattle.mh_attempt.specs.Told.{Throws};

use mh_base::NoMemory;
use mh_tree::CheckError;
use mh_values::{ClassId, Exc};
use std::alloc::Global;

/// An exception with this message.
pub(crate) fn thrown(alloc: Global, class: ClassId, message: &[u8]) -> CheckError
    ensures { Throws result (saying class message.now) }
{
    match Exc::saying(alloc, class, message) {
        Ok(exc) => CheckError::Refused(exc),
        Err(NoMemory) => CheckError::NoMemory,
    }
}
