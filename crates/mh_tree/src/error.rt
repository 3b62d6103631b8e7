ghost use Rattle.std.specs.Prelude.{◌≡◌, Err};
ghost use Rattle.mh_tree.specs.Check.{TellsRow};
ghost use Rattle.mh_tree.specs.Rows.{illegal};

use mh_base::NoMemory;
use mh_values::{ClassId, Exc};
use std::alloc::Global;

/// Why a check gives no type.
#[derive(Debug, Drop)]
pub enum CheckError {
    NoMemory,
    /// The node is refused with this exception.
    Refused(Exc),
}

impl From<NoMemory> for CheckError {
    ghost use Rattle.mh_tree.specs.declared.error.CheckError.TheVariants as check;

    ghost from_gives = { λ _ error. error ≡ check.NoMemory };

    fn from(_: NoMemory) -> Self {
        CheckError::NoMemory
    }
}

/// The refusal of a combinator with its word as the message of an `IllegalArgumentException`.
pub(crate) fn refused(alloc: Global, word: &[u8]) -> CheckError
    ensures { TellsRow (Err result) (Err (illegal word.now)) }
{
    match Exc::saying(alloc, ClassId::ILLEGAL_ARGUMENT, word) {
        Ok(exc) => CheckError::Refused(exc),
        Err(NoMemory) => CheckError::NoMemory,
    }
}
