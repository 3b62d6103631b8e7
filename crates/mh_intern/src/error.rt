ghost use Rattle.std.specs.Prelude.{◌≡◌};
ghost use Rattle.mh_intern.specs.declared.error.InternError.TheVariants.{NoMemory};

use mh_base::NoMemory;
use std::error::Error;
use std::fmt;

/// Why a type is not interned.
#[derive(Clone, Copy, Debug, PartialEq, Eq)]
pub enum InternError {
    /// No memory was left, or 2^63 owners of one type are counted.
    NoMemory,
    /// Each of the 32 slots of the type's bucket is in use by another type. Buckets are counted
    /// from 0 to 63.
    TypesFull { bucket: u32 },
}

impl From<NoMemory> for InternError {
    ghost from_gives = { λ _ e. e ≡ NoMemory };

    fn from(_: NoMemory) -> Self {
        InternError::NoMemory
    }
}

impl fmt::Display for InternError {
    fn fmt<W: fmt::Write>(&self, f: &mut fmt::Formatter<W>) -> fmt::Result {
        match self {
            InternError::NoMemory => NoMemory.fmt(f),
            InternError::TypesFull { bucket } => write!(
                f,
                "the slots of bucket {bucket} are in use by other types"
            ),
        }
    }
}

impl Error for InternError {}
