ghost use Rattle.std.specs.Prelude.{◌≡◌};

use mh_base::NoMemory;
use mh_handle::EditError;
use std::fmt;

/// Why a call was not made, or a call site not linked.
#[derive(Clone, Copy, Debug, PartialEq, Eq)]
pub enum WorkError {
    NoMemory,
    /// The table has no number left for a form: the number drawn is above 16,384.
    FormsFull { drawn: u64 },
    /// The bucket of a type, from 0 to 63, is full of other types that are held.
    TypesFull { bucket: u32 },
}

impl From<NoMemory> for WorkError {
    ghost use Rattle.mh_attempt.specs.declared.error.WorkError.TheVariants as work;

    ghost from_gives = { λ _ e. e ≡ work.NoMemory };

    fn from(_: NoMemory) -> Self {
        WorkError::NoMemory
    }
}

impl From<EditError> for WorkError {
    ghost use Rattle.mh_attempt.specs.Errors.{of_edit};

    ghost from_gives = { λ error e. e ≡ of_edit error };

    fn from(error: EditError) -> Self {
        match error {
            EditError::NoMemory => WorkError::NoMemory,
            EditError::FormsFull { drawn } => WorkError::FormsFull { drawn },
        }
    }
}

impl fmt::Display for WorkError {
    fn fmt<W: fmt::Write>(&self, f: &mut fmt::Formatter<W>) -> fmt::Result {
        match self {
            WorkError::NoMemory => NoMemory.fmt(f),
            WorkError::FormsFull { drawn } => EditError::FormsFull { drawn: *drawn }.fmt(f),
            WorkError::TypesFull { bucket } => write!(
                f,
                "the slots of bucket {bucket} are in use by other types"
            ),
        }
    }
}
