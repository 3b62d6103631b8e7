ghost use Rattle.std.specs.Prelude.{◌≡◌};
ghost use Rattle.mh_handle.specs.declared.error.EditError.TheVariants.{NoMemory};

use mh_base::NoMemory;
use mh_intern::InternError;
use mh_tree::CheckError;
use mh_values::Exc;
use std::fmt;

/// Why an edit of a form was refused.
#[derive(Clone, Copy, Debug, PartialEq, Eq)]
pub enum EditError {
    NoMemory,
    /// The table has no number left for a form: the number drawn is above 16,384.
    FormsFull { drawn: u64 },
}

impl From<NoMemory> for EditError {
    ghost from_gives = { λ _ e. e ≡ NoMemory };

    fn from(_: NoMemory) -> Self {
        EditError::NoMemory
    }
}

impl fmt::Display for EditError {
    fn fmt<W: fmt::Write>(&self, f: &mut fmt::Formatter<W>) -> fmt::Result {
        match self {
            EditError::NoMemory => NoMemory.fmt(f),
            EditError::FormsFull { drawn } => write!(
                f,
                "no form is left: number {drawn} was drawn"
            ),
        }
    }
}

/// Why a handle was not made.
#[derive(Debug, Drop)]
pub enum HandleError {
    NoMemory,
    /// The table has no number left for a form: the number drawn is above 16,384.
    FormsFull { drawn: u64 },
    /// The bucket of a type, from 0 to 63, is full of other types that are held.
    TypesFull { bucket: u32 },
    /// The combinator is refused with this exception.
    Refused(Exc),
}

impl From<NoMemory> for HandleError {
    ghost use Rattle.mh_handle.specs.declared.error.HandleError.TheVariants as handle;

    ghost from_gives = { λ _ e. e ≡ handle.NoMemory };

    fn from(_: NoMemory) -> Self {
        HandleError::NoMemory
    }
}

impl From<EditError> for HandleError {
    ghost use Rattle.mh_handle.specs.Errors.{of_edit};

    ghost from_gives = { λ error e. e ≡ of_edit error };

    fn from(error: EditError) -> Self {
        match error {
            EditError::NoMemory => HandleError::NoMemory,
            EditError::FormsFull { drawn } => HandleError::FormsFull { drawn },
        }
    }
}

impl From<InternError> for HandleError {
    ghost use Rattle.mh_handle.specs.Errors.{of_intern};

    ghost from_gives = { λ error e. e ≡ of_intern error };

    fn from(error: InternError) -> Self {
        match error {
            InternError::NoMemory => HandleError::NoMemory,
            InternError::TypesFull { bucket } => HandleError::TypesFull { bucket },
        }
    }
}

impl From<CheckError> for HandleError {
    ghost use Rattle.mh_handle.specs.Errors.{of_check};

    ghost from_gives = { λ error e. e ≡ of_check error };

    fn from(error: CheckError) -> Self {
        match error {
            CheckError::NoMemory => HandleError::NoMemory,
            CheckError::Refused(exc) => HandleError::Refused(exc),
        }
    }
}
