ghost use Rattle.std.specs.Prelude.{◌≡◌};

use mh_base::NoMemory;
use mh_values::Exc;

/// Why something is not resolved.
#[derive(Debug, Drop)]
pub(crate) enum ResolutionError {
    NoMemory,
    /// This exception is thrown.
    Thrown(Exc),
}

impl From<NoMemory> for ResolutionError {
    ghost use Rattle.mh_jobs.specs.declared.error.ResolutionError.TheVariants.{NoMemory};

    ghost from_gives = { λ _ error. error ≡ NoMemory };

    fn from(_: NoMemory) -> Self {
        ResolutionError::NoMemory
    }
}
