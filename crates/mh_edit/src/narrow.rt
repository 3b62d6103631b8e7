//! Numbers of 32 bits.

ghost use Rattle.std.specs.Prelude.{◌≡◌, IfOk};

use mh_base::NoMemory;

/// A number as one of 32 bits. A larger number answers `NoMemory`, as no form in memory needs one.
pub(crate) fn narrow(number: u64) -> Result<u32, NoMemory>
    ensures { IfOk result (λ narrowed. narrowed ≡ number) }
{
    if number > u32::MAX as u64 {
        Err(NoMemory)
    } else {
        Ok(number as u32)
    }
}
