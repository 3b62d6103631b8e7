ghost use Rattle.std.specs.List.Sorted.{IsNonDecreasingBy, IsPermutation};

use mh_base::Seq;
use mh_report::{Attempt, Attempts};

/// Attempts in the order of their serials. It takes no memory.
pub(crate) fn by_serial(mut attempts: Vec<Attempt>) -> Attempts
    ensures same { IsPermutation attempts.items result }
    ensures rising { IsNonDecreasingBy (λ a. a.serial) result }
{
    attempts.sort_unstable_by_key(|attempt| attempt.serial);
    Seq::from_vec(attempts)
}
