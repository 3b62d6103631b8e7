ghost use Rattle.std.specs.Prelude.{◌≡◌};
ghost use Rattle.mh_runtime.specs.Stops.{stop_after, stop_at, reported_of};

use mh_attempt::WorkError;
use mh_base::NoMemory;
use mh_report::Answers;

/// What the calls of a thread gave.
#[derive(Debug, Drop)]
pub struct ThreadRun {
    /// The answers in the order of the calls: those of all calls, or of the calls before the one
    /// that stopped the thread.
    pub answers: Answers,
    /// Why the thread stopped, if it did.
    pub stop: Option<WorkError>,
}

/// A thread that stopped, and why. If memory ran out outside the threads, it is thread 0.
#[derive(Clone, Copy, Debug, PartialEq, Eq)]
pub struct Stop {
    /// The thread, counted from 0.
    pub thread: u32,
    pub error: WorkError,
}

impl From<NoMemory> for Stop {
    ghost use Rattle.std.specs.Prelude.{◌≡◌};
    ghost use Rattle.mh_runtime.specs.Stops.{outside};

    ghost from_gives = { λ _ stop. stop ≡ outside };

    fn from(_: NoMemory) -> Self {
        Stop {
            thread: 0,
            error: WorkError::NoMemory,
        }
    }
}

/// The stop of a thread, if it stopped.
pub(crate) fn stop_of(thread: u32, error: Option<WorkError>) -> Option<Stop>
    ensures { result ≡ stop_at thread error }
{
    match error {
        Some(error) => Some(Stop { thread, error }),
        None => None,
    }
}

// The stop to report of two: that of the lower thread, unless it had no form and the other no
// memory.
fn reported(low: Stop, high: Stop) -> Stop
    ensures { result ≡ reported_of low.error high.error low high }
{
    match low.error {
        WorkError::NoMemory => low,
        WorkError::TypesFull { bucket: _ } => low,
        WorkError::FormsFull { drawn: _ } => match high.error {
            WorkError::NoMemory => high,
            WorkError::TypesFull { bucket: _ } => low,
            WorkError::FormsFull { drawn: _ } => low,
        },
    }
}

/// The stop to report once one thread more has ended: the one to report before, and its own.
pub(crate) fn first_stop(before: Option<Stop>, own: Option<Stop>) -> Option<Stop>
    ensures { result ≡ stop_after before own }
{
    let Some(low) = before else {
        return own;
    };
    match own {
        Some(high) => Some(reported(low, high)),
        None => Some(low),
    }
}
