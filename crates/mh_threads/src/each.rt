ghost use Rattle.std.specs.Prelude.{◌≡◌, ℕ, ◌<◌, All, length, slice_index_or};

use std::sync::Wait;
use std::thread;
use std::thread::Threads;

/// What is done with each lane. The threads of all lanes share the task.
pub trait Task {
    /// What one thread works on.
    type Lane: Send;

    // A lane that may be run, and what it is afterwards.
    ghost ready: { Self → Self.Lane → Type 0 };

    ghost done: { Self → Self.Lane → Self.Lane → Type 0 };

    /// Works on a lane.
    fn run<R: Wait>(&self, rt: &R, lane: &mut Self::Lane)
        requires { ready self.now lane.old }
        ensures { done self.entry.now lane.old lane.new };
}

/// Runs the task on each lane, each in a thread. It returns when all are done, and takes no memory
/// of its own. If a thread cannot be started, the caller runs its lane.
pub fn run_each<T: Task + Sync, R: Threads + Wait + Sync>(rt: &R, task: &T, lanes: &mut [T::Lane])
    requires some { 0 < length lanes.old }
    requires ready { All (T.ready task.now) lanes.old }
    ensures { (i : ℕ) (d : _) → i < length lanes.old
        → T.done task.now (slice_index_or lanes.old i d) (slice_index_or lanes.new i d) }
{
    let count = lanes.len();
    thread::for_each_mut(
        rt,
        lanes,
        count,
        &|_, lane: &mut T::Lane| { task.run(rt, lane) },
    );
}
