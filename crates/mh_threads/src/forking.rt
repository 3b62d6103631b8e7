ghost use Rattle.std.specs.Prelude.{◌≡◌, ℕ, ◌<◌, ◌++◌, ◌∷◌, [], All, List, OnOk, IfOk, length, slice_index_or};
ghost use Rattle.mh_threads.specs.Lanes.{HaveRun};

use mh_base::NoMemory;
use std::alloc::Global;
use std::sync::Wait;
use std::thread;
use std::thread::Threads;

/// Work that threads do concurrently. A lane is forked off for each of them, and a thread runs it.
/// Then all lanes are joined, in the order in which they were forked off.
pub trait ForkJoin {
    /// What one thread works on.
    type Lane: Send + Drop;

    /// What lanes are forked off and joined to.
    type State;

    // How many lanes there are.
    ghost count: { Self → ℕ };

    // What holds of the state after these lanes were forked off.
    ghost forked: { Self → Self.State → List Self.Lane → Type 0 };

    // A lane that may be run, and what it is afterwards.
    ghost ready: { Self → Self.Lane → Type 0 };

    ghost done: { Self → Self.Lane → Self.Lane → Type 0 };

    // What holds of the state after lanes were joined: the first list has them before they ran, the
    // second after.
    ghost joined: { Self → List Self.Lane → List Self.Lane → Self.State → Type 0 };

    /// How many lanes are forked off.
    fn lanes(&self) -> usize
        ensures { result ≡ count self.now };

    /// Forks the next lane off.
    fn fork(&self, state: &mut Self::State, number: usize) -> Result<Self::Lane, NoMemory>
        requires { (lanes : List Self.Lane) × forked self.now state.old lanes
            × (length lanes ≡ number) × (number < count self.now) }
        ensures forked { (lanes : List Self.Lane) → forked self.now state.old lanes
            → length lanes ≡ number → IfOk result
            (λ lane. forked self.now state.new (lanes ++ lane ∷ [])) }
        ensures ready { IfOk result (ready self.now) };

    /// Works on a lane.
    fn run<R: Wait>(&self, rt: &R, lane: &mut Self::Lane)
        requires { ready self.now lane.old }
        ensures { done self.entry.now lane.old lane.new };

    /// Joins the next lane to the state.
    fn join(&self, state: &mut Self::State, lane: Self::Lane) -> Result<(), NoMemory>
        requires { (before after : List Self.Lane) × joined self.now before after state.old
            × (length after < length before)
            × done self.now (slice_index_or before (length after) lane) lane }
        ensures { (before after : List Self.Lane) → joined self.now before after state.old
            → length after < length before
            → done self.now (slice_index_or before (length after) lane) lane
            → OnOk result (joined self.now before (after ++ lane ∷ []) state.new) };

    /// Once all lanes are forked off, none is joined yet. It does nothing when it runs.
    fn start(&self, state: &Self::State)
        ensures { (lanes : List Self.Lane) → forked self.now state.now lanes
            → length lanes ≡ count self.now → joined self.now lanes [] state.now };
}

// Forks all lanes off.
fn fork_all<T: ForkJoin>(
    alloc: Global,
    task: &T,
    state: &mut T::State,
) -> Result<Vec<T::Lane>, NoMemory>
    requires { T.forked task.now state.old [] }
    ensures forked { IfOk result (λ lanes. T.forked task.now state.new lanes.items) }
    ensures count { IfOk result (λ lanes. length lanes.items ≡ T.count task.now) }
    ensures ready { IfOk result (λ lanes. All (T.ready task.now) lanes.items) }
{
    let mut lanes = Vec::new(alloc);
    for number in 0..task.lanes() {
        lanes.push(task.fork(state, number)?)?;
    }
    Ok(lanes)
}

// Runs each lane in a thread.
fn run_all<T: ForkJoin + Sync, R: Threads + Wait + Sync>(rt: &R, task: &T, lanes: &mut [T::Lane])
    requires ready { All (T.ready task.now) lanes.old }
    ensures { HaveRun (T.done task.now) lanes.old lanes.new }
{
    let count = lanes.len();
    if count > 0 {
        thread::for_each_mut(
            rt,
            lanes,
            count,
            &|_, lane: &mut T::Lane| { task.run(rt, lane) },
        );
    }
}

// Joins all lanes.
fn join_all<T: ForkJoin>(
    task: &T,
    state: &mut T::State,
    lanes: Vec<T::Lane>,
) -> Result<(), NoMemory>
    requires { (before : List T.Lane) × T.joined task.now before [] state.old
        × HaveRun (T.done task.now) before lanes.items }
    ensures { (before : List T.Lane) → T.joined task.now before [] state.old
        → HaveRun (T.done task.now) before lanes.items
        → OnOk result (T.joined task.now before lanes.items state.new) }
{
    for lane in lanes {
        task.join(state, lane)?;
    }
    Ok(())
}

/// Forks the lanes off, runs each in a thread, and joins them. If a thread cannot be started, the
/// caller runs its lane. It fails only if no memory is left.
pub fn fork_join<T: ForkJoin + Sync, R: Threads + Wait + Sync>(
    rt: &R,
    alloc: Global,
    task: &T,
    state: &mut T::State,
) -> Result<(), NoMemory>
    requires { T.forked task.now state.old [] }
    ensures { OnOk result ((before after : List T.Lane)
        × T.joined task.now before after state.new × (length after ≡ T.count task.now)) }
{
    let mut lanes = fork_all(alloc, task, state)?;
    task.start(state);
    run_all(rt, task, lanes.as_mut_slice());
    join_all(task, state, lanes)
}
