ghost use Rattle.std.specs.Prelude.{◌≡◌, ℕ, ◌<◌, ◌≤◌, ◌++◌, ◌∷◌, [], Some, None, All, List, OnOk, IfOk, length, slice_index_or};
ghost use Rattle.mh_prelink.specs.declared.worked.Worked.{Worked};
ghost use Rattle.mh_prelink.specs.Lanes.{HaveWorked};
ghost use Rattle.mh_prelink.specs.Results.{AllLinked};
ghost use Rattle.mh_prelink.specs.Steps.{Did, worked};

use crate::linking::Linking;
use crate::prelinking::prelink;
use crate::worked::{Numbers, Passes, Worked, Workers};
use mh_base::NoMemory;
use std::alloc::Global;
use std::sync::Wait;
use std::thread::Threads;

/// A linking whose passes are split off from one state, and joined to it again, in the order in
/// which they were split off.
pub trait SharesOut: Linking {
    /// What passes are split off from and joined to.
    type State;

    // How many workers there are.
    ghost workers: { Self → ℕ };

    // What holds of the state after these passes were split off.
    ghost split_off: { Self → Self.State → List Self.Pass → Type 0 };

    // What holds of the state after these workers were joined; they began with these passes.
    ghost joined: { Self → List Self.Pass → List (Worked Self.Pass Self.Stop) → Self.State
        → Type 0 };

    /// How many workers there are.
    fn workers(&self) -> usize
        ensures { result ≡ workers self.now };

    /// How many items there are.
    fn count(&self) -> u32
        ensures { result ≡ Self.items self.now };

    /// Splits the next pass off.
    fn split(&self, state: &mut Self::State, number: usize) -> Result<Self::Pass, NoMemory>
        requires { (passes : List Self.Pass) × split_off self.now state.old passes
            × (length passes ≡ number) × (number < workers self.now) }
        ensures split_off { (passes : List Self.Pass) → split_off self.now state.old passes
            → length passes ≡ number → IfOk result
            (λ pass. split_off self.now state.new (passes ++ pass ∷ [])) }
        ensures room { IfOk result (λ pass. Self.room self.now pass (Self.items self.now)) };

    /// Joins the next worker, which did not stop, by its pass and the numbers that it took.
    fn join(
        &self,
        state: &mut Self::State,
        pass: Self::Pass,
        taken: Numbers,
    ) -> Result<(), NoMemory>
        requires { (before : List Self.Pass) × (after : List (Worked Self.Pass Self.Stop))
            × joined self.now before after state.old × (length after < length before)
            × Did (Self.step self.now) (Self.has self.now)
            (slice_index_or before (length after) pass) (worked pass taken None) }
        ensures { (before : List Self.Pass) (after : List (Worked Self.Pass Self.Stop))
            → joined self.now before after state.old → length after < length before
            → Did (Self.step self.now) (Self.has self.now)
            (slice_index_or before (length after) pass) (worked pass taken None)
            → OnOk result (joined self.now before (after ++ worked pass taken None ∷ [])
            state.new) };

    /// Joins the next worker, which stopped.
    fn join_stopped(
        &self,
        state: &mut Self::State,
        pass: Self::Pass,
        taken: Numbers,
        stop: Self::Stop,
    ) -> Result<(), NoMemory>
        requires { (before : List Self.Pass) × (after : List (Worked Self.Pass Self.Stop))
            × joined self.now before after state.old × (length after < length before)
            × Did (Self.step self.now) (Self.has self.now)
            (slice_index_or before (length after) pass) (worked pass taken (Some stop)) }
        ensures { (before : List Self.Pass) (after : List (Worked Self.Pass Self.Stop))
            → joined self.now before after state.old → length after < length before
            → Did (Self.step self.now) (Self.has self.now)
            (slice_index_or before (length after) pass) (worked pass taken (Some stop))
            → OnOk result (joined self.now before (after ++ worked pass taken (Some stop) ∷ [])
            state.new) };

    /// Once all passes are split off, no worker is joined yet. It does nothing when it runs.
    fn start(&self, state: &Self::State)
        ensures { (passes : List Self.Pass) → split_off self.now state.now passes
            → length passes ≡ workers self.now → joined self.now passes [] state.now };
}

// Splits all passes off.
fn split_all<T: SharesOut>(
    alloc: Global,
    task: &T,
    state: &mut T::State,
) -> Result<Passes<T::Pass>, NoMemory>
    requires { T.split_off task.now state.old [] }
    ensures split_off { IfOk result (λ passes. T.split_off task.now state.new passes) }
    ensures count { IfOk result (λ passes. length passes ≡ T.workers task.now) }
    ensures room { IfOk result (λ passes. All (λ p. T.room task.now p (T.items task.now))
        passes) }
{
    let mut passes = Passes::new(alloc);
    for number in 0..task.workers() {
        passes.push(task.split(state, number)?)?;
    }
    Ok(passes)
}

// Joins the next worker.
fn join_next<T: SharesOut>(
    task: &T,
    state: &mut T::State,
    worker: Worked<T::Pass, T::Stop>,
) -> Result<(), NoMemory>
    requires { (before : List T.Pass) × (after : List (Worked T.Pass T.Stop))
        × T.joined task.now before after state.old × (length after < length before)
        × Did (T.step task.now) (T.has task.now)
        (slice_index_or before (length after) worker.pass) worker }
    ensures { (before : List T.Pass) (after : List (Worked T.Pass T.Stop))
        → T.joined task.now before after state.old → length after < length before
        → Did (T.step task.now) (T.has task.now)
        (slice_index_or before (length after) worker.pass) worker
        → OnOk result (T.joined task.now before (after ++ worker ∷ []) state.new) }
{
    let Worked { pass, taken, stop } = worker;
    match stop {
        None => task.join(state, pass, taken),
        Some(stop) => task.join_stopped(state, pass, taken, stop),
    }
}

// Joins all workers.
fn join_all<T: SharesOut>(
    task: &T,
    state: &mut T::State,
    workers: Vec<Worked<T::Pass, T::Stop>>,
) -> Result<(), NoMemory>
    requires { (before : List T.Pass) × T.joined task.now before [] state.old
        × HaveWorked (Did (T.step task.now) (T.has task.now)) before workers.items }
    ensures { (before : List T.Pass) → T.joined task.now before [] state.old
        → HaveWorked (Did (T.step task.now) (T.has task.now)) before workers.items
        → OnOk result (T.joined task.now before workers.items state.new) }
{
    for worker in workers {
        join_next(task, state, worker)?;
    }
    Ok(())
}

/// Splits the passes off, links all items by as many workers, and joins the workers again, in the
/// order in which their passes were split off. It fails only if no memory is left.
pub fn share_out<T: SharesOut + Sync, R: Threads + Wait + Sync>(
    rt: &R,
    alloc: Global,
    task: &T,
    state: &mut T::State,
) -> Result<(), NoMemory>
    requires split_off { T.split_off task.now state.old [] }
    requires workers { (0 < T.workers task.now) × (T.workers task.now ≤ 16) }
    ensures { OnOk result ((before : List T.Pass) × (after : List (Worked T.Pass T.Stop))
        × T.joined task.now before after state.new × (length after ≡ T.workers task.now)
        × AllLinked (T.step task.now) (T.has task.now) (T.items task.now) before after) }
{
    let passes = split_all(alloc, task, state)?;
    task.start(state);
    let workers = prelink(rt, alloc, task, passes, task.count())?;
    join_all(task, state, workers.into_vec())
}
