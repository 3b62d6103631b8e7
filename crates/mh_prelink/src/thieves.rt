ghost use Rattle.std.specs.Prelude.{◌≡◌, ℕ, ◌<◌, ◌≤◌, ◌+◌, ◌-◌, ◌++◌, [], All, length, map, flat_map, vec_len, vec_capacity, IfOk};
ghost use Rattle.crossbeam_deque.specs.Handles.{view, IsPassOf, worker_deque, worker_view, stealer_deque, stealer_flavor, worker_flavor, SameWorker};
ghost use Rattle.mh_prelink.specs.Tallies.{tally, whole};
ghost use Rattle.mh_prelink.specs.Lanes.{CanSteal, HasStolen, HaveWorked};
ghost use Rattle.mh_prelink.specs.Steps.{done_by};

use crate::linking::Linking;
use crate::rule::{Both, Bound, Cut, Fair, Taking};
use crate::tally::Tally;
use crate::worked::{Lane, Worked};
use crate::working::{Owner, finish_work, grow_heap, ready, take_on};
use crossbeam_deque::{Steal, Stealer};
use mh_base::NoMemory;
use mh_threads::call_beside;
use std::alloc::Global;
use std::sync::Wait;
use std::thread::Threads;

/// What all thieves share.
pub(crate) type Thief<N> = Stealer<u32, Global, Tally, Fair<N>>;

/// Steals until the deque is found empty or the linking stops.
pub(crate) fn steal_all<N: Bound, L: Linking, R: Wait>(
    rt: &R,
    linking: &L,
    thief: &Thief<N>,
    lane: &mut Lane<L::Pass, L::Stop>,
)
    requires lane { CanSteal (λ l. IsPassOf (stealer_deque thief.now) l.place)
        (L.step linking.now) (L.has linking.now) (L.room linking.now) N.bound lane.old }
    requires flavor { stealer_flavor thief.now ≡ 0 }
    requires bound { N.bound ≤ L.items linking.now }
    ensures { HasStolen (λ l. IsPassOf (stealer_deque thief.entry.now) l.place)
        (L.step linking.entry.now) (L.has linking.entry.now) lane.old lane.new }
{
    for _ in rt.forever() {
        match thief.steal_as::<Taking<N>>(&mut lane.place) {
            Steal::Success(item) => {
                if !take_on::<N, L, R>(rt, linking, &mut lane.work, item) {
                    return;
                }
            }
            Steal::Retry => {}
            Steal::Empty => return,
        }
    }
    unreachable!()
}

/// Each thief steals, in a thread of its own.
pub(crate) fn steal_beside<N: Bound + Send + Sync, L: Linking + Sync, R: Threads + Wait + Sync>(
    rt: &R,
    linking: &L,
    thief: &Thief<N>,
    lanes: &mut [Lane<L::Pass, L::Stop>],
)
    requires some { 0 < length lanes.old }
    requires lanes { All (CanSteal (λ l. IsPassOf (stealer_deque thief.now) l.place)
        (L.step linking.now) (L.has linking.now) (L.room linking.now) N.bound) lanes.old }
    requires flavor { stealer_flavor thief.now ≡ 0 }
    requires bound { N.bound ≤ L.items linking.now }
    ensures { HaveWorked (HasStolen (λ l. IsPassOf (stealer_deque thief.entry.now) l.place)
        (L.step linking.entry.now) (L.has linking.entry.now)) lanes.old lanes.new }
{
    call_beside(
        rt,
        &|_, lane: &mut Lane<L::Pass, L::Stop>|
            requires { CanSteal (λ l. IsPassOf (stealer_deque thief.now) l.place)
                (L.step linking.now) (L.has linking.now) (L.room linking.now) N.bound lane.old
                × (stealer_flavor thief.now ≡ 0) × (N.bound ≤ L.items linking.now) }
            ensures { HasStolen (λ l. IsPassOf (stealer_deque thief.entry.now) l.place)
                (L.step linking.entry.now) (L.has linking.entry.now) lane.old lane.new }
        {
            grow_heap(&lane.work.taken);
            steal_all(rt, linking, thief, lane)
        },
        lanes,
    );
}

/// A thief for each pass, with a part of the right to know all.
pub(crate) fn fork_all<N: Bound, L: Linking>(
    alloc: Global,
    linking: &L,
    owner: &mut Owner<N>,
    passes: Vec<L::Pass>,
    count: u32,
) -> Result<Vec<Lane<L::Pass, L::Stop>>, NoMemory>
    requires named { N.bound ≡ count }
    requires parts { length passes.items < (worker_view owner.old).parts }
    requires room { All (λ p. L.room linking.now p count) passes.items }
    ensures same { IfOk result (λ _. SameWorker owner.old owner.new) }
    ensures cut { IfOk result (λ _. worker_view owner.new
        ≡ tally ((worker_view owner.old).parts - length passes.items)
        (worker_view owner.old).put (worker_view owner.old).taken) }
    ensures passes { IfOk result (λ lanes. map (λ l. l.work.pass) lanes.items ≡ passes.items) }
    ensures lanes { IfOk result (λ lanes. All (CanSteal
        (λ l. IsPassOf (worker_deque owner.old) l.place) (L.step linking.entry.now)
        (L.has linking.entry.now) (L.room linking.entry.now) N.bound) lanes.items) }
{
    let mut lanes = Vec::with_capacity(alloc, passes.len())?;
    for pass in passes {
        let work = ready::<N, L>(alloc, linking, pass, count)?;
        let place = owner.another::<Cut>();
        lanes.push(Lane { place, work })?;
    }
    Ok(lanes)
}

/// The owner takes back the part of each thief, with what it took.
pub(crate) fn gather<N: Bound, P: Drop, E: Drop>(
    owner: &mut Owner<N>,
    lanes: Vec<Lane<P, E>>,
    workers: &mut Vec<Worked<P, E>>,
)
    requires places { All (λ l. IsPassOf (worker_deque owner.old) l.place
        × (view l.place ≡ tally 1 [] l.work.taken.items)) lanes.items }
    requires room { vec_len workers.old + length lanes.items ≤ vec_capacity workers.old }
    ensures same { SameWorker owner.old owner.new }
    ensures tallies { worker_view owner.new
        ≡ tally ((worker_view owner.old).parts + length lanes.items) (worker_view owner.old).put
        ((worker_view owner.old).taken ++ flat_map (λ l. l.work.taken.items) lanes.items) }
    ensures workers { workers.new.items
        ≡ workers.old.items ++ map (λ l. done_by l.work) lanes.items }
    ensures capacity { vec_capacity workers.new ≡ vec_capacity workers.old }
{
    for lane in lanes {
        let Lane { place, work } = lane;
        owner.absorb::<Both>(place);
        workers.push_reserved(finish_work(work));
    }
}
