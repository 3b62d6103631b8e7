ghost use Rattle.std.specs.Prelude.{◌≡◌, ℕ, ◌<◌, ◌≤◌, ◌+◌, ◌++◌, ◌∷◌, [], List, Some, None, not, is_some, vec_len, length, IfOk};
ghost use Rattle.crossbeam_deque.specs.Handles.{worker_flavor, worker_view, SameWorker};
ghost use Rattle.mh_prelink.specs.Tallies.{tally, NoneLeft};
ghost use Rattle.mh_prelink.specs.Owners.{CanPop, HasPopped};
ghost use Rattle.mh_prelink.specs.Steps.{Goes, Ended, done_by};

use crate::linking::Linking;
use crate::rule::{Bound, Fair, Taking};
use crate::tally::Tally;
use crate::worked::{Numbers, Work, Worked};
use crossbeam_deque::Worker;
use mh_base::NoMemory;
use std::alloc::Global;
use std::sync::Wait;

/// With room for so many numbers, a worker has enough to do for a thread of its own.
pub(crate) const MANY: usize = 256;

// Bytes that linking takes for an item and keeps, about.
const KEPT: usize = 1024;

// The heap grows for so many items at most.
const MOST: usize = 16_384;

// A block of memory that nothing reads. A caller cannot see that, so the block is really taken.
#[inline(never)]
fn block(alloc: Global, bytes: usize) -> Result<Vec<u8>, NoMemory> {
    Ok(Vec::with_capacity(alloc, bytes)?)
}

/// If there are many items, the heap of the thread grows once, and not by a page at a time: a block
/// for what all items keep is taken and given back. The C library takes the first such block from
/// the system and the next one from the thread's heap, so two are taken. If memory is short, the
/// heap grows later.
pub(crate) fn grow_heap(taken: &Vec<u32>) {
    let items = taken.capacity().min(MOST);
    if items >= MANY {
        let _ = block(*taken.allocator(), items * KEPT);
        let _ = block(*taken.allocator(), items * KEPT);
    }
}

/// The deque's own worker.
pub(crate) type Owner<N> = Worker<u32, Global, Tally, Fair<N>>;

/// A worker that has taken nothing, with room for all numbers.
pub(crate) fn ready<N: Bound, L: Linking>(
    alloc: Global,
    linking: &L,
    pass: L::Pass,
    count: u32,
) -> Result<Work<L::Pass, L::Stop>, NoMemory>
    requires named { N.bound ≡ count }
    requires room { L.room linking.now pass count }
    ensures goes { IfOk result (λ w. Goes (L.step linking.entry.now) (L.has linking.entry.now)
        (L.room linking.entry.now) N.bound pass w) }
    ensures none { IfOk result (λ w. (w.taken.items ≡ []) × (w.pass ≡ pass)) }
{
    let _linking = linking;
    Ok(Work {
        pass,
        taken: Vec::with_capacity(alloc, count as usize)?,
        stop: None,
    })
}

/// Takes a number into the list and links its item. It answers whether the worker goes on.
pub(crate) fn take_on<N: Bound, L: Linking, R: Wait>(
    rt: &R,
    linking: &L,
    work: &mut Work<L::Pass, L::Stop>,
    item: u32,
) -> bool
    requires goes { (p : L.Pass) × Goes (L.step linking.now) (L.has linking.now)
        (L.room linking.now) N.bound p work.old }
    requires few { vec_len work.old.taken < N.bound }
    requires item { (item < N.bound) × (N.bound ≤ L.items linking.now) }
    ensures taken { work.new.taken.items ≡ work.old.taken.items ++ item ∷ [] }
    ensures stop { is_some work.new.stop ≡ not result }
    ensures ended { (p : L.Pass) → Goes (L.step linking.entry.now) (L.has linking.entry.now)
        (L.room linking.entry.now) N.bound p work.old
        → Ended (L.step linking.entry.now) (L.has linking.entry.now)
        (L.room linking.entry.now) N.bound p work.new }
{
    work.taken.push_reserved(item);
    match linking.link(rt, &mut work.pass, item) {
        Ok(()) => true,
        Err(stop) => {
            work.stop = Some(stop);
            false
        }
    }
}

/// Pops until the deque is found empty or the linking stops.
pub(crate) fn pop_all<N: Bound, L: Linking, R: Wait>(
    rt: &R,
    linking: &L,
    owner: &mut Owner<N>,
    mine: &mut Work<L::Pass, L::Stop>,
)
    requires can { CanPop (L.step linking.now) (L.has linking.now) (L.room linking.now) N.bound
        owner.old mine.old }
    requires bound { N.bound ≤ L.items linking.now }
    ensures { HasPopped (L.step linking.entry.now) (L.has linking.entry.now)
        (L.room linking.entry.now) N.bound owner.old mine.old owner.new mine.new }
{
    for _ in rt.forever() {
        let Some(item) = owner.pop_as::<Taking<N>>() else {
            return;
        };
        if !take_on::<N, L, R>(rt, linking, mine, item) {
            return;
        }
    }
    unreachable!()
}

/// What a worker did, once it has ended.
pub(crate) fn finish_work<P: Drop, E: Drop>(work: Work<P, E>) -> Worked<P, E>
    ensures { result ≡ done_by work }
{
    let Work { pass, taken, stop } = work;
    Worked {
        pass,
        taken: Numbers::from_vec(taken),
        stop,
    }
}
