ghost use Rattle.std.specs.Prelude.{◌≡◌, ℕ, ◌<◌, ◌≤◌, ◌+◌, ◌-◌, ◌++◌, ◌∷◌, [], None, All, length, map, List, vec_capacity, IfOk};
ghost use Rattle.std.specs.List.{range_with_len};
ghost use Rattle.crossbeam_deque.specs.Handles.{IsPassOf, worker_deque, worker_flavor, worker_view, stealer_deque, stealer_flavor};
ghost use Rattle.mh_seats.specs.Room.{times};
ghost use Rattle.mh_prelink.specs.Tallies.{tally, whole, NoneLeft};
ghost use Rattle.mh_prelink.specs.Lanes.{CanSteal, HasStolen, HaveWorked};
ghost use Rattle.mh_prelink.specs.Results.{all_taken, NoneStopped};
ghost use Rattle.mh_prelink.specs.Owners.{CanPop, HasPopped, TalliesGrow};
ghost use Rattle.mh_prelink.specs.Steps.{Did, Goes, Ended, done_by};

use crate::linking::Linking;
use crate::rule::{Bound, Putting, Total};
use crate::thieves::{Thief, fork_all, gather, steal_beside};
use crate::worked::{Lane, Passes, Work, Worked, Workers};
use crate::working::{MANY, Owner, finish_work, grow_heap, pop_all, ready};
use mh_base::NoMemory;
use std::alloc::Global;
use std::marker::Brand;
use std::sync::Wait;
use std::thread;
use std::thread::Threads;

// A deque of the numbers below the count, which has room for all of them.
fn filled<N: Bound>(alloc: Global, count: u32) -> Result<Owner<N>, NoMemory>
    requires named { N.bound ≡ count }
    ensures flavor { IfOk result (λ w. worker_flavor w ≡ 0) }
    ensures view { IfOk result (λ w. worker_view w ≡ tally whole (range_with_len 0 count) []) }
{
    let mut owner = Owner::<N>::fifo_as(alloc, count as usize)?;
    for number in 0..count {
        let Ok(()) = owner.push_as::<Putting>(number) else {
            unreachable!()
        };
    }
    Ok(owner)
}

// The thieves steal, each in a thread of its own.
fn stolen<N: Bound + Send + Sync, L: Linking + Sync, R: Threads + Wait + Sync>(
    rt: &R,
    linking: &L,
    thief: &Thief<N>,
    mut thieves: Vec<Lane<L::Pass, L::Stop>>,
) -> Vec<Lane<L::Pass, L::Stop>>
    requires some { 0 < length thieves.items }
    requires lanes { All (CanSteal (λ l. IsPassOf (stealer_deque thief.now) l.place)
        (L.step linking.now) (L.has linking.now) (L.room linking.now) N.bound) thieves.items }
    requires flavor { stealer_flavor thief.now ≡ 0 }
    requires bound { N.bound ≤ L.items linking.now }
    ensures { HaveWorked (HasStolen (λ l. IsPassOf (stealer_deque thief.entry.now) l.place)
        (L.step linking.entry.now) (L.has linking.entry.now)) thieves.items result.items }
{
    steal_beside::<N, L, R>(rt, linking, thief, thieves.as_mut_slice());
    thieves
}

// The deque's own worker pops.
fn popped<N: Bound, L: Linking, R: Wait>(
    rt: &R,
    linking: &L,
    mut owner: Owner<N>,
    mut mine: Work<L::Pass, L::Stop>,
) -> (Owner<N>, Work<L::Pass, L::Stop>)
    requires { CanPop (L.step linking.now) (L.has linking.now) (L.room linking.now) N.bound
        owner mine × (N.bound ≤ L.items linking.now) }
    ensures { HasPopped (L.step linking.entry.now) (L.has linking.entry.now)
        (L.room linking.entry.now) N.bound owner mine result.0 result.1 }
{
    pop_all::<N, L, R>(rt, linking, &mut owner, &mut mine);
    (owner, mine)
}

// The deque's own worker pops and the thieves steal, each in a thread of its own, until each stops
// or finds the deque empty. With few items the caller is one of them: most are done before another
// thread has started.
fn work_beside<N: Bound + Send + Sync, L: Linking + Sync, R: Threads + Wait + Sync>(
    rt: &R,
    linking: &L,
    thief: &Thief<N>,
    owner: Owner<N>,
    mine: Work<L::Pass, L::Stop>,
    thieves: Vec<Lane<L::Pass, L::Stop>>,
) -> (
    Owner<N>,
    Work<L::Pass, L::Stop>,
    Vec<Lane<L::Pass, L::Stop>>,
)
    requires mine { CanPop (L.step linking.now) (L.has linking.now) (L.room linking.now) N.bound
        owner mine }
    requires lanes { All (CanSteal (λ l. IsPassOf (stealer_deque thief.now) l.place)
        (L.step linking.now) (L.has linking.now) (L.room linking.now) N.bound) thieves.items }
    requires flavor { stealer_flavor thief.now ≡ 0 }
    requires bound { N.bound ≤ L.items linking.now }
    ensures popped { HasPopped (L.step linking.entry.now) (L.has linking.entry.now)
        (L.room linking.entry.now) N.bound owner mine result.0 result.1 }
    ensures ran { HaveWorked (HasStolen (λ l. IsPassOf (stealer_deque thief.entry.now) l.place)
        (L.step linking.entry.now) (L.has linking.entry.now)) thieves.items result.2.items }
{
    if thieves.is_empty() {
        let (owner, mine) = popped::<N, L, R>(rt, linking, owner, mine);
        return (owner, mine, thieves);
    }
    let apart = mine.taken.capacity() >= MANY;
    let pop = move ||
        requires { CanPop (L.step linking.now) (L.has linking.now) (L.room linking.now)
            N.bound owner mine × (N.bound ≤ L.items linking.now) }
        ensures { HasPopped (L.step linking.entry.now) (L.has linking.entry.now)
            (L.room linking.entry.now) N.bound owner mine result.0 result.1 }
    {
        grow_heap(&mine.taken);
        popped::<N, L, R>(rt, linking, owner, mine)
    };
    let steal = move ||
        requires { (0 < length thieves.items)
            × All (CanSteal (λ l. IsPassOf (stealer_deque thief.now) l.place)
            (L.step linking.now) (L.has linking.now) (L.room linking.now) N.bound)
            thieves.items
            × (stealer_flavor thief.now ≡ 0) × (N.bound ≤ L.items linking.now) }
        ensures { HaveWorked (HasStolen
            (λ l. IsPassOf (stealer_deque thief.entry.now) l.place)
            (L.step linking.entry.now) (L.has linking.entry.now))
            thieves.items result.items }
    { stolen::<N, L, R>(rt, linking, thief, thieves) };
    if apart {
        let ((owner, mine), thieves) = thread::join(rt, pop, steal);
        return (owner, mine, thieves);
    }
    let (thieves, (owner, mine)) = thread::join(rt, steal, pop);
    (owner, mine, thieves)
}

// Once all parts are joined again, a worker that did not stop looks whether nothing is left.
fn finish<N: Bound, L: Linking, R: Wait>(
    rt: &R,
    linking: &L,
    owner: &mut Owner<N>,
    mine: &mut Work<L::Pass, L::Stop>,
)
    requires { (mine.old.stop ≡ None → CanPop (L.step linking.now) (L.has linking.now)
        (L.room linking.now) N.bound owner.old mine.old) × (N.bound ≤ L.items linking.now) }
    ensures tallies { TalliesGrow owner.old mine.old owner.new mine.new }
    ensures did { (p : L.Pass) → Ended (L.step linking.entry.now) (L.has linking.entry.now)
        (L.room linking.entry.now) N.bound p mine.old
        → Did (L.step linking.entry.now) (L.has linking.entry.now) p (done_by mine.new) }
    ensures none_left { mine.new.stop ≡ None → NoneLeft (worker_view owner.new) }
{
    if mine.stop.is_none() {
        pop_all::<N, L, R>(rt, linking, owner, mine);
    }
}

// Links the items of the deque. All memory was taken before.
fn carry_out<N: Bound + Send + Sync, L: Linking + Sync, R: Threads + Wait + Sync>(
    rt: &R,
    linking: &L,
    owner: Owner<N>,
    thief: Thief<N>,
    mine: Work<L::Pass, L::Stop>,
    thieves: Vec<Lane<L::Pass, L::Stop>>,
    mut workers: Vec<Worked<L::Pass, L::Stop>>,
) -> Vec<Worked<L::Pass, L::Stop>>
    requires flavors { (worker_flavor owner ≡ 0) × (stealer_flavor thief ≡ 0) }
    requires deque { stealer_deque thief ≡ worker_deque owner }
    requires tally { worker_view owner
        ≡ tally (whole - length thieves.items) (range_with_len 0 N.bound) [] }
    requires few { length thieves.items < whole }
    requires mine { Goes (L.step linking.now) (L.has linking.now) (L.room linking.now) N.bound
        mine.pass mine × (mine.taken.items ≡ []) }
    requires thieves { All (CanSteal (λ l. IsPassOf (worker_deque owner) l.place)
        (L.step linking.now) (L.has linking.now) (L.room linking.now) N.bound) thieves.items }
    requires workers { (workers.items ≡ []) × (length thieves.items < vec_capacity workers) }
    requires bound { N.bound ≤ L.items linking.now }
    ensures did { HaveWorked (Did (L.step linking.entry.now) (L.has linking.entry.now))
        (mine.pass ∷ map (λ l. l.work.pass) thieves.items) result.items }
    ensures below { All (λ x. x < N.bound) (all_taken result.items) }
    ensures once { (x : ℕ) → times x (all_taken result.items) ≤ 1 }
    ensures every { NoneStopped result.items
        → (x : ℕ) → x < N.bound → times x (all_taken result.items) ≡ 1 }
{
    let (mut owner, mut mine, thieves) = work_beside::<N, L, R>(
        rt, linking, &thief, owner, mine, thieves,
    );
    gather::<N, L::Pass, L::Stop>(&mut owner, thieves, &mut workers);
    finish::<N, L, R>(rt, linking, &mut owner, &mut mine);
    owner.len_as::<Total>();
    let Ok(()) = workers.insert(0, finish_work(mine)) else {
        unreachable!()
    };
    workers
}

// As `prelink`, with the count as the bound of the rule.
fn prelink_named<N: Bound + Send + Sync, L: Linking + Sync, R: Threads + Wait + Sync>(
    rt: &R,
    alloc: Global,
    linking: &L,
    passes: Passes<L::Pass>,
    count: u32,
) -> Result<Workers<L::Pass, L::Stop>, NoMemory>
    requires named { N.bound ≡ count }
    requires workers { (0 < length passes) × (length passes ≤ 16) }
    requires items { count ≤ L.items linking.now }
    requires room { All (λ p. L.room linking.now p count) passes }
    ensures did { IfOk result (λ ws. HaveWorked (Did (L.step linking.entry.now)
        (L.has linking.entry.now)) passes ws) }
    ensures below { IfOk result (λ ws. All (λ x. x < count) (all_taken ws)) }
    ensures once { IfOk result (λ ws. (x : ℕ) → times x (all_taken ws) ≤ 1) }
    ensures every { IfOk result (λ ws. NoneStopped ws
        → (x : ℕ) → x < count → times x (all_taken ws) ≡ 1) }
{
    let mut passes = passes.into_vec();
    let workers = Vec::with_capacity(alloc, passes.len())?;
    let mut owner = filled::<N>(alloc, count)?;
    let thief = owner.stealer()?;
    let mine = ready::<N, L>(alloc, linking, passes.remove(0), count)?;
    let thieves = fork_all::<N, L>(alloc, linking, &mut owner, passes, count)?;
    let done = carry_out::<N, L, R>(rt, linking, owner, thief, mine, thieves, workers);
    Ok(Workers::from_vec(done))
}

/// Links the items below the count by as many workers as there are passes, each in a thread of its
/// own. If there are fewer than 256 items, or one worker, the caller is the first of them. Each
/// takes numbers from one deque, until it finds that empty or its linking stops; `prelink` waits
/// for all of them. All memory is taken first: if there is not enough, nothing was linked, and the
/// passes are dropped.
pub fn prelink<L: Linking + Sync, R: Threads + Wait + Sync>(
    rt: &R,
    alloc: Global,
    linking: &L,
    passes: Passes<L::Pass>,
    count: u32,
) -> Result<Workers<L::Pass, L::Stop>, NoMemory>
    requires workers { (0 < length passes) × (length passes ≤ 16) }
    requires items { count ≤ L.items linking.now }
    requires room { All (λ p. L.room linking.now p count) passes }

    // Each pass comes from the one at its place, by one step for each number of the worker's list.
    ensures did { IfOk result (λ ws. HaveWorked (Did (L.step linking.entry.now)
        (L.has linking.entry.now)) passes ws) }

    ensures below { IfOk result (λ ws. All (λ x. x < count) (all_taken ws)) }
    ensures once { IfOk result (λ ws. (x : ℕ) → times x (all_taken ws) ≤ 1) }
    ensures every { IfOk result (λ ws. NoneStopped ws
        → (x : ℕ) → x < count → times x (all_taken ws) ≡ 1) }
{
    prelink_named::<Brand, L, R>(rt, alloc, linking, passes, count)
}
