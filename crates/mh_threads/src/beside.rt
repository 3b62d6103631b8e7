ghost use Rattle.std.specs.Prelude.{ℕ, ◌+◌, ◌^◌, ◌<◌, length};
ghost use denote.Param.Send.{IsSync, IsSend};
ghost use Rattle.std.specs.Fork.{AcceptsAt, AcceptsEach, ChangesAt, ChangesEach};
ghost use Rattle.mh_threads.specs.Beside.{AreAt, AreDoneAt, IsDoneAt};

use std::sync::Wait;
use std::sync::atomic::AtomicU64;
use std::thread;
use std::thread::Threads;
use std::time::Duration;

// How long the caller waits before it starts a thread, in microseconds.
const APART: u64 = 100;

/// Calls `f` with each place and lane, each in a thread of its own. The caller starts the threads
/// one after the other, and then only waits: a thread that the system puts on the caller's
/// processor has it at once. Before each start except the first it waits for 100 microseconds, or
/// less if the wait ends early. Threads that start at the same time ask for their first memory
/// together, and then wait for each other. If a thread cannot be started, the caller makes its
/// call. The caller's stack grows with the number of lanes.
pub fn call_beside<R: Threads + Wait + Sync, L: Send, F: Fn(usize, &mut L) + Sync>(
    rt: &R,
    f: &F,
    lanes: &mut [L],
)
    requires { AcceptsEach F.Fn f.now lanes.old }
    ensures { ChangesEach F.Fn f.now lanes.old lanes.new }
{
    start_from(rt, f, 0, lanes);
}

// Calls `f` with a place and a lane.
fn call_one<L, F: Fn(usize, &mut L)>(f: &F, place: usize, lane: &mut L)
    requires { AcceptsAt F.Fn f.now place lane.old }
    ensures { ChangesAt F.Fn f.now place lane.old lane.new }
{
    f(place, lane);
}

// Starts a thread for each lane, the first of which has this place, and waits for all.
#[cycle(starting)]
fn start_from<R: Threads + Wait + Sync, L: Send, F: Fn(usize, &mut L) + Sync>(
    rt: &R,
    f: &F,
    place: usize,
    lanes: &mut [L],
)
    requires room { place + length lanes.old < 2 ^ 64 }
    requires accepts { AreAt (AcceptsAt F.Fn f.now) place lanes.old }
    ensures { AreDoneAt (ChangesAt F.Fn f.now) place lanes.old lanes.new }
{
    let Some((lane, others)) = lanes.split_first_mut() else {
        return;
    };

    if place > 0 {
        AtomicU64::new(0).park_timeout(rt, 0, Duration::from_micros(APART));
    }
    start_next(rt, f, place, lane, others);
}

// Starts a thread for a lane, and then those for the others.
#[cycle(starting)]
fn start_next<R: Threads + Wait + Sync, L: Send, F: Fn(usize, &mut L) + Sync>(
    rt: &R,
    f: &F,
    place: usize,
    lane: &mut L,
    others: &mut [L],
)
    requires room { place + 1 + length others.old < 2 ^ 64 }
    requires lane { AcceptsAt F.Fn f.now place lane.old }
    requires others { AreAt (AcceptsAt F.Fn f.now) (place + 1) others.old }
    ensures lane { IsDoneAt (ChangesAt F.Fn f.now) place lane.old lane.new }
    ensures others { AreDoneAt (ChangesAt F.Fn f.now) (place + 1) others.old others.new }
{
    let mut this = ||
        requires { IsSync F.row × IsSend L.row × AcceptsAt F.Fn f.now place lane.now }
        ensures { IsDoneAt (ChangesAt F.Fn f.entry.now) place lane.entry.now lane.exit.now }
    { call_one(f, place, lane) };
    let mut rest = ||
        requires { IsSync R.row × IsSync F.row × IsSend L.row
            × (place + 1 + length others.now < 2 ^ 64)
            × AreAt (AcceptsAt F.Fn f.now) (place + 1) others.now }
        ensures { AreDoneAt (ChangesAt F.Fn f.entry.now) (place + 1)
            others.entry.now others.exit.now }
    { start_from(rt, f, place + 1, others) };
    thread::join_mut(rt, &mut this, &mut rest);
}
