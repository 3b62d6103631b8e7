ghost use Rattle.std.specs.Prelude.{◌≡◌, ◌+◌, ◌≤◌, length};

use mh_base::NoMemory;
use mh_tickets::{TicketSeat, Tickets};
use std::alloc::Global;
use std::test::Fail;
use std::thread::{Threads, join};

/// How many numbers a thread draws.
const DRAWS: u64 = 10_000;

/// A thread's draws.
fn draw_all(tickets: &Tickets, mut seat: TicketSeat) -> TicketSeat
    requires seat { seat.tickets ≡ tickets.now }
    requires room { 10000 ≤ seat.room }
    ensures seat { result.tickets ≡ tickets.now }
    ensures whole { result.room + length result.numbers ≡ seat.room + length seat.numbers }
{
    for _ in 0..DRAWS {
        tickets.draw(&mut seat);
    }
    seat
}

/// Two concurrent threads: their seats, joined to one.
fn draw_two<R: Threads + Sync>(
    rt: &R,
    tickets: &Tickets,
    one: TicketSeat,
    two: TicketSeat,
) -> TicketSeat
    requires one { (one.tickets ≡ tickets.now) × (10000 ≤ one.room) }
    requires two { (two.tickets ≡ tickets.now) × (10000 ≤ two.room) }
    ensures seat { result.tickets ≡ tickets.now }
    ensures whole { result.room + length result.numbers
        ≡ (one.room + length one.numbers) + (two.room + length two.numbers) }
{
    let (mut one, two) = join(rt, || draw_all(tickets, one), || draw_all(tickets, two));
    tickets.join(&mut one, two);
    one
}

/// How many numbers four threads draw. That each of 1 to that number was drawn once is what `close`
/// promises.
fn drawn_by_four<R: Threads + Sync>(rt: &R, alloc: Global) -> Result<u64, NoMemory> {
    let (tickets, mut first) = Tickets::new(alloc)?;
    let second = tickets.split(&mut first, 10_000);
    let third = tickets.split(&mut first, 10_000);
    let fourth = tickets.split(&mut first, 10_000);
    let shared = &tickets;
    let (mut front, back) = join(
        rt,
        ||
            requires one { (first.tickets ≡ shared.now) × (10000 ≤ first.room) }
            requires two { (second.tickets ≡ shared.now) × (10000 ≤ second.room) }
        { draw_two(rt, shared, first, second) },
        ||
            requires one { (third.tickets ≡ shared.now) × (10000 ≤ third.room) }
            requires two { (fourth.tickets ≡ shared.now) × (10000 ≤ fourth.room) }
        { draw_two(rt, shared, third, fourth) },
    );
    tickets.join(&mut front, back);
    Ok(tickets.close(front))
}

#[test]
fn four_threads_draw_each_number_once(rt: HostRuntime) -> Result<(), Fail> {
    assert_eq!(rt; drawn_by_four(&rt, rt.alloc())?, 4 * DRAWS);
    Ok(())
}
