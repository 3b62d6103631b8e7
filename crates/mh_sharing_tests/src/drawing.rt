use mh_base::NoMemory;
use mh_tickets::Tickets;
use std::alloc::Global;
use std::test::Fail;

/// The numbers of three draws, and how many were drawn. A seat that was split off makes the second
/// draw.
fn drawn_in_turn(alloc: Global) -> Result<([u64; 3], u64), NoMemory> {
    let (tickets, mut seat) = Tickets::new(alloc)?;
    let mut other = tickets.split(&mut seat, 1);
    let first = tickets.draw(&mut seat);
    let second = tickets.draw(&mut other);
    let third = tickets.draw(&mut seat);
    tickets.join(&mut seat, other);
    Ok(([first, second, third], tickets.close(seat)))
}

#[test]
fn seats_that_draw_in_turn_get_one_two_and_three(rt: HostRuntime) -> Result<(), Fail> {
    assert_eq!(rt; drawn_in_turn(rt.alloc())?, ([1, 2, 3], 3));
    Ok(())
}

#[test]
fn a_counter_of_which_nothing_was_drawn_closes_at_zero(rt: HostRuntime) -> Result<(), Fail> {
    let (tickets, seat) = Tickets::new(rt.alloc())?;
    assert_eq!(rt; tickets.close(seat), 0);
    Ok(())
}
