ghost use Rattle.std.specs.Prelude.{◌≡◌, ◌≤◌, ◌<◌, ◌+◌, IfOk};
ghost use Rattle.mh_intern.specs.Seats.{Holds};

use crate::types::{of_bucket_5, of_bucket_7};
use mh_base::NoMemory;
use mh_intern::{HeldType, InternError, TypeSeat, TypeTable};
use std::alloc::Global;
use std::sync::Wait;
use std::test::Fail;

/// Holds this many types of bucket 7 beside the one that is held: those with the numbers from 1 on.
fn fill<R: Wait>(
    rt: &R,
    alloc: Global,
    table: &TypeTable,
    seat: &mut TypeSeat,
    one: &HeldType,
) -> Result<(), InternError>
    requires seat { (seat.old.table ≡ table.now) × (1000 ≤ seat.old.room) }
    requires held { Holds seat.old one.now }
    ensures seat { IfOk result (λ u. (seat.new.table ≡ table.now) × (2 ≤ seat.new.room)) }
    ensures held { IfOk result (λ u. Holds seat.new one.now) }
{
    for number in 1..32 {
        table.intern(rt, alloc, seat, of_bucket_7(alloc, number)?)?;
    }
    Ok(())
}

/// Whether one more type of bucket 7 finds it full, and fits once one hold was let go.
fn fits_once_released<R: Wait>(
    rt: &R,
    alloc: Global,
    table: &TypeTable,
    seat: &mut TypeSeat,
    one: HeldType,
) -> Result<(bool, u32), InternError>
    requires seat { (seat.old.table ≡ table.now) × (2 ≤ seat.old.room) }
    requires held { Holds seat.old one }
{
    let slot = one.slot();
    let full = InternError::TypesFull { bucket: 7 };
    if table.intern(rt, alloc, seat, of_bucket_7(alloc, 32)?).err() != Some(full) {
        return Ok((false, 0));
    }
    table.release(seat, one);
    let held = table.intern(rt, alloc, seat, of_bucket_7(alloc, 32)?)?;
    Ok((held.slot() == slot, held.slot()))
}

/// Fills bucket 7, and then asks for one type more.
fn filled<R: Wait>(rt: &R, alloc: Global) -> Result<(bool, u32), InternError> {
    let (table, mut seat) = TypeTable::new(alloc)?;
    let one = table.intern(rt, alloc, &mut seat, of_bucket_7(alloc, 0)?)?;
    fill(rt, alloc, &table, &mut seat, &one)?;
    fits_once_released(rt, alloc, &table, &mut seat, one)
}

#[test]
fn a_bucket_has_32_slots_and_the_one_let_go_is_given_again(rt: HostRuntime) -> Result<(), Fail> {
    assert_eq!(rt; filled(&rt, rt.alloc())?, (true, 224));
    Ok(())
}

/// Holds 50 types of bucket 7 one after the other, twice: more than the slots that it has.
fn one_after_another<R: Wait>(
    rt: &R,
    alloc: Global,
    table: &TypeTable,
    seat: &mut TypeSeat,
) -> Result<(), InternError>
    requires { (seat.old.table ≡ table.now) × (1000 ≤ seat.old.room) }
{
    for number in 0..100 {
        let held = table.intern(rt, alloc, seat, of_bucket_7(alloc, number % 50)?)?;
        table.release(seat, held);
    }
    Ok(())
}

#[test]
fn a_type_that_was_let_go_gets_a_slot_again(rt: HostRuntime) -> Result<(), Fail> {
    let alloc = rt.alloc();
    let (table, mut seat) = TypeTable::new(alloc)?;
    one_after_another(&rt, alloc, &table, &mut seat)?;
    Ok(())
}

/// The slots of a type that is let go and asked for again, with another type of the bucket between.
fn again<R: Wait>(rt: &R, alloc: Global) -> Result<(u32, u32, u32), InternError> {
    let (table, mut seat) = TypeTable::new(alloc)?;
    let one = table.intern(rt, alloc, &mut seat, of_bucket_5(alloc, 1)?)?;
    let first = one.slot();
    table.release(&mut seat, one);
    let one = table.intern(rt, alloc, &mut seat, of_bucket_5(alloc, 1)?)?;
    let again = one.slot();
    let other = table.intern(rt, alloc, &mut seat, of_bucket_5(alloc, 2)?)?;
    Ok((first, again, other.slot()))
}

#[test]
fn a_type_keeps_its_slot_while_no_other_needs_it(rt: HostRuntime) -> Result<(), Fail> {
    assert_eq!(rt; again(&rt, rt.alloc())?, (160, 160, 161));
    Ok(())
}

#[test]
fn errors_say_what_is_the_matter(rt: HostRuntime) -> Result<(), Fail> {
    let alloc = rt.alloc();
    let full = InternError::TypesFull { bucket: 7 };
    let text = format!(in alloc; "{full}")?;
    assert_eq!(rt;
        text.as_str(),
        "the slots of bucket 7 are in use by other types"
    );
    let text = format!(in alloc; "{}", InternError::from(NoMemory))?;
    assert_eq!(rt; text.as_str(), "no memory is left");
    Ok(())
}
