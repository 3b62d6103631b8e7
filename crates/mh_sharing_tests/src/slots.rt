ghost use Rattle.std.specs.Prelude.{◌≡◌, ◌+◌, ◌≤◌, ◌<◌, [], IfOk};
ghost use Rattle.mh_values.specs.Same.{is_same_method_type};
ghost use Rattle.mh_seats.specs.Room.{limit};
ghost use Rattle.mh_sharing_tests.specs.Hands.{HasInHand};

use crate::types::of_bucket_7;
use mh_intern::{HeldType, InternError, TypeSeat, TypeTable};
use std::alloc::Global;
use std::sync::Wait;
use std::test::Fail;
use std::thread::{Threads, join};

/// The seat with a hold of one type.
fn hold<R: Wait>(
    rt: &R,
    alloc: Global,
    table: &TypeTable,
    mut seat: TypeSeat,
    number: u32,
) -> Result<(TypeSeat, HeldType), InternError>
    requires seat { (seat.table ≡ table.now) × (seat.holds ≡ []) × (2 ≤ seat.room) }
    requires number { number < 1000 }
    ensures hand { IfOk result (λ r. HasInHand table.now r.0 r.1) }
    ensures room { IfOk result (λ r. r.0.room + 1 ≡ seat.room) }
{
    let held = table.intern(rt, alloc, &mut seat, of_bucket_7(alloc, number)?)?;
    Ok((seat, held))
}

/// Whether two holds of seats that are joined are of one type, and how many types are held.
fn closed(
    table: TypeTable,
    mut seat: TypeSeat,
    other: TypeSeat,
    one: &HeldType,
    two: &HeldType,
) -> (bool, u32)
    requires one { HasInHand table seat one.now }
    requires two { HasInHand table other two.now }
    requires whole { seat.room + other.room + 2 ≡ limit }
    ensures { result.0 ≡ is_same_method_type one.now.entry.ty two.now.entry.ty }
{
    table.join(&mut seat, other);
    let is_same = table.same(&seat, one, two);
    (is_same, table.close(seat))
}

/// Two threads hold a type each.
fn held_by_two<R: Threads + Wait + Sync>(
    rt: &R,
    alloc: Global,
    a: u32,
    b: u32,
) -> Result<(bool, u32), InternError>
    requires { (a < 1000) × (b < 1000) }
{
    let (table, mut seat) = TypeTable::new(alloc)?;
    let other = table.split(&mut seat, 1000);
    let shared = &table;
    let (first, second) = join(
        rt,
        || hold(rt, alloc, shared, seat, a),
        || hold(rt, alloc, shared, other, b),
    );
    let (seat, one) = first?;
    let (other, two) = second?;
    Ok(closed(table, seat, other, &one, &two))
}

#[test]
fn two_threads_hold_one_slot_of_one_type(rt: HostRuntime) -> Result<(), Fail> {
    let alloc = rt.alloc();
    assert_eq!(rt;
        ("one type", held_by_two(&rt, alloc, 1, 1)?),
        ("one type", (true, 1))
    );
    assert_eq!(rt;
        ("two types", held_by_two(&rt, alloc, 1, 2)?),
        ("two types", (false, 2))
    );
    Ok(())
}
