ghost use Rattle.std.specs.Prelude.{◌≡◌, ◌+◌, ◌≤◌, [], ◌∷◌, length, IfOk};
ghost use Rattle.mh_seats.specs.Room.{limit};
ghost use Rattle.mh_sharing_tests.specs.Hands.{HasInHand, HasNewer};

use crate::types::{of_bucket_5, of_bucket_7};
use mh_base::NoMemory;
use mh_intern::{HeldType, InternError, TypeSeat, TypeTable};
use mh_values::{MethodTy, is_same_method_type};
use rand_core::utils::NextWord;
use rand_pcg::Pcg32;
use std::alloc::Global;
use std::sync::Wait;
use std::test::Fail;
use std::thread::{Threads, join};

/// A thread's seat, with the one type that it holds.
type Hand = (TypeSeat, HeldType);

/// One of 40 types of bucket 7 and 40 of bucket 5: more than the slots that a bucket has.
fn any_type(alloc: Global, random: &mut Pcg32) -> Result<MethodTy, NoMemory> {
    let number = random.next_word() % 40;
    if random.next_word() % 2 == 0 {
        of_bucket_7(alloc, number)
    } else {
        of_bucket_5(alloc, number)
    }
}

/// Lets the older of two holds go.
fn release_older(table: &TypeTable, seat: &mut TypeSeat, newer: &HeldType, held: HeldType)
    requires { HasNewer table.now seat.old newer.now held }
    ensures hand { HasInHand table.now seat.new newer.now }
    ensures room { seat.new.room ≡ seat.old.room + 1 }
{
    table.release(seat, held);
}

/// A copy of the hold in its place; another type, before the hold is let go; or another type after
/// that.
fn turn<R: Wait>(
    rt: &R,
    alloc: Global,
    table: &TypeTable,
    hand: Hand,
    random: &mut Pcg32,
) -> Result<Hand, InternError>
    requires hand { HasInHand table.now hand.0 hand.1 }
    requires room { 1 ≤ hand.0.room }
    ensures hand { IfOk result (λ h. HasInHand table.now h.0 h.1) }
    ensures room { IfOk result (λ h. h.0.room ≡ hand.0.room) }
{
    let (mut seat, held) = hand;
    match random.next_word() % 3 {
        0 => {
            let newer = table.dup(alloc, &mut seat, &held)?;
            release_older(table, &mut seat, &newer, held);
            Ok((seat, newer))
        }
        1 => {
            let newer = table.intern(rt, alloc, &mut seat, any_type(alloc, random)?)?;
            release_older(table, &mut seat, &newer, held);
            Ok((seat, newer))
        }
        _ => {
            table.release(&mut seat, held);
            let held = table.intern(rt, alloc, &mut seat, any_type(alloc, random)?)?;
            Ok((seat, held))
        }
    }
}

/// 1,000 turns of one thread.
fn play<R: Wait>(
    rt: &R,
    alloc: Global,
    table: &TypeTable,
    mut seat: TypeSeat,
    seed: u64,
) -> Result<Hand, InternError>
    requires seat { (seat.table ≡ table.now) × (seat.holds ≡ []) }
    requires room { 2 ≤ seat.room }
    ensures hand { IfOk result (λ h. HasInHand table.now h.0 h.1) }
    ensures room { IfOk result (λ h. h.0.room + 1 ≡ seat.room) }
{
    let mut random = Pcg32::new(seed, 0);
    let held = table.intern(rt, alloc, &mut seat, any_type(alloc, &mut random)?)?;
    let mut hand = (seat, held);
    for _ in 0..1000 {
        hand = turn(rt, alloc, table, hand, &mut random)?;
    }
    Ok(hand)
}

/// Two seats made one.
fn joined(table: &TypeTable, mut seat: TypeSeat, other: TypeSeat) -> TypeSeat
    requires { (seat.table ≡ table.now) × (other.table ≡ table.now) }
    ensures table { result.table ≡ table.now }
    ensures whole { result.room + length result.holds
        ≡ (seat.room + length seat.holds) + (other.room + length other.holds) }
{
    table.join(&mut seat, other);
    seat
}

/// Two concurrent threads: their seats, joined to one, and what each holds.
fn play_two<R: Threads + Wait + Sync>(
    rt: &R,
    alloc: Global,
    table: &TypeTable,
    one: TypeSeat,
    two: TypeSeat,
) -> Result<(TypeSeat, HeldType, HeldType), InternError>
    requires one { (one.table ≡ table.now) × (one.holds ≡ []) × (2 ≤ one.room) }
    requires two { (two.table ≡ table.now) × (two.holds ≡ []) × (2 ≤ two.room) }
    ensures table { IfOk result (λ r. r.0.table ≡ table.now) }
    ensures whole { IfOk result (λ r. r.0.room + length r.0.holds ≡ one.room + two.room) }
{
    let (first, second) = join(
        rt,
        || play(rt, alloc, table, one, 1),
        || play(rt, alloc, table, two, 2),
    );
    let (one, a) = first?;
    let (two, b) = second?;
    Ok((joined(table, one, two), a, b))
}

/// Whether none of the earlier holds is of this one's type.
fn is_new(held: &HeldType, earlier: &[&HeldType]) -> bool {
    !earlier
        .iter()
        .any(|one| is_same_method_type(one.ty(), held.ty()))
}

/// How many types four threads hold at the end, by their types and by the table.
fn played_by_four<R: Threads + Wait + Sync>(
    rt: &R,
    alloc: Global,
) -> Result<(u32, u32), InternError> {
    let (table, mut first) = TypeTable::new(alloc)?;
    let second = table.split(&mut first, 1000);
    let third = table.split(&mut first, 1000);
    let fourth = table.split(&mut first, 1000);
    let shared = &table;
    let (front, back) = join(
        rt,
        ||
            requires one { (first.table ≡ shared.now) × (first.holds ≡ []) × (2 ≤ first.room) }
            requires two { (second.table ≡ shared.now) × (second.holds ≡ []) × (2 ≤ second.room) }
        { play_two(rt, alloc, shared, first, second) },
        ||
            requires one { (third.table ≡ shared.now) × (third.holds ≡ []) × (2 ≤ third.room) }
            requires two { (fourth.table ≡ shared.now) × (fourth.holds ≡ []) × (2 ≤ fourth.room) }
        { play_two(rt, alloc, shared, third, fourth) },
    );
    let (seat, a, b) = front?;
    let (other, c, d) = back?;
    let types = 1
        + u32::from(is_new(&b, &[&a]))
        + u32::from(is_new(&c, &[&a, &b]))
        + u32::from(is_new(&d, &[&a, &b, &c]));
    let seat = joined(&table, seat, other);
    Ok((types, table.close(seat)))
}

#[test]
fn four_threads_hold_as_many_types_as_close_counts(rt: HostRuntime) -> Result<(), Fail> {
    let (types, closed) = played_by_four(&rt, rt.alloc())?;
    assert_eq!(rt;
        ("types of four threads", closed),
        ("types of four threads", types)
    );
    Ok(())
}
