//! Types that are held in a table.

ghost use Rattle.std.specs.Prelude.{◌≡◌, ◌+◌, ◌≤◌, IfOk, OnOk};
ghost use Rattle.mh_intern.specs.Seats.{Holds};

use mh_base::{NoMemory, Seq};
use mh_intern::{HeldType, InternError, TypeSeat, TypeTable};
use mh_values::{ClassId, MethodTy, Primitive, Ty};
use std::alloc::Global;
use std::sync::Wait;
use std::thread::{Threads, join};

/// What is measured.
#[derive(Clone, Copy)]
pub(crate) enum Row {
    /// A method type is made, and no table asked for it.
    Made,
    /// A type is asked for that is held, and its hold released.
    Live,
    /// A type is asked for that nobody holds, and its hold released.
    Dead,
    /// A hold is copied, and the copy released.
    Duplicated,
    /// As `Live`, by one thread four times.
    OneThread,
    /// As `Live`, by four concurrent threads, each with a bucket of its own.
    FourThreads,
}

/// How many types a bucket has in these rows.
const ENTRIES: u32 = 16;

const INT: Ty = Ty::Prim(Primitive::I);

/// A type of the bucket of its return type: four ints leave a type's bucket as it is.
fn type_of(alloc: Global, ret: Option<Ty>, number: u32) -> Result<MethodTy, NoMemory> {
    let mut params = Seq::new(alloc);
    for _ in 0..number {
        params.push(INT)?;
        params.push(INT)?;
        params.push(INT)?;
        params.push(INT)?;
    }
    Ok(MethodTy { params, ret })
}

/// Makes a type this many times.
fn made(alloc: Global, turns: u32) -> Result<u64, NoMemory> {
    let mut sum: u64 = 0;
    for _ in 0..turns {
        sum = sum.wrapping_add(type_of(alloc, None, 1)?.params.len() as u64);
    }
    Ok(sum)
}

/// Asks for a type, and releases it.
fn turn<R: Wait>(
    rt: &R,
    alloc: Global,
    table: &TypeTable,
    seat: &mut TypeSeat,
    ty: MethodTy,
) -> Result<u64, InternError>
    requires seat { seat.old.table ≡ table.now }
    requires room { 2 ≤ seat.old.room }
    ensures seat { seat.new.table ≡ seat.old.table }
    ensures room { IfOk result (λ _. seat.new.room ≡ seat.old.room) }
{
    let held = table.intern(rt, alloc, seat, ty)?;
    let slot = u64::from(held.slot());
    table.release(seat, held);
    Ok(slot)
}

/// Asks for a type, and keeps its hold for good.
fn keep<R: Wait>(
    rt: &R,
    alloc: Global,
    table: &TypeTable,
    seat: &mut TypeSeat,
    ty: MethodTy,
) -> Result<(), InternError>
    requires seat { seat.old.table ≡ table.now }
    requires room { 2 ≤ seat.old.room }
    ensures seat { seat.new.table ≡ seat.old.table }
    ensures room { IfOk result (λ _. seat.new.room + 1 ≡ seat.old.room) }
{
    let _held = table.intern(rt, alloc, seat, ty)?;
    Ok(())
}

/// Holds the types of a bucket for good.
fn fill<R: Wait>(
    rt: &R,
    alloc: Global,
    table: &TypeTable,
    seat: &mut TypeSeat,
    ret: Option<Ty>,
) -> Result<(), InternError>
    requires seat { seat.old.table ≡ table.now }
    requires room { 100 ≤ seat.old.room }
    ensures seat { seat.new.table ≡ seat.old.table }
    ensures room { IfOk result (λ _. seat.new.room + 16 ≡ seat.old.room) }
{
    for number in 0..ENTRIES {
        keep(rt, alloc, table, seat, type_of(alloc, ret, number)?)?;
    }
    Ok(())
}

/// The return type of a type, which decides its bucket, and how many turns it is asked for.
#[derive(Clone, Copy)]
struct Asked {
    ret: Option<Ty>,
    turns: u32,
}

/// Asks this many times for a type and releases it.
fn turn_each<R: Wait>(
    rt: &R,
    alloc: Global,
    table: &TypeTable,
    seat: &mut TypeSeat,
    asked: Asked,
) -> Result<u64, InternError>
    requires seat { seat.old.table ≡ table.now }
    requires room { 2 ≤ seat.old.room }
    ensures seat { IfOk result (λ _. seat.new.table ≡ seat.old.table) }
    ensures room { IfOk result (λ _. seat.new.room ≡ seat.old.room) }
{
    let mut sum: u64 = 0;
    for _ in 0..asked.turns {
        let ty = type_of(alloc, asked.ret, 1)?;
        sum = sum.wrapping_add(turn(rt, alloc, table, seat, ty)?);
    }
    Ok(sum)
}

/// A bucket whose types are held. One of them is asked for this many times.
fn live<R: Wait>(
    rt: &R,
    alloc: Global,
    table: &TypeTable,
    seat: &mut TypeSeat,
    asked: Asked,
) -> Result<u64, InternError>
    requires seat { seat.old.table ≡ table.now }
    requires room { 100 ≤ seat.old.room }
{
    fill(rt, alloc, table, seat, asked.ret)?;
    turn_each(rt, alloc, table, seat, asked)
}

/// A bucket whose types nobody holds. One of them is asked for this many times.
fn dead<R: Wait>(
    rt: &R,
    alloc: Global,
    table: &TypeTable,
    seat: &mut TypeSeat,
    asked: Asked,
) -> Result<u64, InternError>
    requires seat { seat.old.table ≡ table.now }
    requires room { 100 ≤ seat.old.room }
{
    for number in 0..ENTRIES {
        let ty = type_of(alloc, asked.ret, number)?;
        turn(rt, alloc, table, seat, ty)?;
    }
    turn_each(rt, alloc, table, seat, asked)
}

/// Copies a hold, and releases the copy.
fn dup_turn(
    alloc: Global,
    table: &TypeTable,
    seat: &mut TypeSeat,
    held: &HeldType,
) -> Result<(), NoMemory>
    requires seat { seat.old.table ≡ table.now }
    requires held { Holds seat.old held.now }
    requires room { 1 ≤ seat.old.room }
    ensures same { OnOk result (seat.new ≡ seat.old) }
{
    let copy = table.dup(alloc, seat, held)?;
    table.release(seat, copy);
    Ok(())
}

/// Copies a hold this many times, and releases each copy.
fn dup_each(
    alloc: Global,
    table: &TypeTable,
    seat: &mut TypeSeat,
    held: &HeldType,
    turns: u32,
) -> Result<(), NoMemory>
    requires seat { seat.old.table ≡ table.now }
    requires held { Holds seat.old held.now }
    requires room { 1 ≤ seat.old.room }
{
    for _ in 0..turns {
        dup_turn(alloc, table, seat, held)?;
    }
    Ok(())
}

/// A hold that is copied this many times.
fn duplicated<R: Wait>(
    rt: &R,
    alloc: Global,
    table: &TypeTable,
    seat: &mut TypeSeat,
    asked: Asked,
) -> Result<u64, InternError>
    requires seat { seat.old.table ≡ table.now }
    requires room { 100 ≤ seat.old.room }
{
    let ty = type_of(alloc, asked.ret, 1)?;
    let held = table.intern(rt, alloc, seat, ty)?;
    dup_each(alloc, table, seat, &held, asked.turns)?;
    Ok(u64::from(held.slot()))
}

/// The same as `live`, by a thread with a seat of its own.
fn lane<R: Wait>(
    rt: &R,
    alloc: Global,
    table: &TypeTable,
    mut seat: TypeSeat,
    asked: Asked,
) -> Result<u64, InternError>
    requires seat { seat.table ≡ table.now }
    requires room { 100 ≤ seat.room }
{
    live(rt, alloc, table, &mut seat, asked)
}

/// Two concurrent threads.
fn two_lanes<R: Threads + Wait + Sync>(
    rt: &R,
    alloc: Global,
    table: &TypeTable,
    one: (TypeSeat, Asked),
    two: (TypeSeat, Asked),
) -> Result<u64, InternError>
    requires one { (one.0.table ≡ table.now) × (100 ≤ one.0.room) }
    requires two { (two.0.table ≡ table.now) × (100 ≤ two.0.room) }
{
    let (first, second) = join(
        rt,
        || lane(rt, alloc, table, one.0, one.1),
        || lane(rt, alloc, table, two.0, two.1),
    );
    Ok(first?.wrapping_add(second?))
}

/// Types of four buckets, whose words lie on cache lines of their own, each asked for this many
/// times.
fn four_asked(turns: u32) -> [Asked; 4] {
    let [first, second, third] = [5, 10, 20].map(|number| Ty::Class(ClassId(number)));
    [None, Some(first), Some(second), Some(third)].map(|ret| Asked { ret, turns })
}

/// One thread, which asks for the types of four buckets.
fn in_turn<R: Wait>(
    rt: &R,
    alloc: Global,
    table: &TypeTable,
    seat: &mut TypeSeat,
    turns: u32,
) -> Result<u64, InternError>
    requires seat { seat.old.table ≡ table.now }
    requires room { 1000 ≤ seat.old.room }
{
    let [a, b, c, d] = four_asked(turns);
    fill(rt, alloc, table, seat, a.ret)?;
    fill(rt, alloc, table, seat, b.ret)?;
    fill(rt, alloc, table, seat, c.ret)?;
    fill(rt, alloc, table, seat, d.ret)?;
    let mut sum = turn_each(rt, alloc, table, seat, a)?;
    sum = sum.wrapping_add(turn_each(rt, alloc, table, seat, b)?);
    sum = sum.wrapping_add(turn_each(rt, alloc, table, seat, c)?);
    Ok(sum.wrapping_add(turn_each(rt, alloc, table, seat, d)?))
}

/// Four threads. Each asks for a type of a bucket of its own.
fn beside<R: Threads + Wait + Sync>(
    rt: &R,
    alloc: Global,
    table: &TypeTable,
    seat: TypeSeat,
    turns: u32,
) -> Result<u64, InternError>
    requires seat { seat.table ≡ table.now }
    requires room { 4000 ≤ seat.room }
{
    let mut first = seat;
    let second = table.split(&mut first, 1000);
    let third = table.split(&mut first, 1000);
    let fourth = table.split(&mut first, 1000);
    let [a, b, c, d] = four_asked(turns);
    let (front, back) = join(
        rt,
        ||
            requires one { (first.table ≡ table.now) × (100 ≤ first.room) }
            requires two { (second.table ≡ table.now) × (100 ≤ second.room) }
        { two_lanes(rt, alloc, table, (first, a), (second, b)) },
        ||
            requires one { (third.table ≡ table.now) × (100 ≤ third.room) }
            requires two { (fourth.table ≡ table.now) × (100 ≤ fourth.room) }
        { two_lanes(rt, alloc, table, (third, c), (fourth, d)) },
    );
    Ok(front?.wrapping_add(back?))
}

/// The work of a row, this many times.
pub(crate) fn measured<R: Threads + Wait + Sync>(
    rt: &R,
    alloc: Global,
    row: Row,
    turns: u32,
) -> Result<u64, InternError> {
    let (table, mut seat) = TypeTable::new(alloc)?;
    let asked = Asked { ret: None, turns };
    match row {
        Row::Made => Ok(made(alloc, turns)?),
        Row::Live => live(rt, alloc, &table, &mut seat, asked),
        Row::Dead => dead(rt, alloc, &table, &mut seat, asked),
        Row::Duplicated => duplicated(rt, alloc, &table, &mut seat, asked),
        Row::OneThread => in_turn(rt, alloc, &table, &mut seat, turns),
        Row::FourThreads => beside(rt, alloc, &table, seat, turns),
    }
}
