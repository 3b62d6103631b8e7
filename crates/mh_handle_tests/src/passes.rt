//! Two passes over one table, one after the other and concurrently.
ghost use Rattle.std.specs.Prelude.{◌≡◌, ◌+◌, ◌≤◌, false};
ghost use Rattle.mh_edit.specs.Fit.{is_nothing};
ghost use Rattle.mh_handle.specs.Form.{body_of};
ghost use Rattle.mh_handle.specs.Passes.{IsPassOf};

use crate::edits::{more_ints, root};
use mh_base::Seq;
use mh_handle::{EditError, Form, FormPass, FormTable};
use std::alloc::Global;
use std::sync::Wait;
use std::test::Fail;
use std::thread::{Threads, join_mut};

/// How many forms are made of the form that is edited.
const EDITS: u32 = 200;

/// The numbers of the forms that take 1 to 200 ints more.
fn add_each<'t, R: Wait>(
    rt: &R,
    alloc: Global,
    table: &'t FormTable,
    form: &'t Form,
    pass: &mut FormPass<'t>,
) -> Result<Seq<u64>, EditError>
    requires made { is_nothing (body_of form.now.recipe) ≡ false }
    requires pass { IsPassOf table.now pass.old }
    requires room { 200 ≤ pass.old.seat.room }
    ensures table { pass.new.table ≡ pass.old.table }
    ensures room { pass.old.seat.room ≤ pass.new.seat.room + 200 }
{
    let mut numbers = Seq::new(alloc);
    for count in 0..EDITS {
        let edited = table.edit(rt, alloc, pass, form, more_ints(alloc, count + 1)?)?;
        numbers.push(edited.number())?;
    }
    Ok(numbers)
}

/// The numbers that two passes have for 200 forms, and those that the joined pass has for them.
#[derive(Drop)]
struct Numbers {
    one: Seq<u64>,
    two: Seq<u64>,
    joined: Seq<u64>,
    /// How many forms the joined pass has asked for.
    asked: u32,
    /// The number of the next form.
    next: u64,
}

/// What a pass has for the forms after a join.
fn after_join<'t, R: Wait>(
    rt: &R,
    alloc: Global,
    table: &'t FormTable,
    form: &'t Form,
    pass: &mut FormPass<'t>,
) -> Result<(Seq<u64>, u32, u64), EditError>
    requires made { is_nothing (body_of form.now.recipe) ≡ false }
    requires pass { IsPassOf table.now pass.old }
    requires room { 201 ≤ pass.old.seat.room }
{
    let numbers = add_each(rt, alloc, table, form, pass)?;
    let asked = pass.len();
    let next = table.edit(rt, alloc, pass, form, more_ints(alloc, EDITS + 1)?)?;
    Ok((numbers, asked, next.number()))
}

/// Two passes edit one form by the same keys, one pass after the other.
fn in_turn<'t, R: Wait>(
    rt: &R,
    alloc: Global,
    table: &'t FormTable,
    mut one: FormPass<'t>,
    mut two: FormPass<'t>,
) -> Result<Numbers, EditError>
    requires one { IsPassOf table.now one × (402 ≤ one.seat.room) }
    requires two { IsPassOf table.now two × (402 ≤ two.seat.room) }
{
    let form = root(rt, alloc, table, &mut one, 0)?;
    let a = add_each(rt, alloc, table, form, &mut one)?;
    let b = add_each(rt, alloc, table, form, &mut two)?;
    table.join(&mut one, two)?;
    let (joined, asked, next) = after_join(rt, alloc, table, form, &mut one)?;
    Ok(Numbers {
        one: a,
        two: b,
        joined,
        asked,
        next,
    })
}

/// Two passes edit one form by the same keys, each in a thread of its own.
fn beside<'t, R: Threads + Wait + Sync>(
    rt: &R,
    alloc: Global,
    table: &'t FormTable,
    mut one: FormPass<'t>,
    mut two: FormPass<'t>,
) -> Result<Numbers, EditError>
    requires one { IsPassOf table.now one × (402 ≤ one.seat.room) }
    requires two { IsPassOf table.now two × (402 ≤ two.seat.room) }
{
    let form = root(rt, alloc, table, &mut one, 0)?;
    let (a, b) = join_mut(
        rt,
        &mut || add_each(rt, alloc, table, form, &mut two),
        &mut || add_each(rt, alloc, table, form, &mut one),
    );
    let (a, b) = (b?, a?);
    table.join(&mut one, two)?;
    let (joined, asked, next) = after_join(rt, alloc, table, form, &mut one)?;
    Ok(Numbers {
        one: a,
        two: b,
        joined,
        asked,
        next,
    })
}

/// The first number that is there twice.
fn first_twice(numbers: &[u64]) -> Option<u64> {
    for (at, number) in numbers.iter().enumerate() {
        if numbers[..at].contains(number) {
            return Some(*number);
        }
    }
    None
}

/// The numbers that two passes have for forms of a new table.
fn edited_in_turn<R: Wait>(rt: &R, alloc: Global) -> Result<Numbers, EditError> {
    let (table, seat) = FormTable::new(alloc)?;
    let mut pass = table.first_pass(alloc, seat)?;
    let other = table.split(alloc, &mut pass)?;
    in_turn(rt, alloc, &table, pass, other)
}

#[test]
fn a_pass_finds_what_another_one_has_put(rt: HostRuntime) -> Result<(), Fail> {
    let numbers = edited_in_turn(&rt, rt.alloc())?;
    assert_eq!(rt; numbers.one.as_slice(), numbers.two.as_slice());
    assert_eq!(rt; numbers.one.as_slice(), numbers.joined.as_slice());
    assert_eq!(rt; numbers.asked, 1 + EDITS);
    // The form that is edited has the number 1, and those made of it 2 to 201.
    assert_eq!(rt; numbers.next, 202);
    Ok(())
}

/// The numbers that two passes, each in a thread, have for forms of a new table.
fn edited_beside<R: Threads + Wait + Sync>(rt: &R, alloc: Global) -> Result<Numbers, EditError> {
    let (table, seat) = FormTable::new(alloc)?;
    let mut pass = table.first_pass(alloc, seat)?;
    let other = table.split(alloc, &mut pass)?;
    beside(rt, alloc, &table, pass, other)
}

#[test]
fn two_threads_that_edit_by_the_same_keys_have_the_same_forms(rt: HostRuntime) -> Result<(), Fail> {
    let numbers = edited_beside(&rt, rt.alloc())?;
    assert_eq!(rt; numbers.one.as_slice(), numbers.two.as_slice());
    assert_eq!(rt; numbers.one.as_slice(), numbers.joined.as_slice());
    assert_eq!(rt; first_twice(numbers.joined.as_slice()), None);
    assert_eq!(rt; numbers.asked, 1 + EDITS);
    // A number that a thread drew for a form that the other had put first is no form's.
    assert!(rt; (202..=402).contains(&numbers.next), "{}", numbers.next);
    Ok(())
}
