ghost use Rattle.std.specs.Prelude.{◌≡◌, ◌≤◌};
ghost use Rattle.mh_handle.specs.Passes.{IsPassOf};
ghost use Rattle.mh_handle.specs.Works.{most_held};

use mh_handle::{Answer, Form, FormPass, FormTable, Handle, Work, leaf};
use mh_intern::{TypeSeat, TypeTable};
use mh_leaves::{Leaves, read_manifest};
use mh_values::{ClassId, Exc, LeafId};
use std::alloc::Global;
use std::sync::Wait;
use std::test::Fail;
use std::thread;
use std::thread::Threads;

/// A manifest of one leaf.
pub(crate) const ONE_LEAF: &[u8] =
    b"class demo/Host java/lang/Object\nstatic demo/Host same (I)I same\n";

/// What threads share that make handles.
#[derive(Drop, Clone, Copy)]
pub(crate) struct Shared<'t> {
    pub(crate) types: &'t TypeTable,
    pub(crate) forms: &'t FormTable,
    pub(crate) leaves: &'t Leaves,
}

/// The handle of the first leaf. It holds its type in the table of types.
pub(crate) fn first_leaf<'t, R: Wait>(
    rt: &R,
    alloc: Global,
    shared: Shared<'t>,
    pass: &mut FormPass<'t>,
    seat: &mut TypeSeat,
) -> Option<Handle<'t>>
    requires pass { IsPassOf shared.forms.now pass.old }
    requires room { 1 ≤ pass.old.seat.room }
    requires seat { seat.old.table ≡ shared.types.now }
    requires holds { most_held ≤ seat.old.room }
{
    let Shared {
        types,
        forms,
        leaves,
    } = shared;
    if leaves.count() == 0 {
        return None;
    }
    let mut work = Work {
        alloc,
        types,
        seat,
        forms,
        pass,
        leaves,
    };
    let handle = leaf(&mut work, rt, LeafId(0)).ok();
    let Work {
        alloc: _,
        types: _,
        seat: _,
        forms: _,
        pass: _,
        leaves: _,
    } = work;
    handle
}

/// The number of a handle's form.
fn number(handle: &Handle<'_>) -> u64 {
    handle.form().number()
}

/// The number of a handle's form, found in two threads. The handle is sent to one of them.
fn sent<R: Threads>(rt: &R, handle: Handle<'_>) -> (u64, u64) {
    let form = handle.form();
    thread::join(rt, move || number(&handle), move || form.number())
}

#[test]
fn handles_and_forms_go_to_other_threads(rt: HostRuntime) -> Result<(), Fail> {
    let alloc = rt.alloc();
    let leaves = read_manifest(alloc, ONE_LEAF)?;
    let (types, mut seat) = TypeTable::new(alloc)?;
    let (forms, form_seat) = FormTable::new(alloc)?;
    let mut pass = forms.first_pass(alloc, form_seat)?;
    let shared = Shared {
        types: &types,
        forms: &forms,
        leaves: &leaves,
    };
    let handle = first_leaf(&rt, alloc, shared, &mut pass, &mut seat);
    let numbers = handle.map(|handle| sent(&rt, handle));
    assert_eq!(rt; numbers, Some((1, 1)));
    Ok(())
}

/// The number of the base of a table, and that of the form of a handle that another thread makes
/// with the pass and the seat, over the same tables.
fn made_beside<'t, R: Threads + Wait + Sync>(
    rt: &R,
    alloc: Global,
    shared: Shared<'t>,
    mut pass: FormPass<'t>,
    mut seat: TypeSeat,
) -> (u64, Option<u64>)
    requires pass { IsPassOf shared.forms.now pass }
    requires room { 1 ≤ pass.seat.room }
    requires seat { seat.table ≡ shared.types.now }
    requires holds { most_held ≤ seat.room }
{
    thread::join(
        rt,
        move || shared.forms.base().number(),
        move || {
            let handle = first_leaf(rt, alloc, shared, &mut pass, &mut seat);
            handle.map(|handle| number(&handle))
        },
    )
}

#[test]
fn threads_share_a_table_and_a_pass_goes_to_one(rt: HostRuntime) -> Result<(), Fail> {
    let alloc = rt.alloc();
    let leaves = read_manifest(alloc, ONE_LEAF)?;
    let (types, mut seat) = TypeTable::new(alloc)?;
    let (forms, form_seat) = FormTable::new(alloc)?;
    let pass = forms.first_pass(alloc, form_seat)?;
    let shared = Shared {
        types: &types,
        forms: &forms,
        leaves: &leaves,
    };
    let other = types.split(&mut seat, 1 << 32);
    let numbers = made_beside(&rt, alloc, shared, pass, other);
    assert_eq!(rt; numbers, (0, Some(1)));
    Ok(())
}

/// The number of leaf calls of an answer that comes from another thread.
fn answered_beside<R: Threads>(rt: &R, alloc: Global) -> usize {
    let (answer, ()) = thread::join(
        rt,
        move || Answer::thrown(alloc, Exc::bare(ClassId::ARITHMETIC)),
        || (),
    );
    answer.calls().len()
}

#[test]
fn answers_come_from_other_threads(rt: HostRuntime) -> Result<(), Fail> {
    assert_eq!(rt; answered_beside(&rt, rt.alloc()), 0);
    Ok(())
}
