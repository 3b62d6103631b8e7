ghost use Rattle.std.specs.Prelude.{◌≡◌, ◌<◌, ◌≤◌, length, IfOk};

use crate::entry::{Entry, Single};
use mh_base::NoMemory;
use mh_cells::{Cells, Known};
use mh_setonce::Put;
use std::alloc::Global;
use std::sync::Wait;
use std::test::Fail;
use std::thread;
use std::thread::Threads;

/// Puts an entry into the cell of its key, and answers who put the one that stands there; 0 if
/// no memory is left.
fn put<R: Wait>(rt: &R, alloc: Global, known: &mut Known<Entry<Single>>, key: u32, by: u32) -> u32
    requires { key < length known.old.cells }
    ensures { known.new.cells ≡ known.old.cells }
{
    match known.put(rt, alloc, key, Entry::new(key, by)) {
        Ok(Put::Mine(entry)) => entry.by,
        Ok(Put::Theirs(entry, _)) => entry.by,
        Err(_) => 0,
    }
}

/// Who put the entry that was learnt of this key; 0 if none was learnt.
fn seen(known: &Known<Entry<Single>>, key: u32) -> u32
    requires { key < length known.now.cells }
{
    match known.seen(key) {
        Some(entry) => entry.by,
        None => 0,
    }
}

/// Who put the entry of this key, if it was learnt or its cell shows it; 0 if none is found.
fn found(known: &mut Known<Entry<Single>>, key: u32) -> u32
    requires { key < length known.old.cells }
    ensures { known.new.cells ≡ known.old.cells }
{
    match known.find(key) {
        Some(entry) => entry.by,
        None => 0,
    }
}

#[test]
fn what_one_has_put_another_one_finds(rt: HostRuntime) -> Result<(), Fail> {
    let alloc = rt.alloc();
    let cells: Cells<Entry<Single>> = Cells::new(alloc, 4)?;
    let mut first = Known::new(alloc, &cells)?;
    let mut second = Known::new(alloc, &cells)?;
    assert_eq!(rt; put(&rt, alloc, &mut first, 3, 1), 1);
    assert_eq!(rt; (seen(&first, 3), seen(&second, 3)), (1, 0));
    assert_eq!(rt; found(&mut second, 3), 1);
    assert_eq!(rt; seen(&second, 3), 1);
    assert_eq!(rt; found(&mut second, 2), 0);
    Ok(())
}

#[test]
fn a_cell_that_is_set_is_not_set_again(rt: HostRuntime) -> Result<(), Fail> {
    let alloc = rt.alloc();
    let cells: Cells<Entry<Single>> = Cells::new(alloc, 1)?;
    let mut first = Known::new(alloc, &cells)?;
    let mut second = Known::new(alloc, &cells)?;
    assert_eq!(rt; put(&rt, alloc, &mut first, 0, 1), 1);
    assert_eq!(rt; put(&rt, alloc, &mut second, 0, 2), 1);
    assert_eq!(rt; put(&rt, alloc, &mut first, 0, 3), 1);
    Ok(())
}

#[test]
fn a_copy_learns_on_its_own(rt: HostRuntime) -> Result<(), Fail> {
    let alloc = rt.alloc();
    let cells: Cells<Entry<Single>> = Cells::new(alloc, 4)?;
    let mut known = Known::new(alloc, &cells)?;
    assert_eq!(rt; put(&rt, alloc, &mut known, 0, 1), 1);
    let mut copy = known.copy(alloc)?;
    assert_eq!(rt; put(&rt, alloc, &mut copy, 1, 2), 2);
    assert_eq!(rt; (seen(&copy, 0), seen(&known, 1)), (1, 0));
    known.join(copy);
    assert_eq!(rt;
        (seen(&known, 0), seen(&known, 1), seen(&known, 2)),
        (1, 2, 0)
    );
    Ok(())
}

/// Puts an entry of each key below a count for which there is a cell.
fn put_all<'t, R: Wait>(
    rt: &R,
    alloc: Global,
    cells: &'t Cells<Entry<Single>>,
    count: u32,
    by: u32,
) -> Result<Known<'t, Entry<Single>>, NoMemory>
    ensures { IfOk result (λ known. known.cells ≡ cells.entry.now) }
{
    let mut known = Known::new(alloc, cells)?;
    for key in 0..count {
        if (key as usize) < known.len() {
            put(rt, alloc, &mut known, key, by);
        }
    }
    Ok(known)
}

/// Two threads put an entry of each key. The answer is the first key of which they have not learnt
/// the same entry, with who put it for each; 0 if none was learnt.
fn race<R: Threads + Wait + Sync>(
    rt: &R,
    alloc: Global,
    cells: &Cells<Entry<Single>>,
    count: u32,
) -> Result<Option<(u32, u32, u32)>, NoMemory>
    requires { count ≤ length cells.now }
{
    let (a, b) = thread::join(
        rt,
        move || -> Result<Known<Entry<Single>>, NoMemory>
            ensures { IfOk result (λ known. known.cells ≡ cells.entry.now) }
        { put_all(rt, alloc, cells, count, 1) },
        move || -> Result<Known<Entry<Single>>, NoMemory>
            ensures { IfOk result (λ known. known.cells ≡ cells.entry.now) }
        { put_all(rt, alloc, cells, count, 2) },
    );
    let (a, b) = (a?, b?);
    for key in 0..count {
        let (by_a, by_b) = (seen(&a, key), seen(&b, key));
        if by_a == 0 || by_a != by_b {
            return Ok(Some((key, by_a, by_b)));
        }
    }
    Ok(None)
}

#[test]
fn threads_that_race_for_cells_have_the_same_entries(rt: HostRuntime) -> Result<(), Fail> {
    let cells: Cells<Entry<Single>> = Cells::new(rt.alloc(), 300)?;
    assert_eq!(rt; race(&rt, rt.alloc(), &cells, 300)?, None);
    Ok(())
}
