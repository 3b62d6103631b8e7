use crate::held::Held;
use mh_prelink::{Passes, Workers, prelink};
use std::test::Fail;

/// A number that is no item: no worker stops at it.
const NOWHERE: u32 = 4_096;

/// How many workers have taken the item.
fn takers(workers: &Workers<u32, u32>, item: u32) -> usize {
    let workers = workers.as_slice().iter();
    workers
        .filter(|w| w.taken.as_slice().contains(&item))
        .count()
}

#[test]
fn no_worker_waits_for_another(rt: HostRuntime) -> Result<(), Fail> {
    let held = Held::new(7, NOWHERE);
    let passes = Passes::from_vec(vec![in rt.alloc(); 0, 0]?);
    let workers = prelink(&rt, rt.alloc(), &held, passes, 8)?;
    assert!(rt; !held.gave_up());
    assert_eq!(rt; workers.len(), 2);
    for item in 0..8 {
        assert_eq!(rt; takers(&workers, item), 1, "item {item}");
    }
    for worker in workers.as_slice() {
        let count = worker.taken.len();
        assert!(rt; count == 1 || count == 7, "{count} items");
        assert_eq!(rt; (worker.pass as usize, worker.stop), (count, None));
    }
    Ok(())
}

#[test]
fn sixteen_workers_link_one_item_once(rt: HostRuntime) -> Result<(), Fail> {
    let held = Held::new(0, NOWHERE);
    let passes = Passes::from_vec(vec![in rt.alloc(); 0; 16]?);
    let workers = prelink(&rt, rt.alloc(), &held, passes, 1)?;
    assert_eq!(rt; workers.len(), 16);
    assert_eq!(rt; takers(&workers, 0), 1);
    Ok(())
}

#[test]
fn one_worker_takes_all_in_order(rt: HostRuntime) -> Result<(), Fail> {
    let held = Held::new(0, NOWHERE);
    let passes = Passes::from_vec(vec![in rt.alloc(); 5]?);
    let workers = prelink(&rt, rt.alloc(), &held, passes, 8)?;
    assert_eq!(rt; workers.len(), 1);
    let worker = workers.get(0);
    assert_eq!(rt;
        worker.taken.as_slice(),
        [0, 1, 2, 3, 4, 5, 6, 7].as_slice()
    );
    assert_eq!(rt; (worker.pass, worker.stop), (13, None));
    Ok(())
}

#[test]
fn no_items_are_no_work(rt: HostRuntime) -> Result<(), Fail> {
    let held = Held::new(0, NOWHERE);
    let passes = Passes::from_vec(vec![in rt.alloc(); 0, 0, 0]?);
    let workers = prelink(&rt, rt.alloc(), &held, passes, 0)?;
    assert_eq!(rt; workers.len(), 3);
    assert!(rt; held.is_unused());
    Ok(())
}

#[test]
fn a_worker_that_stops_takes_no_more(rt: HostRuntime) -> Result<(), Fail> {
    let held = Held::new(0, 3);
    let passes = Passes::from_vec(vec![in rt.alloc(); 0]?);
    let workers = prelink(&rt, rt.alloc(), &held, passes, 8)?;
    assert_eq!(rt; workers.len(), 1);
    let worker = workers.get(0);
    assert_eq!(rt; worker.taken.as_slice(), [0, 1, 2, 3].as_slice());
    assert_eq!(rt; (worker.pass, worker.stop), (4, Some(3)));
    Ok(())
}

// Run with each allocation refused in turn, it shows what its name says.
#[test]
fn without_memory_nothing_is_linked(rt: HostRuntime) -> Result<(), Fail> {
    let held = Held::new(0, NOWHERE);
    let passes = Passes::from_vec(vec![in rt.alloc(); 0, 0]?);
    match prelink(&rt, rt.alloc(), &held, passes, 8) {
        Ok(workers) => assert_eq!(rt; workers.len(), 2),
        Err(_) => assert!(rt; held.is_unused()),
    }
    Ok(())
}
