ghost use Rattle.std.specs.Prelude.{◌≡◌};

use crate::entry::{Entry, Single, Size, Wide};
use mh_setonce::{Chain, Walk};
use std::alloc::Global;
use std::sync::Wait;
use std::test::Fail;
use std::thread;
use std::thread::Threads;

/// A walk through which this many keys were put.
fn put_all<'t, S: Size, R: Wait>(
    rt: &R,
    alloc: Global,
    chain: &'t Chain<Entry<S>>,
    count: u32,
    by: u32,
) -> Walk<'t, Entry<S>>
    ensures { result.chain ≡ chain.entry.now }
{
    let mut walk = chain.walk(alloc);
    for key in 0..count {
        let _ = chain.find_or_put(rt, alloc, &mut walk, Entry::new(key, by));
    }
    walk
}

/// How many nodes the walks of two threads share that put the same keys, and how many one has.
fn race<S: Size + Send + Sync, R: Threads + Wait + Sync>(
    rt: &R,
    alloc: Global,
    chain: &Chain<Entry<S>>,
    count: u32,
) -> (usize, usize) {
    let (a, b) = thread::join(
        rt,
        move || -> Walk<Entry<S>>
            ensures { result.chain ≡ chain.entry.now }
        { put_all(rt, alloc, chain, count, 1) },
        move || -> Walk<Entry<S>>
            ensures { result.chain ≡ chain.entry.now }
        { put_all(rt, alloc, chain, count, 2) },
    );
    (chain.meet(&a, &b), a.len())
}

#[test]
fn threads_that_race_agree_over_the_borders_of_rows(rt: HostRuntime) -> Result<(), Fail> {
    let chain: Chain<Entry<Wide>> = Chain::new(rt.alloc(), 300)?;
    let (both, len) = race(&rt, rt.alloc(), &chain, 300);
    assert!(rt; both == 300 && len == 300, "{both} of {len}");
    Ok(())
}

#[test]
fn threads_that_race_agree_in_rows_of_one_cell(rt: HostRuntime) -> Result<(), Fail> {
    let chain: Chain<Entry<Single>> = Chain::new(rt.alloc(), 64)?;
    let (both, len) = race(&rt, rt.alloc(), &chain, 40);
    assert!(rt; both == 40 && len == 40, "{both} of {len}");
    Ok(())
}
