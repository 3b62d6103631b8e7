ghost use Rattle.std.specs.Prelude.{◌≡◌};

use crate::entry::{Endless, Entry, Single, Size, Wide};
use mh_base::NoMemory;
use mh_setonce::{Chain, Put, PutRefused, Walk};
use std::alloc::Global;
use std::sync::Wait;
use std::test::Fail;

/// What a put gave: who put the entry that stands in the chain, or why there is none.
#[derive(Clone, Copy, Debug, PartialEq, Eq)]
enum Answer {
    Mine,
    Theirs(u32),
    Full,
    NoMemory,
}

/// Puts an entry, which is handed back unless it becomes the chain's.
fn put<'t, S: Size, R: Wait>(
    rt: &R,
    alloc: Global,
    chain: &'t Chain<Entry<S>>,
    walk: &mut Walk<'t, Entry<S>>,
    entry: Entry<S>,
) -> Answer
    requires { walk.old.chain ≡ chain.now }
    ensures { walk.new.chain ≡ walk.old.chain }
{
    match chain.find_or_put(rt, alloc, walk, entry) {
        Ok(Put::Mine(_)) => Answer::Mine,
        Ok(Put::Theirs(node, _)) => Answer::Theirs(node.by),
        Err(PutRefused::Full(_)) => Answer::Full,
        Err(PutRefused::NoMemory(_)) => Answer::NoMemory,
    }
}

/// Who put the entry with the key that the walk finds, if it finds one.
fn found<'t, S: Size>(
    chain: &'t Chain<Entry<S>>,
    walk: &mut Walk<'t, Entry<S>>,
    key: u32,
) -> Result<Option<u32>, NoMemory>
    requires { walk.old.chain ≡ chain.now }
    ensures { walk.new.chain ≡ walk.old.chain }
{
    match chain.find(walk, &key)? {
        Some(node) => Ok(Some(node.by)),
        None => Ok(None),
    }
}

/// Whether a copy of the second walk has seen the keys 7 and 8, its length, and how many nodes of
/// it the first walk begins with.
fn copied<S: Size>(
    chain: &Chain<Entry<S>>,
    first: &Walk<Entry<S>>,
    second: &Walk<Entry<S>>,
) -> Result<(bool, bool, usize, usize), NoMemory>
    requires { (first.now.chain ≡ chain.now) × (second.now.chain ≡ chain.now) }
{
    let copy = second.copy()?;
    let (seven, eight) = (copy.seen(&7).is_some(), copy.seen(&8).is_some());
    Ok((seven, eight, copy.len(), chain.meet(first, &copy)))
}

#[test]
fn a_second_walk_finds_what_was_put_through_the_first(rt: HostRuntime) -> Result<(), Fail> {
    let alloc = rt.alloc();
    let chain: Chain<Entry<Wide>> = Chain::new(alloc, 4)?;
    let mut first = chain.walk(alloc);
    let mut second = chain.walk(alloc);
    assert_eq!(rt;
        put(&rt, alloc, &chain, &mut first, Entry::new(7, 1)),
        Answer::Mine
    );
    assert_eq!(rt; found(&chain, &mut second, 7)?, Some(1));
    assert_eq!(rt;
        put(&rt, alloc, &chain, &mut second, Entry::new(7, 2)),
        Answer::Theirs(1)
    );
    assert_eq!(rt; copied(&chain, &first, &second)?, (true, false, 1, 1));
    Ok(())
}

#[test]
fn a_full_chain_hands_the_value_back(rt: HostRuntime) -> Result<(), Fail> {
    let alloc = rt.alloc();
    let chain: Chain<Entry<Single>> = Chain::new(alloc, 2)?;
    let mut walk = chain.walk(alloc);
    assert_eq!(rt;
        put(&rt, alloc, &chain, &mut walk, Entry::new(1, 1)),
        Answer::Mine
    );
    assert_eq!(rt;
        put(&rt, alloc, &chain, &mut walk, Entry::new(9, 1)),
        Answer::Mine
    );
    assert_eq!(rt;
        put(&rt, alloc, &chain, &mut walk, Entry::new(2, 1)),
        Answer::Full
    );
    assert_eq!(rt;
        put(&rt, alloc, &chain, &mut walk, Entry::new(9, 2)),
        Answer::Theirs(1)
    );
    Ok(())
}

#[test]
fn a_copy_and_its_walk_learn_on(rt: HostRuntime) -> Result<(), Fail> {
    let alloc = rt.alloc();
    let chain: Chain<Entry<Single>> = Chain::new(alloc, 4)?;
    let mut walk = chain.walk(alloc);
    assert_eq!(rt;
        put(&rt, alloc, &chain, &mut walk, Entry::new(1, 1)),
        Answer::Mine
    );
    let mut copy = walk.copy()?;
    assert_eq!(rt;
        put(&rt, alloc, &chain, &mut copy, Entry::new(9, 2)),
        Answer::Mine
    );
    assert_eq!(rt;
        put(&rt, alloc, &chain, &mut walk, Entry::new(17, 1)),
        Answer::Mine
    );
    assert_eq!(rt; found(&chain, &mut walk, 9)?, Some(2));
    assert_eq!(rt; found(&chain, &mut copy, 17)?, Some(1));
    assert_eq!(rt; chain.meet(&walk, &copy), 3);
    Ok(())
}

#[test]
fn where_no_row_can_be_made_the_value_is_handed_back(rt: HostRuntime) -> Result<(), Fail> {
    let alloc = rt.alloc();
    let chain: Chain<Entry<Endless>> = Chain::new(alloc, 4)?;
    let mut walk = chain.walk(alloc);
    assert_eq!(rt;
        put(&rt, alloc, &chain, &mut walk, Entry::new(1, 1)),
        Answer::NoMemory
    );
    assert_eq!(rt; found(&chain, &mut walk, 1)?, None);
    Ok(())
}
