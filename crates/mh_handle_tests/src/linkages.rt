ghost use Rattle.std.specs.Prelude.{◌≡◌, ◌≤◌};

use crate::handles::{ONE_LEAF, Shared, first_leaf};
use mh_base::NoMemory;
use mh_handle::{FormTable, Handle};
use mh_intern::TypeTable;
use mh_leaves::read_manifest;
use mh_setonce::{Chain, Keyed, Put};
use std::alloc::Global;
use std::marker::Model;
use std::sync::Wait;
use std::test::Fail;
use std::thread;
use std::thread::Threads;

/// What a call site links: the number of the site, and the handle of its target. Contracts see
/// both.
#[derive(Drop)]
struct Linkage<'t> {
    site: u32,
    target: Handle<'t>,
}

impl<'t> Model for Linkage<'t> {
    ghost use Rattle.mh_handle_tests.specs.Linkages.{LinkageView};

    ghost Value = { LinkageView };

    ghost use Rattle.std.specs.Prelude.{[]};
    ghost use Rattle.mh_form.specs.contracts.field.Field as field;
    ghost use Rattle.std.specs.Coded.{codes};
    ghost use mir.Syntax.{named};

    ghost coded = { Prim.hlevel (codes, (field.the_row (record { mir = named 0; lft = [] })).coded) };

    ghost view = { λ l. record { site = l.site; target = l.target } };
}

/// A chain has one linkage for each site.
impl<'t> Keyed for Linkage<'t> {
    type Key = u32;

    ghost use Rattle.std.specs.Prelude.{◌≡◌};

    ghost key_of = { λ l. l.site };

    ghost hash_of = { λ site. site };

    ghost row_size = { 1 };

    ghost keeps = { λ l site. l.site ≡ site };

    fn has_key(&self, key: &u32) -> bool {
        self.site == *key
    }

    fn same_key(&self, other: &Linkage<'t>) -> bool {
        self.site == other.site
    }

    fn hash(&self) -> u32 {
        self.site
    }

    fn hash_key(key: &u32) -> u32
        ensures { result ≡ key.now }
    {
        *key
    }

    fn row_len() -> usize
        ensures size { result ≡ 1 }
        ensures some { 1 ≤ result }
    {
        1
    }

    fn kept(&self) {}
}

/// The number of the form of a linkage's target.
fn number(linkage: &Linkage<'_>) -> u64 {
    linkage.target.form().number()
}

/// That number, found in two threads.
fn found_beside<R: Threads>(rt: &R, linkage: &Linkage<'_>) -> (u64, u64) {
    thread::join(rt, || number(linkage), || number(linkage))
}

/// Puts a linkage of site 7 into a new chain, and finds the number of its target's form in two
/// threads.
fn put_and_found<R: Threads + Wait>(
    rt: &R,
    alloc: Global,
    target: Handle<'_>,
) -> Result<Option<(u64, u64)>, NoMemory> {
    let chain = Chain::new(alloc, 1)?;
    let mut walk = chain.walk(alloc);
    let linkage = Linkage { site: 7, target };
    match chain.find_or_put(rt, alloc, &mut walk, linkage) {
        Ok(Put::Mine(linkage)) => Ok(Some(found_beside(rt, linkage))),
        _ => Ok(None),
    }
}

#[test]
fn linkages_lie_in_a_chain_that_threads_share(rt: HostRuntime) -> Result<(), Fail> {
    let alloc = rt.alloc();
    let leaves = read_manifest(alloc, ONE_LEAF)?;
    let (types, mut seat) = TypeTable::new(alloc)?;
    let (forms, form_seat) = FormTable::new(alloc)?;
    let mut pass = forms.first_pass(alloc, form_seat)?;
    let shared = Shared {
        types: &types,
        forms: &forms,
        leaves: &leaves,
    };
    let Some(target) = first_leaf(&rt, alloc, shared, &mut pass, &mut seat) else {
        return Err("no handle of the first leaf".into());
    };
    assert_eq!(rt; put_and_found(&rt, alloc, target)?, Some((1, 1)));
    Ok(())
}
