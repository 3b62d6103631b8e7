ghost use Rattle.std.specs.Prelude.{◌≡◌, ◌≤◌, ◌*◌, [], IfOk, IfErr, OnErr, IfSome, IfNone, slice_get, Some};
ghost use Rattle.once_cell.specs.Once.{cell_name};
ghost use Rattle.mh_setonce.specs.Views.{room_of};
ghost use Rattle.mh_setonce.specs.Walks.{StartsWith, Lacks, FindsNode, Distinct, Meet};
ghost use Rattle.mh_setonce.specs.Puts.{Puts};

use crate::keyed::Keyed;
use crate::put::{Put, PutRefused, Tried};
use crate::row::Row;
use crate::twice;
use crate::walk::Walk;
use mh_base::NoMemory;
use once_cell::race::OnceBox;
use std::alloc::Global;
use std::marker::Model;
use std::sync::Wait;

/// Cells in order, each set once; then it never changes. The nodes are their values. The cells are
/// in rows, and a row is made when its first cell is used. Contracts see the names of the boxes of
/// the rows, and how many cells there are.
#[derive(Drop)]
pub struct Chain<V: Keyed> {
    rows: Vec<OnceBox<Row<V>>>,
    room: usize,
}

impl<V: Keyed> Model for Chain<V> {
    ghost use Rattle.mh_setonce.specs.Views.{ChainView, chain_coded};

    ghost Value = { ChainView };

    ghost coded = { chain_coded };

    ghost use Rattle.std.specs.Prelude.{map};
    ghost use Rattle.once_cell.specs.Once.{cell_name};
    ghost use Rattle.mh_setonce.specs.Rows.{HasRoom};

    ghost view = { λ c. record { rows = map cell_name c.rows.items; room = c.room } };

    ghost invariant = { λ c. HasRoom V.row_size (map cell_name c.rows.items) c.room };
}

impl<V: Keyed> Chain<V> {
    /// A chain of this many cells, none of them set. It takes memory only for the boxes of its
    /// rows.
    pub fn new(alloc: Global, room: u32) -> Result<Chain<V>, NoMemory>
        ensures { IfOk result (λ chain. room_of chain ≡ room) }
    {
        let room = room as usize;
        let count = room.div_ceil(V::row_len());
        let mut rows = Vec::with_capacity(alloc, count)?;
        for _ in 0..count {
            rows.push_reserved(OnceBox::new(alloc));
        }
        Ok(Chain { rows, room })
    }

    /// A walk that has learnt nothing yet. It takes no memory.
    pub fn walk<'t>(&'t self, alloc: Global) -> Walk<'t, V>
        ensures chain { result.chain ≡ self.entry.now }
        ensures nodes { result.nodes ≡ [] }
    {
        Walk::new(alloc, self)
    }

    /// The node with the key, if the walk has learnt it or a cell shows it now. A node that the
    /// walk has learnt is answered without memory.
    pub fn find<'t>(
        &'t self,
        walk: &mut Walk<'t, V>,
        key: &V::Key,
    ) -> Result<Option<&'t V>, NoMemory>
        requires { walk.old.chain ≡ self.now }
        ensures chain { walk.new.chain ≡ walk.old.chain }
        ensures nodes { StartsWith walk.new.nodes walk.old.nodes }
        ensures once { Distinct V.key_of walk.new.nodes }
        ensures found { IfOk result (FindsNode V.key_of walk.new.nodes key.now) }
        ensures seen { OnErr result (Lacks V.key_of walk.old.nodes key.now) }
    {
        if let Some(node) = walk.seen(key) {
            return Ok(Some(node));
        }
        walk.learn()?;
        Ok(walk.seen(key))
    }

    /// The node with the value's key: the value itself, unless another one was put before it. Every
    /// refusal hands the value back.
    ///
    /// If a cell that another put has filled shows a key that the walk has already, it looks again.
    /// It takes `rt` for this.
    pub fn find_or_put<'t, R: Wait>(
        &'t self,
        rt: &R,
        alloc: Global,
        walk: &mut Walk<'t, V>,
        mut value: V,
    ) -> Result<Put<'t, V>, PutRefused<V>>
        requires { walk.old.chain ≡ self.now }
        ensures chain { walk.new.chain ≡ walk.old.chain }
        ensures nodes { StartsWith walk.new.nodes walk.old.nodes }
        ensures once { Distinct V.key_of walk.new.nodes }
        ensures put { Puts V.key_of walk.old walk.new value result }
    {
        for _ in rt.forever() {
            match put_once(alloc, walk, value) {
                Ok(put) => return put,
                Err(back) => value = back,
            }
        }
        unreachable!()
    }

    /// The length of the shorter of two walks of this chain. The other walk begins with it.
    pub fn meet(&self, a: &Walk<V>, b: &Walk<V>) -> usize
        requires { (a.now.chain ≡ self.now) × (b.now.chain ≡ self.now) }
        ensures { Meet a.now.nodes b.now.nodes result }
    {
        a.rows.agree(&b.rows);
        twice::meet_all(a.learnt.as_slice(), b.learnt.as_slice())
    }
}

// One try of a put, which hands the value back if it may be tried again.
fn put_once<'t, V: Keyed>(
    alloc: Global,
    walk: &mut Walk<'t, V>,
    value: V,
) -> Result<Result<Put<'t, V>, PutRefused<V>>, V>
    ensures chain { walk.new.chain ≡ walk.old.chain }
    ensures nodes { StartsWith walk.new.nodes walk.old.nodes }
    ensures once { Distinct V.key_of walk.new.nodes }
    ensures put { IfOk result (Puts V.key_of walk.old walk.new value) }
    ensures back { IfErr result (λ back. back ≡ value) }
{
    if walk.learn().is_err() {
        return Ok(Err(PutRefused::NoMemory(value)));
    }
    if let Some(node) = walk.same(&value) {
        return Ok(Ok(Put::Theirs(node, value)));
    }
    if walk.is_full() {
        return Ok(Err(PutRefused::Full(value)));
    }
    match walk.try_put(alloc, value) {
        Tried::Mine(node) => Ok(Ok(Put::Mine(node))),
        Tried::Again(back) => Err(back),
        Tried::NoMemory(back) => Ok(Err(PutRefused::NoMemory(back))),
    }
}

impl<V: Keyed> Chain<V> {
    pub(crate) fn room(&self) -> usize
        ensures { result ≡ room_of self.now }
    {
        self.room
    }

    /// The box of the row at this place.
    pub(crate) fn row(&self, at: usize) -> Option<&OnceBox<Row<V>>>
        ensures past { IfNone result (room_of self.entry.now ≤ at * V.row_size) }
        ensures name { IfSome result
            (λ r. slice_get self.entry.now.rows at ≡ Some (cell_name r.now)) }
    {
        if at < self.rows.len() {
            Some(&self.rows[at])
        } else {
            None
        }
    }
}
