ghost use Rattle.std.specs.Prelude.{◌≡◌, ◌≢◌, [], length, IfOk, IsTrue};
ghost use mathlib.Core.Logic.{◌↔◌};
ghost use Rattle.mh_setonce.specs.Views.{room_of};
ghost use Rattle.mh_setonce.specs.Walks.{StartsWith, Lacks, Distinct, FindsNode};
ghost use Rattle.mh_setonce.specs.Puts.{TriedOnce};

use crate::chain::Chain;
use crate::keyed::Keyed;
use crate::learnt::Learnt;
use crate::places::Places;
use crate::put::Tried;
use crate::rows::Rows;
use crate::{scan, twice};
use mh_base::NoMemory;
use std::alloc::{AllocFailed, Global};
use std::marker::Model;

/// What its holder has learnt of a chain: the nodes so far, each with a note of its cell, so that
/// walks of different threads agree. Contracts see the chain and the nodes.
#[derive(Drop)]
pub struct Walk<'t, V: Keyed> {
    pub(crate) rows: Rows<'t, V>,
    pub(crate) learnt: Vec<Learnt<'t, V>>,
    places: Places,
}

impl<'t, V: Keyed> Model for Walk<'t, V> {
    ghost use Rattle.mh_setonce.specs.Views.{WalkView, walk_coded};

    ghost Value = { WalkView V };

    ghost coded = { walk_coded V.code };

    ghost use Rattle.mh_setonce.specs.Learnings.{nodes_of};
    ghost use Rattle.mh_setonce.specs.Rows.{IsWalk};

    ghost view = { λ w. record { chain = w.rows.chain; nodes = nodes_of w.learnt.items } };

    ghost invariant = { λ w. IsWalk V.key_of V.hash_of w.rows w.learnt.items w.places.hashes };
}

impl<'t, V: Keyed> Walk<'t, V> {
    pub(crate) fn new(alloc: Global, chain: &'t Chain<V>) -> Walk<'t, V>
        ensures chain { result.chain ≡ chain.entry.now }
        ensures nodes { result.nodes ≡ [] }
    {
        Walk {
            rows: Rows::new(alloc, chain),
            learnt: Vec::new(alloc),
            places: Places::new(alloc),
        }
    }

    /// How many nodes were learnt.
    pub fn len(&self) -> usize
        ensures { result ≡ length self.now.nodes }
    {
        self.learnt.len()
    }

    /// A walk that has learnt the same nodes.
    pub fn copy(&self) -> Result<Walk<'t, V>, NoMemory>
        ensures { IfOk result (λ copy. copy ≡ self.now) }
    {
        Ok(Walk {
            rows: self.rows.copy()?,
            learnt: twice::copied(*self.learnt.allocator(), self.learnt.as_slice())?,
            places: self.places.copy()?,
        })
    }

    /// The learnt node with the key.
    pub fn seen(&self, key: &V::Key) -> Option<&'t V>
        ensures once { Distinct V.key_of self.now.nodes }
        ensures seen { FindsNode V.key_of self.now.nodes key.now result }
    {
        scan::with_key(self.learnt.as_slice(), &self.places, key)
    }

    pub(crate) fn same(&self, value: &V) -> Option<&'t V>
        ensures { FindsNode V.key_of self.now.nodes (V.key_of value.now) result }
    {
        scan::with_key_of(self.learnt.as_slice(), &self.places, value)
    }

    /// Takes memory for one more node.
    pub fn reserve(&mut self) -> Result<(), NoMemory>
        ensures { self.new ≡ self.old }
    {
        scan::reserve(&mut self.learnt, &mut self.places)
    }

    // Learns the next cell, if it shows a node with a new key.
    fn step(&mut self) -> Result<bool, NoMemory>
        ensures chain { self.new.chain ≡ self.old.chain }
        ensures nodes { StartsWith self.new.nodes self.old.nodes }
        ensures once { Distinct V.key_of self.new.nodes }
    {
        let at = self.learnt.len();
        if at >= self.rows.room() {
            return Ok(false);
        }
        let Some(cell) = self.rows.shown(at)? else {
            return Ok(false);
        };
        let Some(one) = Learnt::look(cell) else {
            return Ok(false);
        };
        scan::reserve(&mut self.learnt, &mut self.places)?;
        Ok(scan::keep(&mut self.learnt, &mut self.places, one))
    }

    /// Learns what the cells show now.
    pub(crate) fn learn(&mut self) -> Result<(), NoMemory>
        ensures chain { self.new.chain ≡ self.old.chain }
        ensures nodes { StartsWith self.new.nodes self.old.nodes }
        ensures once { Distinct V.key_of self.new.nodes }
    {
        for _ in 0..self.rows.room() {
            if !self.step()? {
                break;
            }
        }
        Ok(())
    }

    /// Whether each cell of the chain was learnt.
    pub(crate) fn is_full(&self) -> bool
        ensures { IsTrue result ↔ (length self.now.nodes ≡ room_of self.now.chain) }
    {
        self.learnt.len() >= self.rows.room()
    }

    /// Puts the value into the next cell, unless that has another value by now. The walk then
    /// learns that one.
    pub(crate) fn try_put(&mut self, alloc: Global, value: V) -> Tried<'t, V>
        requires room { length self.old.nodes ≢ room_of self.old.chain }
        requires new { Lacks V.key_of self.old.nodes (V.key_of value) }
        ensures chain { self.new.chain ≡ self.old.chain }
        ensures once { Distinct V.key_of self.new.nodes }
        ensures tried { TriedOnce self.old.nodes self.new.nodes value result }
    {
        if scan::reserve(&mut self.learnt, &mut self.places).is_err() {
            return Tried::NoMemory(value);
        }
        let Ok(cell) = self.rows.make_cell(alloc, self.learnt.len()) else {
            return Tried::NoMemory(value);
        };
        let boxed = match Box::new(alloc, value) {
            Ok(boxed) => boxed,
            Err(AllocFailed { value }) => return Tried::NoMemory(value),
        };
        let (one, back) = Learnt::put(cell, boxed);
        match back {
            None => {
                let node = one.node();
                scan::add(&mut self.learnt, &mut self.places, one);
                Tried::Mine(node)
            }
            Some(back) => {
                scan::keep(&mut self.learnt, &mut self.places, one);
                Tried::Again(Box::into_inner(back))
            }
        }
    }
}
