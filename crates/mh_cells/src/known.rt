ghost use Rattle.std.specs.Prelude.{◌≡◌, ◌≢◌, ◌<◌, length, slice_get, Some, None, IfOk, IfErr, IfSome, IfNone, OnErr};
ghost use Rattle.once_cell.specs.Once.{cell_name};
ghost use Rattle.mh_cells.specs.Values.{Finds, Keeps, LearnsAt, Puts, PutsHere, JoinedOnly, nothing_of, value_at};

use crate::cells::Cells;
use crate::learnt::Learnt;
use crate::once;
use mh_base::NoMemory;
use mh_setonce::{Keyed, Put};
use once_cell::race::OnceBox;
use std::alloc::{AllocFailed, Global};
use std::marker::Model;
use std::sync::Wait;

/// What its holder has learnt of a row of cells: for each cell its value, if it was learnt, with a
/// note of the cell. By the notes, what different threads have learnt agrees. Contracts see the
/// names of the cells, and the values.
#[derive(Drop)]
pub struct Known<'t, V: Keyed<Key = u32>> {
    cells: &'t Cells<V>,
    learnt: Vec<Option<Learnt<'t, V>>>,
}

impl<'t, V: Keyed<Key = u32>> Model for Known<'t, V> {
    ghost use Rattle.mh_cells.specs.Values.{KnownView, known_coded};

    ghost Value = { KnownView V };

    ghost coded = { known_coded V.code };

    ghost use Rattle.mh_cells.specs.Learning.{AreLearnt, values_of};

    ghost view = { λ k. record { cells = k.cells.now; values = values_of k.learnt.items } };

    ghost invariant = { λ k. AreLearnt V.key_of k.cells.now k.learnt.items };
}

impl<'t, V: Keyed<Key = u32>> Known<'t, V> {
    /// Nothing is learnt yet.
    pub fn new(alloc: Global, cells: &'t Cells<V>) -> Result<Known<'t, V>, NoMemory>
        ensures { IfOk result (λ known. known ≡ nothing_of cells.entry.now) }
    {
        let count = cells.len();
        let mut learnt = Vec::with_capacity(alloc, count)?;
        for _ in 0..count {
            learnt.push_reserved(None);
        }
        Ok(Known { cells, learnt })
    }

    /// A copy, which learns on its own.
    pub fn copy(&mut self, alloc: Global) -> Result<Known<'t, V>, NoMemory>
        ensures same { self.new ≡ self.old }
        ensures copy { IfOk result (λ copy. copy ≡ self.old) }
    {
        let count = self.learnt.len();
        let mut learnt = Vec::with_capacity(alloc, count)?;
        for at in 0..count {
            learnt.push_reserved(once::again(&mut self.learnt[at]));
        }
        Ok(Known {
            cells: self.cells,
            learnt,
        })
    }

    /// How many cells there are.
    pub fn len(&self) -> usize
        ensures cells { result ≡ length self.now.cells }
        ensures values { length self.now.values ≡ length self.now.cells }
    {
        self.learnt.len()
    }

    /// The value of a cell, if it was learnt. It takes no memory.
    pub fn seen(&self, at: u32) -> Option<&'t V>
        requires { at < length self.now.cells }
        ensures { Finds V.key_of self.now.values at result }
    {
        match &self.learnt[at as usize] {
            Some(one) => Some(one.node()),
            None => None,
        }
    }

    // The cell at this place.
    fn cell(&self, at: u32) -> &'t OnceBox<V>
        requires { at < length self.now.cells }
        ensures { slice_get self.now.cells at ≡ Some (cell_name result.now) }
    {
        let cells: &'t Cells<V> = self.cells;
        cells.cell(at as usize)
    }

    // Keeps what a cell shows, if it belongs there.
    fn keep(&mut self, at: u32, one: Learnt<'t, V>) -> Option<&'t V>
        requires new { value_at self.old.values at ≡ None }
        requires name { slice_get self.old.cells at ≡ Some one.cell }
        ensures learns { LearnsAt at self.old self.new }
        ensures found { Finds V.key_of self.new.values at result }
        ensures node { IfSome result (λ found. found.now ≡ one.entry.node) }
        ensures none { IfNone result ((V.key_of one.entry.node ≢ at) × (self.new ≡ self.old)) }
    {
        let node = one.node();
        if !node.has_key(&at) {
            return None;
        }
        self.learnt[at as usize] = Some(one);
        Some(node)
    }

    /// The value of a cell, if it was learnt or the cell shows one now. It takes no memory.
    ///
    /// No code puts a value into a cell that it does not belong to, but a cell does not say so.
    /// Such a value is skipped.
    pub fn find(&mut self, at: u32) -> Option<&'t V>
        requires { at < length self.old.cells }
        ensures learns { LearnsAt at self.old self.new }
        ensures found { Finds V.key_of self.new.values at result }
    {
        if let Some(found) = self.seen(at) {
            return Some(found);
        }
        let one = Learnt::look(self.cell(at))?;
        self.keep(at, one)
    }

    /// Puts a value into its cell, unless the cell has one. It is handed back then, and if no
    /// memory is left.
    ///
    /// A cell that shows a value that does not belong there is asked again; for that it takes `rt`.
    pub fn put<R: Wait>(
        &mut self,
        rt: &R,
        alloc: Global,
        at: u32,
        value: V,
    ) -> Result<Put<'t, V>, V>
        requires place { at < length self.old.cells }
        requires own { V.key_of value ≡ at }
        ensures learns { LearnsAt at self.old self.new }
        ensures put { Puts V.key_of self.new.values at value result }
    {
        if let Some(found) = self.seen(at) {
            return Ok(Put::Theirs(found, value));
        }
        let boxed = match Box::new(alloc, value) {
            Ok(boxed) => boxed,
            Err(AllocFailed { value }) => return Err(value),
        };
        Ok(self.put_boxed(rt, at, boxed))
    }

    // Puts a value into its cell, if nothing was learnt of that cell.
    fn put_boxed<R: Wait>(&mut self, rt: &R, at: u32, mut value: Box<V>) -> Put<'t, V>
        requires place { at < length self.old.cells }
        requires new { value_at self.old.values at ≡ None }
        requires own { V.key_of value.value ≡ at }
        ensures learns { LearnsAt at self.old self.new }
        ensures put { PutsHere V.key_of self.new.values at value.value result }
    {
        for _ in rt.forever() {
            match self.try_put(at, value) {
                Ok(put) => return put,
                Err(back) => value = back,
            }
        }
        unreachable!()
    }

    // One try of a put, which hands the value back if it may be tried again.
    fn try_put(&mut self, at: u32, value: Box<V>) -> Result<Put<'t, V>, Box<V>>
        requires place { at < length self.old.cells }
        requires new { value_at self.old.values at ≡ None }
        requires own { V.key_of value.value ≡ at }
        ensures learns { LearnsAt at self.old self.new }
        ensures put { IfOk result (PutsHere V.key_of self.new.values at value.value) }
        ensures back { IfErr result (λ back. back.value ≡ value.value) }
        ensures same { OnErr result (self.new ≡ self.old) }
    {
        let (one, back) = Learnt::put(self.cell(at), value);
        match (self.keep(at, one), back) {
            (Some(node), None) => Ok(Put::Mine(node)),
            (Some(node), Some(back)) => Ok(Put::Theirs(node, Box::into_inner(back))),
            (None, Some(back)) => Err(back),
            (None, None) => unreachable!(),
        }
    }

    /// Learns what another one has learnt of the same cells. It takes no memory.
    pub fn join(&mut self, other: Known<'t, V>)
        requires { other.cells ≡ self.old.cells }
        ensures cells { self.new.cells ≡ self.old.cells }
        ensures mine { Keeps self.old.values self.new.values }
        ensures theirs { Keeps other.entry.values self.new.values }
        ensures only { JoinedOnly self.old.values other.entry.values self.new.values }
    {
        let Known {
            cells: _,
            learnt: mut others,
        } = other;
        for at in 0..self.learnt.len() {
            once::join(&mut self.learnt[at], others[at].take());
        }
    }
}
