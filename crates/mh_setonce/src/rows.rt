ghost use Rattle.std.specs.Prelude.{◌≡◌, ◌<◌, ◌≤◌, ◌+◌, [], length, slice_get, Some, IfOk, IfSome, IsTrue, OnOk};
ghost use mathlib.Core.Logic.{◌↔◌};
ghost use Rattle.once_cell.specs.Once.{cell_name};
ghost use Rattle.mh_setonce.specs.Walks.{StartsWith};
ghost use Rattle.mh_setonce.specs.Rows.{Share};

use crate::chain::Chain;
use crate::keyed::Keyed;
use crate::learnt::Learnt;
use crate::row::Row;
use crate::twice;
use mh_base::NoMemory;
use once_cell::race::OnceBox;
use std::alloc::Global;
use std::marker::Model;

/// The rows of a chain that are known to be made. Contracts see the chain, and the names of the
/// cells of these rows.
#[derive(Drop)]
pub(crate) struct Rows<'t, V: Keyed> {
    chain: &'t Chain<V>,
    known: Vec<Learnt<'t, Row<V>>>,
}

impl<'t, V: Keyed> Model for Rows<'t, V> {
    ghost use Rattle.mh_setonce.specs.Rows.{RowsView, rows_coded};

    ghost Value = { RowsView };

    ghost coded = { rows_coded };

    ghost use Rattle.mh_setonce.specs.Learnings.{nodes_of};
    ghost use Rattle.mh_setonce.specs.Rows.{AreRows, cells_of};

    ghost view = { λ r. record { chain = r.chain.now; cells = cells_of (nodes_of r.known.items) } };

    ghost invariant = { λ r. AreRows V.row_size r.chain.now r.known.items };
}

impl<'t, V: Keyed> Rows<'t, V> {
    pub(crate) fn new(alloc: Global, chain: &'t Chain<V>) -> Rows<'t, V>
        ensures { result ≡ record { chain = chain.entry.now; cells = [] } }
    {
        Rows {
            chain,
            known: Vec::new(alloc),
        }
    }

    /// How many cells the chain has.
    pub(crate) fn room(&self) -> usize
        ensures { result ≡ self.now.chain.room }
    {
        self.chain.room()
    }

    /// The same rows.
    pub(crate) fn copy(&self) -> Result<Rows<'t, V>, NoMemory>
        ensures { IfOk result (λ copy. copy ≡ self.now) }
    {
        Ok(Rows {
            chain: self.chain,
            known: twice::copied(*self.known.allocator(), self.known.as_slice())?,
        })
    }

    /// Rows of one chain are the same, as far as both are known.
    pub(crate) fn agree(&self, other: &Rows<V>)
        requires { self.now.chain ≡ other.now.chain }
        ensures { Share self.now.cells other.now.cells }
    {
        twice::meet_all(self.known.as_slice(), other.known.as_slice());
    }

    // Whether the row of the cell at this place is known.
    fn has(&self, at: usize) -> bool
        ensures { IsTrue result ↔ (at < length self.now.cells) }
    {
        at / V::row_len() < self.known.len()
    }

    // The cell at this place.
    fn cell(&self, at: usize) -> &'t OnceBox<V>
        requires { at < length self.now.cells }
        ensures { slice_get self.now.cells at ≡ Some (cell_name result.now) }
    {
        let size = V::row_len();
        let row: &'t Row<V> = self.known[at / size].node();
        row.cell(at % size)
    }

    // Learns the next row, if it was made.
    fn learn(&mut self) -> Result<bool, NoMemory>
        ensures chain { self.new.chain ≡ self.old.chain }
        ensures cells { StartsWith self.new.cells self.old.cells }
        ensures more { IfOk result (λ found. IsTrue found
            → length self.old.cells < length self.new.cells) }
    {
        let chain: &'t Chain<V> = self.chain;
        let Some(place) = chain.row(self.known.len()) else {
            return Ok(false);
        };
        let Some(row) = Learnt::look(place) else {
            return Ok(false);
        };
        self.known.reserve(1)?;
        row.node().sized();
        self.known.push_reserved(row);
        Ok(true)
    }

    // Learns the next row. It is made, unless it was made before.
    fn make(&mut self, alloc: Global) -> Result<(), NoMemory>
        requires { length self.old.cells < self.old.chain.room }
        ensures chain { self.new.chain ≡ self.old.chain }
        ensures cells { StartsWith self.new.cells self.old.cells }
        ensures more { OnOk result (length self.old.cells < length self.new.cells) }
    {
        let made = Row::boxed(alloc)?;
        let chain: &'t Chain<V> = self.chain;
        let Some(place) = chain.row(self.known.len()) else {
            unreachable!()
        };
        self.known.reserve(1)?;
        let (row, _) = Learnt::put(place, made);
        row.node().sized();
        self.known.push_reserved(row);
        Ok(())
    }

    /// The cell at this place, if its row was made.
    pub(crate) fn shown(&mut self, at: usize) -> Result<Option<&'t OnceBox<V>>, NoMemory>
        requires { at ≤ length self.old.cells }
        ensures chain { self.new.chain ≡ self.old.chain }
        ensures cells { StartsWith self.new.cells self.old.cells }
        ensures name { IfOk result (λ found. IfSome found
            (λ cell. slice_get self.new.cells at ≡ Some (cell_name cell.now))) }
    {
        if !self.has(at) && !self.learn()? {
            return Ok(None);
        }
        Ok(Some(self.cell(at)))
    }

    /// The cell at this place. Its row is made, unless it was made before.
    pub(crate) fn make_cell(&mut self, alloc: Global, at: usize) -> Result<&'t OnceBox<V>, NoMemory>
        requires next { at ≤ length self.old.cells }
        requires room { at < self.old.chain.room }
        ensures chain { self.new.chain ≡ self.old.chain }
        ensures cells { StartsWith self.new.cells self.old.cells }
        ensures name { IfOk result
            (λ cell. slice_get self.new.cells at ≡ Some (cell_name cell.now)) }
    {
        if !self.has(at) {
            self.make(alloc)?;
        }
        Ok(self.cell(at))
    }
}
