ghost use Rattle.std.specs.Prelude.{◌≡◌, ◌<◌, length, slice_get, Some, IfOk};
ghost use Rattle.once_cell.specs.Once.{cell_name};

use mh_base::NoMemory;
use mh_setonce::Keyed;
use once_cell::race::OnceBox;
use std::alloc::Global;
use std::marker::Model;

/// Cells in a row, for threads that share them. Each is set once and never changes again. A value
/// belongs to the cell at its key. Contracts see the names of the cells.
#[derive(Drop)]
pub struct Cells<V: Keyed<Key = u32>> {
    cells: Vec<OnceBox<V>>,
}

impl<V: Keyed<Key = u32>> Model for Cells<V> {
    ghost use Rattle.std.specs.Prelude.{ℕ, List, map};
    ghost use Rattle.once_cell.specs.Once.{cell_name};

    ghost Value = { List ℕ };

    ghost view = { λ c. map cell_name c.cells.items };
}

impl<V: Keyed<Key = u32>> Cells<V> {
    /// This many cells, none of them set.
    pub fn new(alloc: Global, count: usize) -> Result<Cells<V>, NoMemory>
        ensures { IfOk result (λ cells. length cells ≡ count) }
    {
        let mut cells = Vec::with_capacity(alloc, count)?;
        for _ in 0..count {
            cells.push_reserved(OnceBox::new(alloc));
        }
        Ok(Cells { cells })
    }

    /// How many cells there are.
    pub fn len(&self) -> usize
        ensures { result ≡ length self.now }
    {
        self.cells.len()
    }

    /// The cell at this place.
    pub(crate) fn cell(&self, at: usize) -> &OnceBox<V>
        requires { at < length self.now }
        ensures { slice_get self.entry.now at ≡ Some (cell_name result.now) }
    {
        &self.cells[at]
    }
}
