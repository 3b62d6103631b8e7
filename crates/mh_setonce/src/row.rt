ghost use Rattle.std.specs.Prelude.{◌≡◌, ◌≤◌, ◌<◌, length, slice_get, Some, IfOk};
ghost use Rattle.once_cell.specs.Once.{cell_name};

use crate::keyed::Keyed;
use mh_base::NoMemory;
use once_cell::race::OnceBox;
use std::alloc::Global;
use std::marker::Model;

/// A row of cells of a chain, which is made when the first of them is used. Contracts see the names
/// of the cells.
#[derive(Drop)]
pub(crate) struct Row<V: Keyed> {
    cells: Vec<OnceBox<V>>,
}

impl<V: Keyed> Model for Row<V> {
    ghost use Rattle.std.specs.Prelude.{◌≡◌, ◌≤◌, ℕ, List, length, map};
    ghost use Rattle.once_cell.specs.Once.{cell_name};

    ghost Value = { List ℕ };

    ghost view = { λ r. map cell_name r.cells.items };

    ghost invariant = { λ r. (length r.cells.items ≡ V.row_size) × (1 ≤ V.row_size) };
}

impl<V: Keyed> Row<V> {
    /// A row with no cell set.
    pub(crate) fn new(alloc: Global) -> Result<Row<V>, NoMemory>
        ensures { IfOk result (λ row. length row ≡ V.row_size) }
    {
        let size = V::row_len();
        let mut cells = Vec::with_capacity(alloc, size)?;
        for _ in 0..size {
            cells.push_reserved(OnceBox::new(alloc));
        }
        Ok(Row { cells })
    }

    /// A row with no cell set, in a box.
    pub(crate) fn boxed(alloc: Global) -> Result<Box<Row<V>>, NoMemory>
        ensures { IfOk result (λ row. length row.value ≡ V.row_size) }
    {
        Ok(Box::new(alloc, Row::new(alloc)?)?)
    }

    /// A row has as many cells as the rows of its values have, and one at least. It does nothing
    /// when it runs.
    pub(crate) fn sized(&self)
        ensures size { length self.now ≡ V.row_size }
        ensures some { 1 ≤ V.row_size }
    {
        let _cells = &self.cells;
    }

    /// The cell at this place.
    pub(crate) fn cell(&self, at: usize) -> &OnceBox<V>
        requires { at < V.row_size }
        ensures { slice_get self.entry.now at ≡ Some (cell_name result.now) }
    {
        &self.cells[at]
    }
}
