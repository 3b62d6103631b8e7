//! What is learnt of cells, which is copied and joined.

use mh_base::NoMemory;
use mh_cells::{Cells, Known};
use mh_setonce::Keyed;
use std::alloc::Global;
use std::sync::Wait;

/// As many cells as a run may have call sites.
const CELLS: u32 = 4096;

/// A value, which is the key of its cell.
#[derive(Drop)]
struct Number {
    key: u32,
}

impl Keyed for Number {
    type Key = u32;

    ghost use Rattle.std.specs.Prelude.{◌≡◌};

    ghost key_of = { λ n. n.key };

    ghost hash_of = { λ key. key };

    ghost row_size = { 1 };

    ghost keeps = { λ n key. n.key ≡ key };

    fn has_key(&self, key: &u32) -> bool {
        self.key == *key
    }

    fn same_key(&self, other: &Number) -> bool {
        self.key == other.key
    }

    fn hash(&self) -> u32 {
        self.key
    }

    fn hash_key(key: &u32) -> u32 {
        *key
    }

    fn row_len() -> usize {
        1
    }

    fn kept(&self) {}
}

/// All cells, each with its value, which is learnt.
fn all_learnt<'t, R: Wait>(
    rt: &R,
    alloc: Global,
    cells: &'t Cells<Number>,
) -> Result<Known<'t, Number>, NoMemory> {
    let mut known = Known::new(alloc, cells)?;
    for key in 0..CELLS {
        if (key as usize) < known.len() {
            let _put = known.put(rt, alloc, key, Number { key });
        }
    }
    Ok(known)
}

/// 1 if the last cell was learnt, and 0 if not.
fn last(known: &Known<Number>) -> u64 {
    let key = CELLS - 1;
    if (key as usize) < known.len() && known.seen(key).is_some() {
        1
    } else {
        0
    }
}

/// Copies what is learnt of all cells, and joins the copy, this many times.
pub(crate) fn measured<R: Wait>(rt: &R, alloc: Global, turns: u32) -> Result<u64, NoMemory> {
    let cells = Cells::new(alloc, CELLS as usize)?;
    let mut known = all_learnt(rt, alloc, &cells)?;
    let mut sum: u64 = 0;
    for _ in 0..turns {
        let copy = known.copy(alloc)?;
        sum = sum.wrapping_add(last(&copy));
        known.join(copy);
    }
    Ok(sum)
}
