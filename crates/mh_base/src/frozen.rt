ghost use Rattle.std.specs.Prelude.{◌≡◌, ◌<◌, [], ◌==◌, length, slice_get, Some, IfOk};

use crate::{Copied, NoMemory, Seq, Shared};
use std::alloc::Global;
use std::marker::Model;

/// No items, or a list with several owners.
#[derive(Debug, Drop)]
enum Kept<T> {
    Nothing,
    Items(Shared<Seq<T>>),
}

/// A list that no longer changes. A copy shares its items, so it takes no memory. Contracts see the
/// list of its items.
#[derive(Debug, Drop)]
pub struct Frozen<T> {
    kept: Kept<T>,
}

impl<T> Model for Frozen<T> {
    ghost use Rattle.std.specs.Prelude.{List};

    ghost Value = { List T };

    ghost use Rattle.mh_base.specs.Frozen.{kept_items};

    ghost view = { λ s. kept_items s.kept };
}

impl<T> Frozen<T> {
    /// A list without items. It takes no memory.
    pub fn new() -> Self
        ensures { result ≡ [] }
    {
        Frozen {
            kept: Kept::Nothing,
        }
    }

    /// The items of a list, which are not copied.
    pub fn of(alloc: Global, items: Seq<T>) -> Result<Self, NoMemory>
    where
        T: Drop,
        ensures { IfOk result (λ frozen. frozen ≡ items) }
    {
        Ok(Frozen {
            kept: Kept::Items(Shared::new(alloc, items)?),
        })
    }

    /// The items as a slice.
    pub fn as_slice(&self) -> &[T]
        ensures { result.now ≡ self.now }
    {
        match &self.kept {
            Kept::Nothing => &[],
            Kept::Items(items) => items.get().as_slice(),
        }
    }

    /// The number of items.
    pub fn len(&self) -> usize
        ensures { result ≡ length self.now }
    {
        self.as_slice().len()
    }

    /// Whether there are no items.
    pub fn is_empty(&self) -> bool
        ensures { result ≡ (length self.now == 0) }
    {
        self.as_slice().is_empty()
    }

    /// The item at a place, counted from 0.
    pub fn get(&self, at: usize) -> &T
        requires { at < length self.now }
        ensures { slice_get self.now at ≡ Some result.now }
    {
        &self.as_slice()[at]
    }

    /// A copy. It takes no memory, and fails only if 2^63 owners are counted.
    pub fn copy(&self) -> Result<Frozen<T>, NoMemory>
        ensures { IfOk result (λ copy. copy ≡ self.now) }
    {
        match &self.kept {
            Kept::Nothing => Ok(Frozen::new()),
            Kept::Items(items) => {
                let items = items.share()?;
                Ok(Frozen {
                    kept: Kept::Items(items),
                })
            }
        }
    }
}

impl<T: Drop> Copied for Frozen<T> {
    fn copy(&self, _alloc: Global) -> Result<Frozen<T>, NoMemory> {
        Frozen::copy(self)
    }
}
