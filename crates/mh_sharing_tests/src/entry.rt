ghost use Rattle.std.specs.Prelude.{◌≡◌, ◌≤◌, ◌%◌, ℕ};

use mh_setonce::Keyed;
use std::marker::PhantomData;

/// How many cells a row of entries has.
pub(crate) trait Size {
    ghost size: { ℕ };

    fn len() -> usize
        ensures size { result ≡ Self.size }
        ensures some { 1 ≤ result };
}

/// Rows as those of forms.
pub(crate) struct Wide;

impl Size for Wide {
    ghost size = { 128 };

    fn len() -> usize {
        128
    }
}

/// Rows of one cell, as those of call sites.
pub(crate) struct Single;

impl Size for Single {
    ghost size = { 1 };

    fn len() -> usize {
        1
    }
}

/// Rows that no memory holds.
pub(crate) struct Endless;

impl Size for Endless {
    ghost size = { 2305843009213693952 };

    fn len() -> usize {
        2305843009213693952
    }
}

/// An entry with a key, which `by` put.
#[derive(Drop)]
pub(crate) struct Entry<S: Size> {
    pub(crate) key: u32,
    pub(crate) by: u32,
    size: PhantomData<S>,
}

impl<S: Size> Entry<S> {
    pub(crate) fn new(key: u32, by: u32) -> Entry<S>
        ensures { (result.key ≡ key) × (result.by ≡ by) }
    {
        Entry {
            key,
            by,
            size: PhantomData,
        }
    }
}

impl<S: Size> Keyed for Entry<S> {
    type Key = u32;

    ghost key_of = { λ e. e.key };

    // Keys a and a + 8 have one hash.
    ghost hash_of = { λ key. key % 8 };

    ghost row_size = { S.size };

    ghost keeps = { λ e k. e.key ≡ k };

    fn has_key(&self, key: &u32) -> bool {
        self.key == *key
    }

    fn same_key(&self, other: &Entry<S>) -> bool {
        self.key == other.key
    }

    fn hash(&self) -> u32 {
        self.key % 8
    }

    fn hash_key(key: &u32) -> u32 {
        *key % 8
    }

    fn row_len() -> usize {
        S::len()
    }

    fn kept(&self) {}
}
