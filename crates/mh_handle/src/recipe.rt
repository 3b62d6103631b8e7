ghost use Rattle.std.specs.Prelude.{◌≡◌, ◌<◌, ◌++◌, ◌∷◌, [], length, IfOk, IsTrue};
ghost use mathlib.Core.Logic.{◌↔◌};
ghost use Rattle.mh_handle.specs.Chains.{chain_count, chain_of};
ghost use Rattle.mh_handle.specs.Hashes.{hash_limit, hash_of};

use crate::chain::chain_then;
use crate::equality::{Same, are_same};
use crate::hash::{Hashed, mix};
use mh_base::{Copied, NoMemory, Seq};
use mh_edit::Key;
use std::alloc::Global;
use std::marker::Model;

/// The keys that made a form, from the first on. Contracts see the list of them.
#[derive(Drop)]
pub struct Recipe {
    keys: Seq<Key>,
    hash: u32,
    // The chain of a table that holds its form.
    chain: u32,
}

impl Model for Recipe {
    ghost use Rattle.std.specs.Prelude.{◌≡◌, ◌<◌, List};
    ghost use Rattle.mh_edit.specs.declared.key.Key.{Key};

    ghost Value = { List Key };

    ghost use Rattle.mh_handle.specs.Chains.{chain_count, chain_of};
    ghost use Rattle.mh_handle.specs.Hashes.{hash_limit, hash_of};

    ghost view = { λ r. r.keys };

    ghost invariant = { λ r. (r.hash ≡ hash_of r.keys) × (r.hash < hash_limit)
        × (r.chain ≡ chain_of r.keys) × (r.chain < chain_count) };
}

impl Recipe {
    /// The recipe without keys. It takes no memory.
    pub(crate) fn empty(alloc: Global) -> Recipe
        ensures { result ≡ [] }
    {
        Recipe {
            keys: Seq::new(alloc),
            hash: 0,
            chain: 0,
        }
    }

    /// This recipe and one more key.
    pub(crate) fn then(&self, alloc: Global, key: &Key) -> Result<Recipe, NoMemory>
        ensures { IfOk result (λ recipe. recipe ≡ self.now ++ key.now ∷ []) }
    {
        let mut keys = self.keys.copy()?;
        keys.push(key.copy(alloc)?)?;
        Ok(Recipe {
            keys,
            hash: self.hash_then(key),
            chain: self.chain_then(key),
        })
    }

    /// Whether this recipe is that of `start` followed by the key. It takes no memory.
    pub fn is_then(&self, start: &Recipe, key: &Key) -> bool
        ensures { IsTrue result ↔ (self.now ≡ start.now ++ key.now ∷ []) }
    {
        match self.keys.as_slice() {
            [] => false,
            [keys @ .., last] => last.is_same(key) && are_same(keys, start.keys.as_slice()),
        }
    }

    /// The hash of this recipe and one more key.
    pub(crate) fn hash_then(&self, key: &Key) -> u32
        ensures hash { result ≡ hash_of (self.now ++ key.now ∷ []) }
        ensures small { result < hash_limit }
    {
        mix(self.hash, key.hash())
    }

    /// A hash: recipes with different hashes differ.
    pub(crate) fn hash(&self) -> u32
        ensures hash { result ≡ hash_of self.now }
        ensures small { result < hash_limit }
    {
        self.hash
    }

    fn chain_then(&self, key: &Key) -> u32
        ensures chain { result ≡ chain_of (self.now ++ key.now ∷ []) }
        ensures small { result < chain_count }
    {
        chain_then(self.chain, key)
    }

    /// The chain of a table of forms that holds the form of this recipe.
    pub(crate) fn chain(&self) -> usize
        ensures chain { result ≡ chain_of self.now }
        ensures small { result < chain_count }
    {
        self.chain as usize
    }

    /// The keys, from the first on.
    pub fn keys(&self) -> &[Key]
        ensures { result.now ≡ self.now }
    {
        self.keys.as_slice()
    }

    /// How many keys there are.
    pub fn len(&self) -> usize
        ensures { result ≡ length self.now }
    {
        self.keys.len()
    }

    /// Whether both recipes are the same. It takes no memory.
    pub(crate) fn is_same(&self, other: &Recipe) -> bool
        ensures { IsTrue result ↔ (self.now ≡ other.now) }
    {
        self.hash == other.hash && self.keys.is_same(&other.keys)
    }
}
