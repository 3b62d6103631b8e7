ghost use Rattle.std.specs.Prelude.{◌≡◌, ◌++◌, ◌∷◌, [], List, IsTrue};
ghost use mathlib.Core.Logic.{◌↔◌};
ghost use Rattle.mh_edit.specs.declared.key.Key.{Key};
ghost use Rattle.mh_handle.specs.Hashes.{hash_of};

use crate::recipe::Recipe;
use mh_edit::Key;

/// A recipe that is looked for.
pub(crate) trait Sought {
    ghost recipe: { Self → List Key };

    /// Its hash.
    fn hash(&self) -> u32
        ensures { result ≡ hash_of (recipe self.now) };

    /// Whether it is equal to this recipe. It takes no memory.
    fn is_recipe(&self, other: &Recipe) -> bool
        ensures { IsTrue result ↔ (other.now ≡ recipe self.now) };
}

impl Sought for Recipe {
    ghost recipe = { λ r. r };

    fn hash(&self) -> u32 {
        Recipe::hash(self)
    }

    fn is_recipe(&self, other: &Recipe) -> bool {
        other.is_same(self)
    }
}

/// A recipe followed by one more key.
#[derive(Clone, Copy)]
pub(crate) struct Then<'a> {
    pub(crate) recipe: &'a Recipe,
    pub(crate) key: &'a Key,
}

impl<'a> Sought for Then<'a> {
    ghost recipe = { λ t. t.recipe.now ++ t.key.now ∷ [] };

    fn hash(&self) -> u32 {
        self.recipe.hash_then(self.key)
    }

    fn is_recipe(&self, other: &Recipe) -> bool {
        other.is_then(self.recipe, self.key)
    }
}
