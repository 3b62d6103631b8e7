ghost use Rattle.std.specs.Prelude.{◌≡◌, ◌≤◌};
ghost use Rattle.mh_handle.specs.Form.{base_form, body_of};
ghost use Rattle.mh_handle.specs.Hashes.{hash_of};

use crate::chain::ROW_LEN;
use crate::recipe::Recipe;
use mh_form::FormBody;
use mh_setonce::Keyed;
use std::alloc::Global;
use std::marker::Model;

/// A form (OpenJDK's `LambdaForm`): the body that a recipe makes, with a number of its own from 1
/// to 16,384. The base of all forms has the number 0. Contracts see the number and the recipe,
/// which determines the body.
#[derive(Drop)]
pub struct Form {
    number: u64,
    recipe: Recipe,
    body: FormBody,
}

impl Model for Form {
    ghost use Rattle.std.specs.Prelude.{◌≡◌, ◌≤◌};
    ghost use Rattle.mh_handle.specs.Form.{FormView, body_of};

    ghost Value = { FormView };

    ghost view = { λ f. record { number = f.number; recipe = f.recipe } };

    ghost invariant = { λ f. (f.body ≡ body_of f.recipe) × (f.number ≤ 16384) };
}

impl Form {
    /// The greatest number of a form.
    pub const LIMIT: u64 = 16384;

    pub(crate) fn base(alloc: Global) -> Form
        ensures { result ≡ base_form }
    {
        Form {
            number: 0,
            recipe: Recipe::empty(alloc),
            body: FormBody::nothing(alloc),
        }
    }

    pub(crate) fn new(number: u64, recipe: Recipe, body: FormBody) -> Form
        requires body { body ≡ body_of recipe }
        requires number { number ≤ 16384 }
        ensures { result ≡ record { number = number; recipe = recipe } }
    {
        Form {
            number,
            recipe,
            body,
        }
    }

    /// The form's number.
    pub fn number(&self) -> u64
        ensures number { result ≡ self.now.number }
        ensures limit { result ≤ 16384 }
    {
        self.number
    }

    /// The keys that made the form, from the base on.
    pub fn recipe(&self) -> &Recipe
        ensures { result.now ≡ self.now.recipe }
    {
        &self.recipe
    }

    /// The body of the form: what it does.
    pub fn body(&self) -> &FormBody
        ensures { result.now ≡ body_of self.now.recipe }
    {
        &self.body
    }
}

/// A chain has one form for each recipe.
impl Keyed for Form {
    type Key = Recipe;

    ghost key_of = { λ f. f.recipe };

    ghost hash_of = { hash_of };

    ghost row_size = { 128 };

    ghost keeps = { λ f recipe. f.recipe ≡ recipe };

    fn has_key(&self, key: &Recipe) -> bool {
        self.recipe.is_same(key)
    }

    fn same_key(&self, other: &Form) -> bool {
        self.recipe.is_same(&other.recipe)
    }

    fn hash(&self) -> u32 {
        self.recipe.hash()
    }

    fn hash_key(key: &Recipe) -> u32 {
        key.hash()
    }

    fn row_len() -> usize {
        ROW_LEN
    }

    fn kept(&self) {}
}
