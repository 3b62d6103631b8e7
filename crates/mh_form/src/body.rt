ghost use Rattle.std.specs.Prelude.{◌≡◌};
ghost use Rattle.mh_form.specs.Body.{nothing};

use crate::{Basics, Names};
use mh_base::Seq;
use std::alloc::Global;

/// What a form does, apart from what its fields hold. It takes slots of these basic types, and runs
/// its names in order. It gives the slot at a place of the list that they made, or nothing.
#[derive(Drop)]
pub struct FormBody {
    pub params: Basics,
    /// How many fields the names use.
    pub fields: u32,
    pub names: Names,
    /// The place of the result.
    pub out: Option<u32>,
}

impl FormBody {
    /// The body before any edit: it takes nothing, has nothing and does nothing. It takes no
    /// memory.
    pub fn nothing(alloc: Global) -> FormBody
        ensures { result ≡ nothing }
    {
        FormBody {
            params: Seq::new(alloc),
            fields: 0,
            names: Seq::new(alloc),
            out: None,
        }
    }
}
