//! Leaf methods: what a leaf is, and what each kind of leaf does.
#![tactic(auto)]

mod allowed;
mod arguments;
mod does;
mod leaf;
mod text;

pub use allowed::{is_kind_type, throws_exceptions};
pub use does::{kind_does, lacks_receiver, leaf_does};
pub use leaf::{Kind, Leaf};
pub use text::{joined, measured};
