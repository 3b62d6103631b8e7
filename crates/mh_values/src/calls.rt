use crate::{Items, LeafId};

/// One run of a leaf, with the arguments that it got, as contracts see it. No run keeps one.
#[derive(Debug, Drop)]
pub struct LeafCall {
    pub leaf: LeafId,
    pub args: Items,
}
