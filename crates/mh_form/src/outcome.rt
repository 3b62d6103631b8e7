use crate::{Calls, Slot};
use mh_values::Exc;

/// How a run ends: with a slot, without one, or with an exception.
#[derive(Drop)]
pub enum SlotOutcome {
    Return(Option<Slot>),
    Throw(Exc),
}

/// A run: how it ended, and the leaf calls that it made, in order.
#[derive(Drop)]
pub struct Ran {
    pub outcome: SlotOutcome,
    pub calls: Calls,
}
