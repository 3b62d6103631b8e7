use crate::place::Place;
use mh_attempt::Linked;

/// A call site as it is drawn: its number in the run, its place, and how it is linked.
#[derive(Clone, Copy)]
pub struct Site<'l, 't> {
    pub number: u32,
    pub place: &'l Place,
    /// The serial of the attempt that linked it.
    pub serial: u64,
    pub linked: &'l Linked<'t>,
}
