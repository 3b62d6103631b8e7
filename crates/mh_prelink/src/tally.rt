use std::collections::LinkedList;

/// The numbers that one port of the deque has put in and taken out, and its parts of the right to
/// know those of all ports. The rule speaks of it; no value of it is made.
pub struct Tally {
    pub parts: u64,
    pub put: LinkedList<u32>,
    pub taken: LinkedList<u32>,
}
