use std::collections::LinkedList;

/// What a seat has drawn, and how many numbers it may still draw. Rules speak of it; no value of it
/// is made.
pub struct Drawn {
    pub numbers: LinkedList<u64>,
    pub room: u64,
}
