use crate::tally::Tally;
use crossbeam_deque::Pass;
use mh_base::Seq;

/// The passes that workers are given.
pub type Passes<P> = Seq<P>;

/// The numbers of items, in the order in which a worker took them.
pub type Numbers = Seq<u32>;

/// What all workers did, in the order of their passes.
pub type Workers<P, E> = Seq<Worked<P, E>>;

/// What a worker did: its pass as it is now, the numbers that it took, and what stopped it.
#[derive(Drop)]
pub struct Worked<P, E> {
    pub pass: P,
    pub taken: Numbers,
    pub stop: Option<E>,
}

/// A worker at its work. Its list has room for all numbers.
#[derive(Drop)]
pub struct Work<P, E> {
    pub pass: P,
    pub taken: Vec<u32>,
    pub stop: Option<E>,
}

/// What a thief has: its place at the deque, and its work.
#[derive(Drop)]
pub struct Lane<P, E> {
    pub place: Pass<u32, Tally>,
    pub work: Work<P, E>,
}
