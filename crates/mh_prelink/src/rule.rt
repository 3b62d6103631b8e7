// The deque: its rule, and what each call of it may know.
ghost use Rattle.std.specs.Prelude.{ℕ, []};
ghost use Rattle.mh_prelink.specs.Tallies.{Balanced, tally, whole, Took, PutIn, NoneLeft, Weighed, kept_back, of_thief, both_tallies};

use crate::tally::Tally;
use crossbeam_deque::protocol::{Join, Lesson, Outcome, Protocol, Split};
use std::marker::{Brand, PhantomData};

/// How many numbers there are; a run picks it.
pub trait Bound {
    ghost bound: { ℕ };
}

impl Bound for Brand {
    ghost bound = { 0 };
}

/// The rule of a deque of the numbers below the bound.
pub struct Fair<N> {
    of: PhantomData<N>,
}

impl<N: Bound> Protocol<u32, Tally> for Fair<N> {
    ghost holds = { Balanced N.bound };

    ghost first = { tally whole [] [] };

    ghost guest = { tally 0 [] [] };
}

/// A number is put in.
pub struct Putting;

impl Outcome<u32, Tally> for Putting {
    ghost then = { PutIn };
}

/// A number is taken, or the deque is found empty.
pub struct Taking<N> {
    of: PhantomData<N>,
}

impl<N: Bound> Outcome<u32, Tally> for Taking<N> {
    ghost then = { Took N.bound };

    ghost empty = { NoneLeft };
}

/// A part goes to a thief.
pub struct Cut;

impl Split<Tally> for Cut {
    ghost left = { kept_back };

    ghost right = { λ _. of_thief };
}

/// A thief's part comes back, with what it took.
pub struct Both;

impl Join<Tally> for Both {
    ghost both = { both_tallies };

    ghost spent = { tally 0 [] [] };
}

/// What the port that has all parts learns.
pub struct Total;

impl Lesson<u32, Tally> for Total {
    ghost fact = { Weighed };
}
