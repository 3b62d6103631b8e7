ghost use Rattle.std.specs.Prelude.{◌≡◌, [], ◌∷◌, ◌++◌, ◌+◌, ◌<◌, ◌≤◌, ◌^◌, length, slice_get, Some, OnOk, IfSome};
ghost use Rattle.mh_classfile.specs.Rows.{Row};

use mh_base::{NoMemory, Seq};
use std::alloc::Global;
use std::marker::Model;

/// A bootstrap method: the index of its handle, and the place of its arguments in the list of all.
#[derive(Clone, Copy)]
pub struct Span {
    pub handle: u16,
    pub start: usize,
    pub count: u16,
}

/// The bootstrap methods of a class, with all their arguments in one list.
#[derive(Drop)]
pub struct Bootstraps {
    spans: Seq<Span>,
    arguments: Seq<u16>,
    /// How many of the arguments are those of methods that were read to their end.
    closed: usize,
}

impl Model for Bootstraps {
    ghost use Rattle.std.specs.Prelude.{◌≡◌, ℕ, List, length, map, drop, ◌≤◌, ◌<◌, ◌^◌};
    ghost use Rattle.mh_classfile.specs.Rows.{Rows};

    ghost Value = { Rows };

    ghost use Rattle.mh_classfile.specs.Rows.{row_of, AreWithin};

    ghost view = { λ b. record { closed = map (row_of b.arguments) b.spans; begun = drop b.closed b.arguments } };

    ghost invariant = { λ b. record { few : length b.spans < 2 ^ 16; within : b.closed ≤ length b.arguments; spans : AreWithin b.closed b.spans } };
}

impl Bootstraps {
    /// No bootstrap methods.
    pub fn new(alloc: Global) -> Bootstraps
        ensures { result ≡ record { closed = []; begun = [] } }
    {
        Bootstraps {
            spans: Seq::new(alloc),
            arguments: Seq::new(alloc),
            closed: 0,
        }
    }

    /// Puts an argument after those of the method that is being read.
    pub fn push(&mut self, argument: u16) -> Result<(), NoMemory>
        ensures closed { self.new.closed ≡ self.old.closed }
        ensures begun { OnOk result (self.new.begun ≡ self.old.begun ++ argument ∷ []) }
    {
        self.arguments.push(argument)?;
        Ok(())
    }

    /// Ends the method that is being read, whose handle and number of arguments are given.
    pub fn close(&mut self, handle: u16, count: u16) -> Result<(), NoMemory>
        requires count { length self.old.begun ≡ count }
        requires few { length self.old.closed + 1 < 2 ^ 16 }
        ensures closed { OnOk result (self.new.closed
            ≡ self.old.closed ++ record { handle = handle; arguments = self.old.begun } ∷ []) }
        ensures begun { OnOk result (self.new.begun ≡ []) }
    {
        let start = self.closed;
        self.spans.push(Span {
            handle,
            start,
            count,
        })?;
        self.closed = self.arguments.len();
        Ok(())
    }

    /// The number of methods that were read.
    pub fn len(&self) -> u16
        ensures { result ≡ length self.now.closed }
    {
        self.spans.len() as u16
    }

    /// The index of the handle of a method.
    pub fn handle(&self, j: u16) -> u16
        requires { j < length self.now.closed }
        ensures { IfSome (slice_get self.now.closed j) (λ row. row.handle ≡ result) }
    {
        self.spans.get(j as usize).handle
    }

    /// The number of arguments of a method.
    pub fn count(&self, j: u16) -> u16
        requires { j < length self.now.closed }
        ensures { IfSome (slice_get self.now.closed j) (λ row. length row.arguments ≡ result) }
    {
        self.spans.get(j as usize).count
    }

    /// The index of an argument of a method.
    pub fn argument(&self, j: u16, k: u16) -> u16
        requires method { j < length self.now.closed }
        requires argument { IfSome (slice_get self.now.closed j) (λ row. k < length row.arguments) }
        ensures { IfSome (slice_get self.now.closed j)
            (λ row. slice_get row.arguments k ≡ Some result) }
    {
        let span = *self.spans.get(j as usize);
        let arguments = self.arguments.as_slice();
        arguments[span.start + k as usize]
    }
}
