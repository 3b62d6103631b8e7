ghost use Rattle.std.specs.Prelude.{◌≡◌, [], ◌≢◌, None, Some};
ghost use Rattle.mh_handle.specs.Answers.{answer_in, typed_result};

use mh_form::{Calls, Slot, SlotOutcome, typed};
use mh_values::{Classes, Exc, Outcome, Ty, Value};
use std::alloc::Global;
use std::marker::Model;

/// How a call in a machine ended, with the number of keys in the recipe of the form that ran, or 0
/// if none ran. The machine has the leaf calls.
#[derive(Debug, Drop)]
pub struct Ended {
    pub outcome: Outcome,
    pub keys: u32,
}

/// How a call ended, with its leaf calls and the number of keys in the recipe of the form that ran.
/// Only a call of a handle makes an answer that returned or called a leaf.
#[derive(Debug, Drop)]
pub struct Answer {
    outcome: Outcome,
    calls: Calls,
    keys: u32,
}

impl Model for Answer {
    ghost use Rattle.mh_handle.specs.Answers.{AnswerView};

    ghost Value = { AnswerView };

    ghost view = { λ a. record { outcome = a.outcome; calls = a.calls; keys = a.keys } };
}

impl Answer {
    /// The answer of a call that throws before any form runs. It takes no memory.
    pub fn thrown(alloc: Global, e: Exc) -> Answer
        ensures { result ≡ record { outcome = Outcome.Throw e; calls = []; keys = 0 } }
    {
        Answer {
            outcome: Outcome::Throw(e),
            calls: Calls::new(alloc),
            keys: 0,
        }
    }

    pub(crate) fn new(ended: Ended, calls: Calls) -> Answer
        ensures { result ≡ answer_in ended calls }
    {
        Answer {
            outcome: ended.outcome,
            calls,
            keys: ended.keys,
        }
    }

    /// How the call ended.
    pub fn outcome(&self) -> &Outcome
        ensures { result.now ≡ self.now.outcome }
    {
        &self.outcome
    }

    /// The leaf calls, in the order in which they were made.
    pub fn calls(&self) -> &Calls
        ensures { result.now ≡ self.now.calls }
    {
        &self.calls
    }

    /// The number of keys in the recipe of the form that ran; 0 if none ran.
    pub fn keys(&self) -> u32
        ensures { result ≡ self.now.keys }
    {
        self.keys
    }
}

/// The value of a return type whose erasure is this result.
pub(crate) fn type_result(slot: Option<Slot>, ret: Option<Ty>, classes: &Classes) -> Option<Value>
    requires { typed_result classes.now ret slot ≢ None }
    ensures { typed_result classes.now ret slot ≡ Some result }
{
    match (slot, ret) {
        (None, None) => None,
        (Some(slot), Some(ty)) => Some(typed(ty, slot, classes)),
        _ => unreachable!(),
    }
}
