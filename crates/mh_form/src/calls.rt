ghost use Rattle.std.specs.Prelude.{◌≡◌, ◌<◌, ◌==◌, ◌++◌, ◌∷◌, List, [], OnErr, OnOk, Some, drop, length, option_map, slice_get};
ghost use Rattle.mh_values.specs.declared.value.Value.{Value};
ghost use Rattle.mh_form.specs.Erasure.{typed_at};
ghost use Rattle.mh_form.specs.Noted.{or_none};

use crate::{Operands, Slot};
use mh_base::{NoMemory, clear_within};
use mh_values::{Classes, LeafId, Tys};
use std::alloc::Global;
use std::fmt;
use std::marker::Model;
use std::snapshot::Snapshot;

/// The most leaf calls for which a cleared list keeps room.
const MOST_CALLS_KEPT: usize = 1_024;

/// What is kept of a leaf call: the number of its leaf. Contracts also see its arguments, which are
/// the values that slots at places of the run stood for.
#[derive(Drop)]
struct Noted {
    leaf: LeafId,
    slots: Snapshot<Vec<Slot>>,
    base: Snapshot<usize>,
    types: Snapshot<Tys>,
    places: Snapshot<Operands>,
    classes: Snapshot<Classes>,
}

impl Model for Noted {
    ghost use Rattle.std.specs.Prelude.{drop};
    ghost use Rattle.mh_values.specs.declared.calls.LeafCall.{LeafCall};
    ghost use Rattle.mh_form.specs.Erasure.{typed_at};
    ghost use Rattle.mh_form.specs.Noted.{or_none};

    ghost Value = { LeafCall };

    ghost view = { λ c. record {
      leaf = c.leaf;
      args = or_none
          (typed_at c.classes.value (drop c.base.value c.slots.value.items) c.types.value c.places.value);
    } };
}

impl Noted {
    // A run of a leaf of these types on the slots at these places, counted from a base.
    #[inline(always)]
    fn of(
        leaf: LeafId,
        slots: &Vec<Slot>,
        base: &usize,
        types: &Tys,
        places: &Operands,
        classes: &Classes,
    ) -> Noted
        ensures { result ≡ record {
          leaf = leaf;
          args = or_none (typed_at classes.now (drop base.now slots.now.items) types.now places.now);
        } }
    {
        Noted {
            leaf,
            slots: Snapshot::of(slots),
            base: Snapshot::of(base),
            types: Snapshot::of(types),
            places: Snapshot::of(places),
            classes: Snapshot::of(classes),
        }
    }

    // The leaf.
    fn leaf(&self) -> LeafId
        ensures { result ≡ self.now.leaf }
    {
        self.leaf
    }
}

impl fmt::Debug for Noted {
    fn fmt<W: fmt::Write>(&self, f: &mut fmt::Formatter<W>) -> fmt::Result {
        fmt::Debug::fmt(&self.leaf, f)
    }
}

/// Leaf calls, in the order in which they were made. Only the number of the leaf is kept of each.
/// Contracts see the list of the calls, with their arguments.
#[derive(Debug, Drop)]
pub struct Calls {
    calls: Vec<Noted>,
}

impl Model for Calls {
    ghost use Rattle.std.specs.Prelude.{List};
    ghost use Rattle.mh_values.specs.declared.calls.LeafCall.{LeafCall};

    ghost Value = { List LeafCall };

    ghost view = { λ c. c.calls.items };
}

impl Calls {
    /// No calls. They take no memory.
    pub fn new(alloc: Global) -> Calls
        ensures { result ≡ [] }
    {
        Calls {
            calls: Vec::new(alloc),
        }
    }

    /// The number of calls.
    #[inline(always)]
    pub fn len(&self) -> usize
        ensures { result ≡ length self.now }
    {
        self.calls.len()
    }

    /// Whether there are no calls.
    pub fn is_empty(&self) -> bool
        ensures { result ≡ (length self.now == 0) }
    {
        self.len() == 0
    }

    /// The leaf of the call at a place, counted from 0.
    pub fn leaf(&self, at: usize) -> LeafId
        requires { at < length self.now }
        ensures { option_map (λ call. call.leaf) (slice_get self.now at) ≡ Some result }
    {
        self.calls[at].leaf()
    }

    /// Puts a call at the end, of a leaf of these types on the slots at these places, counted from
    /// a base. If no memory is left, nothing is put there.
    #[inline(always)]
    pub(crate) fn push(
        &mut self,
        leaf: LeafId,
        slots: &Vec<Slot>,
        base: &usize,
        types: &Tys,
        places: &Operands,
        classes: &Classes,
    ) -> Result<(), NoMemory>
        ensures calls { (args : List Value) → typed_at classes.now (drop base.now slots.now.items)
            types.now places.now ≡ Some args →
            OnOk result (self.new ≡ self.old ++ record { leaf = leaf; args = args } ∷ []) }
        ensures err { OnErr result (self.new ≡ self.old) }
    {
        if self.calls.len() >= self.calls.capacity() {
            self.calls.reserve(1)?;
        }
        self.calls
            .push_reserved(Noted::of(leaf, slots, base, types, places, classes));
        Ok(())
    }

    /// Drops all calls, and keeps memory for 1,024 others at most.
    pub fn clear(&mut self)
        ensures { self.new ≡ [] }
    {
        clear_within(&mut self.calls, MOST_CALLS_KEPT);
    }
}
