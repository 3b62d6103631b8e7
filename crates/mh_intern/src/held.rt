ghost use Rattle.std.specs.Prelude.{◌≡◌, ◌<◌, IfOk};
ghost use Rattle.mh_intern.specs.Buckets.{slots};
ghost use Rattle.mh_intern.specs.Seats.{held_at};

use crate::caller::Caller;
use crate::error::InternError;
use crate::holding::Entry;
use crate::kinds::Place;
use mh_values::MethodTy;
use std::marker::Model;
use std::snapshot::Snapshot;

/// A hold of a type: while a seat has it, its slot has no other type. Contracts see the table that
/// it is of, its slot and its type. It may be dropped; then its slot is never given to another
/// type.
#[derive(Drop)]
pub struct HeldType {
    pub(crate) entry: Entry,
    // The table of holders, by one of its seats. It has no bytes.
    holders: Snapshot<Place>,
}

impl Model for HeldType {
    ghost use Rattle.std.specs.Prelude.{◌<◌};
    ghost use Rattle.mh_intern.specs.Buckets.{slots};
    ghost use Rattle.mh_intern.specs.Views.{HoldView};

    ghost Value = { HoldView };

    ghost view = { λ h. record { table = h.holders.value.table_id; entry = h.entry } };

    ghost invariant = { λ h. h.entry.slot < slots };
}

impl HeldType {
    /// The hold that a seat of this table has.
    pub(crate) fn of(entry: Entry, seat: &Place) -> HeldType
        requires { entry.slot < slots }
        ensures { result ≡ record { table = seat.now.table_id; entry = entry } }
    {
        HeldType {
            entry,
            holders: Snapshot::of(seat),
        }
    }

    /// The type. It takes no memory.
    pub fn ty(&self) -> &MethodTy
        ensures { result.now ≡ self.now.entry.ty }
    {
        self.entry.ty.get()
    }

    /// The slot, from 0 to 2,047: bucket `b` has those from `32 * b` to `32 * b + 31`.
    pub fn slot(&self) -> u32
        ensures slot { result ≡ self.now.entry.slot }
        ensures small { result < slots }
    {
        self.entry.slot
    }
}

/// The answer of a keeper, as a hold of the seat that asked.
pub(crate) fn held_of(
    answer: Result<Entry, InternError>,
    caller: &Caller,
) -> Result<HeldType, InternError>
    requires { IfOk answer (λ e. e.slot < slots) }
    ensures { result ≡ held_at caller.now.table answer }
{
    match answer {
        Ok(entry) => Ok(caller.hold(entry)),
        Err(error) => Err(error),
    }
}
