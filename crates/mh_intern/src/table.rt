ghost use Rattle.std.specs.Prelude.{◌≡◌, ◌+◌, ◌<◌, ◌≤◌, [], ◌∷◌, length, IfOk, OnErr};
ghost use Rattle.mh_values.specs.Same.{is_same_method_type};
ghost use Rattle.mh_seats.specs.Room.{limit};
ghost use Rattle.mh_intern.specs.Steps.{MayAsk};
ghost use Rattle.mh_intern.specs.Trades.{Trades, hold_of};
ghost use Rattle.mh_intern.specs.Views.{new_seat, with_hold, without_hold, with_less_room, joined_seats};
ghost use Rattle.mh_intern.specs.Seats.{Holds, Interns, KeepsSlot, Knows, distinct_slots, distinct_types};

use crate::caller::Caller;
use crate::claims::{self, Claims};
use crate::error::InternError;
use crate::held::{HeldType, held_of};
use crate::holders;
use crate::keeper::deal_keepers;
use crate::kinds::Holders;
use crate::seat::TypeSeat;
use crate::serve::Request;
use mh_base::NoMemory;
use mh_values::MethodTy;
use std::alloc::Global;
use std::marker::Model;
use std::sync::Wait;

/// A table of types that threads share: 64 buckets of 32 slots. Contracts see which table it is.
///
/// The seats of a table have 2^62 room together: each hold takes one, and gives it back when it is
/// released.
#[derive(Drop)]
pub struct TypeTable {
    claims: Claims,
    holders: Holders,
}

impl Model for TypeTable {
    ghost use Rattle.mh_intern.specs.Steps.{IsTableOfClaims, IsTableOfHolders};
    ghost use Rattle.mh_intern.specs.Views.{TypesId, types_id_coded};

    ghost Value = { TypesId };

    ghost coded = { types_id_coded };

    ghost view = { λ t. record {
      claims = t.claims.shared.table_id;
      holders = t.holders.shared.table_id;
    } };

    ghost invariant = { λ t. IsTableOfClaims t.claims.shared.table_id
        × IsTableOfHolders t.holders.shared.table_id };
}

impl TypeTable {
    /// A table with no type, and the first seat, which has all the room: 2^62. It fails only if
    /// no memory is left.
    pub fn new(alloc: Global) -> Result<(TypeTable, TypeSeat), NoMemory>
        ensures { IfOk result (λ t. t.1 ≡ new_seat t.0 limit) }
    {
        let (holders, mut caller) = holders::new_holders(alloc)?;
        let keepers = deal_keepers(alloc, &holders.shared, &mut caller)?;
        let (claims, claimer) = claims::new_claims(alloc, keepers, &caller)?;
        let caller = Caller::new(alloc, caller);
        Ok((TypeTable { claims, holders }, TypeSeat { claimer, caller }))
    }

    /// How many slots the seat holds, which are as many as the types that it holds. The seat's room
    /// and its holds together are 2^62 if and only if all other seats were joined to it.
    pub fn close(self, seat: TypeSeat) -> u32
        requires seat { seat.table ≡ self }
        requires whole { seat.room + length seat.holds ≡ limit }
        ensures slots { result ≡ distinct_slots seat.holds }
        ensures types { result ≡ distinct_types seat.holds }
    {
        let TypeTable { claims: _, holders } = self;
        let TypeSeat { claimer: _, caller } = seat;
        let last = caller.settled(&holders.shared);
        holders::slots_in_use(holders.close_with(last))
    }

    /// A hold of a type, which takes one room. If the seat holds the type already, it is of the
    /// slot that the seat holds. The seat has room, and room and holds of 2 or more together, since
    /// the request takes one room with it.
    ///
    /// It may wait while another thread asks for a type of the same bucket. The answer is
    /// `TypesFull` if each of the 32 slots of the bucket has another type and was read as held in
    /// this call. A type that has a slot needs no memory. Otherwise, if none is left, the answer is
    /// `NoMemory` and nothing has changed.
    pub fn intern<R: Wait>(
        &self,
        rt: &R,
        alloc: Global,
        seat: &mut TypeSeat,
        ty: MethodTy,
    ) -> Result<HeldType, InternError>
        requires seat { seat.old.table ≡ self.now }
        requires room { MayAsk seat.old.room seat.old.holds }
        ensures interned { Interns ty seat.old result seat.new }
        ensures held { IfOk result (λ h. Holds seat.new h) }
        ensures again { IfOk result (KeepsSlot ty seat.old.holds) }
        ensures traded { Trades seat.old.holds [] (hold_of result) seat.new.holds }
        ensures known { Knows seat.new }
    {
        let steps = &self.holders.shared;
        if let Some(entry) = seat.caller.again(steps, &ty)? {
            return Ok(seat.caller.hold(entry));
        }
        let request = Request::of(ty);
        let bucket = request.bucket;
        let mut keeper = claims::claim(rt, &self.claims.shared, &mut seat.claimer, bucket);
        let answer = seat.caller.ask(steps, &mut keeper, request);
        claims::put_back(&self.claims.shared, &mut seat.claimer, bucket, keeper);
        held_of(answer, &seat.caller)
    }

    /// One hold more of the same type, which takes one room and no memory: it fails only if 2^63
    /// owners of the type are counted. It does not wait.
    pub fn dup(
        &self,
        _alloc: Global,
        seat: &mut TypeSeat,
        held: &HeldType,
    ) -> Result<HeldType, NoMemory>
        requires seat { seat.old.table ≡ self.now }
        requires held { Holds seat.old held.now }
        requires room { 1 ≤ seat.old.room }
        ensures same { IfOk result (λ h. h ≡ held.now) }
        ensures ok { IfOk result (λ h. seat.new ≡ with_hold h.entry seat.old) }
        ensures held { IfOk result (λ h. Holds seat.new h) }
        ensures err { OnErr result (seat.new ≡ seat.old) }
    {
        let entry = seat.caller.dup(&self.holders.shared, &held.entry)?;
        Ok(seat.caller.hold(entry))
    }

    /// One hold less, which gives its room back. It takes no memory and does not wait.
    pub fn release(&self, seat: &mut TypeSeat, held: HeldType)
        requires seat { seat.old.table ≡ self.now }
        requires held { Holds seat.old held }
        ensures traded { Trades seat.old.holds (held.entry ∷ []) [] seat.new.holds }
        ensures released { seat.new ≡ without_hold held.entry seat.old }
    {
        seat.caller.release(&self.holders.shared, &held.entry);
    }

    /// Whether two holds of the seat are of the same type. It compares their slots, takes no memory
    /// and does not wait.
    pub fn same(&self, seat: &TypeSeat, a: &HeldType, b: &HeldType) -> bool
        requires seat { seat.now.table ≡ self.now }
        requires holds { Holds seat.now a.now × Holds seat.now b.now }
        ensures { result ≡ is_same_method_type a.now.entry.ty b.now.entry.ty }
    {
        let _caller = &seat.caller;
        a.entry.slot == b.entry.slot
    }

    /// A new seat with a part of the room, for another thread. It takes no memory and does not
    /// wait.
    pub fn split(&self, seat: &mut TypeSeat, room: u64) -> TypeSeat
        requires seat { seat.old.table ≡ self.now }
        requires room { (1 ≤ room) × (room < seat.old.room) }
        ensures seat { seat.new ≡ with_less_room room seat.old }
        ensures new { result ≡ new_seat seat.old.table room }
    {
        let claimer = claims::split(&self.claims.shared, &mut seat.claimer);
        let caller = seat.caller.split(&self.holders.shared, room);
        TypeSeat { claimer, caller }
    }

    /// The seat has all that the two had. It takes no memory and does not wait.
    pub fn join(&self, seat: &mut TypeSeat, other: TypeSeat)
        requires seat { (seat.old.table ≡ self.now) × (other.table ≡ self.now) }
        ensures known { Knows seat.new }
        ensures joined { seat.new ≡ joined_seats seat.old other }
    {
        let TypeSeat { claimer, caller } = other;
        claims::join(&self.claims.shared, &mut seat.claimer, claimer);
        seat.caller.join(&self.holders.shared, caller);
    }
}
