// What a keeper does for a request.
ghost use Rattle.std.specs.Prelude.{◌≡◌, ◌+◌, ◌*◌, ◌<◌, ◌≤◌, [], ◌∷◌, length, vec_len, vec_capacity, MatchOption, IfOk};
ghost use Rattle.mh_seats.specs.Steps.{Moves};
ghost use Rattle.mh_intern.specs.Buckets.{bucket_of, bucket_at, buckets, slots};
ghost use Rattle.mh_intern.specs.Held.{on_type, has, IsFull};
ghost use Rattle.mh_seats.specs.Room.{times};
ghost use Rattle.mh_intern.specs.Lists.{Listed};
ghost use Rattle.mh_intern.specs.Kinds.{with_notes, full_bucket, joined_views, after_request, request, after_reply, reply, refusal};
ghost use Rattle.mh_intern.specs.Keep.{IsKeeper};
ghost use Rattle.mh_intern.specs.Interning.{granted, Interned};
ghost use Rattle.mh_intern.specs.Steps.{IsOfHolders, MayAsk};

use crate::bucket::{BUCKET_SLOTS, bucket_of};
use crate::error::InternError;
use crate::holders;
use crate::holding::Entry;
use crate::keeper::Keeper;
use crate::kinds::{Place, Steps};
use crate::list::{entry_of, put};
use mh_base::{NoMemory, Shared};
use mh_values::MethodTy;
use std::alloc::Global;
use std::marker::Brand;

/// A type that is asked for, and its bucket.
#[derive(Drop)]
pub(crate) struct Request {
    pub(crate) bucket: u32,
    pub(crate) ty: MethodTy,
}

impl Request {
    pub(crate) fn of(ty: MethodTy) -> Request
        ensures ty { result.ty ≡ ty }
        ensures bucket { (result.bucket ≡ bucket_of ty) × (result.bucket < buckets) }
    {
        let bucket = bucket_of(&ty);
        Request { bucket, ty }
    }
}

/// A type that has no slot yet, for a hold and for the list of its bucket.
#[derive(Drop)]
struct NewType {
    hold: Shared<MethodTy>,
    entry: Shared<MethodTy>,
}

/// The first slot of a bucket whose word is zero. If there is none, the bucket is full.
fn find_zero(steps: &Steps, seat: &mut Place, bucket: u32) -> Option<u32>
    requires seat { IsOfHolders seat.old.table_id steps.now.table_id }
    requires bucket { (bucket < buckets) × (seat.old.me.0.keeps ≡ bucket ∷ []) }
    requires listed { Listed bucket seat.old.me.0.entries }
    ensures same { (seat.new.table_id ≡ seat.old.table_id) × (seat.new.me.1 ≡ seat.old.me.1) }
    ensures view { seat.new.me.0
        ≡ with_notes seat.new.me.0.zeros seat.new.me.0.busy seat.old.me.0 }
    ensures found { MatchOption result (IsFull (full_bucket seat.new.me.0))
        (λ k. (bucket_at k ≡ bucket) × (k < slots) × (0 < times k seat.new.me.0.zeros)) }
{
    for i in 0..BUCKET_SLOTS {
        let slot = BUCKET_SLOTS * bucket + i;
        if holders::read(steps, seat, slot) == 0 {
            return Some(slot);
        }
    }
    None
}

/// The type is asked for, by one room of the caller, which the keeper has now.
fn send_request(steps: &Steps, keeper: &mut Place, caller: &mut Place, ty: &MethodTy)
    requires keeper { keeper.old.table_id ≡ steps.now.table_id }
    requires caller { IsOfHolders caller.old.table_id steps.now.table_id }
    requires room { MayAsk caller.old.me.0.room caller.old.me.0.holds }
    ensures keeper { Moves (λ v. joined_views v (request ty.now)) keeper.old keeper.new }
    ensures caller { Moves (after_request ty.now) caller.old caller.new }
{
    let note = holders::request::<Brand>(steps, caller, ty);
    holders::join(steps, keeper, note);
}

/// The keeper is at rest again, and the caller has the hold.
fn send_reply(steps: &Steps, keeper: &mut Place, caller: &mut Place)
    requires keeper { keeper.old.table_id ≡ steps.now.table_id }
    requires caller { IsOfHolders caller.old.table_id steps.now.table_id }
    requires quiet { keeper.old.me.0.asked ≡ [] }
    ensures keeper { Moves after_reply keeper.old keeper.new }
    ensures caller { Moves (λ v. joined_views v (reply keeper.old.me.0)) caller.old caller.new }
{
    let note = holders::reply(steps, keeper);
    holders::join(steps, caller, note);
}

/// The keeper is at rest again, and the caller has its room back and the full bucket.
fn send_refusal(steps: &Steps, keeper: &mut Place, caller: &mut Place)
    requires keeper { keeper.old.table_id ≡ steps.now.table_id }
    requires caller { IsOfHolders caller.old.table_id steps.now.table_id }
    requires quiet { keeper.old.me.0.asked ≡ [] }
    requires full { IsFull (full_bucket keeper.old.me.0) }
    ensures keeper { Moves after_reply keeper.old keeper.new }
    ensures caller { Moves (λ v. joined_views v (refusal keeper.old.me.0)) caller.old caller.new }
{
    let note = holders::refuse(steps, keeper);
    holders::join(steps, caller, note);
}

/// The type with its two owners, and memory for one more entry.
fn prepare(alloc: Global, entries: &mut Vec<Entry>, ty: MethodTy) -> Result<NewType, NoMemory>
    ensures same { entries.new.items ≡ entries.old.items }
    ensures owners { IfOk result (λ new. (new.hold ≡ ty) × (new.entry ≡ ty)) }
    ensures space { IfOk result (λ new. vec_len entries.new < vec_capacity entries.new) }
{
    entries.reserve(1)?;
    let hold = Shared::new(alloc, ty)?;
    let entry = hold.share()?;
    Ok(NewType { hold, entry })
}

/// The caller has one hold more, of a type that the bucket's list has.
fn serve_listed(steps: &Steps, keeper: &mut Keeper, caller: &mut Place, hold: &Entry)
    requires keeper { IsKeeper steps.now.table_id (bucket_at hold.now.slot) keeper.old }
    requires caller { IsOfHolders caller.old.table_id steps.now.table_id }
    requires room { MayAsk caller.old.me.0.room caller.old.me.0.holds }
    requires slot { hold.now.slot < slots }
    requires entry { 0 < has hold.now.slot hold.now.ty keeper.old.entries.items }
    ensures keeper { IsKeeper steps.now.table_id (bucket_at hold.now.slot) keeper.new }
    ensures caller { Moves (granted hold.now) caller.old caller.new }
{
    send_request(steps, &mut keeper.seat, caller, hold.ty.get());
    holders::raise_listed::<Brand>(steps, &mut keeper.seat, hold, &keeper.entries);
    send_reply(steps, &mut keeper.seat, caller);
}

/// The caller has a hold of a type that the bucket's list did not have, if a slot is free.
fn serve_new(
    steps: &Steps,
    keeper: &mut Keeper,
    caller: &mut Place,
    bucket: u32,
    new: NewType,
) -> Result<Entry, InternError>
    requires keeper { IsKeeper steps.now.table_id bucket keeper.old }
    requires caller { IsOfHolders caller.old.table_id steps.now.table_id }
    requires room { MayAsk caller.old.me.0.room caller.old.me.0.holds }
    requires bucket { (bucket < buckets) × (bucket_of new.hold ≡ bucket) }
    requires owners { new.entry ≡ new.hold }
    requires space { vec_len keeper.old.entries < vec_capacity keeper.old.entries }
    requires absent { on_type new.hold keeper.old.entries.items ≡ 0 }
    ensures keeper { IsKeeper steps.now.table_id bucket keeper.new }
    ensures same { (caller.new.table_id ≡ caller.old.table_id)
        × (caller.new.me.1 ≡ caller.old.me.1) }
    ensures caller { Interned new.hold caller.old.me.0 result caller.new.me.0 }
{
    let NewType { hold, entry } = new;
    send_request(steps, &mut keeper.seat, caller, hold.get());
    match find_zero(steps, &mut keeper.seat, bucket) {
        Some(slot) => {
            put(&mut keeper.entries, Entry { slot, ty: entry });
            let hold = Entry { slot, ty: hold };
            holders::raise_new::<Brand>(steps, &mut keeper.seat, &hold, &keeper.entries);
            send_reply(steps, &mut keeper.seat, caller);
            Ok(hold)
        }
        None => {
            send_refusal(steps, &mut keeper.seat, caller);
            Err(InternError::TypesFull { bucket })
        }
    }
}

/// What a keeper of the type's bucket answers to a caller that asks for the type. If no memory
/// is left, nothing has changed.
pub(crate) fn serve(
    alloc: Global,
    steps: &Steps,
    keeper: &mut Keeper,
    caller: &mut Place,
    request: Request,
) -> Result<Entry, InternError>
    requires keeper { IsKeeper steps.now.table_id request.bucket keeper.old }
    requires caller { IsOfHolders caller.old.table_id steps.now.table_id }
    requires room { MayAsk caller.old.me.0.room caller.old.me.0.holds }
    requires bucket { (request.bucket < buckets) × (bucket_of request.ty ≡ request.bucket) }
    ensures keeper { IsKeeper steps.now.table_id request.bucket keeper.new }
    ensures same { (caller.new.table_id ≡ caller.old.table_id)
        × (caller.new.me.1 ≡ caller.old.me.1) }
    ensures caller { Interned request.ty caller.old.me.0 result caller.new.me.0 }
{
    match entry_of(&keeper.entries, &request.ty)? {
        Some(hold) => {
            serve_listed(steps, keeper, caller, &hold);
            Ok(hold)
        }
        None => {
            let Request { bucket, ty } = request;
            let new = prepare(alloc, &mut keeper.entries, ty)?;
            serve_new(steps, keeper, caller, bucket, new)
        }
    }
}
