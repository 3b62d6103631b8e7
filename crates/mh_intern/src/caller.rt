// A caller of the table of holders, with notes of what it holds.
ghost use Rattle.std.specs.Prelude.{◌≡◌, ◌≤◌, ◌<◌, [], Some, None, IfOk, OnErr};
ghost use Rattle.mh_intern.specs.declared.holding.Entry.{Entry};
ghost use Rattle.mh_seats.specs.Room.{limit};
ghost use Rattle.mh_intern.specs.Buckets.{bucket_of, buckets, slots};
ghost use Rattle.mh_intern.specs.Callers.{Again, IsCallerOf, IsSettledBy, LooksAt, MovesView};
ghost use Rattle.mh_intern.specs.Held.{has, weight};
ghost use Rattle.mh_intern.specs.Interning.{Interned};
ghost use Rattle.mh_intern.specs.Keep.{IsKeeper};
ghost use Rattle.mh_intern.specs.Kinds.{caller, held_less, held_more, joined_views, less_room};
ghost use Rattle.mh_intern.specs.Lists.{Agrees};
ghost use Rattle.mh_intern.specs.Steps.{MayAsk};

use crate::error::InternError;
use crate::held::HeldType;
use crate::holders;
use crate::holding::Entry;
use crate::keeper::Keeper;
use crate::kinds::{Place, Steps};
use crate::notes::{Note, counted_at, forget_one, note_one, owe, owed_at, repay, settle, type_at};
use crate::serve::{Request, serve};
use mh_base::NoMemory;
use mh_values::MethodTy;
use std::alloc::Global;
use std::marker::{Brand, Model};

/// A seat of the table of holders, with notes. Of the holds that it keeps of one type, at least one
/// is counted in the word of the type's slot. Others may stand on that one, so that they take no
/// step on a word which other threads change. Contracts see what it keeps, and the room beside it.
#[derive(Drop)]
pub(crate) struct Caller {
    place: Place,
    notes: Vec<Note>,
    alloc: Global,
}

impl Model for Caller {
    ghost use Rattle.std.specs.Prelude.{◌≡◌, []};
    ghost use Rattle.mh_intern.specs.Callers.{CallerView};
    ghost use Rattle.mh_intern.specs.Notes.{IsNoted, as_kept};

    ghost Value = { CallerView };

    ghost view = { λ c. record { table = c.place.table_id; view = as_kept c.place.me.0 } };

    ghost invariant = { λ c. (c.place.me.1 ≡ []) × IsNoted c.place.me.0 c.notes.items };
}

impl Caller {
    /// A caller of a seat that has no hold yet.
    pub(crate) fn new(alloc: Global, place: Place) -> Caller
        requires free { place.me.1 ≡ [] }
        requires new { (place.me.0.holds ≡ []) × (place.me.0.kept ≡ []) }
        ensures table { result.table ≡ place.table_id }
        ensures view { result.view ≡ place.me.0 }
    {
        Caller {
            place,
            notes: Vec::new(alloc),
            alloc,
        }
    }

    /// A hold of this entry, which the caller has.
    pub(crate) fn hold(&self, entry: Entry) -> HeldType
        requires { entry.slot < slots }
        ensures { result ≡ record { table = self.now.table; entry = entry } }
    {
        HeldType::of(entry, &self.place)
    }

    /// One hold more of what the caller holds. It fails only if 2^63 owners of the type are
    /// counted.
    pub(crate) fn dup(&mut self, steps: &Steps, held: &Entry) -> Result<Entry, NoMemory>
        requires table { IsCallerOf steps.now.table_id self.old }
        requires slot { held.now.slot < slots }
        requires held { 0 < has held.now.slot held.now.ty self.old.view.holds }
        requires agrees { Agrees self.old.view.holds }
        requires room { 1 ≤ self.old.view.room }
        requires most { weight self.old.view ≤ limit }
        ensures same { IfOk result (λ e. e ≡ held.now) }
        ensures moves { IfOk result (λ _. MovesView (held_more held.now) self.old self.new) }
        ensures err { OnErr result (self.new ≡ self.old) }
    {
        match counted_at(&self.notes, held.slot) {
            Some(at) => {
                let entry = self.notes[at].entry.share()?;
                owe(&mut self.notes, at);
                holders::keep_more::<Brand>(steps, &mut self.place, held);
                Ok(entry)
            }
            None => {
                let entry = held.share()?;
                holders::raise_held::<Brand>(steps, &mut self.place, held);
                Ok(entry)
            }
        }
    }

    /// One hold less.
    pub(crate) fn release(&mut self, steps: &Steps, held: &Entry)
        requires table { IsCallerOf steps.now.table_id self.old }
        requires slot { held.now.slot < slots }
        requires held { 0 < has held.now.slot held.now.ty self.old.view.holds }
        requires agrees { Agrees self.old.view.holds }
        ensures { MovesView (held_less held.now) self.old self.new }
    {
        match owed_at(&self.notes, held.slot) {
            Some(at) => {
                repay(&mut self.notes, at);
                holders::keep_less::<Brand>(steps, &mut self.place, held);
            }
            None => {
                forget_one(&mut self.notes, held.slot);
                holders::lower::<Brand>(steps, &mut self.place, held);
            }
        }
    }

    /// A hold of a type, if a hold of it is noted as counted. It fails only if 2^63 owners of the
    /// type are counted.
    pub(crate) fn again(&mut self, steps: &Steps, ty: &MethodTy) -> Result<Option<Entry>, NoMemory>
        requires table { IsCallerOf steps.now.table_id self.old }
        requires room { 1 ≤ self.old.view.room }
        requires most { weight self.old.view ≤ limit }
        ensures none { IfOk result (λ found. found ≡ None → self.new ≡ self.old) }
        ensures some { IfOk result (λ found. (e : Entry) → found ≡ Some e
            → Again ty.now e self.old self.new) }
        ensures err { OnErr result (self.new ≡ self.old) }
    {
        let Some(at) = type_at(&self.notes, ty) else {
            return Ok(None);
        };
        let entry = self.notes[at].entry.share()?;
        owe(&mut self.notes, at);
        holders::keep_asked::<Brand>(steps, &mut self.place, &entry);
        Ok(Some(entry))
    }

    /// A hold of a type that the keeper of its bucket gives. Then the caller looks at the table.
    pub(crate) fn ask(
        &mut self,
        steps: &Steps,
        keeper: &mut Keeper,
        request: Request,
    ) -> Result<Entry, InternError>
        requires table { IsCallerOf steps.now.table_id self.old }
        requires keeper { IsKeeper steps.now.table_id request.bucket keeper.old }
        requires room { MayAsk self.old.view.room self.old.view.holds }
        requires bucket { (request.bucket < buckets) × (bucket_of request.ty ≡ request.bucket) }
        ensures keeper { IsKeeper steps.now.table_id request.bucket keeper.new }
        ensures same { self.new.table ≡ self.old.table }
        ensures caller { Interned request.ty self.old.view result self.new.view }
        ensures looked { LooksAt self.new.view }
    {
        let answer = serve(self.alloc, steps, keeper, &mut self.place, request);
        holders::look(steps, &mut self.place);
        if let Ok(entry) = &answer {
            note_one(self.alloc, &mut self.notes, entry);
        }
        answer
    }

    /// A new caller with a part of the room.
    pub(crate) fn split(&mut self, steps: &Steps, room: u64) -> Caller
        requires table { IsCallerOf steps.now.table_id self.old }
        requires room { room < self.old.view.room }
        ensures left { MovesView (less_room room) self.old self.new }
        ensures right { result ≡ record { table = self.old.table; view = caller [] room [] [] } }
    {
        let place = holders::split_room::<Brand>(steps, &mut self.place, room);
        Caller::new(self.alloc, place)
    }

    /// The caller has all that the two had. Then it looks at the table.
    pub(crate) fn join(&mut self, steps: &Steps, other: Caller)
        requires table { IsCallerOf steps.now.table_id self.old }
        requires other { other.table ≡ steps.now.table_id }
        ensures moves { MovesView (λ v. joined_views v other.view) self.old self.new }
        ensures looked { LooksAt self.new.view }
    {
        holders::join(steps, &mut self.place, other.settled(steps));
        holders::look(steps, &mut self.place);
    }

    /// The seat, all of whose holds are counted.
    pub(crate) fn settled(self, steps: &Steps) -> Place
        requires table { IsCallerOf steps.now.table_id self }
        ensures table { result.table_id ≡ self.table }
        ensures free { result.me.1 ≡ [] }
        ensures settled { IsSettledBy self.view result.me.0 }
    {
        let Caller {
            mut place,
            notes,
            alloc: _,
        } = self;
        settle(steps, &mut place, &notes);
        place
    }
}
