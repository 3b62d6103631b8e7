// What a seat notes of the types that it holds, so that it needs no step on a word that other
// threads change.
ghost use Rattle.std.specs.Prelude.{◌≡◌, ◌+◌, ◌<◌, ◌≤◌, ◌==◌, ◌&&◌, nat_lt, length, OnOk, OnErr};
ghost use Rattle.mh_seats.specs.Room.{limit};
ghost use Rattle.mh_intern.specs.Notes.{Changes, Forgets, IsNoted, Owes, Records, Settles, more_owed, less_owed, owed};
ghost use Rattle.mh_intern.specs.Steps.{IsOfHolders};
ghost use Rattle.std.specs.List.{position};
ghost use Rattle.mh_values.specs.Same.{is_same_method_type};

use crate::holders;
use crate::holding::Entry;
use crate::kinds::{Place, Steps};
use mh_base::{Copied, NoMemory, Shared};
use mh_values::{MethodTy, is_same_method_type};
use std::alloc::Global;
use std::marker::Brand;

/// How many types a seat notes. It is served as before if it holds more.
pub(crate) const MOST_NOTES: usize = 16;

/// A type in its slot: how many holds of it the words count for this seat, at least, and how many
/// the seat has beside those that are counted.
#[derive(Drop)]
pub struct Note {
    pub entry: Entry,
    pub counted: u64,
    pub owed: u64,
}

/// Where a slot is noted of which a hold is counted.
pub(crate) fn counted_at(notes: &[Note], slot: u32) -> Option<usize>
    ensures { result ≡ position (λ n. (n.entry.slot == slot) && nat_lt 0 n.counted) notes.now }
{
    notes
        .iter()
        .position(|note| note.entry.slot == slot && note.counted > 0)
}

/// Where a slot is noted of which the seat has a hold beside those that are counted.
pub(crate) fn owed_at(notes: &[Note], slot: u32) -> Option<usize>
    ensures { result ≡ position (λ n. (n.entry.slot == slot) && nat_lt 0 n.owed) notes.now }
{
    notes
        .iter()
        .position(|note| note.entry.slot == slot && note.owed > 0)
}

/// Where a type is noted of which a hold is counted.
pub(crate) fn type_at(notes: &[Note], ty: &MethodTy) -> Option<usize>
    ensures { result ≡ position
        (λ n. nat_lt 0 n.counted && is_same_method_type n.entry.ty ty.now) notes.now }
{
    notes.iter().position(|note| note.counted > 0 && is_same_method_type(note.entry.ty.get(), ty))
}

/// Where a type is noted in this slot.
pub(crate) fn entry_at(notes: &[Note], entry: &Entry) -> Option<usize>
    ensures { result ≡ position (λ n. (n.entry.slot == entry.now.slot)
        && is_same_method_type n.entry.ty entry.now.ty) notes.now }
{
    notes.iter().position(|note| {
        note.entry.slot == entry.slot && is_same_method_type(note.entry.ty.get(), entry.ty.get())
    })
}

/// One hold more is owed.
pub(crate) fn owe(notes: &mut Vec<Note>, at: usize)
    requires at { at < length notes.old.items }
    requires few { owed notes.old.items < limit }
    ensures { Changes at more_owed notes.old.items notes.new.items }
{
    notes[at].owed += 1;
}

/// One hold less is owed.
pub(crate) fn repay(notes: &mut Vec<Note>, at: usize)
    requires at { at < length notes.old.items }
    requires some { Owes at notes.old.items }
    ensures { Changes at less_owed notes.old.items notes.new.items }
{
    notes[at].owed -= 1;
}

// A note of an entry that was not noted. Its type is a copy, so that no other thread counts owners
// of it.
fn add_note(alloc: Global, notes: &mut Vec<Note>, entry: &Entry) -> Result<(), NoMemory>
    ensures ok { OnOk result (Records entry.now notes.old.items notes.new.items) }
    ensures err { OnErr result (notes.new.items ≡ notes.old.items) }
{
    notes.reserve(1)?;
    let ty = Shared::new(alloc, entry.ty.get().copy(alloc)?)?;
    let entry = Entry {
        slot: entry.slot,
        ty,
    };
    notes.push_reserved(Note {
        entry,
        counted: 1,
        owed: 0,
    });
    Ok(())
}

/// One hold more of an entry is counted. That is noted if the entry is, or if there is room for it.
pub(crate) fn note_one(alloc: Global, notes: &mut Vec<Note>, entry: &Entry)
    ensures { Records entry.now notes.old.items notes.new.items }
{
    match entry_at(notes, entry) {
        Some(at) => {
            let counted = notes[at].counted;
            notes[at].counted = counted.saturating_add(1);
        }
        None => {
            if notes.len() < MOST_NOTES {
                // A seat that notes nothing more is served as before.
                let _ = add_note(alloc, notes, entry);
            }
        }
    }
}

/// One hold less of a slot is counted.
pub(crate) fn forget_one(notes: &mut Vec<Note>, slot: u32)
    ensures { Forgets slot notes.old.items notes.new.items }
{
    if let Some(at) = counted_at(notes, slot) {
        notes[at].counted -= 1;
    }
}

/// All holds that are owed are counted, so that no note is needed any more.
pub(crate) fn settle(steps: &Steps, seat: &mut Place, notes: &[Note])
    requires seat { IsOfHolders seat.old.table_id steps.now.table_id }
    requires noted { IsNoted seat.old.me.0 notes.now }
    ensures same { (seat.new.table_id ≡ seat.old.table_id) × (seat.new.me.1 ≡ seat.old.me.1) }
    ensures settled { Settles seat.old.me.0 seat.new.me.0 }
{
    for note in notes {
        if note.owed > 0 {
            holders::count_more::<Brand>(steps, seat, &note.entry, note.owed);
        }
    }
}
