ghost use Rattle.std.specs.Prelude.{◌≡◌, ◌<◌, ◌++◌, ◌^◌, length, OnOk};
ghost use Rattle.mh_class_pool.specs.Answers.{Gives};
ghost use Rattle.mh_class_pool.specs.Entries.{slot, text, dynamics, dynamics_before, if_dynamic, pool_of};
ghost use Rattle.std.specs.Str.{bytes_eq};

use crate::entry::{Entry, read_entry};
use crate::fault::{ClassError, ClassKind};
use mh_class_bytes::{Cursor, Text};
use std::alloc::{AllocError, Global};
use std::marker::Model;

/// The most Dynamic entries that a class file may have, a limit of this project.
const MOST_DYNAMICS: usize = 256;

/// The constant pool: for each index the place of its entry's tag in the file and the entry, or
/// nothing; and the indexes of the Dynamic entries. Contracts see the entries, with their places.
#[derive(Drop)]
pub struct Pool<'b> {
    slots: Vec<Option<(usize, Entry<'b>)>>,
    dynamics: Vec<u16>,
}

impl<'b> Model for Pool<'b> {
    ghost use Rattle.std.specs.Prelude.{List};
    ghost use Rattle.mh_class_pool.specs.Entries.{Slot, AreKept};

    ghost Value = { List Slot };

    ghost view = { λ p. p.slots.items };

    ghost invariant = { λ p. AreKept p.slots.items p.dynamics.items };
}

impl<'b> Pool<'b> {
    /// The number of indexes, including 0.
    pub fn len(&self) -> usize
        ensures { result ≡ length self.now }
    {
        self.slots.len()
    }

    /// The entry at an index, and the place of its tag.
    pub fn get(&self, index: usize) -> Option<(usize, Entry<'b>)>
        ensures { slot self.now index ≡ result }
    {
        match self.slots.get(index) {
            Some(Some((at, entry))) => Some((*at, entry.copy())),
            _ => None,
        }
    }

    /// The indexes of the Dynamic entries, in order.
    pub fn dynamics(&self) -> &[u16]
        ensures all { result.now ≡ dynamics self.now }
        ensures few { length (dynamics self.now) < 2 ^ 16 }
    {
        &self.dynamics
    }

    /// How many Dynamic entries come before an index: the number of the one there, from 0 on.
    pub fn dynamics_before(&self, index: u16) -> u16
        ensures { result ≡ dynamics_before self.now index }
    {
        self.dynamics.partition_point(|i| *i < index) as u16
    }

    /// The text at an index of a Utf8 entry.
    pub fn text(&self, index: u16) -> Text<'b>
        ensures { result ≡ text self.now index }
    {
        match self.get(index as usize) {
            Some((_, Entry::Utf8(text))) => text,
            _ => Text::empty(),
        }
    }

    /// Whether the text at an index is this one.
    pub fn is_text(&self, index: u16, word: &[u8]) -> bool
        ensures { result ≡ bytes_eq (text self.now index) word.now }
    {
        self.text(index).bytes() == word
    }
}

/// Notes the index of an entry, if that is a Dynamic one.
fn note(dynamics: &mut Vec<u16>, index: usize, entry: &Entry<'_>) -> Result<(), AllocError>
    requires { index < 2 ^ 16 }
    ensures { OnOk result (dynamics.new.items ≡ dynamics.old.items ++ if_dynamic index entry.now) }
{
    if entry.is_dynamic() {
        dynamics.push(index as u16)?;
    }
    Ok(())
}

/// Reads the pool after its count.
pub fn read_pool<'b>(
    alloc: Global,
    count: u16,
    cursor: &mut Cursor<'b>,
) -> Result<Pool<'b>, ClassError>
    ensures gives { Gives (λ p. p) result cursor.old cursor.new (pool_of count) }
{
    let mut slots = Vec::with_capacity(alloc, usize::from(count))?;
    let mut dynamics = Vec::new(alloc);
    slots.push(None)?;
    while slots.len() < count as usize {
        let at = cursor.at();
        let index = slots.len();
        let is_last = index + 1 == count as usize;
        let is_full = dynamics.len() >= MOST_DYNAMICS;
        let entry = read_entry(is_last, is_full, cursor)?;
        note(&mut dynamics, index, &entry)?;
        let is_wide = entry.is_wide();
        slots.push(Some((at, entry)))?;
        if is_wide {
            slots.push(None)?;
        }
    }
    Ok(Pool { slots, dynamics })
}
