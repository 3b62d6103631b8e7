ghost use Rattle.std.specs.Prelude.{◌≡◌, IfOk};

use mh_base::{NoMemory, Shared};
use mh_values::MethodTy;
use std::collections::LinkedList;

/// A type in a slot. Slots are counted from 0 to 2,047, and 32 of them are of one bucket.
#[derive(Debug, Drop)]
pub struct Entry {
    pub slot: u32,
    pub ty: Shared<MethodTy>,
}

impl Entry {
    /// A copy: the same type in the same slot. It takes no memory, and fails only if 2^63 owners of
    /// the type are counted.
    pub(crate) fn share(&self) -> Result<Entry, NoMemory>
        ensures { IfOk result (λ copy. copy ≡ self.now) }
    {
        Ok(Entry {
            slot: self.slot,
            ty: self.ty.share()?,
        })
    }
}

// A bucket that was found full: its list, and the slots whose words were read as not zero. No value
// of it is made.
pub struct FullBucket {
    pub bucket: u32,
    pub entries: LinkedList<Entry>,
    pub busy: LinkedList<u32>,
}

// What a seat of the table of holders knows. A caller has holds that the words count, and the holds
// that it keeps: several of one type may stand on one that is counted. It has room, the types that
// it asked for and the full buckets that it found. A keeper has buckets, their list, the slots that
// it read as zero and as not zero, and during a request the type that is wanted. A message has one
// of these. No value of it is made.
pub struct Holding {
    pub holds: LinkedList<Entry>,
    pub kept: LinkedList<Entry>,
    pub room: u64,
    pub asked: LinkedList<MethodTy>,
    pub full: LinkedList<FullBucket>,
    pub keeps: LinkedList<u32>,
    pub entries: LinkedList<Entry>,
    pub zeros: LinkedList<u32>,
    pub busy: LinkedList<u32>,
    pub wanted: LinkedList<MethodTy>,
}
