ghost use Rattle.std.specs.Prelude.{◌≡◌, ◌≤◌, ◌<◌, ◌-◌, ◌+◌, ◌%◌, ◌++◌, ◌∷◌, [], ℕ, List, length, slice_index, IfOk, OnOk, OnErr};
ghost use Rattle.mh_setonce.specs.Places.{IsLatest};
ghost use Rattle.mh_setonce.specs.Index.{AreIndexed, IsPower, IsSize, LeadsTo};

use mh_base::NoMemory;
use std::alloc::Global;
use std::marker::Model;

/// Places of items by their hashes; the items are in a list of their own. A search for an item goes
/// through the places of its hash, the latest first. Adding n items is linear in n. Contracts see
/// the hash of the item at each place, and how many more can be added without memory.
#[derive(Drop)]
pub struct Places {
    hashes: Vec<u32>,
    // For each bucket its latest place, one higher, or 0.
    newest: Vec<usize>,
    // For each place the one before it in its bucket, one higher, or 0.
    before: Vec<usize>,
}

impl Model for Places {
    ghost use Rattle.std.specs.Prelude.{◌-◌, ◌≤◌, length, vec_capacity};
    ghost use Rattle.mh_setonce.specs.Places.{PlacesView};

    ghost Value = { PlacesView };

    ghost use Rattle.mh_setonce.specs.Index.{AreIndexed};

    ghost view = { λ p. record { hashes = p.hashes.items; room = length p.newest.items - length p.hashes.items } };

    ghost invariant = { λ p. AreIndexed p.hashes.items p.newest.items p.before.items × (length p.newest.items ≤ vec_capacity p.hashes)
        × (length p.newest.items ≤ vec_capacity p.before) };
}

impl Places {
    /// No items. It takes no memory.
    pub fn new(alloc: Global) -> Places
        ensures { result ≡ record { hashes = []; room = 0 } }
    {
        Places {
            hashes: Vec::new(alloc),
            newest: Vec::new(alloc),
            before: Vec::new(alloc),
        }
    }

    /// No items, and memory for this many.
    fn with_room(alloc: Global, room: usize) -> Result<Places, NoMemory>
        requires { IsSize room }
        ensures { IfOk result (λ places. places ≡ record { hashes = []; room = room }) }
    {
        Ok(Places {
            hashes: Vec::with_capacity(alloc, room)?,
            newest: Vec::from_elem(alloc, 0, room)?,
            before: Vec::with_capacity(alloc, room)?,
        })
    }

    /// How many items there are.
    pub fn len(&self) -> usize
        ensures { result ≡ length self.now.hashes }
    {
        self.hashes.len()
    }

    /// Adds an item, at the next place.
    pub fn add(&mut self, hash: u32)
        requires { 1 ≤ self.old.room }
        ensures hashes { self.new.hashes ≡ self.old.hashes ++ hash ∷ [] }
        ensures room { self.new.room + 1 ≡ self.old.room }
    {
        let bucket = bucket_of(hash, self.newest.len());
        let place = self.newest[bucket];
        self.hashes.push_reserved(hash);
        self.before.push_reserved(place);
        self.newest[bucket] = self.hashes.len();
    }

    /// The same items, with memory for this many.
    fn copy_with_room(&self, room: usize) -> Result<Places, NoMemory>
        requires fits { length self.now.hashes ≤ room }
        requires size { IsSize room }
        ensures hashes { IfOk result (λ copy. copy.hashes ≡ self.now.hashes) }
        ensures room { IfOk result (λ copy. copy.room + length self.now.hashes ≡ room) }
    {
        let mut copy = Places::with_room(*self.hashes.allocator(), room)?;
        for hash in self.hashes.as_slice() {
            copy.add(*hash);
        }
        Ok(copy)
    }

    /// The same items.
    pub fn copy(&self) -> Result<Places, NoMemory>
        ensures { IfOk result (λ copy. copy ≡ self.now) }
    {
        self.copy_with_room(self.newest.len())
    }

    /// Takes memory for one more item.
    pub fn reserve(&mut self) -> Result<(), NoMemory>
        ensures hashes { self.new.hashes ≡ self.old.hashes }
        ensures room { OnOk result (1 ≤ self.new.room) }
        ensures err { OnErr result (self.new ≡ self.old) }
    {
        let room = self.newest.len();
        if self.hashes.len() < room {
            return Ok(());
        }
        *self = self.copy_with_room(more_buckets(room)?)?;
        Ok(())
    }

    /// The latest place with the hash.
    pub fn latest(&self, hash: u32) -> Option<usize>
        ensures { IsLatest self.now.hashes hash (length self.now.hashes) result }
    {
        let buckets = self.newest.len();
        if buckets == 0 {
            return None;
        }
        let bucket = bucket_of(hash, buckets);
        let place = self.newest[bucket];
        latest_below(self.hashes.as_slice(), self.before.as_slice(), hash, place)
    }

    /// The latest place before this one that has its hash.
    pub fn earlier(&self, place: usize) -> Option<usize>
        requires { place < length self.now.hashes }
        ensures { IsLatest self.now.hashes (slice_index self.now.hashes place) place result }
    {
        let hash = self.hashes[place];
        latest_below(
            self.hashes.as_slice(),
            self.before.as_slice(),
            hash,
            self.before[place],
        )
    }
}

/// How many buckets the first item gets.
const FIRST_BUCKETS: usize = 8;

/// The next number of buckets, twice as many.
fn more_buckets(buckets: usize) -> Result<usize, NoMemory>
    requires { IsSize buckets }
    ensures size { IfOk result IsSize }
    ensures more { IfOk result (λ more. buckets < more) }
{
    if buckets == 0 {
        return Ok(FIRST_BUCKETS);
    }
    let Some(more) = buckets.checked_mul(2) else {
        return Err(NoMemory);
    };
    Ok(more)
}

/// The bucket of a hash.
fn bucket_of(hash: u32, buckets: usize) -> usize
    requires { IsPower buckets }
    ensures { result ≡ hash % buckets }
{
    hash as usize & (buckets - 1)
}

/// The latest place with the hash, from a place of its bucket on, which is written one higher.
fn latest_below(hashes: &[u32], before: &[usize], hash: u32, first: usize) -> Option<usize>
    requires { (newest : List ℕ) × AreIndexed hashes.now newest before.now
        × LeadsTo hashes.now newest hash first }
    ensures { IsLatest hashes.now hash first result }
{
    let mut place = first;
    while place > 0 {
        if hashes[place - 1] == hash {
            return Some(place - 1);
        }
        place = before[place - 1];
    }
    None
}
