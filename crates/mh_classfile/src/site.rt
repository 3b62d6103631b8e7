ghost use Rattle.std.specs.Prelude.{◌≡◌, ◌++◌, ◌∷◌, [], ◌<◌, length, nat_lt, slice_get, Some, OnOk};

use mh_base::{NoMemory, Seq};
use mh_class_pool::Pool;
use std::alloc::Global;
use std::marker::Model;

/// A method of the class: the indexes of its name and of its descriptor.
#[derive(Clone, Copy)]
pub struct Method {
    pub name: u16,
    pub descriptor: u16,
}

/// The code of a method: the pool whose entries it names, the method, and where the code begins in
/// the file.
#[derive(Clone, Copy)]
pub struct MethodCode<'p, 'b> {
    pub pool: &'p Pool<'b>,
    pub method: Method,
    pub start: usize,
}

/// An `invokedynamic` instruction.
#[derive(Clone, Copy)]
pub struct Site {
    pub method: Method,
    /// Its place, counted from the first byte of the method's code.
    pub pc: u32,
    /// The index of its `InvokeDynamic` entry.
    pub index: u16,
}

/// The call sites that were found so far, and how many may be found.
#[derive(Drop)]
pub struct Sites {
    found: Seq<Site>,
    room: u32,
}

impl Model for Sites {
    ghost use Rattle.std.specs.Prelude.{◌≤◌, length};
    ghost use Rattle.mh_classfile.specs.FoundSites.{FoundSites};

    ghost Value = { FoundSites };

    ghost view = { λ s. record { sites = s.found; room = s.room } };

    ghost invariant = { λ s. length s.found ≤ s.room };
}

impl Sites {
    /// No sites, and room for this many.
    pub fn new(alloc: Global, room: u32) -> Sites
        ensures { result ≡ record { sites = []; room = room } }
    {
        Sites {
            found: Seq::new(alloc),
            room,
        }
    }

    /// Whether one more may be found.
    pub fn has_room(&self) -> bool
        ensures { result ≡ nat_lt (length self.now.sites) self.now.room }
    {
        self.found.len() < self.room as usize
    }

    /// Puts a site after the others.
    pub fn push(&mut self, site: Site) -> Result<(), NoMemory>
        requires { length self.old.sites < self.old.room }
        ensures ok { OnOk result (self.new.sites ≡ self.old.sites ++ site ∷ []) }
        ensures room { self.new.room ≡ self.old.room }
    {
        self.found.push(site)
    }

    /// The number of sites.
    pub fn len(&self) -> u32
        ensures { result ≡ length self.now.sites }
    {
        let _limit = self.room;
        self.found.len() as u32
    }

    /// The site of a number.
    pub fn get(&self, k: u32) -> Site
        requires { k < length self.now.sites }
        ensures { slice_get self.now.sites k ≡ Some result }
    {
        *self.found.get(k as usize)
    }
}
