ghost use Rattle.std.specs.Prelude.{◌≡◌, ◌≢◌, ◌<◌, length, false, IfOk, OnOk, OnErr, Some, None, position, IfSome, slice_get};

use crate::index::Index;
use crate::{How, Missing, Reference};
use mh_base::NoMemory;
use mh_leaf::{Leaf, leaf_does};
use mh_values::{ClassId, Classes, LeafId, MOST_CLASSES, MethodTy, Outcome, Value};
use std::alloc::Global;
use std::marker::Model;

/// How many leaves there may be.
pub(crate) const MOST_LEAVES: u32 = 4096;

/// The classes and the leaf methods of a run, as a manifest registers them.
#[derive(Drop)]
pub struct Leaves {
    classes: Classes,
    leaves: Vec<Leaf>,
    index: Index,
}

impl Model for Leaves {
    ghost use Rattle.mh_leaf.specs.LeafTable.{LeafTable};
    ghost use Rattle.mh_leaves.specs.Kept.{AreKept};

    ghost Value = { LeafTable };

    ghost view = { λ l. record { classes = l.classes; leaves = l.leaves.items } };

    ghost invariant = { λ l. AreKept l.classes l.leaves.items l.index };
}

impl Leaves {
    ghost use Rattle.mh_leaves.specs.Registered.{AreRegistered, IsLeafOf, nothing_registered, with_class, with_leaf, type_of_leaf, outcome_of, most_leaves};
    ghost use Rattle.mh_leaves.specs.Find.{find_leaf, is_virtual_leaf, has_texts, is_called};
    ghost use Rattle.mh_values.specs.Classes.{class_named, most_classes};
    ghost use Rattle.std.specs.List.{list_any};
    ghost use Rattle.std.specs.Prelude.{◌==◌};

    /// The built-in classes, and no leaf.
    pub(crate) fn new(alloc: Global) -> Result<Leaves, NoMemory>
        ensures { IfOk result (λ leaves. leaves ≡ nothing_registered) }
    {
        Ok(Leaves {
            classes: Classes::builtin(alloc)?,
            leaves: Vec::new(alloc),
            index: Index::new(alloc),
        })
    }

    /// The classes, the built-in ones first.
    pub fn classes(&self) -> &Classes
        ensures { result.now ≡ self.now.classes }
    {
        &self.classes
    }

    /// The class of a name.
    pub(crate) fn class_of(&self, name: &[u8]) -> Option<ClassId>
        ensures found { result ≡ class_named self.now.classes name.now }
        ensures within { IfSome result (λ class. class.0 < length self.now.classes) }
    {
        self.classes.find(name)
    }

    /// Whether there are as many classes as there may be.
    pub(crate) fn has_most_classes(&self) -> bool
        ensures { result ≡ (length self.now.classes == most_classes) }
    {
        self.classes.len() == MOST_CLASSES
    }

    /// Declares a class.
    pub(crate) fn add_class(&mut self, name: &[u8], superclass: ClassId) -> Result<(), NoMemory>
        requires new { class_named self.old.classes name.now ≡ None }
        requires few { length self.old.classes ≢ most_classes }
        requires superclass { superclass.0 < length self.old.classes }
        ensures ok { OnOk result (self.new ≡ with_class self.old name.now superclass) }
        ensures err { OnErr result (self.new ≡ self.old) }
    {
        match self.classes.declare(name, superclass) {
            Ok(_) => Ok(()),
            Err(_) => Err(NoMemory),
        }
    }

    // The place of the one leaf with these texts, if there is one.
    fn place_of(&self, owner: ClassId, name: &[u8], descriptor: &[u8]) -> Option<u32>
        ensures found { result
            ≡ position (has_texts owner name.now descriptor.now) self.now.leaves }
        ensures within { IfSome result (λ at. at < length self.now.leaves) }
    {
        self.index.find(owner, name, descriptor)
    }

    // The same, if it is called in that way.
    fn place_called(&self, owner: ClassId, name: &[u8], descriptor: &[u8], how: How) -> Option<u32>
        ensures found { result
            ≡ position (is_called owner name.now descriptor.now how) self.now.leaves }
        ensures within { IfSome result (λ at. at < length self.now.leaves) }
    {
        let at = self.place_of(owner, name, descriptor)?;
        if how.is_way(&self.leaves[at as usize]) {
            Some(at)
        } else {
            None
        }
    }

    /// Whether a leaf of the owner has the name and the descriptor.
    pub(crate) fn is_registered(&self, owner: ClassId, name: &[u8], descriptor: &[u8]) -> bool
        ensures { result ≡ list_any (has_texts owner name.now descriptor.now) self.now.leaves }
    {
        self.place_of(owner, name, descriptor).is_some()
    }

    /// Registers a leaf.
    pub(crate) fn add_leaf(&mut self, alloc: Global, leaf: Leaf) -> Result<(), NoMemory>
        requires few { length self.old.leaves ≢ most_leaves }
        requires leaf { IsLeafOf self.old.classes leaf }
        requires new { list_any (has_texts leaf.owner leaf.name leaf.descriptor) self.old.leaves
            ≡ false }
        ensures ok { OnOk result (self.new ≡ with_leaf self.old leaf) }
        ensures err { OnErr result (self.new ≡ self.old) }
    {
        let number = self.leaves.len() as u32;
        self.leaves.push(leaf)?;
        let leaf = &self.leaves[number as usize];
        let (owner, name, descriptor) = (
            leaf.owner,
            leaf.name.as_slice(),
            leaf.descriptor.as_slice(),
        );
        let Ok(()) = self.index.add(alloc, owner, name, descriptor, number) else {
            let _ = self.leaves.pop();
            return Err(NoMemory);
        };
        Ok(())
    }

    /// The number of leaves. They are numbered from 0 in the order of the manifest.
    pub fn count(&self) -> u32
        ensures count { result ≡ length self.now.leaves }
        ensures registered { AreRegistered self.now }
    {
        self.leaves.len() as u32
    }

    /// The leaf with these texts that is called in that way. The descriptor is compared as it is
    /// written in the manifest, without a receiver. It takes no memory.
    pub fn find(
        &self,
        owner: &[u8],
        name: &[u8],
        descriptor: &[u8],
        how: How,
    ) -> Result<LeafId, Missing>
        ensures found { result ≡ find_leaf self.now owner.now name.now descriptor.now how }
        ensures within { IfOk result (λ id. id.0 < length self.now.leaves) }
    {
        let Some(owner) = self.classes.find(owner) else {
            return Err(Missing::NoClass);
        };
        match self.place_called(owner, name, descriptor, how) {
            Some(at) => Ok(LeafId(at)),
            None => Err(Missing::NoMethod),
        }
    }

    /// A leaf.
    #[inline(always)]
    pub fn leaf(&self, id: LeafId) -> &Leaf
        requires { id.0 < length self.now.leaves }
        ensures { slice_get self.now.leaves id.0 ≡ Some result.now }
    {
        &self.leaves[id.0 as usize]
    }

    /// The type of a leaf's method handle, a receiver first.
    pub fn ty(&self, id: LeafId) -> &MethodTy
        requires { id.0 < length self.now.leaves }
        ensures { type_of_leaf self.now id ≡ Some result.now }
    {
        &self.leaves[id.0 as usize].ty
    }

    /// Whether a leaf has a receiver.
    pub fn is_virtual(&self, id: LeafId) -> bool
        requires { id.0 < length self.now.leaves }
        ensures { is_virtual_leaf self.now id ≡ Some result }
    {
        self.leaves[id.0 as usize].is_virtual
    }

    /// What a leaf does with arguments of its parameter types, after `n` earlier leaf calls of the
    /// invocation.
    pub fn leaf_does(
        &self,
        alloc: Global,
        id: LeafId,
        args: &[Value],
        n: u32,
    ) -> Result<Outcome, NoMemory>
        requires { outcome_of self.now id args.now n ≢ None }
        ensures { IfOk result (λ outcome. outcome_of self.now id args.now n ≡ Some outcome) }
    {
        if id.0 >= self.count() {
            unreachable!()
        }
        leaf_does(alloc, &self.leaves[id.0 as usize], args, n)
    }
}
