ghost use Rattle.std.specs.Prelude.{◌≡◌, ◌<◌, ◌^◌, [], ◌∷◌, ◌++◌, length, None, OnOk, OnErr, slice_get};
ghost use Rattle.std.specs.Option.{option_copied};
ghost use Rattle.mh_values.specs.Classes.{AreOrdered, class_named, class_of};
ghost use Rattle.mh_values.specs.ClassNumbers.{IsWithin};

use crate::{Class, ClassId};
use mh_base::{NoMemory, Seq};
use std::alloc::Global;
use std::collections::BTreeMap;
use std::marker::Model;

/// Classes by their numbers, and the numbers by the classes' names.
#[derive(Drop)]
pub(crate) struct Registry {
    list: Vec<Class>,
    numbers: BTreeMap<Vec<u8>, ClassId>,
}

impl Model for Registry {
    ghost use Rattle.std.specs.Prelude.{List};
    ghost use Rattle.mh_values.specs.declared.class.Class.{Class};
    ghost use Rattle.mh_values.specs.ClassNumbers.{IsRegistry};

    ghost Value = { List Class };

    ghost view = { λ r. r.list.items };

    ghost invariant = { λ r. IsRegistry r.numbers r.list.items };
}

impl Registry {
    /// No classes.
    pub(crate) fn new(alloc: Global) -> Registry
        ensures empty { result ≡ [] }
        ensures ordered { AreOrdered result }
    {
        Registry {
            list: Vec::new(alloc),
            numbers: BTreeMap::new(alloc),
        }
    }

    /// How many classes there are.
    pub(crate) fn len(&self) -> usize
        ensures { result ≡ length self.now }
    {
        self.list.len()
    }

    /// The class of a number, if it is one of these.
    pub(crate) fn get(&self, class: ClassId) -> Option<&Class>
        ensures { option_copied result ≡ slice_get self.now class.0 }
    {
        self.list.as_slice().get(class.0 as usize)
    }

    /// The class of a name.
    pub(crate) fn find(&self, name: &[u8]) -> Option<ClassId>
        ensures { result ≡ class_named self.now name.now }
    {
        self.numbers.get(name).copied()
    }

    /// Puts a class after the others, and its number under its name.
    fn put(&mut self, key: Vec<u8>, class: Class) -> Result<(), NoMemory>
        requires key { key.items ≡ class.name }
        requires new { class_named self.old class.name ≡ None }
        requires below { IsWithin (length self.old) class.superclass }
        requires few { length self.old < 2 ^ 32 }
        ensures ok { OnOk result (self.new ≡ self.old ++ class ∷ []) }
        ensures ordered { OnOk result (AreOrdered self.new) }
        ensures err { OnErr result (self.new ≡ self.old) }
    {
        let number = ClassId(self.list.len() as u32);
        self.list.push(class)?;
        let Ok(_) = self.numbers.insert(key, number) else {
            let _ = self.list.pop();
            return Err(NoMemory);
        };
        Ok(())
    }

    /// Puts a class after the others.
    pub(crate) fn add(&mut self, name: &[u8], superclass: Option<ClassId>) -> Result<(), NoMemory>
        requires new { class_named self.old name.now ≡ None }
        requires below { IsWithin (length self.old) superclass }
        requires few { length self.old < 2 ^ 32 }
        ensures ok { OnOk result (self.new ≡ self.old ++ class_of name.now superclass ∷ []) }
        ensures ordered { OnOk result (AreOrdered self.new) }
        ensures err { OnErr result (self.new ≡ self.old) }
    {
        let alloc = *self.list.allocator();
        let key = Vec::from_slice(alloc, name)?;
        let name = Seq::from_vec(Vec::from_slice(alloc, name)?);
        self.put(key, Class { name, superclass })
    }
}
