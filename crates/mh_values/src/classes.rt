ghost use Rattle.std.specs.Prelude.{◌≡◌, ◌<◌, ◌+◌, ◌↔◌, ◌∷◌, [], ◌++◌, length, IsTrue, IsSome, None, Some, Err, IfOk, OnOk, OnErr};
ghost use Rattle.mh_values.specs.Class.{IsSubclass, is_subclass, superclass_of, builtin_classes, class_at};
ghost use Rattle.mh_values.specs.Classes.{AreClasses, class_named, class_of, name_of, most_classes};

use crate::ClassId;
use crate::builtin::builtin_registry;
use crate::registry::Registry;
use mh_base::NoMemory;
use std::alloc::Global;
use std::error::Error;
use std::fmt;
use std::marker::Model;

/// How many classes there may be: the built-in ones, and 1,024 that are declared.
pub const MOST_CLASSES: usize = 28 + 1024;

/// Why a class was not declared.
#[derive(Clone, Copy, Debug, PartialEq, Eq)]
pub enum DeclareError {
    NoMemory,
    /// There is a class of this name already.
    Twice,
    /// The most classes that there may be were declared.
    TooMany,
}

impl fmt::Display for DeclareError {
    fn fmt<W: fmt::Write>(&self, f: &mut fmt::Formatter<W>) -> fmt::Result {
        f.write_str(match self {
            DeclareError::NoMemory => "no memory is left",
            DeclareError::Twice => "the class is there already",
            DeclareError::TooMany => "there are too many classes",
        })
    }
}

impl Error for DeclareError {}

impl From<NoMemory> for DeclareError {
    ghost use Rattle.mh_values.specs.declared.classes.DeclareError.TheVariants as declare_error;

    ghost from_gives = { λ _ error. error ≡ declare_error.NoMemory };

    fn from(_: NoMemory) -> Self {
        DeclareError::NoMemory
    }
}

/// The classes of a run: those that are built in, and after them those that were declared.
#[derive(Drop)]
pub struct Classes {
    registry: Registry,
}

impl Model for Classes {
    ghost use Rattle.std.specs.Prelude.{List};
    ghost use Rattle.mh_values.specs.declared.class.Class.{Class};
    ghost use Rattle.mh_values.specs.Classes.{AreClasses};

    ghost Value = { List Class };

    ghost view = { λ c. c.registry };

    ghost invariant = { λ c. AreClasses c.registry };
}

impl Classes {
    /// The built-in classes alone: 28 of `java.lang` and `java.lang.invoke`.
    pub fn builtin(alloc: Global) -> Result<Classes, NoMemory>
        ensures { IfOk result (λ classes. classes ≡ builtin_classes) }
    {
        Ok(Classes {
            registry: builtin_registry(alloc)?,
        })
    }

    /// Declares a class below another one. Its name must be new, and may be any.
    pub fn declare(&mut self, name: &[u8], parent: ClassId) -> Result<ClassId, DeclareError>
        requires { parent.0 < length self.old }
        ensures ok { IfOk result (λ class. class ≡ class_at (length self.old)) }
        ensures added { OnOk result (self.new ≡ self.old ++ class_of name.now (Some parent) ∷ []) }

        ensures twice { (result ≡ Err DeclareError.Twice) ↔ IsSome (class_named self.old name.now) }
        ensures too_many { (result ≡ Err DeclareError.TooMany)
            ↔ (class_named self.old name.now ≡ None) × (length self.old ≡ most_classes) }
        ensures err { OnErr result (self.new ≡ self.old) }
    {
        if self.find(name).is_some() {
            return Err(DeclareError::Twice);
        }
        let number = self.registry.len();
        if number == MOST_CLASSES {
            return Err(DeclareError::TooMany);
        }
        self.registry.add(name, Some(parent))?;
        Ok(ClassId(number as u32))
    }

    /// How many classes there are; their numbers are those below it.
    pub fn len(&self) -> usize
        ensures len { result ≡ length self.now }
        ensures classes { AreClasses self.now }
    {
        self.registry.len()
    }

    /// The class of a name.
    pub fn find(&self, name: &[u8]) -> Option<ClassId>
        ensures found { result ≡ class_named self.now name.now }
        ensures classes { AreClasses self.now }
    {
        self.registry.find(name)
    }

    /// The name of a class. A number that is no class of these has no name: it is empty.
    pub fn name(&self, class: ClassId) -> &[u8]
        ensures { result.now ≡ name_of self.now class }
    {
        match self.registry.get(class) {
            Some(class) => class.name.as_slice(),
            None => &[],
        }
    }

    /// The superclass of a class; only `java/lang/Object` has none.
    pub fn superclass(&self, class: ClassId) -> Option<ClassId>
        ensures superclass { result ≡ superclass_of self.now class }
        ensures classes { AreClasses self.now }
    {
        match self.registry.get(class) {
            Some(class) => class.superclass,
            None => None,
        }
    }

    /// Whether a class is another one, or below it. A number that is no class of these is below
    /// itself only.
    pub fn subclass(&self, class: ClassId, above: ClassId) -> bool
        ensures reached { IsTrue result ↔ IsSubclass self.now class above }
        ensures same { result ≡ is_subclass self.now class above }
    {
        let mut class = class;
        while class != above {
            let Some(superclass) = self.superclass(class) else {
                return false;
            };
            class = superclass;
        }
        true
    }
}
