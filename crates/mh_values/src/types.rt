ghost use Rattle.std.specs.Prelude.{◌≡◌};
ghost use Rattle.mh_values.specs.Array.{item_type};

use crate::ClassId;
use mh_base::Seq;

/// A primitive type, by its letter in a descriptor: `boolean`, `byte`, `char`, `short`, `int`,
/// `long` (JVMS SE 17, 4.3.2).
#[derive(Clone, Copy, Debug, PartialEq, Eq)]
pub enum Primitive {
    Z,
    B,
    C,
    S,
    I,
    J,
}

/// The component type of an array. Arrays have one dimension.
#[derive(Clone, Copy, Debug, PartialEq, Eq)]
pub enum Comp {
    Prim(Primitive),
    Class(ClassId),
}

impl Comp {
    /// The type of the items.
    pub fn item_type(self) -> Ty
        ensures { result ≡ item_type self }
    {
        match self {
            Comp::Prim(primitive) => Ty::Prim(primitive),
            Comp::Class(class) => Ty::Class(class),
        }
    }
}

/// The type of a value (JVMS SE 17, 4.3.2).
#[derive(Clone, Copy, Debug, PartialEq, Eq)]
pub enum Ty {
    Prim(Primitive),
    Class(ClassId),
    Array(Comp),
}

/// A list of types, as the parameters of a method.
pub type Tys = Seq<Ty>;

/// A method type (JVMS SE 17, 4.3.3; `java.lang.invoke.MethodType`).
#[derive(Debug, Drop)]
pub struct MethodTy {
    pub params: Tys,
    /// `None` is void.
    pub ret: Option<Ty>,
}
