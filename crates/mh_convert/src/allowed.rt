ghost use Rattle.std.specs.Prelude.{◌≡◌, IfSome, IsTrue};
ghost use Rattle.mh_convert.specs.declared.conv.Rules.TheVariants as rules;
ghost use Rattle.mh_convert.specs.Conversion.{widens, serves_as, may_unbox, may_hold_number};
ghost use Rattle.mh_convert.specs.Conversion.{can_as_type, can_explicit, can, conversion_of, ret_conversion_of};

use crate::{Conv, RetConv, Rules};
use mh_values::{ClassId, Classes, Primitive, Ty};

/// The primitive types.
const PRIMITIVES: [Primitive; 6] = [
    Primitive::Z,
    Primitive::B,
    Primitive::C,
    Primitive::S,
    Primitive::I,
    Primitive::J,
];

/// Whether a primitive type widens to another one (JLS SE 17, 5.1.2).
fn widens(from: Primitive, to: Primitive) -> bool
    ensures { result ≡ widens from to }
{
    match from {
        Primitive::B => matches!(to, Primitive::S | Primitive::I | Primitive::J),
        Primitive::C | Primitive::S => matches!(to, Primitive::I | Primitive::J),
        Primitive::I => to == Primitive::J,
        Primitive::Z | Primitive::J => false,
    }
}

/// Whether a number of the first primitive type serves as one of the second: the types are equal,
/// or the first widens to the second.
pub(crate) fn serves_as(from: Primitive, to: Primitive) -> bool
    ensures { result ≡ serves_as from to }
{
    from == to || widens(from, to)
}

/// Whether a value of the class may be a boxed number that serves as the primitive type.
fn may_unbox(from: ClassId, to: Primitive, classes: &Classes) -> bool
    ensures { result ≡ may_unbox classes.now from to }
{
    PRIMITIVES.iter().any(|primitive| serves_as(*primitive, to)
        && classes.subclass(primitive.wrapper(), from))
}

/// Whether a value of the first type may be converted to the second as `asType` does.
fn can_as_type(from: Ty, to: Ty, classes: &Classes) -> bool
    ensures { result ≡ can_as_type classes.now from to }
{
    match (from, to) {
        (Ty::Prim(from), Ty::Prim(to)) => serves_as(from, to),
        (Ty::Prim(from), Ty::Class(to)) => classes.subclass(from.wrapper(), to),
        (Ty::Class(from), Ty::Prim(to)) => may_unbox(from, to, classes),
        (Ty::Prim(_), Ty::Array(_)) | (Ty::Array(_), Ty::Prim(_)) => false,
        _ => true,
    }
}

/// Whether a value of the class may be a boxed number.
fn may_hold_number(from: ClassId, classes: &Classes) -> bool
    ensures { result ≡ may_hold_number classes.now from }
{
    PRIMITIVES
        .iter()
        .any(|primitive| classes.subclass(primitive.wrapper(), from))
}

/// Whether a value of the first type may be converted to the second explicitly.
fn can_explicit(from: Ty, to: Ty, classes: &Classes) -> bool
    ensures { result ≡ can_explicit classes.now from to }
{
    match (from, to) {
        (Ty::Prim(from), Ty::Class(to)) => classes.subclass(from.wrapper(), to),
        (Ty::Class(from), Ty::Prim(_)) => may_hold_number(from, classes),
        (Ty::Prim(_), Ty::Array(_)) | (Ty::Array(_), Ty::Prim(_)) => false,
        _ => true,
    }
}

impl Rules {
    fn can(self, from: Ty, to: Ty, classes: &Classes) -> bool
        ensures { result ≡ can self classes.now from to }
    {
        match self {
            Rules::AsType => can_as_type(from, to, classes),
            Rules::Explicit => can_explicit(from, to, classes),
        }
    }

    /// The conversion of an argument from one type to another, if the rules allow it. They allow it
    /// if the types are equal, if both are references, or if a primitive type is boxed. Whether a
    /// primitive type or a reference converts to a primitive type, each of the rules says itself.
    pub fn conversion(self, from: Ty, to: Ty, classes: &Classes) -> Option<Conv>
        ensures found { result ≡ conversion_of self classes.now from to }
        ensures allowed { IfSome result (λ c. IsTrue (can self classes.now c.from c.to)) }
    {
        if self.can(from, to, classes) {
            Some(Conv { from, to })
        } else {
            None
        }
    }

    /// The conversion of what a method returns, if the rules allow it: as of an argument, and
    /// any type may become void, and void any type.
    pub fn ret_conversion(
        self,
        from: Option<Ty>,
        to: Option<Ty>,
        classes: &Classes,
    ) -> Option<RetConv>
        ensures { result ≡ ret_conversion_of self classes.now from to }
    {
        match (from, to) {
            (None, None) => Some(RetConv::Keep),
            (Some(_), None) => Some(RetConv::Discard),
            (None, Some(to)) => Some(RetConv::Default(to)),
            (Some(from), Some(to)) => self.conversion(from, to, classes).map(RetConv::Value),
        }
    }
}

/// The conversion of an argument from one type to another, if it is allowed. It is allowed if the
/// types are equal, if both are references, if a primitive type widens or is boxed, or if a
/// reference may hold a boxed number that fits (`MethodHandle.asType`, SE 17).
pub fn conversion(from: Ty, to: Ty, classes: &Classes) -> Option<Conv>
    ensures found { result ≡ conversion_of rules.AsType classes.now from to }
    ensures allowed { IfSome result (λ c. IsTrue (can rules.AsType classes.now c.from c.to)) }
{
    Rules::AsType.conversion(from, to, classes)
}

/// The conversion of what a method returns, if it is allowed: as of an argument, and any type
/// may become void, and void any type (`MethodHandle.asType`, SE 17).
pub fn ret_conversion(from: Option<Ty>, to: Option<Ty>, classes: &Classes) -> Option<RetConv>
    ensures { result ≡ ret_conversion_of rules.AsType classes.now from to }
{
    Rules::AsType.ret_conversion(from, to, classes)
}
