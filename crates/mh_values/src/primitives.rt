//! The table of primitive types: the letter and the wrapper of each, and the numbers that it has.

ghost use Rattle.std.specs.Prelude.{◌≡◌, ◌↔◌, Some, IsTrue};
ghost use Rattle.mh_values.specs.declared.value.Num.{Num};
ghost use Rattle.mh_values.specs.Primitives.{letter_of, primitive_named, wrapper_of, primitive_of, is_within, number_as, IsNumber};

use crate::{ClassId, Num, Primitive};

impl Primitive {
    /// The letter of the type in a descriptor.
    pub fn letter(self) -> u8
        ensures { result ≡ letter_of self }
    {
        match self {
            Primitive::Z => b'Z',
            Primitive::B => b'B',
            Primitive::C => b'C',
            Primitive::S => b'S',
            Primitive::I => b'I',
            Primitive::J => b'J',
        }
    }

    /// The type of a letter.
    pub fn of_letter(letter: u8) -> Option<Primitive>
        ensures { result ≡ primitive_named letter }
    {
        match letter {
            b'Z' => Some(Primitive::Z),
            b'B' => Some(Primitive::B),
            b'C' => Some(Primitive::C),
            b'S' => Some(Primitive::S),
            b'I' => Some(Primitive::I),
            b'J' => Some(Primitive::J),
            _ => None,
        }
    }

    /// The class of the boxed values of the type, as `java/lang/Integer` of `int`.
    pub fn wrapper(self) -> ClassId
        ensures { result ≡ wrapper_of self }
    {
        match self {
            Primitive::Z => ClassId::BOOLEAN,
            Primitive::B => ClassId::BYTE,
            Primitive::C => ClassId::CHARACTER,
            Primitive::S => ClassId::SHORT,
            Primitive::I => ClassId::INTEGER,
            Primitive::J => ClassId::LONG,
        }
    }

    fn number_in(self, whole: i64) -> Option<Num>
        ensures { result ≡ number_as self whole }
    {
        match self {
            Primitive::Z => match whole {
                0 => Some(Num::Z(false)),
                1 => Some(Num::Z(true)),
                _ => None,
            },
            Primitive::B => i8::try_from(whole).ok().map(Num::B),
            Primitive::C => u16::try_from(whole).ok().map(Num::C),
            Primitive::S => i16::try_from(whole).ok().map(Num::S),
            Primitive::I => i32::try_from(whole).ok().map(Num::I),
            Primitive::J => Some(Num::J(whole)),
        }
    }

    /// The number of the type that a whole number is, if it is in the range: true is 1, false is
    /// 0.
    pub fn number(self, whole: i64) -> Option<Num>
        ensures law { (n : Num) → (result ≡ Some n) ↔ IsNumber self whole n }
        ensures is { result ≡ number_as self whole }
    {
        self.number_in(whole)
    }
}

impl Num {
    /// The primitive type of the number, which is in the range of the type.
    pub fn primitive(self) -> Primitive
        ensures is { result ≡ primitive_of self }
        ensures within { IsTrue (is_within self) }
    {
        match self {
            Num::Z(_) => Primitive::Z,
            Num::B(_) => Primitive::B,
            Num::C(_) => Primitive::C,
            Num::S(_) => Primitive::S,
            Num::I(_) => Primitive::I,
            Num::J(_) => Primitive::J,
        }
    }
}
