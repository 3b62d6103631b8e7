use mh_base::Seq;
use mh_values::{ClassId, MethodTy};

/// What a leaf does, by the word of the manifest.
#[derive(Clone, Copy, Debug, PartialEq, Eq)]
pub enum Kind {
    /// `iadd`: the sum of two ints.
    Iadd,
    /// `isub`: their difference.
    Isub,
    /// `imul`: their product.
    Imul,
    /// `idiv`: their quotient, rounded toward zero.
    Idiv,
    /// `ladd`: the sum of two longs.
    Ladd,
    /// `ieq`: whether two ints are equal.
    Ieq,
    /// `ilt`: whether the first int is less.
    Ilt,
    /// `not`: the other boolean.
    Not,
    /// `concat`: two texts joined.
    Concat,
    /// `length`: the number of UTF-16 units of a text.
    Length,
    /// `same`: the one argument.
    Same,
    /// `first`: the first of two or more arguments.
    First,
    /// `pick`: the second argument if the first is true, otherwise the third.
    Pick,
    /// `tick`: how many leaf calls the invocation made before this one.
    Tick,
    /// `note`: nothing.
    Note,
    /// `throw:CLASS`: throws an exception of the class, with an empty message.
    Throw(ClassId),
}

/// A leaf method: it is named by its owner, its name and the text of its descriptor.
#[derive(Debug, Drop)]
pub struct Leaf {
    pub owner: ClassId,
    pub name: Seq<u8>,
    /// The descriptor as the manifest writes it, without a receiver.
    pub descriptor: Seq<u8>,
    /// Whether the leaf has a receiver, which is then the first parameter of `ty`.
    pub is_virtual: bool,
    /// The type of the leaf's method handle.
    pub ty: MethodTy,
    pub kind: Kind,
}
