use mh_base::Seq;

/// What a type becomes when it is erased, so that different types can share forms: references,
/// numbers that fit into 32 bits, and numbers of 64 bits.
#[derive(Clone, Copy, Debug, PartialEq, Eq)]
pub enum Basic {
    /// A reference.
    L,
    /// 32 bits: an `int`, a `byte`, `char` or `short` as its number, or a `boolean` as 1 or 0.
    I,
    /// 64 bits: a `long`.
    J,
}

/// A list of basic types, as the parameters of a form.
pub type Basics = Seq<Basic>;

/// What a return type becomes: nothing if it is void.
#[derive(Clone, Copy, Debug, PartialEq, Eq)]
pub enum BasicRet {
    /// Nothing, for `void`.
    V,
    /// One value of a basic type.
    Is(Basic),
}

/// An erased method type.
#[derive(Drop)]
pub struct Shape {
    pub params: Basics,
    pub ret: BasicRet,
}
