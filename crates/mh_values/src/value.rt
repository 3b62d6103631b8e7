use crate::{ClassId, Comp};
use mh_base::{Frozen, Seq, Shared};
use std::marker::Model;

/// A number of a primitive type.
#[derive(Clone, Copy, Debug, PartialEq, Eq)]
pub enum Num {
    Z(bool),
    B(i8),
    C(u16),
    S(i16),
    I(i32),
    J(i64),
}

/// How many characters a text in a value may have.
pub const MOST_CHARACTERS: usize = 4096;

/// How many items an array may have.
pub const MOST_ITEMS: usize = 254;

/// A text, as its characters; at most [`MOST_CHARACTERS`] of them in a value.
pub type Str = Frozen<char>;

/// The cause of an exception.
#[derive(Debug, Drop)]
pub struct Cause {
    pub class: ClassId,
    pub message: Str,
}

/// What an exception says: its class, its message, and what it was caused by.
#[derive(Debug, Drop)]
pub struct ExcParts {
    pub class: ClassId,
    pub message: Str,
    pub cause: Option<Cause>,
}

/// What is kept of an exception: only its class, or all that it says, with several owners.
#[derive(Debug, Drop)]
pub(crate) enum ExcKept {
    Bare(ClassId),
    Said(Shared<ExcParts>),
}

/// An exception. A copy shares what it says, so it takes no memory. Contracts see what it says.
#[derive(Debug, Drop)]
pub struct Exc {
    pub(crate) kept: ExcKept,
}

impl Model for Exc {
    ghost use Rattle.mh_values.specs.declared.value.ExcParts.{ExcParts};

    ghost Value = { ExcParts };

    ghost use Rattle.mh_values.specs.Exception.{kept_exc};

    ghost view = { λ e. kept_exc e.kept };
}

/// An item of an array: the values that are no arrays, so no value holds itself.
#[derive(Debug, Drop)]
pub enum Cell {
    Prim(Num),
    Boxed(Num),
    Text(Str),
    Object(ClassId, u32),
    Thrown(Exc),
    Null,
}

/// The items of an array, at most [`MOST_ITEMS`].
pub type Cells = Frozen<Cell>;

/// A value that a leaf takes or gives: a number, a boxed number, a text, an object, an exception,
/// an array, or null. An object has a class and a number of its own.
#[derive(Debug, Drop)]
pub enum Value {
    Prim(Num),
    Boxed(Num),
    Text(Str),
    Object(ClassId, u32),
    Thrown(Exc),
    Array(Comp, Cells),
    Null,
}

/// A list of values, as the arguments of a call.
pub type Items = Seq<Value>;

/// How a call ends: with a value, without one if the return type is void, or with an exception.
#[derive(Debug, Drop)]
pub enum Outcome {
    Return(Option<Value>),
    Throw(Exc),
}

/// A leaf, by its number in the manifest, from 0.
#[derive(Clone, Copy, Debug, PartialEq, Eq)]
pub struct LeafId(pub u32);
