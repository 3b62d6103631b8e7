use crate::{MethodTypeOperand, Register, TypeOperand, ValueOperand};
use mh_base::Seq;
use mh_values::Str;

/// The texts by which a method is named: its class, its name and its descriptor.
#[derive(Debug, Drop)]
pub struct MethodName {
    pub owner: Seq<u8>,
    pub name: Seq<u8>,
    pub descriptor: Seq<u8>,
}

/// What makes a method handle: a leaf that is looked up, or a call of `MethodHandles`. Classes,
/// leaves and types are kept as texts, since they are looked up when the line runs.
#[derive(Debug, Drop)]
pub enum Operation {
    /// `leaf REF`
    Leaf(MethodName),
    /// `constant T V`
    Constant(TypeOperand, ValueOperand),
    /// `identity T`
    Identity(TypeOperand),
    /// `throw T C`: the return type, and the class of the exception.
    Throw(TypeOperand, Seq<u8>),
    /// `bind H P V`
    Bind(Register, u8, ValueOperand),
    /// `drop H P TYPES`: descriptors, one after the other.
    Drop(Register, u8, Seq<u8>),
    /// `permute H M ORDER`
    Permute(Register, MethodTypeOperand, Seq<u8>),
    /// `filter H P F`
    Filter(Register, u8, Register),
    /// `filterret H F`
    FilterReturn(Register, Register),
    /// `fold H P F`
    Fold(Register, u8, Register),
    /// `collect H P F`
    Collect(Register, u8, Register),
    /// `spread H T N`
    Spread(Register, TypeOperand, u8),
    /// `gather H T N`
    Gather(Register, TypeOperand, u8),
    /// `astype H M`
    AsType(Register, MethodTypeOperand),
    /// `explicit H M`
    Explicit(Register, MethodTypeOperand),
    /// `tryfinally H F`: the target and its cleanup.
    TryFinally(Register, Register),
    /// `switch H H ..`: the fallback, and 1 to 16 cases.
    Switch(Register, Seq<Register>),
    /// `counted H H H`: what gives the end, what gives the start, and the body.
    Counted(Register, Register, Register),
    /// `guard F H H`: the test, the target and the fallback.
    Guard(Register, Register, Register),
    /// `catch H C F`: the target, the class of the exceptions and their handler.
    Catch(Register, Seq<u8>, Register),
}

/// A line before the last one.
#[derive(Debug, Drop)]
pub enum Step {
    /// `let R OP`: the register, by its name, and what makes the method handle that it gets.
    Let(Seq<u8>, Operation),
    /// `let R serial`: the register gets the serial of the attempt, as a boxed long.
    Serial(Seq<u8>),
    /// `failmod K R`: throws if the serial modulo K equals R.
    FailMod { modulus: u32, remainder: u32 },
}

/// The last line.
#[derive(Debug, Drop)]
pub enum End {
    /// `return H`: the target.
    Return(Register),
    /// `raise C s:TEXT`: throws an exception of the class with that message.
    Raise { class: Seq<u8>, message: Str },
    /// `value V`: the value of a dynamic constant.
    Value(ValueOperand),
}

/// A bootstrap method: its name, its lines, and the line that ends it.
#[derive(Debug, Drop)]
pub struct Script {
    pub method: MethodName,
    pub steps: Seq<Step>,
    pub end: End,
}
