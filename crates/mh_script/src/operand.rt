use mh_base::Seq;
use mh_values::Value;

/// A register of a script.
#[derive(Debug, Drop)]
pub enum Register {
    /// `type`: the type of the call site.
    SiteType,
    /// `name`: the name that the call site calls.
    SiteName,
    /// `a0`, `a1` and so on: a static argument, by its number, which has at most 15 digits.
    Argument(u64),
    /// A register that a line assigns, by its name.
    Assigned(Seq<u8>),
}

/// An operand for a value: a boxed number, a text or `null`, or the register that holds it.
#[derive(Debug, Drop)]
pub enum ValueOperand {
    Literal(Value),
    Register(Register),
}

/// An operand for a type: its descriptor (JVMS SE 17, 4.3.2), `V`, or a register with a class.
#[derive(Debug, Drop)]
pub enum TypeOperand {
    Void,
    Descriptor(Seq<u8>),
    Register(Register),
}

/// An operand for a method type: its descriptor (JVMS SE 17, 4.3.3), or a register.
#[derive(Debug, Drop)]
pub enum MethodTypeOperand {
    Descriptor(Seq<u8>),
    Register(Register),
}
