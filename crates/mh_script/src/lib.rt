//! Scripts, which stand for bootstrap methods: the language as data, and its reader.
#![tactic(auto)]

mod fault;
mod form;
mod index;
mod kinds;
mod line;
mod number;
mod operand;
mod reading;
mod script;
mod scripts;
mod token;

pub use kinds::{ScriptError, ScriptFault, ScriptKind};
pub use operand::{MethodTypeOperand, Register, TypeOperand, ValueOperand};
pub use reading::read_scripts;
pub use script::{End, MethodName, Operation, Script, Step};
pub use scripts::{ScriptId, Scripts};
