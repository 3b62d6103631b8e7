//! Forms: lists of names over slots, which handles share, and what running them on fields does.
#![tactic(auto)]

mod array;
mod basic;
mod body;
mod calls;
mod convert;
mod copy;
mod ending;
mod erasure;
mod field;
mod going;
mod interpreter;
mod invocation;
mod join;
mod leaf;
mod lookup;
mod machine;
mod name;
mod on_slots;
mod outcome;
mod plain;
mod slot;
mod slots;
mod stack;

pub use basic::{Basic, BasicRet, Basics, Shape};
pub use body::FormBody;
pub use calls::Calls;
pub use copy::{copy_field, copy_fields};
pub use erasure::{all_typed, basic_of, erase, shape, typed};
pub use field::{Bound, Field, Fields};
pub use interpreter::{run, run_on};
pub use machine::Machine;
pub use mh_pieces::{Piece, Pieces, join_pieces};
pub use name::{LoopCounts, Name, Names, Operands};
pub use outcome::{Ran, SlotOutcome};
pub use slot::{Slot, Slots};
