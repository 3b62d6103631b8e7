//! The constant pool of a class file: its entries, and the references between them (JVMS 4.4).
#![tactic(auto)]

mod entry;
mod fault;
mod numbers;
mod pool;
pub mod reference_kinds;
mod references;
pub mod tags;

pub use entry::{Entry, Kind};
pub use fault::{ClassError, ClassFault, ClassKind};
pub use numbers::{run, u1, u2, u4};
pub use pool::{Pool, read_pool};
pub use references::{check_name, check_name_or_none, check_pool};
