//! Chains of cells that are each set once, and walks along them, which agree as far as both go.
#![tactic(auto)]

mod chain;
mod keyed;
mod learnt;
mod mark;
mod places;
mod put;
mod row;
mod rows;
mod scan;
mod twice;
mod walk;

pub use chain::Chain;
pub use keyed::Keyed;
pub use places::Places;
pub use put::{Put, PutRefused};
pub use walk::Walk;
