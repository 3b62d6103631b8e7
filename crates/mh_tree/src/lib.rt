//! Trees of combinators: their types, or why they are refused, and what they mean.
#![tactic(auto)]

mod adapters;
mod arrays;
mod branches;
mod conversions;
mod endings;
mod error;
mod inserting;
mod joints;
mod limits;
mod message;
mod reordering;
mod roots;

pub use adapters::{
    check_bind, check_collect, check_drop, check_filter, check_filterret, check_fold,
};
pub use arrays::{check_gather, check_spread};
pub use branches::{check_catch, check_guard};
pub use conversions::{check_astype, check_convert, check_explicit};
pub use endings::{check_counted, check_switch, check_tryfinally};
pub use error::CheckError;
pub use inserting::{Adapter, check_adapter};
pub use joints::{Joint, Typed, check_joint};
pub use message::mismatch;
pub use reordering::check_permute;
pub use roots::{check_constant, check_identity, check_leaf, check_throw};
