//! Method handles over shared forms: the table of forms, and handles that stand for trees.
#![tactic(auto)]

mod answer;
mod chain;
mod copies;
mod equality;
mod error;
mod fields;
mod form;
mod growth;
mod handle;
mod hash;
mod invoke;
mod leaves;
mod parts;
mod pass;
mod recipe;
mod refusal;
mod retyped;
mod seat;
mod seen_forms;
mod sought;
mod table;
mod walks;
mod work;

pub use answer::{Answer, Ended};
pub use error::{EditError, HandleError};
pub use form::Form;
pub use growth::{Growth, one_field};
pub use handle::Handle;
pub use leaves::leaf;
pub use parts::Parts;
pub use pass::FormPass;
pub use recipe::Recipe;
pub use seat::FormSeat;
pub use table::FormTable;
pub use work::Work;
