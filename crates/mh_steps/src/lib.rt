//! Handles made by steps from the leaves of one small manifest, and called: what tests and
//! measurements share.
#![tactic(auto)]

mod broken;
mod calling;
mod checking;
mod leaves;
mod literals;
mod making;
mod manifest;
mod roots;
mod start;
mod step;

pub use broken::Broken;
pub use calling::call_typed;
pub use checking::check;
pub use literals::items_of;
pub use making::made;
pub use manifest::{
    ADD, ARR, DIV, FAIL, FIN, LESS, MANIFEST, NOTHING, SAME, SAW, SUB, TEXT, TICK, ZIN,
};
pub use start::Start;
pub use step::{Joined, Root, Step, Typed};
