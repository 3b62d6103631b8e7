//! The plan of a run: its calls, thread by thread, and its reader.
#![tactic(auto)]

mod arguments;
mod call;
mod calls;
mod counting;
mod grammar;
mod kinds;
mod reading;

pub use call::{Call, Plan, ThreadCalls};
pub use kinds::{PlanError, PlanFault, PlanKind};
pub use reading::read_plan;
