//! Finished runs: the answers of the calls, the attempts that linked the call sites, what is
//! recorded there and of the dynamic constants, and the report.
#![tactic(auto)]

mod answer;
mod attempt;
mod parts;
mod printing;
mod sharing;
mod table;

pub use answer::{Answers, ThreadAnswers};
pub use attempt::{Attempt, Attempts, Serials};
pub use parts::Report;
pub use printing::{Summary, push_answer, report};
pub use sharing::{Finished, report_by_threads};
pub use table::{ConstRow, ConstRows, Recorded, Shown, Table};
