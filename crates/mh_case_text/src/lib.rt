//! Cases: runs of the program with what each must give, as a person writes them. Their form, their
//! reader, and where two texts differ.
#![tactic(auto)]

mod case;
mod difference;
mod draft;
mod hex;
mod kinds;
mod reading;

pub use case::{Case, CaseArgument, CaseFile, CaseSite, Contents};
pub use difference::{Difference, first_difference, shown_line};
pub use kinds::{CaseError, CaseFault, CaseKind};
pub use reading::{ReadCases, read_cases};
