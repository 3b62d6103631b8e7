use mh_base::{LineError, LineFault};
use std::fmt;

/// What is wrong with a line.
#[derive(Clone, Copy, Debug, PartialEq, Eq)]
pub enum CaseKind {
    /// It stands outside of all cases, and begins none.
    Outside,
    /// It has no meaning where it stands.
    BadLine,
    /// What stands in the place of a number or of bytes is none.
    BadNumber,
    /// The case has this file, a status or a text before it.
    Twice,
    /// No case above has this name.
    NoCase,
    /// The case ends without a status or a text.
    Unfinished,
}

impl fmt::Display for CaseKind {
    fn fmt<W: fmt::Write>(&self, f: &mut fmt::Formatter<W>) -> fmt::Result {
        f.write_str(match self {
            CaseKind::Outside => "stands in no case",
            CaseKind::BadLine => "has no meaning here",
            CaseKind::BadNumber => "has no number where one should stand",
            CaseKind::Twice => "gives something twice",
            CaseKind::NoCase => "names no case above it",
            CaseKind::Unfinished => "ends a case without a status or a text",
        })
    }
}

/// Why a line of cases was not taken.
pub type CaseError = LineError<CaseKind>;

/// The first line of a file of cases that was not taken.
pub type CaseFault = LineFault<CaseKind>;
