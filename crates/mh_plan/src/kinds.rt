ghost use Rattle.std.specs.Prelude.{◌≡◌};
ghost use Rattle.mh_plan.specs.Plan.{kind_word, kind_number};
ghost use Rattle.mh_plan.specs.declared.kinds.PlanError.TheVariants.{NoMemory as WithoutMemory};

use mh_base::{LineError, LineFault, NoMemory};
use std::alloc::AllocError;
use std::error::Error;
use std::fmt;

/// What is wrong with a line of a plan. The first line of one of the first two kinds counts. If
/// there is none, the first line of another kind counts, with the first kind that applies to it.
#[derive(Clone, Copy, Debug, PartialEq, Eq)]
pub enum PlanKind {
    /// The line does not have the form of a plan's line, or is a call before the first thread.
    BadLine,
    /// The thread is the 129th, or the call the 10,001st of all threads.
    TooMany,
    /// No leaf has the owner, name and descriptor of the reference.
    NoLeaf,
    /// No site has this number.
    NoSite,
    /// The type of the call is not readable.
    BadType,
    /// An argument is no literal, or the arguments do not have the types of the call's parameters.
    BadArguments,
}

impl PlanKind {
    /// The kind's name, as a refusal prints it.
    pub fn word(self) -> &'static str
        ensures { result.now ≡ kind_word self }
    {
        match self {
            PlanKind::BadLine => "BadLine",
            PlanKind::TooMany => "TooMany",
            PlanKind::NoLeaf => "NoLeaf",
            PlanKind::NoSite => "NoSite",
            PlanKind::BadType => "BadType",
            PlanKind::BadArguments => "BadArguments",
        }
    }

    /// The kind's number, from 1. If several kinds apply to a line, the lowest number counts.
    pub fn number(self) -> u8
        ensures { result ≡ kind_number self }
    {
        match self {
            PlanKind::BadLine => 1,
            PlanKind::TooMany => 2,
            PlanKind::NoLeaf => 3,
            PlanKind::NoSite => 4,
            PlanKind::BadType => 5,
            PlanKind::BadArguments => 6,
        }
    }
}

/// The result of taking a line.
pub(crate) type LineResult = Result<(), LineError<PlanKind>>;

/// The faulty line of a plan that counts, numbered from 1.
pub type PlanFault = LineFault<PlanKind>;

/// Why a plan was not read.
#[derive(Clone, Copy, Debug, PartialEq, Eq)]
pub enum PlanError {
    NoMemory,
    Fault(PlanFault),
}

impl fmt::Display for PlanError {
    fn fmt<W: fmt::Write>(&self, f: &mut fmt::Formatter<W>) -> fmt::Result {
        match self {
            PlanError::NoMemory => f.write_str("no memory is left"),
            PlanError::Fault(fault) => {
                let (line, kind) = (fault.line, fault.kind.word());
                write!(f, "line {line}: {kind}")
            }
        }
    }
}

impl Error for PlanError {}

impl From<NoMemory> for PlanError {
    ghost from_gives = { λ _ e. e ≡ WithoutMemory };

    fn from(_: NoMemory) -> Self {
        PlanError::NoMemory
    }
}

impl From<AllocError> for PlanError {
    ghost from_gives = { λ _ e. e ≡ WithoutMemory };

    fn from(_: AllocError) -> Self {
        PlanError::NoMemory
    }
}
