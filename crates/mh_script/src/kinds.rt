ghost use Rattle.std.specs.Prelude.{◌≡◌};
ghost use Rattle.mh_script.specs.Kinds.{kind_word, kind_number, lower_kind, lower, fault_unless};
ghost use Rattle.mh_script.specs.declared.kinds.ScriptError.TheVariants.{NoMemory as WithoutMemory};

use mh_base::{LineFault, NoMemory};
use std::alloc::AllocError;
use std::error::Error;
use std::fmt;

/// What is wrong with a line of scripts. If several kinds apply, the line has the first of them.
#[derive(Clone, Copy, Debug, PartialEq, Eq)]
pub enum ScriptKind {
    /// The line has none of the forms that are allowed there, assigns to a given register, or has a
    /// number outside its range. If the last script has no `end`, the last line has this fault.
    BadLine,
    /// An earlier script has the same owner, name and descriptor.
    Twice,
    /// The line is the 65th of its script.
    TooLong,
    /// No earlier line assigns the register, and it is not given.
    Undefined,
    /// The register holds a thing of another sort than its place needs.
    WrongSort,
    /// A text in the place of a descriptor is none.
    BadDescriptor,
    /// A token in the place of a literal is neither a boxed number nor a text.
    BadLiteral,
    /// The last line before `end` is none of `return`, `raise` and `value`, or such a line is not
    /// the last.
    NoReturn,
}

impl ScriptKind {
    /// The kind's name, as a refusal prints it.
    pub fn word(self) -> &'static str
        ensures { result.now ≡ kind_word self }
    {
        match self {
            ScriptKind::BadLine => "BadLine",
            ScriptKind::Twice => "Twice",
            ScriptKind::TooLong => "TooLong",
            ScriptKind::Undefined => "Undefined",
            ScriptKind::WrongSort => "WrongSort",
            ScriptKind::BadDescriptor => "BadDescriptor",
            ScriptKind::BadLiteral => "BadLiteral",
            ScriptKind::NoReturn => "NoReturn",
        }
    }

    // The place of the kind among all kinds, from 1.
    fn number(self) -> u8
        ensures { result ≡ kind_number self }
    {
        match self {
            ScriptKind::BadLine => 1,
            ScriptKind::Twice => 2,
            ScriptKind::TooLong => 3,
            ScriptKind::Undefined => 4,
            ScriptKind::WrongSort => 5,
            ScriptKind::BadDescriptor => 6,
            ScriptKind::BadLiteral => 7,
            ScriptKind::NoReturn => 8,
        }
    }
}

// The first of two kinds.
fn lower_kind(one: ScriptKind, other: ScriptKind) -> ScriptKind
    ensures { result ≡ lower_kind one other }
{
    if one.number() <= other.number() {
        one
    } else {
        other
    }
}

/// What is wrong with a line of two parts, each of which may have a fault.
pub(crate) fn lower(one: Option<ScriptKind>, other: Option<ScriptKind>) -> Option<ScriptKind>
    ensures { result ≡ lower one other }
{
    let Some(first) = one else {
        return other;
    };
    let Some(second) = other else {
        return one;
    };
    Some(lower_kind(first, second))
}

/// A fault if a condition does not hold.
pub(crate) fn fault_unless(holds: bool, kind: ScriptKind) -> Option<ScriptKind>
    ensures { result ≡ fault_unless holds kind }
{
    if holds { None } else { Some(kind) }
}

/// The first faulty line of scripts, counted from 1.
pub type ScriptFault = LineFault<ScriptKind>;

/// Why scripts were not read.
#[derive(Clone, Copy, Debug, PartialEq, Eq)]
pub enum ScriptError {
    NoMemory,
    Fault(ScriptFault),
}

impl fmt::Display for ScriptError {
    fn fmt<W: fmt::Write>(&self, f: &mut fmt::Formatter<W>) -> fmt::Result {
        match self {
            ScriptError::NoMemory => f.write_str("no memory is left"),
            ScriptError::Fault(fault) => {
                let (line, kind) = (fault.line, fault.kind.word());
                write!(f, "line {line}: {kind}")
            }
        }
    }
}

impl Error for ScriptError {}

impl From<NoMemory> for ScriptError {
    ghost from_gives = { λ _ e. e ≡ WithoutMemory };

    fn from(_: NoMemory) -> Self {
        ScriptError::NoMemory
    }
}

impl From<AllocError> for ScriptError {
    ghost from_gives = { λ _ e. e ≡ WithoutMemory };

    fn from(_: AllocError) -> Self {
        ScriptError::NoMemory
    }
}
