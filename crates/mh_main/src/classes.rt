ghost use Rattle.std.specs.Prelude.{◌≡◌, ◌≤◌, Ok, IfOk, IfErr, length};
ghost use Rattle.mh_classfile.specs.Class.{HasDynamics};
ghost use Rattle.mh_classfile.specs.File.{class_or_fault};
ghost use Rattle.mh_main.specs.Kinds.{class_word};
ghost use Rattle.mh_main.specs.Stops.{StopsBytes};

use crate::stop::Stop;
use mh_class_pool::{ClassError, ClassKind};
use mh_classfile::{ClassView, read};
use std::alloc::Global;

/// How many bytes a class file may have.
pub const CLASS_LIMIT: usize = 1_048_576;

// The name of a kind of fault, as a refusal prints it.
fn class_word(kind: ClassKind) -> &'static str
    ensures { result.now ≡ class_word kind }
{
    match kind {
        ClassKind::Truncated => "Truncated",
        ClassKind::BadMagic => "BadMagic",
        ClassKind::BadVersion => "BadVersion",
        ClassKind::BadTag => "BadTag",
        ClassKind::BadIndex => "BadIndex",
        ClassKind::WrongKind => "WrongKind",
        ClassKind::BadText => "BadText",
        ClassKind::BadCode => "BadCode",
        ClassKind::BadBootstraps => "BadBootstraps",
        ClassKind::Trailing => "Trailing",
        ClassKind::TooManySites => "TooManySites",
        ClassKind::BadDescriptor => "BadDescriptor",
        ClassKind::TooManyConstants => "TooManyConstants",
    }
}

/// The class that the bytes of the named file are, if it has at most `room` call sites.
pub fn class_of<'a, 'b>(
    alloc: Global,
    name: &'a str,
    bytes: &'b [u8],
    room: u32,
) -> Result<ClassView<'b>, Stop<'a>>
    ensures stop { IfErr result (λ stop. StopsBytes name.now room bytes.now stop) }
    ensures ok { IfOk result (λ view. class_or_fault room bytes.now ≡ Ok view) }
    ensures few { IfOk result (λ view. length view.sites ≤ room) }
    ensures dynamics { IfOk result (λ view. HasDynamics view) }
{
    match read(alloc, bytes, room) {
        Ok(view) => Ok(view),
        Err(ClassError::NoMemory) => Err(Stop::NoMemory),
        Err(ClassError::Fault(fault)) => Err(Stop::Place(name, fault.at, class_word(fault.kind))),
    }
}
