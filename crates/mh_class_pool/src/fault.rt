ghost use Rattle.std.specs.Prelude.{◌≡◌};

use mh_base::NoMemory;
use mh_class_bytes::Fault;
use std::alloc::{AllocError, AllocFailed};

/// Why bytes are no class file (JVMS SE 17, chapter 4).
#[derive(Clone, Copy, Debug, PartialEq, Eq)]
pub enum ClassKind {
    /// A number or a run of bytes does not fit whole into the file.
    Truncated = 1,
    /// The file does not begin with CAFEBABE.
    BadMagic,
    /// The major version is none from 45 to 65.
    BadVersion,
    /// A tag of the constant pool that is none of 4.4.
    BadTag,
    /// An index that names no entry of the constant pool.
    BadIndex,
    /// An index that names an entry of the wrong kind.
    WrongKind,
    /// A constant that is no modified UTF-8 (4.4.7).
    BadText,
    /// A `Code` attribute that is none of 4.7.3.
    BadCode,
    /// A `BootstrapMethods` attribute that is none of 4.7.23, or a bootstrap method that does not
    /// exist.
    BadBootstraps,
    /// Bytes after the last attribute.
    Trailing,
    /// More call sites than were asked for.
    TooManySites,
    /// A text in the place of a method descriptor (4.3.3) that is none.
    BadDescriptor,
    /// More than 256 Dynamic entries (4.4.10), which is a limit of this project.
    TooManyConstants,
}

/// The first condition, in the order of reading, that does not hold.
pub type ClassFault = Fault<ClassKind>;

/// Why there is no view of a class.
#[derive(Clone, Copy, Debug, PartialEq, Eq)]
pub enum ClassError {
    NoMemory,
    Fault(ClassFault),
}

impl From<ClassFault> for ClassError {
    ghost use Rattle.mh_class_pool.specs.declared.fault.ClassError.TheVariants.{Fault};

    ghost from_gives = { λ f e. e ≡ Fault f };

    fn from(fault: ClassFault) -> ClassError {
        ClassError::Fault(fault)
    }
}

impl From<NoMemory> for ClassError {
    ghost use Rattle.mh_class_pool.specs.declared.fault.ClassError.TheVariants.{NoMemory};

    ghost from_gives = { λ _ e. e ≡ NoMemory };

    fn from(_: NoMemory) -> ClassError {
        ClassError::NoMemory
    }
}

impl From<AllocError> for ClassError {
    ghost use Rattle.mh_class_pool.specs.declared.fault.ClassError.TheVariants.{NoMemory};

    ghost from_gives = { λ _ e. e ≡ NoMemory };

    fn from(_: AllocError) -> ClassError {
        ClassError::NoMemory
    }
}

impl<T: Drop> From<AllocFailed<T>> for ClassError {
    ghost use Rattle.mh_class_pool.specs.declared.fault.ClassError.TheVariants.{NoMemory};

    ghost from_gives = { λ _ e. e ≡ NoMemory };

    fn from(_: AllocFailed<T>) -> ClassError {
        ClassError::NoMemory
    }
}
