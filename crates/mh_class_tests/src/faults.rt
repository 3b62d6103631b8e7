use mh_base::NoMemory;
use mh_classfile::{ClassError, ClassKind, read};
use std::alloc::Global;

/// The kind and the place of a fault, or none of a file that is read.
pub(crate) type Answer = Option<(ClassKind, usize)>;

/// What reading a file answers that may have this many call sites.
pub(crate) fn first_fault(alloc: Global, bytes: &[u8], room: u32) -> Result<Answer, NoMemory> {
    match read(alloc, bytes, room) {
        Ok(_) => Ok(None),
        Err(ClassError::Fault(fault)) => Ok(Some((fault.kind, fault.at))),
        Err(ClassError::NoMemory) => Err(NoMemory),
    }
}
