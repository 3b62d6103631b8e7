use mh_base::NoMemory;
use mh_outside::{Failed, Sink, write_whole};
use std::alloc::AllocError;

/// Why cases were not checked to the end: no memory is left, or a line was not written.
#[derive(Clone, Copy, Debug, PartialEq, Eq)]
pub enum GaveUp {
    NoMemory,
    Unwritten,
}

impl From<AllocError> for GaveUp {
    fn from(_: AllocError) -> Self {
        GaveUp::NoMemory
    }
}

impl From<NoMemory> for GaveUp {
    fn from(_: NoMemory) -> Self {
        GaveUp::NoMemory
    }
}

impl From<Failed> for GaveUp {
    fn from(_: Failed) -> Self {
        GaveUp::Unwritten
    }
}

/// Writes a line that is given in pieces.
pub(crate) fn say<S: Sink>(sink: &mut S, pieces: &[&[u8]]) -> Result<(), GaveUp> {
    for piece in pieces {
        write_whole(sink, piece)?;
    }
    write_whole(sink, b"\n")?;
    Ok(())
}
