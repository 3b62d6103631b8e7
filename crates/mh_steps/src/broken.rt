use mh_base::NoMemory;
use mh_handle::{EditError, HandleError};
use mh_intern::InternError;
use mh_leaves::ManifestError;
use std::alloc::AllocError;

/// Why a test or a measurement cannot go on.
#[derive(Debug, Drop)]
pub enum Broken {
    NoMemory,
    /// What it is given itself is wrong, in words.
    Fixture(&'static str),
    /// The leaves that it is given are refused.
    Manifest(ManifestError),
    /// A handle was not made, and not for lack of memory.
    Handle(HandleError),
}

impl From<NoMemory> for Broken {
    fn from(_: NoMemory) -> Self {
        Broken::NoMemory
    }
}

impl From<AllocError> for Broken {
    fn from(_: AllocError) -> Self {
        Broken::NoMemory
    }
}

impl From<ManifestError> for Broken {
    fn from(error: ManifestError) -> Self {
        match error {
            ManifestError::NoMemory => Broken::NoMemory,
            fault => Broken::Manifest(fault),
        }
    }
}

impl From<HandleError> for Broken {
    fn from(error: HandleError) -> Self {
        match error {
            HandleError::NoMemory => Broken::NoMemory,
            other => Broken::Handle(other),
        }
    }
}

impl From<EditError> for Broken {
    fn from(error: EditError) -> Self {
        Broken::from(HandleError::from(error))
    }
}

impl From<InternError> for Broken {
    fn from(error: InternError) -> Self {
        Broken::from(HandleError::from(error))
    }
}
