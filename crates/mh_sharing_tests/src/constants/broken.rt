use mh_base::NoMemory;
use mh_leaves::ManifestError;
use mh_script::ScriptError;
use std::alloc::{AllocError, AllocFailed};

/// Why a test cannot go on: no memory is left, or something of its own fixture is refused.
#[derive(Clone, Copy, Debug, PartialEq, Eq)]
pub enum Broken {
    NoMemory,
    /// What is wrong, in words.
    Fixture(&'static str),
}

impl From<NoMemory> for Broken {
    fn from(_: NoMemory) -> Self {
        Broken::NoMemory
    }
}

impl From<AllocError> for Broken {
    fn from(_: AllocError) -> Self {
        Broken::NoMemory
    }
}

impl<T: Drop> From<AllocFailed<T>> for Broken {
    fn from(_: AllocFailed<T>) -> Self {
        Broken::NoMemory
    }
}

impl From<ManifestError> for Broken {
    fn from(error: ManifestError) -> Self {
        match error {
            ManifestError::NoMemory => Broken::NoMemory,
            ManifestError::Fault(_) => Broken::Fixture("the manifest is refused"),
        }
    }
}

impl From<ScriptError> for Broken {
    fn from(error: ScriptError) -> Self {
        match error {
            ScriptError::NoMemory => Broken::NoMemory,
            ScriptError::Fault(_) => Broken::Fixture("the scripts are refused"),
        }
    }
}
