use mh_attempt::WorkError;
use mh_base::NoMemory;
use mh_classfile::ClassError;
use mh_leaves::ManifestError;
use mh_script::ScriptError;
use mh_steps::Broken;
use std::alloc::AllocError;

/// Why a case cannot be tried.
#[derive(Debug, Drop)]
pub(crate) enum Untried {
    /// No memory is left, or its fixture is broken.
    Broken(Broken),
    /// Its class file is refused.
    Class(ClassError),
    /// Its script is refused.
    Script(ScriptError),
    /// No site is linked.
    Work(WorkError),
}

impl From<Broken> for Untried {
    fn from(broken: Broken) -> Self {
        Untried::Broken(broken)
    }
}

impl From<NoMemory> for Untried {
    fn from(error: NoMemory) -> Self {
        Untried::Broken(Broken::from(error))
    }
}

impl From<AllocError> for Untried {
    fn from(error: AllocError) -> Self {
        Untried::Broken(Broken::from(error))
    }
}

impl From<ManifestError> for Untried {
    fn from(error: ManifestError) -> Self {
        Untried::Broken(Broken::from(error))
    }
}

impl From<ClassError> for Untried {
    fn from(error: ClassError) -> Self {
        Untried::Class(error)
    }
}

impl From<ScriptError> for Untried {
    fn from(error: ScriptError) -> Self {
        Untried::Script(error)
    }
}

impl From<WorkError> for Untried {
    fn from(error: WorkError) -> Self {
        Untried::Work(error)
    }
}
