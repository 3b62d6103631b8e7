use mh_jobs::{ConstJobs, Jobs};
use mh_leaves::Leaves;
use mh_script::Scripts;

/// What a run is given in addition to its plan: the leaves with their classes, the scripts, and the
/// jobs of its call sites and of its dynamic constants.
#[derive(Clone, Copy)]
pub struct RunInput<'t> {
    pub leaves: &'t Leaves,
    pub scripts: &'t Scripts,
    pub jobs: &'t Jobs,
    pub constants: &'t ConstJobs,
}
