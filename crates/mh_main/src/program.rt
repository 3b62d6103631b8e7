use mh_jobs::{ConstJobs, Jobs};
use mh_leaves::Leaves;
use mh_plan::Plan;
use mh_script::Scripts;

/// What is written of a run.
#[derive(Clone, Copy, Debug)]
pub enum Output {
    /// Its report.
    Report,
    /// One line with sums, for the input that is made from this number.
    Line(u32),
}

/// What the inputs of a run say, and what is written of it.
#[derive(Drop)]
pub struct Program {
    pub leaves: Leaves,
    pub scripts: Scripts,
    /// The jobs of the call sites of all class files, in order.
    pub jobs: Jobs,
    /// Those of the dynamic constants of all class files, in order.
    pub constants: ConstJobs,
    pub plan: Plan,
    /// How many workers link all call sites before the calls; none if it is 0.
    pub workers: u32,
    pub output: Output,
}
