//! Jobs of call sites and of dynamic constants: which bootstrap method links a site or gives a
//! value, and what it is given.
#![tactic(auto)]

mod argument;
mod const_jobs;
mod constants;
mod error;
mod job;
mod jobs;
mod names;
mod run;
mod run_jobs;
mod sites;
mod statics;
mod thrown;
mod types;
mod unresolved;

pub use const_jobs::ConstJobs;
pub use constants::{ConstBootstrap, ConstJob, const_job_of};
pub use job::{Argument, BootstrapCall, Job, Method, job_of};
pub use jobs::Jobs;
pub use run::Run;
pub use run_jobs::{RunJobs, push_class};
pub use sites::Bootstrap;
pub use unresolved::{Part, StaticArguments};
