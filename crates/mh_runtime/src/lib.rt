//! Threads that link call sites and call them. Each call is by a handle, over one table of forms.
//! Each call site is linked once, by whichever thread records first. A thread has a [`Pass`] of its
//! own, and shares the [`Linker`]. A whole plan is run by [`run_all`], after workers have linked
//! all call sites, if that is asked for.
#![tactic(auto)]

mod base;
mod calls;
mod context;
mod input;
mod joining;
mod known_sites;
mod lane;
mod linker;
mod ordering;
mod pass;
mod plan_run;
mod prelinking;
mod recording;
mod running;
mod site_linker;
mod site_pass;
mod stops;
mod tables;
mod thread;

pub use input::RunInput;
pub use linker::{Linker, MOST_SITES};
pub use mh_attempt::{Linkage, Linked, WorkError};
pub use pass::Pass;
pub use running::{RunReport, run_all};
pub use site_linker::SiteLinker;
pub use site_pass::SitePass;
pub use stops::{Stop, ThreadRun};
pub use tables::{Seats, Tables};
