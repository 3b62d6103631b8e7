use crate::site_linker::SiteLinker;
use mh_jobs::Run;

/// What the calls of a thread link sites with. These are the call sites of the run, and the gate
/// that may hold a thread when it records what it has linked.
#[derive(Drop)]
pub(crate) struct Context<'s, 'g, 't, J: Run, G> {
    pub(crate) linker: &'s SiteLinker<'t, J>,
    pub(crate) gate: &'g G,
}
