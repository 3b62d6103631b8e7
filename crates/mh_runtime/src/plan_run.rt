use crate::base::Based;
use crate::linker::Linker;
use mh_jobs::Run;
use mh_plan::Plan;
use std::alloc::Global;
use std::marker::PhantomData;

/// What the threads of a run share: the linker, the plan, and the gate at which a thread may be
/// held when it records what it has linked. `B` names the pass that the threads' passes are split
/// off.
#[derive(Drop)]
pub(crate) struct PlanRun<'s, 't, J: Run, B: Based, G> {
    pub(crate) alloc: Global,
    pub(crate) linker: &'s Linker<'t, J>,
    pub(crate) plan: &'s Plan,
    pub(crate) gate: &'s G,
    pub(crate) of: PhantomData<B>,
}
