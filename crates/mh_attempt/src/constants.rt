ghost use Rattle.mh_link.specs.Named.{run_of};

use mh_condy::ConstRun;
use mh_jobs::Run;
use std::marker::PhantomData;

/// Names the dynamic constants of the run that `J` names, in contracts: the table of the constants
/// and each pass over it have this parameter.
pub struct ConstantsOf<J: Run> {
    of: PhantomData<J>,
}

impl<J: Run> ConstRun for ConstantsOf<J> {
    ghost run = { run_of J.given };
}
