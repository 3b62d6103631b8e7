ghost use Rattle.std.specs.Prelude.{◌≡◌, map, Ok, IfOk};
ghost use Rattle.mh_plan.specs.Plan.{plan_of, plan};
ghost use Rattle.mh_plan.specs.Fault.{TellsLines, TellsPlan};
ghost use Rattle.mh_plan.specs.Limits.{IsWithinLimits};
ghost use Rattle.mh_plan.specs.Calls.{AreCallsOf};
ghost use Rattle.mh_plan.specs.Written.{plan_text};

use crate::calls::{Callees, read_lines};
use crate::counting::check_lines;
use crate::{Plan, PlanError};
use mh_base::split_at_byte;
use mh_jobs::Jobs;
use mh_leaves::Leaves;
use std::alloc::Global;

// The calls of a plan's lines.
fn read_all(alloc: Global, of: &Callees<'_>, lines: &[&[u8]]) -> Result<Plan, PlanError>
    ensures { TellsLines result
        (plan_of of.now.leaves.now of.now.jobs.now (map (λ l. l.now) lines.now)) }
{
    check_lines(alloc, lines)?;
    read_lines(alloc, of, lines)
}

/// Reads a plan of calls of these leaves and of the call sites of these jobs, or answers the faulty
/// line that counts. The calls of a plan that was read need no test before they are made. A plan
/// has at most 128 threads and 10,000 calls. A line whose number exceeds a `u32` answers
/// `NoMemory`.
pub fn read_plan(
    alloc: Global,
    bytes: &[u8],
    leaves: &Leaves,
    jobs: &Jobs,
) -> Result<Plan, PlanError>
    ensures meaning { TellsPlan result (plan bytes.now leaves.now jobs.now) }
    ensures calls { IfOk result (AreCallsOf leaves.now jobs.now) }
    ensures limits { IfOk result IsWithinLimits }
    ensures again { IfOk result
        (λ threads. plan (plan_text leaves.now threads) leaves.now jobs.now ≡ Ok threads) }
{
    let lines = split_at_byte(alloc, bytes, b'\n')?;
    read_all(alloc, &Callees { leaves, jobs }, &lines)
}
