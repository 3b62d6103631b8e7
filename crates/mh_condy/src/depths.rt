ghost use Rattle.std.specs.Prelude.{◌≡◌, ℕ, ◌≤◌, map, slice_index, IfOk};
ghost use Rattle.mh_leaf.specs.LeafTable.{LeafTable};
ghost use Rattle.mh_script.specs.declared.script.Script.{Script};
ghost use Rattle.mh_link.specs.Named.{Constants};
ghost use Rattle.mh_condy.specs.Depths.{over_names};
ghost use Rattle.mh_condy.specs.Runs.{AreDepths};

use mh_base::NoMemory;
use mh_jobs::ConstJobs;
use std::alloc::Global;

/// How deep a constant may stand.
const MOST_DEPTH: u32 = 64;

/// One more than the greatest of the depths of these constants, or 0 if one of them has none.
fn over_names(depths: &[u8], names: &[u32]) -> u8
    requires { (c : ℕ) → slice_index depths.now c ≤ 64 }
    ensures { result ≡ over_names depths.now names.now }
{
    let mut most = 0;
    for name in names {
        let at = *name as usize;
        if at >= depths.len() {
            return 0;
        }
        let depth = depths[at];
        if depth == 0 {
            return 0;
        }
        if depth > most {
            most = depth;
        }
    }
    most + 1
}

/// The number of the constant at a place.
fn number_at(at: usize) -> Result<u32, NoMemory>
    ensures { IfOk result (λ number. number ≡ at) }
{
    u32::try_from(at).or(Err(NoMemory))
}

/// The depths that are one greater at most.
fn one_deeper(alloc: Global, jobs: &ConstJobs, depths: &[u8]) -> Result<Vec<u8>, NoMemory>
    requires { (c : ℕ) → slice_index depths.now c ≤ 64 }
    ensures { IfOk result (λ next. next.items
        ≡ map (λ job. over_names depths.now job.names) jobs.now) }
{
    let mut next = Vec::new(alloc);
    for c in 0..jobs.len() {
        let number = number_at(c)?;
        let job = jobs.get(number);
        next.push(over_names(depths, job.names.as_slice()))?;
    }
    Ok(next)
}

/// How deep each constant stands over those that it names, and 0 for one without a depth.
pub(crate) fn depths(alloc: Global, jobs: &ConstJobs) -> Result<Vec<u8>, NoMemory>
    ensures { IfOk result (λ depths. (run : Constants) → jobs.now ≡ run.jobs
        → AreDepths run depths.items) }
{
    let mut depths: Vec<u8> = vec![in alloc; 0; jobs.len()]?;
    for _round in 0..MOST_DEPTH {
        let next = one_deeper(alloc, jobs, &depths)?;
        if next.as_slice() == depths.as_slice() {
            return Ok(depths);
        }
        depths = next;
    }
    Ok(depths)
}
