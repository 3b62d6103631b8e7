//! Whose attempts recorded the dynamic constants of a drawing.

ghost use Rattle.std.specs.Prelude.{◌≡◌, ◌<◌, IfOk, OnOk, Some, length, true};
ghost use Rattle.mh_condy.specs.Nodes.{node_in};
ghost use Rattle.mh_condy.specs.Passes.{IsPass};
ghost use Rattle.mh_condy.specs.Recorded.{ConstView};
ghost use Rattle.mh_condy.specs.Trails.{HasPutAll, trail_of};
ghost use Rattle.mh_drawn.specs.Constants.{AreOwn};

use mh_base::NoMemory;
use mh_condy::{ConstPass, ConstRun};
use std::alloc::Global;
use std::sync::Wait;

// For each constant whether the pass has recorded an attempt at it.
fn own_constants<J: ConstRun>(
    alloc: Global,
    pass: &ConstPass<'_, '_, J>,
) -> Result<Vec<bool>, NoMemory>
    ensures count { IfOk result (λ own. length own.items ≡ length J.run.jobs) }
    ensures own { IfOk result (λ own. AreOwn pass.now own.items) }
{
    let mut own = vec![in alloc; false; pass.constants()]?;
    let _within = pass.attempts();
    for attempt in pass.recorded() {
        own[attempt.constant as usize] = true;
    }
    Ok(own)
}

// Looks whether the pass has recorded a constant, if it knows it. No other pass can have recorded
// it, but a cell does not say so: nothing is drawn of any other constant.
fn settle_constant<J: ConstRun, R: Wait>(rt: &R, pass: &ConstPass<'_, '_, J>, c: u32, own: bool)
    requires { c < length J.run.jobs }
    ensures { (node : ConstView) → node_in pass.now.known c ≡ Some node → own ≡ true }
{
    if pass.seen(c).is_none() {
        return;
    }
    for _ in rt.forever() {
        if own {
            return;
        }
    }
    unreachable!()
}

/// Looks whether all constants that the only pass over them knows were recorded by it.
pub(crate) fn settle<J: ConstRun, R: Wait>(
    rt: &R,
    alloc: Global,
    pass: &ConstPass<'_, '_, J>,
) -> Result<(), NoMemory>
    ensures is { IsPass J.run pass.now }
    ensures put { OnOk result (HasPutAll (trail_of pass.now)) }
{
    pass.told();
    let own = own_constants(alloc, pass)?;
    for c in 0..pass.constants() {
        let number = u32::try_from(c).or(Err(NoMemory))?;
        settle_constant(rt, pass, number, own[c]);
    }
    Ok(())
}
