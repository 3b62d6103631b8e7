//! What passes are asked, one after the other, and what they answer.

ghost use Rattle.std.specs.Prelude.{◌≡◌};
ghost use Rattle.mh_condy.specs.Runs.{AreResolvable};
ghost use Rattle.mh_sharing_tests.specs.Built.{CanResolve, run_of};

use crate::constants::asking::{Answer, resolve, two_passes};
use crate::constants::broken::Broken;
use crate::constants::built::Built;
use mh_condy::{ConstAttempt, ConstPass, ConstRun, ConstTable};
use std::alloc::Global;
use std::marker::Brand;
use std::sync::Wait;

/// What two passes have answered, and what the joined one has.
#[derive(Drop)]
pub(crate) struct Seen {
    pub answers: Vec<Answer>,
    pub attempts: Vec<ConstAttempt>,
    pub recorded: Vec<ConstAttempt>,
}

/// Which of two passes is asked.
#[derive(Clone, Copy, PartialEq, Eq)]
pub(crate) enum By {
    One,
    Two,
}

/// A pass, and the constant that it is asked for.
pub(crate) type Ask = (By, u32);

/// Asks each of two passes in turn.
fn asked_in_turn<'s, 't, J: ConstRun, R: Wait>(
    rt: &R,
    alloc: Global,
    table: &'s ConstTable<'t, J>,
    passes: (ConstPass<'s, 't, J>, ConstPass<'s, 't, J>),
    asks: &[Ask],
) -> Result<Seen, Broken>
    requires one { CanResolve table.now passes.0 }
    requires two { CanResolve table.now passes.1 }
{
    let (mut one, mut two) = passes;
    let mut answers = Vec::new(alloc);
    for ask in asks {
        let (by, constant) = *ask;
        let answer = match by {
            By::One => resolve(rt, table, &mut one, constant)?,
            By::Two => resolve(rt, table, &mut two, constant)?,
        };
        answers.push(answer)?;
    }
    table.join(&mut one, two)?;
    Ok(Seen {
        answers,
        attempts: Vec::from_slice(alloc, one.attempts())?,
        recorded: Vec::from_slice(alloc, one.recorded())?,
    })
}

/// The same over a table of their own.
fn asked<J: ConstRun, R: Wait>(
    rt: &R,
    alloc: Global,
    built: &Built,
    asks: &[Ask],
) -> Result<Seen, Broken>
    requires run { run_of built.now ≡ J.run }
    requires are { AreResolvable J.run }
{
    let (table, seat) = ConstTable::<J>::new(alloc, &built.jobs, &built.scripts, &built.leaves)?;
    let passes = two_passes(&table, seat)?;
    asked_in_turn(rt, alloc, &table, passes, asks)
}

/// What two passes of a new table answer, one after the other.
pub(crate) fn answers_of<R: Wait>(
    rt: &R,
    alloc: Global,
    built: &Built,
    asks: &[Ask],
) -> Result<Seen, Broken>
    requires { AreResolvable (run_of built.now) }
{
    asked::<Brand, R>(rt, alloc, built, asks)
}
