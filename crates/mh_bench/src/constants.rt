//! Dynamic constants, which are resolved on a table of their own.

ghost use Rattle.std.specs.Prelude.{◌≡◌, ◌*◌, ◌<◌, ◌≤◌};
ghost use Rattle.mh_condy.specs.Passes.{split_room};
ghost use Rattle.mh_condy.specs.Runs.{AreResolvable};
ghost use Rattle.mh_sharing_tests.specs.Built.{run_of};

use mh_base::NoMemory;
use mh_condy::{ConstPass, ConstRun, ConstTable};
use mh_sharing_tests::constants::{Broken, Built, first_pass, ladder, resolve, wide};
use std::alloc::Global;
use std::marker::Brand;
use std::sync::Wait;

/// What is measured.
#[derive(Clone, Copy)]
pub(crate) enum Row {
    /// The top of a ladder of 64 rungs is resolved, on a new table.
    Ladder,
    /// One constant over 255 others is, on a new table.
    Wide,
    /// One more pass over a table of 16,384 constants.
    Passes,
}

/// Resolves the first constant on a new table, and gives the serial of the last attempt.
fn resolved<J: ConstRun, R: Wait>(rt: &R, alloc: Global, built: &Built) -> Result<u64, Broken>
    requires run { run_of built.now ≡ J.run }
    requires are { AreResolvable J.run }
{
    let (table, seat) = ConstTable::<J>::new(alloc, &built.jobs, &built.scripts, &built.leaves)?;
    let mut pass = first_pass(&table, seat)?;
    let (serial, _) = resolve(rt, &table, &mut pass, 0)?;
    Ok(serial.wrapping_add(pass.attempts().len() as u64))
}

/// The same this many times, each on a new table.
fn resolved_again<R: Wait>(rt: &R, alloc: Global, built: &Built, turns: u32) -> Result<u64, Broken>
    requires { AreResolvable (run_of built.now) }
{
    let mut sum: u64 = 0;
    for _ in 0..turns {
        sum = sum.wrapping_add(resolved::<Brand, R>(rt, alloc, built)?);
    }
    Ok(sum)
}

/// Splits this many passes off one, all of which are kept to the end.
fn split_off<'s, 't, J: ConstRun>(
    alloc: Global,
    table: &'s ConstTable<'t, J>,
    mut pass: ConstPass<'s, 't, J>,
    turns: u32,
) -> Result<u64, NoMemory>
    requires table { pass.table ≡ table.now }
    requires turns { turns ≤ 1024 }
    requires room { 1024 * split_room < pass.seat.room }
{
    let mut passes = Vec::new(alloc);
    for turn in 0..turns {
        passes.push(table.split(&mut pass, turn)?)?;
    }
    Ok(passes.len() as u64)
}

/// The same off the first pass of a new table.
fn split_on<J: ConstRun>(alloc: Global, built: &Built, turns: u32) -> Result<u64, NoMemory>
    requires run { run_of built.now ≡ J.run }
    requires are { AreResolvable J.run }
    requires turns { turns ≤ 1024 }
{
    let (table, seat) = ConstTable::<J>::new(alloc, &built.jobs, &built.scripts, &built.leaves)?;
    let pass = table.first_pass(seat)?;
    split_off(alloc, &table, pass, turns)
}

/// Splits this many passes off the first pass of a table of 16,384 constants.
fn passes_split(alloc: Global, turns: u32) -> Result<u64, Broken> {
    if turns > 1024 {
        return Err(Broken::Fixture("more than 1,024 passes"));
    }
    let built = wide(alloc, 16_383)?;
    Ok(split_on::<Brand>(alloc, &built, turns)?)
}

/// The work of a row, this many times.
pub(crate) fn measured<R: Wait>(
    rt: &R,
    alloc: Global,
    row: Row,
    turns: u32,
) -> Result<u64, Broken> {
    match row {
        Row::Ladder => resolved_again(rt, alloc, &ladder(alloc, 64)?, turns),
        Row::Wide => resolved_again(rt, alloc, &wide(alloc, 255)?, turns),
        Row::Passes => passes_split(alloc, turns),
    }
}
