//! The rows by their names.

use crate::{cells, concats, constants, forms, rows, scripts, types};
use mh_base::NoMemory;
use mh_handle::EditError;
use mh_intern::InternError;
use mh_sharing_tests::constants::Broken as BrokenConstants;
use mh_steps::Broken;
use std::alloc::Global;
use std::sync::Wait;
use std::thread::Threads;

/// What is measured.
#[derive(Clone, Copy)]
pub(crate) enum Measure {
    Handles(rows::Row),
    /// New forms on one table, half of them made in another thread.
    FormsBeside,
    Types(types::Row),
    Scripts(scripts::Row),
    /// What is learnt of 4,096 cells split in two, and joined.
    Cells,
    Constants(constants::Row),
}

pub(crate) static MEASURES: [(&str, Measure); 36] = [
    (
        "run-three-names",
        Measure::Handles(rows::Row::RunThreeNames),
    ),
    (
        "run-three-names-kept",
        Measure::Handles(rows::Row::RunThreeNamesKept),
    ),
    ("edit-seen", Measure::Handles(rows::Row::EditSeen)),
    ("bind-seen", Measure::Handles(rows::Row::BindSeen)),
    ("drops-60", Measure::Handles(rows::Row::Drops60)),
    ("tree-256", Measure::Handles(rows::Row::Tree256)),
    ("tree-256-kept", Measure::Handles(rows::Row::Tree256Kept)),
    ("new-form", Measure::Handles(rows::Row::NewForm)),
    ("new-form-beside", Measure::FormsBeside),
    ("split-joined", Measure::Handles(rows::Row::SplitJoined)),
    ("text-4096", Measure::Handles(rows::Row::LongText)),
    ("text-4096-kept", Measure::Handles(rows::Row::LongTextKept)),
    ("text-1", Measure::Handles(rows::Row::ShortText)),
    (
        "concat-2",
        Measure::Handles(rows::Row::Concat(concats::Row::Pieces(2))),
    ),
    (
        "concat-10",
        Measure::Handles(rows::Row::Concat(concats::Row::Pieces(10))),
    ),
    (
        "concat-100",
        Measure::Handles(rows::Row::Concat(concats::Row::Pieces(100))),
    ),
    (
        "concat-too-long",
        Measure::Handles(rows::Row::Concat(concats::Row::TooLong)),
    ),
    (
        "concat-leaves-2",
        Measure::Handles(rows::Row::Concat(concats::Row::TwoByLeaves)),
    ),
    (
        "concat-leaves-10",
        Measure::Handles(rows::Row::Concat(concats::Row::TenByLeaves)),
    ),
    (
        "concat-leaves-100",
        Measure::Handles(rows::Row::Concat(concats::Row::HundredByLeaves)),
    ),
    (
        "loop-64-kept",
        Measure::Handles(rows::Row::Branch(rows::Branch::Loop64)),
    ),
    (
        "switch-first-kept",
        Measure::Handles(rows::Row::Branch(rows::Branch::FirstCase)),
    ),
    (
        "switch-last-kept",
        Measure::Handles(rows::Row::Branch(rows::Branch::LastCase)),
    ),
    (
        "guard-kept",
        Measure::Handles(rows::Row::Branch(rows::Branch::Guard)),
    ),
    ("type-made", Measure::Types(types::Row::Made)),
    ("intern-live", Measure::Types(types::Row::Live)),
    ("intern-dead", Measure::Types(types::Row::Dead)),
    ("dup-release", Measure::Types(types::Row::Duplicated)),
    ("intern-one", Measure::Types(types::Row::OneThread)),
    ("intern-four", Measure::Types(types::Row::FourThreads)),
    ("scripts", Measure::Scripts(scripts::Row::Plain)),
    ("scripts-alike", Measure::Scripts(scripts::Row::Alike)),
    ("cells-joined", Measure::Cells),
    (
        "constants-ladder",
        Measure::Constants(constants::Row::Ladder),
    ),
    ("constants-wide", Measure::Constants(constants::Row::Wide)),
    (
        "constants-passes",
        Measure::Constants(constants::Row::Passes),
    ),
];

/// Why a row was not done to its end.
#[derive(Debug, Drop)]
pub(crate) enum Unfinished {
    NoMemory,
    Handles(Broken),
    Constants(BrokenConstants),
}

impl From<NoMemory> for Unfinished {
    fn from(_: NoMemory) -> Self {
        Unfinished::NoMemory
    }
}

impl From<Broken> for Unfinished {
    fn from(broken: Broken) -> Self {
        match broken {
            Broken::NoMemory => Unfinished::NoMemory,
            other => Unfinished::Handles(other),
        }
    }
}

impl From<BrokenConstants> for Unfinished {
    fn from(broken: BrokenConstants) -> Self {
        match broken {
            BrokenConstants::NoMemory => Unfinished::NoMemory,
            other => Unfinished::Constants(other),
        }
    }
}

impl From<EditError> for Unfinished {
    fn from(error: EditError) -> Self {
        Unfinished::from(Broken::from(error))
    }
}

impl From<InternError> for Unfinished {
    fn from(error: InternError) -> Self {
        Unfinished::from(Broken::from(error))
    }
}

/// The work of a row, this many times. The answer depends on all of it.
pub(crate) fn measured<R: Threads + Wait + Sync>(
    rt: &R,
    alloc: Global,
    measure: Measure,
    turns: u32,
) -> Result<u64, Unfinished> {
    match measure {
        Measure::Handles(row) => Ok(rows::measured(rt, alloc, row, turns)?),
        Measure::FormsBeside => Ok(forms::made_beside(rt, alloc, turns)?),
        Measure::Types(row) => Ok(types::measured(rt, alloc, row, turns)?),
        Measure::Scripts(row) => Ok(scripts::measured(alloc, row, turns)?),
        Measure::Cells => Ok(cells::measured(rt, alloc, turns)?),
        Measure::Constants(row) => Ok(constants::measured(rt, alloc, row, turns)?),
    }
}
