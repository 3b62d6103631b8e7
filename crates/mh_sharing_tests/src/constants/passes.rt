use crate::constants::asking::{Answer, Recorded};
use crate::constants::broken::Broken;
use crate::constants::built::{
    EVEN, Entry, FIRST, RAISE, SECOND, SERIAL, TEXT, ladder, of_entries, wide,
};
use crate::constants::rows::{Ask, By, Seen, answers_of};
use mh_base::NoMemory;
use mh_condy::ConstAttempt;
use mh_values::ClassId;
use std::alloc::Global;
use std::sync::Wait;
use std::test::Fail;

/// What is recorded if a script throws an exception that is no error.
const RAISED: Recorded = Recorded::Error(
    ClassId::BOOTSTRAP_METHOD_ERROR,
    Some(ClassId::RUNTIME_EXCEPTION),
);

/// What is recorded if a value is not of the constant's type.
const NOT_FITTED: Recorded = Recorded::Error(
    ClassId::BOOTSTRAP_METHOD_ERROR,
    Some(ClassId::CLASS_CAST),
);

/// What is recorded of a constant that has no depth.
const TOO_DEEP: Recorded = Recorded::Error(ClassId::STACK_OVERFLOW, None);

/// Constants, what two passes are asked for, and what they answer and have attempted then.
struct Row {
    name: &'static str,
    entries: &'static [Entry<'static>],
    asks: &'static [Ask],
    answers: &'static [Answer],
    /// The thread, the constant and the serial of each.
    attempts: &'static [(u32, u32, u64)],
}

static ROWS: [Row; 6] = [
    Row {
        name: "two passes that meet",
        entries: &[
            Entry {
                names: &[1, 2],
                script: SECOND,
            },
            Entry {
                names: &[],
                script: SERIAL,
            },
            Entry {
                names: &[],
                script: SERIAL,
            },
        ],
        asks: &[
            (By::Two, 1),
            (By::One, 0),
            (By::Two, 0),
            (By::Two, 2),
            (By::One, 1),
        ],
        answers: &[
            (1, Recorded::Number(1)),
            (2, Recorded::Number(3)),
            (2, Recorded::Number(3)),
            (3, Recorded::Number(3)),
            (1, Recorded::Number(1)),
        ],
        attempts: &[(0, 0, 2), (0, 2, 3), (1, 1, 1)],
    },
    Row {
        name: "an argument after one that is an error",
        entries: &[
            Entry {
                names: &[1, 2],
                script: SECOND,
            },
            Entry {
                names: &[],
                script: RAISE,
            },
            Entry {
                names: &[],
                script: SERIAL,
            },
        ],
        asks: &[(By::One, 0), (By::Two, 1), (By::Two, 0)],
        answers: &[(1, RAISED), (2, RAISED), (1, RAISED)],
        attempts: &[(0, 0, 1), (0, 1, 2)],
    },
    Row {
        name: "an error of a first attempt, which is not made again",
        entries: &[Entry {
            names: &[],
            script: EVEN,
        }],
        asks: &[(By::One, 0), (By::One, 0), (By::Two, 0)],
        answers: &[(1, RAISED), (1, RAISED), (1, RAISED)],
        attempts: &[(0, 0, 1)],
    },
    Row {
        name: "two constants in a ring",
        entries: &[
            Entry {
                names: &[1],
                script: FIRST,
            },
            Entry {
                names: &[0],
                script: FIRST,
            },
        ],
        asks: &[(By::One, 0), (By::One, 0)],
        answers: &[(1, TOO_DEEP), (1, TOO_DEEP)],
        attempts: &[(0, 0, 1)],
    },
    Row {
        name: "a constant that names itself, under another one",
        entries: &[
            Entry {
                names: &[1],
                script: FIRST,
            },
            Entry {
                names: &[1],
                script: FIRST,
            },
        ],
        asks: &[(By::One, 0), (By::One, 1)],
        answers: &[(1, TOO_DEEP), (2, TOO_DEEP)],
        attempts: &[(0, 0, 1), (0, 1, 2)],
    },
    Row {
        name: "a text that is no long",
        entries: &[Entry {
            names: &[],
            script: TEXT,
        }],
        asks: &[(By::One, 0)],
        answers: &[(1, NOT_FITTED)],
        attempts: &[(0, 0, 1)],
    },
];

/// The thread, the constant and the serial of each attempt.
fn parts_of(alloc: Global, attempts: &[ConstAttempt]) -> Result<Vec<(u32, u32, u64)>, NoMemory> {
    let mut parts = Vec::new(alloc);
    for it in attempts {
        parts.push((it.thread, it.constant, it.serial))?;
    }
    Ok(parts)
}

/// What two passes answer and have attempted.
fn seen_of<R: Wait>(rt: &R, alloc: Global, row: &Row) -> Result<Seen, Broken> {
    let built = of_entries(alloc, row.entries)?;
    answers_of(rt, alloc, &built, row.asks)
}

#[test]
fn what_passes_answer_one_after_the_other(rt: HostRuntime) -> Result<(), Fail> {
    for row in &ROWS {
        let seen = seen_of(&rt, rt.alloc(), row)?;
        assert_eq!(rt; seen.answers.as_slice(), row.answers, "{}", row.name);
        let attempts = parts_of(rt.alloc(), seen.attempts.as_slice())?;
        assert_eq!(rt; attempts.as_slice(), row.attempts, "{}", row.name);
    }
    Ok(())
}

/// The place, the thread, the constant and the serial of the first attempt that is not what it
/// should be: one of thread 0 at the constant of its place, with the serials from 1 on.
fn first_out_of_order(attempts: &[ConstAttempt]) -> Option<(u64, u32, u32, u64)> {
    for at in 0..attempts.len() {
        let place = at as u64;
        let it = attempts[at];
        if it.thread != 0 || u64::from(it.constant) != place || it.serial != place + 1 {
            return Some((place, it.thread, it.constant, it.serial));
        }
    }
    None
}

/// What two passes answer at the top of a ladder.
fn climbed<R: Wait>(rt: &R, alloc: Global, rungs: u32, asks: &[Ask]) -> Result<Seen, Broken> {
    let built = ladder(alloc, rungs)?;
    answers_of(rt, alloc, &built, asks)
}

#[test]
fn each_rung_of_a_ladder_is_attempted_once(rt: HostRuntime) -> Result<(), Fail> {
    let seen = climbed(
        &rt,
        rt.alloc(),
        64,
        &[(By::One, 0), (By::Two, 0), (By::One, 63)],
    )?;
    let answers = [
        (1, Recorded::Number(64)),
        (1, Recorded::Number(64)),
        (64, Recorded::Number(64)),
    ];
    assert_eq!(rt; seen.answers.as_slice(), answers.as_slice());
    assert_eq!(rt; first_out_of_order(seen.attempts.as_slice()), None);
    assert_eq!(rt; (seen.attempts.len(), seen.recorded.len()), (64, 64));
    Ok(())
}

#[test]
fn a_ladder_of_65_rungs_is_too_deep_at_its_top_alone(rt: HostRuntime) -> Result<(), Fail> {
    let seen = climbed(&rt, rt.alloc(), 65, &[(By::One, 0), (By::One, 1)])?;
    let answers = [(1, TOO_DEEP), (2, Recorded::Number(65))];
    assert_eq!(rt; seen.answers.as_slice(), answers.as_slice());
    assert_eq!(rt; first_out_of_order(seen.attempts.as_slice()), None);
    assert_eq!(rt; seen.attempts.len(), 65);
    Ok(())
}

/// What two passes answer of one constant over this many others.
fn spread<R: Wait>(rt: &R, alloc: Global, others: u32) -> Result<Seen, Broken> {
    let built = wide(alloc, others)?;
    answers_of(
        rt,
        alloc,
        &built,
        &[(By::Two, 0), (By::One, 0), (By::One, 255)],
    )
}

#[test]
fn static_arguments_are_resolved_from_the_left(rt: HostRuntime) -> Result<(), Fail> {
    let seen = spread(&rt, rt.alloc(), 255)?;
    let answers = [
        (1, Recorded::Number(2)),
        (1, Recorded::Number(2)),
        (256, Recorded::Number(256)),
    ];
    assert_eq!(rt; seen.answers.as_slice(), answers.as_slice());
    assert_eq!(rt; (seen.attempts.len(), seen.recorded.len()), (256, 256));
    Ok(())
}
