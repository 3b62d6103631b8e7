use crate::calls::Way;
use crate::trees::{Call, Making, came_of};
use mh_handle::{Answer, HandleError};
use mh_leaves::read_manifest;
use mh_steps::{
    ADD, ARR, Broken, DIV, FAIL, FIN, Joined, LESS, MANIFEST, NOTHING, Root, SAME, SAW, SUB, Step,
    TEXT, TICK, Typed,
};
use mh_values::ClassId;
use std::alloc::Global;
use std::sync::Wait;
use std::test::Fail;

/// A handle and the arguments of a call.
struct Case {
    name: &'static str,
    making: Making,
    arguments: &'static [&'static str],
}

const LONGS_63: &str = "(JJJJJJJJJJJJJJJJJJJJJJJJJJJJJJJJJJJJJJJJJJJJJJJJJJJJJJJJJJJJJJJ)V";

const LONGS_64: &str = "(JJJJJJJJJJJJJJJJJJJJJJJJJJJJJJJJJJJJJJJJJJJJJJJJJJJJJJJJJJJJJJJJ)V";

static ADAPTERS: [Case; 14] = [
    Case {
        name: "a constant",
        making: Making {
            root: Root::Constant("()I", "I:7"),
            steps: &[],
        },
        arguments: &[],
    },
    Case {
        name: "a constant of a long, with an int dropped",
        making: Making {
            root: Root::Constant("()J", "I:7"),
            steps: &[Step::Typed("(I)V", Typed::Drop(0))],
        },
        arguments: &["i:1"],
    },
    Case {
        name: "add bound at its second parameter",
        making: Making {
            root: Root::Leaf(ADD),
            steps: &[Step::Bind(1, "I:10")],
        },
        arguments: &["i:1"],
    },
    Case {
        name: "sub bound at its second parameter",
        making: Making {
            root: Root::Leaf(SUB),
            steps: &[Step::Bind(1, "I:10")],
        },
        arguments: &["i:1"],
    },
    Case {
        name: "sub permuted",
        making: Making {
            root: Root::Leaf(SUB),
            steps: &[Step::Typed("(III)I", Typed::Permute(&[2, 0]))],
        },
        arguments: &["i:1", "i:2", "i:3"],
    },
    Case {
        name: "add of one argument twice",
        making: Making {
            root: Root::Leaf(ADD),
            steps: &[Step::Typed("(I)I", Typed::Permute(&[0, 0]))],
        },
        arguments: &["i:5"],
    },
    Case {
        name: "a permute that names too few arguments",
        making: Making {
            root: Root::Leaf(ADD),
            steps: &[Step::Typed("(I)I", Typed::Permute(&[0]))],
        },
        arguments: &[],
    },
    Case {
        name: "127 longs dropped",
        making: Making {
            root: Root::Leaf(NOTHING),
            steps: &[
                Step::Typed(LONGS_63, Typed::Drop(0)),
                Step::Typed(LONGS_64, Typed::Drop(0)),
            ],
        },
        arguments: &["j:0"; 127],
    },
    Case {
        name: "an int dropped before 127 longs",
        making: Making {
            root: Root::Leaf(NOTHING),
            steps: &[
                Step::Typed(LONGS_63, Typed::Drop(0)),
                Step::Typed(LONGS_64, Typed::Drop(0)),
                Step::Typed("(I)V", Typed::Drop(0)),
            ],
        },
        arguments: &[],
    },
    Case {
        name: "an int returned as a long",
        making: Making {
            root: Root::Leaf(SAME),
            steps: &[Step::Typed("(I)J", Typed::AsType)],
        },
        arguments: &["i:5"],
    },
    Case {
        name: "the first conversion fails first",
        making: Making {
            root: Root::Leaf(ADD),
            steps: &[Step::Typed("(Ljava/lang/Object;Ljava/lang/Object;)I", Typed::AsType)],
        },
        arguments: &["s:x", "null"],
    },
    Case {
        name: "an identity with an int dropped",
        making: Making {
            root: Root::Identity("()I"),
            steps: &[Step::Typed("(I)V", Typed::Drop(0))],
        },
        arguments: &["i:1", "i:2"],
    },
    Case {
        name: "an identity permuted after a drop",
        making: Making {
            root: Root::Identity("()I"),
            steps: &[
                Step::Typed("(II)V", Typed::Drop(1)),
                Step::Typed("(III)I", Typed::Permute(&[0, 2, 1])),
            ],
        },
        arguments: &["i:1", "i:2", "i:3"],
    },
    Case {
        name: "an identity of the last of three",
        making: Making {
            root: Root::Identity("()I"),
            steps: &[Step::Typed("(III)I", Typed::Permute(&[2]))],
        },
        arguments: &["i:1", "i:2", "i:3"],
    },
];

static ARRAYS: [Case; 6] = [
    Case {
        name: "two items spread",
        making: Making {
            root: Root::Leaf(ADD),
            steps: &[Step::Typed("()[I", Typed::Spread(2))],
        },
        arguments: &["a:I[i:1,i:2]"],
    },
    Case {
        name: "three items for two",
        making: Making {
            root: Root::Leaf(ADD),
            steps: &[Step::Typed("()[I", Typed::Spread(2))],
        },
        arguments: &["a:I[i:1,i:2,i:3]"],
    },
    Case {
        name: "null for two items",
        making: Making {
            root: Root::Leaf(ADD),
            steps: &[Step::Typed("()[I", Typed::Spread(2))],
        },
        arguments: &["null"],
    },
    Case {
        name: "null for no item",
        making: Making {
            root: Root::Leaf(NOTHING),
            steps: &[Step::Typed("()[I", Typed::Spread(0))],
        },
        arguments: &["null"],
    },
    Case {
        name: "two items gathered",
        making: Making {
            root: Root::Leaf(ARR),
            steps: &[Step::Typed("()[I", Typed::Gather(2))],
        },
        arguments: &["i:1", "i:2"],
    },
    Case {
        name: "no item gathered",
        making: Making {
            root: Root::Leaf(ARR),
            steps: &[Step::Typed("()[I", Typed::Gather(0))],
        },
        arguments: &[],
    },
];

static BRANCHES: [Case; 8] = [
    Case {
        name: "a test that gives true",
        making: Making {
            root: Root::Guard(LESS, ADD, SUB),
            steps: &[],
        },
        arguments: &["i:1", "i:2"],
    },
    Case {
        name: "a test that gives false",
        making: Making {
            root: Root::Guard(LESS, ADD, SUB),
            steps: &[],
        },
        arguments: &["i:2", "i:1"],
    },
    Case {
        name: "a test that throws",
        making: Making {
            root: Root::Guard(FAIL, ADD, SUB),
            steps: &[],
        },
        arguments: &["i:1", "i:2"],
    },
    Case {
        name: "an exception that is caught",
        making: Making {
            root: Root::Catch(DIV, ClassId::ARITHMETIC, SAW),
            steps: &[],
        },
        arguments: &["i:1", "i:0"],
    },
    Case {
        name: "no exception to catch",
        making: Making {
            root: Root::Catch(DIV, ClassId::ARITHMETIC, SAW),
            steps: &[],
        },
        arguments: &["i:6", "i:3"],
    },
    Case {
        name: "an identity of a long",
        making: Making {
            root: Root::Identity("()J"),
            steps: &[],
        },
        arguments: &["j:-9"],
    },
    Case {
        name: "an exception thrown",
        making: Making {
            root: Root::Throw("()I", ClassId::RUNTIME_EXCEPTION),
            steps: &[],
        },
        arguments: &["x:java/lang/ArithmeticException"],
    },
    Case {
        name: "null thrown",
        making: Making {
            root: Root::Throw("()I", ClassId::RUNTIME_EXCEPTION),
            steps: &[],
        },
        arguments: &["null"],
    },
];

static LOOPS: [Case; 8] = [
    Case {
        name: "a loop of five turns",
        making: Making {
            root: Root::Counted("I:5", ADD),
            steps: &[],
        },
        arguments: &[],
    },
    Case {
        name: "a loop of 65 turns",
        making: Making {
            root: Root::Counted("I:65", ADD),
            steps: &[],
        },
        arguments: &[],
    },
    Case {
        name: "a loop around a loop",
        making: Making {
            root: Root::Counted("I:5", ADD),
            steps: &[Step::Typed("(I)V", Typed::Drop(0)), Step::Doubled],
        },
        arguments: &["i:1"],
    },
    Case {
        name: "the last of two cases",
        making: Making {
            root: Root::Switch(DIV, &[ADD, SUB]),
            steps: &[],
        },
        arguments: &["i:1", "i:5"],
    },
    Case {
        name: "no case for a number",
        making: Making {
            root: Root::Switch(DIV, &[ADD, SUB]),
            steps: &[],
        },
        arguments: &["i:-1", "i:0"],
    },
    Case {
        name: "a cleanup after an exception",
        making: Making {
            root: Root::TryFinally(DIV, FIN),
            steps: &[],
        },
        arguments: &["i:1", "i:0"],
    },
    Case {
        name: "a cleanup after a result",
        making: Making {
            root: Root::TryFinally(DIV, FIN),
            steps: &[],
        },
        arguments: &["i:6", "i:3"],
    },
    Case {
        name: "a long given for an int, explicitly",
        making: Making {
            root: Root::Leaf(SAME),
            steps: &[Step::Typed("(J)I", Typed::Explicit)],
        },
        arguments: &["j:4294967301"],
    },
];

static TOO_FEW_OR_MANY_CASES: [Case; 2] = [
    Case {
        name: "no case",
        making: Making {
            root: Root::Switch(ADD, &[]),
            steps: &[],
        },
        arguments: &[],
    },
    Case {
        name: "17 cases",
        making: Making {
            root: Root::Switch(ADD, &[ADD; 17]),
            steps: &[],
        },
        arguments: &[],
    },
];

/// Steps to weight 256 from a leaf.
const STEPS_256: [Step; 8] = [
    Step::Doubled,
    Step::Doubled,
    Step::Doubled,
    Step::Doubled,
    Step::Doubled,
    Step::Doubled,
    Step::Doubled,
    Step::Typed("(I)V", Typed::Drop(1)),
];

/// Steps to weight 257 from a leaf.
const STEPS_257: [Step; 9] = [
    Step::Doubled,
    Step::Doubled,
    Step::Doubled,
    Step::Doubled,
    Step::Doubled,
    Step::Doubled,
    Step::Doubled,
    Step::Typed("(I)V", Typed::Drop(1)),
    Step::Typed("(I)V", Typed::Drop(0)),
];

static PARTS: [Case; 7] = [
    Case {
        name: "a text that goes through filters",
        making: Making {
            root: Root::Leaf(TEXT),
            steps: &[
                Step::Joined(TEXT, Joined::Filter(0)),
                Step::Joined(TEXT, Joined::Filter(0)),
            ],
        },
        arguments: &["s:abc"],
    },
    Case {
        name: "the later filter runs first",
        making: Making {
            root: Root::Leaf(SUB),
            steps: &[
                Step::Joined(TICK, Joined::Filter(1)),
                Step::Joined(TICK, Joined::Filter(0)),
            ],
        },
        arguments: &["i:7", "i:7"],
    },
    Case {
        name: "a void filter after the last argument",
        making: Making {
            root: Root::Leaf(ADD),
            steps: &[Step::Joined(NOTHING, Joined::Collect(2))],
        },
        arguments: &["i:1", "i:2"],
    },
    Case {
        name: "a void filter past the last argument",
        making: Making {
            root: Root::Leaf(ADD),
            steps: &[Step::Joined(NOTHING, Joined::Collect(3))],
        },
        arguments: &[],
    },
    Case {
        name: "a combiner",
        making: Making {
            root: Root::Leaf(SUB),
            steps: &[Step::Joined(TICK, Joined::Fold(0))],
        },
        arguments: &["i:5"],
    },
    Case {
        name: "a tree of weight 256",
        making: Making {
            root: Root::Leaf(SAME),
            steps: &STEPS_256,
        },
        arguments: &["i:4", "i:5"],
    },
    Case {
        name: "a tree of weight 257",
        making: Making {
            root: Root::Leaf(SAME),
            steps: &STEPS_257,
        },
        arguments: &[],
    },
];

/// The name of the first case after which types are held still, and how many.
fn first_holding<R: Wait>(
    rt: &R,
    alloc: Global,
    cases: &[Case],
) -> Result<Option<(&'static str, u32)>, Broken> {
    let leaves = read_manifest(alloc, MANIFEST)?;
    for case in cases {
        let by = Call {
            way: Way::Twice,
            arguments: case.arguments,
        };
        let types = came_of(rt, alloc, &leaves, &case.making, &by)?.types;
        if types != 0 {
            return Ok(Some((case.name, types)));
        }
    }
    Ok(None)
}

/// The name of the first case that no rule refuses, and its answer.
fn first_accepted<R: Wait>(
    rt: &R,
    alloc: Global,
    cases: &[Case],
) -> Result<Option<(&'static str, Result<Answer, HandleError>)>, Broken> {
    let leaves = read_manifest(alloc, MANIFEST)?;
    for case in cases {
        let by = Call {
            way: Way::Twice,
            arguments: case.arguments,
        };
        let came = came_of(rt, alloc, &leaves, &case.making, &by)?;
        if !matches!(came.answer, Err(HandleError::Refused(_))) {
            return Ok(Some((case.name, came.answer)));
        }
    }
    Ok(None)
}

#[test]
fn a_switch_has_1_to_16_cases(rt: HostRuntime) -> Result<(), Fail> {
    let accepted = first_accepted(&rt, rt.alloc(), &TOO_FEW_OR_MANY_CASES)?;
    assert!(rt; accepted.is_none(), "{accepted:?}");
    Ok(())
}

#[test]
fn no_type_stays_held(rt: HostRuntime) -> Result<(), Fail> {
    assert_eq!(rt; first_holding(&rt, rt.alloc(), &ADAPTERS)?, None);
    assert_eq!(rt; first_holding(&rt, rt.alloc(), &ARRAYS)?, None);
    assert_eq!(rt; first_holding(&rt, rt.alloc(), &BRANCHES)?, None);
    assert_eq!(rt; first_holding(&rt, rt.alloc(), &PARTS)?, None);
    assert_eq!(rt; first_holding(&rt, rt.alloc(), &LOOPS)?, None);
    assert_eq!(rt;
        first_holding(&rt, rt.alloc(), &TOO_FEW_OR_MANY_CASES)?,
        None
    );
    Ok(())
}
