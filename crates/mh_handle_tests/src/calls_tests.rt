use crate::calls::Way;
use crate::trees::{Call, Came, Making, came_of};
use mh_leaves::read_manifest;
use mh_steps::{Broken, MANIFEST, Root, SUB, Step};
use mh_values::{Num, Outcome, Value};
use std::alloc::Global;
use std::sync::Wait;
use std::test::Fail;

static BOUND: [Step; 1] = [Step::Bind(1, "I:10")];

/// The int that is answered, if one is.
fn int_of(outcome: &Outcome) -> Option<i32> {
    match outcome {
        Outcome::Return(Some(Value::Prim(Num::I(number)))) => Some(*number),
        _ => None,
    }
}

/// The int that is answered, if one is, by a form of how many keys, how many leaves were called,
/// and how many types are held then.
#[derive(Clone, Copy, Debug, PartialEq, Eq)]
struct Parts {
    int: Option<i32>,
    keys: u32,
    calls: usize,
    types: u32,
}

/// What a subtraction whose second parameter is bound to 10 answers on 1.
fn difference<R: Wait>(rt: &R, alloc: Global, way: Way) -> Result<Parts, Broken> {
    let leaves = read_manifest(alloc, MANIFEST)?;
    let making = Making {
        root: Root::Leaf(SUB),
        steps: &BOUND,
    };
    let by = Call {
        way,
        arguments: &["i:1"],
    };
    let Came { answer, types } = came_of(rt, alloc, &leaves, &making, &by)?;
    let answer = answer?;
    Ok(Parts {
        int: int_of(answer.outcome()),
        keys: answer.keys(),
        calls: answer.calls().len(),
        types,
    })
}

#[test]
fn each_way_to_call_a_handle_answers_the_same(rt: HostRuntime) -> Result<(), Fail> {
    let alloc = rt.alloc();
    let own = Parts {
        int: Some(-9),
        keys: 2,
        calls: 1,
        types: 0,
    };
    for way in [Way::Twice, Way::Own, Way::Edited, Way::Exact] {
        assert_eq!(rt; difference(&rt, alloc, way)?, own, "{way:?}");
    }
    let generic = Parts {
        int: None,
        keys: 3,
        ..own
    };
    assert_eq!(rt; difference(&rt, alloc, Way::Generic)?, generic);
    Ok(())
}
