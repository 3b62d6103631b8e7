//! Whether a handle can be made from what it is given, for which lack of memory would be said else.

use crate::broken::Broken;
use crate::literals::{type_of, value_of};
use crate::roots::MOST_CASES;
use crate::step::{Root, Step};
use mh_leaves::Leaves;
use mh_values::LeafId;
use std::alloc::Global;

fn check_leaves(leaves: &Leaves, ids: &[LeafId]) -> Result<(), Broken> {
    for id in ids {
        if id.0 >= leaves.count() {
            return Err(Broken::Fixture("a number that no leaf has"));
        }
    }
    Ok(())
}

fn check_type(alloc: Global, leaves: &Leaves, text: &str) -> Result<(), Broken> {
    type_of(alloc, text, leaves.classes())?;
    Ok(())
}

fn check_value(alloc: Global, leaves: &Leaves, text: &str) -> Result<(), Broken> {
    value_of(alloc, text, leaves.classes())?;
    Ok(())
}

fn check_switch(leaves: &Leaves, fallback: LeafId, cases: &[LeafId]) -> Result<(), Broken> {
    if cases.len() > MOST_CASES {
        return Err(Broken::Fixture("a switch of more than 17 cases"));
    }
    check_leaves(leaves, &[fallback])?;
    check_leaves(leaves, cases)
}

fn check_root(alloc: Global, leaves: &Leaves, root: Root) -> Result<(), Broken> {
    match root {
        Root::Leaf(id) => check_leaves(leaves, &[id]),
        Root::Constant(text, value) => {
            check_type(alloc, leaves, text)?;
            check_value(alloc, leaves, value)
        }
        Root::Identity(text) => check_type(alloc, leaves, text),
        Root::Throw(text, _) => check_type(alloc, leaves, text),
        Root::Guard(test, target, fallback) => check_leaves(leaves, &[test, target, fallback]),
        Root::Catch(target, _, handler) => check_leaves(leaves, &[target, handler]),
        Root::Switch(fallback, cases) => check_switch(leaves, fallback, cases),
        Root::TryFinally(target, cleanup) => check_leaves(leaves, &[target, cleanup]),
        Root::Counted(turns, body) => {
            check_value(alloc, leaves, turns)?;
            check_leaves(leaves, &[body])
        }
    }
}

fn check_step(alloc: Global, leaves: &Leaves, step: Step) -> Result<(), Broken> {
    match step {
        Step::Bind(_, text) => check_value(alloc, leaves, text),
        Step::Typed(text, _) => check_type(alloc, leaves, text),
        Step::Joined(id, _) => check_leaves(leaves, &[id]),
        Step::Doubled => Ok(()),
    }
}

/// Looks for what [`made`](crate::made) would answer as lack of memory though there is some: a
/// number that no leaf has, a text that is no type or value, or a switch of more than 17 cases.
pub fn check(alloc: Global, leaves: &Leaves, root: Root, steps: &[Step]) -> Result<(), Broken> {
    check_root(alloc, leaves, root)?;
    for step in steps {
        check_step(alloc, leaves, *step)?;
    }
    Ok(())
}
