//! The handle of a node, by the number of its operands. A rule is checked once, before any handle
//! is made. If a node has no operand that is a handle, the call that makes it checks the rule.

ghost use Rattle.std.specs.Prelude.{◌≡◌, ◌≤◌, ◌*◌, List, [], ◌∷◌, IfOk, Ok, length};
ghost use Rattle.mh_tree.specs.Check.{TellsRow};
ghost use Rattle.mh_tree.specs.Rows.{most_cases};
ghost use Rattle.mh_tree.specs.Tree.{Cases, Tree};
ghost use Rattle.mh_tree.specs.Typing.{type_of, types_of_cases};
ghost use Rattle.mh_tree.specs.Tree as tree;
ghost use Rattle.mh_handle.specs.Works.{IsReady, leaves_of};
ghost use Rattle.mh_jobs.specs.Thrown.{OrThrown};
ghost use Rattle.mh_attempt.specs.Cases.{StandForEach, StandForSome, own_weights};
ghost use Rattle.mh_attempt.specs.Nodes.{AreAllOperands, AreOperands, IsAsked, IsOperand, parts_of};
ghost use Rattle.mh_attempt.specs.Nodes.{one_tree, three_tree, two_tree};
ghost use Rattle.mh_attempt.specs.Operations.{MakesAsked, MakesOf};
ghost use Rattle.mh_attempt.specs.Registers.{StandsFor, StandsForSome};

use crate::handle::HandleOperand;
use crate::lines::combining::{check_one, check_three, check_two, of_one, of_three, of_two};
use crate::lines::nodes::{Node, OfOne, OfThree, OfTwo};
use crate::lines::several::{make_both, make_cases, make_three};
use crate::lines::uses::{convert_handle, make_spread};
use mh_base::{Copied, NoMemory, Seq};
use mh_branch::{constant, identity, throw};
use mh_handle::{Handle, HandleError, Work, leaf};
use mh_leaves::Leaves;
use mh_more::switch_of;
use mh_tree::{CheckError, check_switch};
use mh_values::MethodTy;
use std::alloc::Global;
use std::sync::Wait;

/// The most cases of a switch.
const MOST_CASES: usize = 16;

/// The handle of a node that an operation asks for. Refused by the rule of its combinator.
pub(crate) fn make_node<'t, R: Wait>(
    w: &mut Work<'_, 't>,
    rt: &R,
    node: Node<'_, 't>,
) -> Result<Handle<'t>, HandleError>
    requires ready { IsReady w.old 4 }
    requires operands { AreOperands (leaves_of w.old) w.old.seat.now node }
    ensures { (m : OrThrown Tree) (itself : Tree → List Tree)
        → IsAsked (leaves_of w.old) node.entry m itself
        → MakesAsked (parts_of node.entry) m itself w.old w.new result }
{
    match node {
        Node::Leaf(id) => leaf(w, rt, id),
        Node::Constant(ty, value) => constant(w, rt, ty, value),
        Node::Identity(ty) => identity(w, rt, ty),
        Node::Throw(ret, class) => throw(w, rt, ret, class),
        Node::One(target, by) => make_of_one(w, rt, &target, by),
        Node::Two(target, by, part) => make_of_two(w, rt, &target, by, &part),
        Node::Three(first, by, second, third) => {
            make_of_three(w, rt, by, (&first, &second, &third))
        }
        Node::Switch(fallback, cases) => make_switch(w, rt, &fallback, cases.as_slice()),
        Node::Spread(target, array, count) => make_spread(w, rt, &target, array, count),
        Node::Use(target, rules, asked) => convert_handle(w, rt, &target, rules, asked.get()),
    }
}

// The handle of a node with one operand.
fn make_of_one<'t, R: Wait>(
    w: &mut Work<'_, 't>,
    rt: &R,
    target: &HandleOperand<'_, 't>,
    by: OfOne<'_>,
) -> Result<Handle<'t>, HandleError>
    requires ready { IsReady w.old 4 }
    requires target { IsOperand (leaves_of w.old) w.old.seat.now target.now }
    ensures { (t : Tree) → StandsFor (leaves_of w.old) target.now t
        → MakesOf (target.now ∷ []) (one_tree by.entry t) w.old w.new result }
{
    let own = target.typed(w.leaves);
    let ty = check_one(w.alloc, own, &by, w.classes())?;
    let target = target.make(w, rt)?;
    of_one(w, rt, target, by, ty)
}

// The handle of a node with two operands.
fn make_of_two<'t, R: Wait>(
    w: &mut Work<'_, 't>,
    rt: &R,
    target: &HandleOperand<'_, 't>,
    by: OfTwo,
    part: &HandleOperand<'_, 't>,
) -> Result<Handle<'t>, HandleError>
    requires ready { IsReady w.old 4 }
    requires target { IsOperand (leaves_of w.old) w.old.seat.now target.now }
    requires part { IsOperand (leaves_of w.old) w.old.seat.now part.now }
    ensures { (t p : Tree) → StandsFor (leaves_of w.old) target.now t
        → StandsFor (leaves_of w.old) part.now p
        → MakesOf (target.now ∷ part.now ∷ []) (two_tree by t p) w.old w.new result }
{
    let own = target.typed(w.leaves);
    let other = part.typed(w.leaves);
    let ty = check_two(w.alloc, own, by, other, w.classes())?;
    let made = make_both(w, rt, target, part)?;
    of_two(w, rt, made, by, ty)
}

// The handle of a node with three operands.
fn make_of_three<'t, R: Wait>(
    w: &mut Work<'_, 't>,
    rt: &R,
    by: OfThree,
    parts: (
        &HandleOperand<'_, 't>,
        &HandleOperand<'_, 't>,
        &HandleOperand<'_, 't>,
    ),
) -> Result<Handle<'t>, HandleError>
    requires ready { IsReady w.old 4 }
    requires first { IsOperand (leaves_of w.old) w.old.seat.now parts.0.now }
    requires second { IsOperand (leaves_of w.old) w.old.seat.now parts.1.now }
    requires third { IsOperand (leaves_of w.old) w.old.seat.now parts.2.now }
    ensures { (a b d : Tree) → StandsFor (leaves_of w.old) parts.entry.0.now a
        → StandsFor (leaves_of w.old) parts.entry.1.now b
        → StandsFor (leaves_of w.old) parts.entry.2.now d
        → MakesOf (parts.entry.0.now ∷ parts.entry.1.now ∷ parts.entry.2.now ∷ [])
        (three_tree by a b d) w.old w.new result }
{
    let (first, second, third) = parts;
    let a = first.typed(w.leaves);
    let b = second.typed(w.leaves);
    let c = third.typed(w.leaves);
    let ty = check_three(w.alloc, (a, b, c), by, w.classes())?;
    let made = make_three(w, rt, first, second, third)?;
    of_three(w, rt, made, by, ty)
}

// The types of operands.
fn types_of(
    alloc: Global,
    leaves: &Leaves,
    operands: &[HandleOperand<'_, '_>],
) -> Result<Seq<MethodTy>, NoMemory>
    requires { StandForSome leaves.now operands.now }
    ensures { (ts : Cases) → StandForEach leaves.now operands.now ts
        → IfOk result (λ types. types_of_cases leaves.now ts ≡ Ok types) }
{
    let Some((first, others)) = operands.split_first() else {
        return Ok(Seq::new(alloc));
    };
    let first = first.ty(leaves).copy(alloc)?;
    let mut types = types_of(alloc, leaves, others)?.into_vec();
    types.insert(0, first)?;
    Ok(Seq::from_vec(types))
}

// What a few operands weigh together.
fn weight_of(operands: &[HandleOperand<'_, '_>]) -> u32
    requires few { length operands.now ≤ most_cases }
    ensures weight { result ≡ own_weights operands.now }
    ensures light { result ≤ 256 * length operands.now }
{
    match operands {
        [] => 0,
        [first, others @ ..] => first.weight() + weight_of(others),
    }
}

// What the cases weigh together. Nothing is said of more cases than a switch may have.
fn cases_weight(cases: &[HandleOperand<'_, '_>]) -> u32
    ensures { length cases.now ≤ most_cases → result ≡ own_weights cases.now }
{
    if cases.len() > MOST_CASES {
        return 0;
    }
    weight_of(cases)
}

// The type of a switch of operands.
fn switch_type(
    w: &Work<'_, '_>,
    fallback: &HandleOperand<'_, '_>,
    cases: &[HandleOperand<'_, '_>],
) -> Result<MethodTy, CheckError>
    requires fallback { StandsForSome (leaves_of w.now) fallback.now }
    requires cases { StandForSome (leaves_of w.now) cases.now }
    ensures { (t : Tree) (ts : Cases) → StandsFor (leaves_of w.now) fallback.now t
        → StandForEach (leaves_of w.now) cases.now ts
        → TellsRow result (type_of (leaves_of w.now) (tree.Switch t ts)) }
{
    let own = fallback.typed(w.leaves);
    let types = types_of(w.alloc, w.leaves, cases)?;
    let weight = cases_weight(cases);
    check_switch(
        w.alloc,
        own.ty,
        own.weight,
        types.as_slice(),
        weight,
        w.classes(),
    )
}

// The handle of a switch: a fallback and its cases.
fn make_switch<'t, R: Wait>(
    w: &mut Work<'_, 't>,
    rt: &R,
    fallback: &HandleOperand<'_, 't>,
    cases: &[HandleOperand<'_, 't>],
) -> Result<Handle<'t>, HandleError>
    requires ready { IsReady w.old 4 }
    requires fallback { IsOperand (leaves_of w.old) w.old.seat.now fallback.now }
    requires cases { AreAllOperands (leaves_of w.old) w.old.seat.now cases.now }
    ensures { (t : Tree) (ts : Cases) → StandsFor (leaves_of w.old) fallback.now t
        → StandForEach (leaves_of w.old) cases.now ts
        → MakesOf (fallback.now ∷ cases.now) (tree.Switch t ts) w.old w.new result }
{
    let ty = switch_type(w, fallback, cases)?;
    let made = make_cases(w, rt, fallback, cases, &ty)?;
    switch_of(w, rt, made, ty)
}
