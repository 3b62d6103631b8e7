//! What the operation of a line asks for: a combinator with its operands.

ghost use Rattle.std.specs.Prelude.{◌≡◌, [], ◌∷◌, IfOk, flat_map};
ghost use Rattle.mh_intern.specs.Views.{SeatView};
ghost use Rattle.mh_leaf.specs.LeafTable.{LeafTable};
ghost use Rattle.mh_script.specs.declared.script.Operation.TheVariants as operation;
ghost use Rattle.mh_link.specs.Made.{handles_of, nodes_of_uses};
ghost use Rattle.mh_link.specs.Operands.{Frame};
ghost use Rattle.mh_link.specs.Operations.{asked_by, handles_in};
ghost use Rattle.mh_attempt.specs.Cases.{AreAllHeldIn, TellsCases};
ghost use Rattle.mh_attempt.specs.Nodes.{KeepsTypes, MakesUses, TellsAlone, TellsNode};
ghost use Rattle.mh_attempt.specs.Nodes.{asked_of, three_asked, two_asked};
ghost use Rattle.mh_attempt.specs.Recipes.{asked_itself};
ghost use Rattle.mh_attempt.specs.Registers.{AreHeldBy, Hold, node_made};

use crate::handle::HandleOperand;
use crate::names::{class_of, leaf_named, types_of_text};
use crate::registers::Registers;
use mh_base::{NoMemory, Seq, Shared};
use mh_convert::Rules;
use mh_leaves::Leaves;
use mh_script::{Operation, Register};
use mh_tree::{CheckError, Joint};
use mh_values::{ClassId, LeafId, MethodTy, Ty, Tys, Value};

/// A combinator of one handle.
#[derive(Drop)]
pub(crate) enum OfOne<'a> {
    Bind(u8, Value),
    Drop(u8, Tys),
    Permute(Shared<MethodTy>, &'a [u8]),
    Gather(Option<Ty>, u8),
}

/// A combinator of two handles: a target, and a part that runs before or after it.
#[derive(Clone, Copy)]
pub(crate) enum OfTwo {
    Joint(Joint),
    Catch(ClassId),
    TryFinally,
}

/// A combinator of three handles. Those of a guard are a test, a target and a fallback. Those of a
/// loop are what gives its end, what gives its start, and its body.
#[derive(Clone, Copy)]
pub(crate) enum OfThree {
    Guard,
    Counted,
}

/// A combinator with its operands, by the number of its handles. `Spread` and `Use` are
/// cases of their own because they may ask for other forms than that of their node.
#[derive(Drop)]
pub(crate) enum Node<'a, 't> {
    Leaf(LeafId),
    Constant(Option<Ty>, Value),
    Identity(Option<Ty>),
    Throw(Option<Ty>, ClassId),
    One(HandleOperand<'a, 't>, OfOne<'a>),
    Two(HandleOperand<'a, 't>, OfTwo, HandleOperand<'a, 't>),
    Three(HandleOperand<'a, 't>, OfThree, HandleOperand<'a, 't>, HandleOperand<'a, 't>),
    /// The fallback and the cases.
    Switch(HandleOperand<'a, 't>, Seq<HandleOperand<'a, 't>>),
    Spread(HandleOperand<'a, 't>, Option<Ty>, u8),
    /// A conversion by the rules to a type.
    Use(HandleOperand<'a, 't>, Rules, Shared<MethodTy>),
}

/// A target, and the types of dropped arguments at a position.
fn dropped<'a, 't>(
    leaves: &Leaves,
    registers: &'a Registers<'_, 't>,
    target: &Register,
    position: u8,
    types: &Seq<u8>,
) -> Result<Node<'a, 't>, CheckError>
    ensures asked { TellsAlone
        (asked_of leaves.now (operation.Drop target.now position types.now))
        leaves.now registers.now result }
    ensures makes { MakesUses (target.now ∷ []) registers.now result }
    ensures kept { KeepsTypes registers.now result }
{
    let target = registers.handle(target)?;
    let types = types_of_text(registers.alloc, leaves.classes(), types.as_slice())?;
    Ok(Node::One(target, OfOne::Drop(position, types)))
}

/// A target, and the part that runs before or after it.
fn pair<'a, 't>(
    registers: &'a Registers<'_, 't>,
    target: &Register,
    by: OfTwo,
    part: &Register,
) -> Result<Node<'a, 't>, CheckError>
    ensures asked { (leaves : LeafTable)
        → TellsAlone (two_asked target.now by part.now) leaves registers.now result }
    ensures makes { MakesUses (target.now ∷ part.now ∷ []) registers.now result }
    ensures kept { KeepsTypes registers.now result }
{
    let target = registers.handle(target)?;
    let part = registers.handle(part)?;
    Ok(Node::Two(target, by, part))
}

/// A target, a class of exceptions, and their handler.
fn caught<'a, 't>(
    leaves: &Leaves,
    registers: &'a Registers<'_, 't>,
    target: &Register,
    class: &Seq<u8>,
    part: &Register,
) -> Result<Node<'a, 't>, CheckError>
    ensures asked { TellsAlone
        (asked_of leaves.now (operation.Catch target.now class.now part.now))
        leaves.now registers.now result }
    ensures makes { MakesUses (target.now ∷ part.now ∷ []) registers.now result }
    ensures kept { KeepsTypes registers.now result }
{
    let target = registers.handle(target)?;
    let class = class_of(registers.alloc, leaves.classes(), class.as_slice())?;
    let part = registers.handle(part)?;
    Ok(Node::Two(target, OfTwo::Catch(class), part))
}

/// Three handles.
fn triple<'a, 't>(
    registers: &'a Registers<'_, 't>,
    first: &Register,
    by: OfThree,
    second: &Register,
    third: &Register,
) -> Result<Node<'a, 't>, CheckError>
    ensures asked { (leaves : LeafTable) → TellsAlone
        (three_asked first.now by second.now third.now) leaves registers.now result }
    ensures makes { MakesUses (first.now ∷ second.now ∷ third.now ∷ []) registers.now result }
    ensures kept { KeepsTypes registers.now result }
{
    let first = registers.handle(first)?;
    let second = registers.handle(second)?;
    let third = registers.handle(third)?;
    Ok(Node::Three(first, by, second, third))
}

/// An operand before others.
fn with_first<'a, 't>(
    first: HandleOperand<'a, 't>,
    others: Seq<HandleOperand<'a, 't>>,
) -> Result<Seq<HandleOperand<'a, 't>>, NoMemory>
    ensures { IfOk result (λ all. all ≡ first.entry ∷ others.entry) }
{
    let mut all = others.into_vec();
    all.insert(0, first)?;
    Ok(Seq::from_vec(all))
}

/// The cases of a switch, from left to right.
fn cases_of<'a, 't>(
    registers: &'a Registers<'_, 't>,
    cases: &[Register],
) -> Result<Seq<HandleOperand<'a, 't>>, CheckError>
    ensures asked { (leaves : LeafTable) (frame : Frame) → Hold leaves registers.now frame
        → TellsCases leaves result (handles_in frame cases.now) }
    ensures makes { (leaves : LeafTable) (frame : Frame) → Hold leaves registers.now frame
        → IfOk result (λ all. flat_map node_made all ≡ nodes_of_uses frame cases.now) }
    ensures kept { (seat : SeatView) → AreHeldBy seat registers.now
        → IfOk result (AreAllHeldIn seat) }
{
    let Some((first, others)) = cases.split_first() else {
        return Ok(Seq::new(registers.alloc));
    };
    let first = registers.handle(first)?;
    let others = cases_of(registers, others)?;
    Ok(with_first(first, others)?)
}

/// A fallback and the cases of a switch.
fn switched<'a, 't>(
    registers: &'a Registers<'_, 't>,
    fallback: &Register,
    cases: &Seq<Register>,
) -> Result<Node<'a, 't>, CheckError>
    ensures asked { (leaves : LeafTable) → TellsAlone
        (asked_of leaves (operation.Switch fallback.now cases.now))
        leaves registers.now result }
    ensures makes { MakesUses (fallback.now ∷ cases.now) registers.now result }
    ensures kept { KeepsTypes registers.now result }
{
    let fallback = registers.handle(fallback)?;
    let cases = cases_of(registers, cases.as_slice())?;
    Ok(Node::Switch(fallback, cases))
}

/// The node that an operation asks for. Its operands are resolved from left to right.
pub(crate) fn operands<'a, 't>(
    leaves: &Leaves,
    registers: &'a Registers<'_, 't>,
    operation: &'a Operation,
) -> Result<Node<'a, 't>, CheckError>
    ensures asked { (frame : Frame) → Hold leaves.now registers.now frame
        → TellsNode leaves.now result (asked_by leaves.now frame operation.now)
        (asked_itself leaves.now frame operation.now) }
    ensures makes { MakesUses (handles_of operation.now) registers.now result }
    ensures kept { KeepsTypes registers.now result }
{
    let (alloc, classes) = (registers.alloc, leaves.classes());
    match operation {
        Operation::Leaf(method) => Ok(Node::Leaf(leaf_named(alloc, leaves, method)?)),
        Operation::Constant(ty, value) => {
            Ok(Node::Constant(registers.ty(classes, ty)?, registers.value(value)?))
        }
        Operation::Identity(ty) => Ok(Node::Identity(registers.ty(classes, ty)?)),
        Operation::Throw(ret, class) => {
            let ret = registers.ty(classes, ret)?;
            Ok(Node::Throw(ret, class_of(alloc, classes, class.as_slice())?))
        }
        Operation::Bind(target, at, value) => {
            let target = registers.handle(target)?;
            Ok(Node::One(target, OfOne::Bind(*at, registers.value(value)?)))
        }
        Operation::Drop(target, at, types) => dropped(leaves, registers, target, *at, types),
        Operation::Permute(target, asked, order) => {
            let target = registers.handle(target)?;
            let asked = registers.method_type(classes, asked)?;
            Ok(Node::One(target, OfOne::Permute(asked, order.as_slice())))
        }
        Operation::Filter(target, at, part) => {
            pair(registers, target, OfTwo::Joint(Joint::Filter(*at)), part)
        }
        Operation::FilterReturn(target, part) => {
            pair(registers, target, OfTwo::Joint(Joint::FilterReturn), part)
        }
        Operation::Fold(target, at, part) => {
            pair(registers, target, OfTwo::Joint(Joint::Fold(*at)), part)
        }
        Operation::Collect(target, at, part) => {
            pair(registers, target, OfTwo::Joint(Joint::Collect(*at)), part)
        }
        Operation::Spread(target, array, count) => {
            let target = registers.handle(target)?;
            Ok(Node::Spread(target, registers.ty(classes, array)?, *count))
        }
        Operation::Gather(target, array, count) => {
            let target = registers.handle(target)?;
            Ok(Node::One(target, OfOne::Gather(registers.ty(classes, array)?, *count)))
        }
        Operation::AsType(target, asked) => {
            let target = registers.handle(target)?;
            let asked = registers.method_type(classes, asked)?;
            Ok(Node::Use(target, Rules::AsType, asked))
        }
        Operation::Explicit(target, asked) => {
            let target = registers.handle(target)?;
            let asked = registers.method_type(classes, asked)?;
            Ok(Node::Use(target, Rules::Explicit, asked))
        }
        Operation::Guard(test, target, fallback) => {
            triple(registers, test, OfThree::Guard, target, fallback)
        }
        Operation::Catch(target, class, part) => caught(leaves, registers, target, class, part),
        Operation::TryFinally(target, cleanup) => {
            pair(registers, target, OfTwo::TryFinally, cleanup)
        }
        Operation::Switch(fallback, cases) => switched(registers, fallback, cases),
        Operation::Counted(iterations, init, body) => {
            triple(registers, iterations, OfThree::Counted, init, body)
        }
    }
}
