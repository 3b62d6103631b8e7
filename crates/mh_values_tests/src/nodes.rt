//! Nodes by the texts of their types, for the tests.

ghost use Rattle.std.specs.Prelude.{◌≡◌, IfOk, Ok};
ghost use Rattle.mh_values.specs.Descriptor.{desc};

use mh_base::{NoMemory, Seq};
use mh_leaves::{How, Leaves, Missing};
use mh_tree::{
    CheckError, check_astype, check_bind, check_catch, check_collect, check_constant,
    check_counted, check_drop, check_filter, check_filterret, check_fold, check_gather,
    check_guard, check_identity, check_leaf, check_permute, check_spread, check_switch,
    check_throw, check_tryfinally,
};
use mh_values::{
    ClassId, Classes, DescriptorError, Exc, MethodTy, Num, Ty, Value, read_descriptor, read_type,
    read_types,
};
use std::alloc::Global;

/// A value that is bound, or that is constant.
#[derive(Clone, Copy, Debug)]
pub enum Given {
    Null,
    Int,
    Long,
}

/// What a node of one part adds to it. Types are texts, `V` is void.
#[derive(Clone, Copy, Debug)]
pub enum Adapter {
    Bind(u8, Given),
    Drop(u8, &'static str),
    Permute(&'static str, &'static [u8]),
    Spread(&'static str, u8),
    Gather(&'static str, u8),
    AsType(&'static str),
}

/// What a node of two parts adds to them.
#[derive(Clone, Copy, Debug)]
pub enum Joint {
    Filter(u8),
    FilterReturn,
    Fold(u8),
    Collect(u8),
    Catch(ClassId),
    TryFinally,
}

/// A node: the types of its parts, each a descriptor, and what it adds.
#[derive(Clone, Copy, Debug)]
pub enum Node {
    Leaf,
    Constant(&'static str, Given),
    Identity(&'static str),
    Throw(&'static str, ClassId),
    One(&'static str, Adapter),
    Two(&'static str, &'static str, Joint),
    Guard(&'static str, &'static str, &'static str),
    /// The fallback, and the cases.
    Switch(&'static str, &'static [&'static str]),
    /// What gives the end of a loop, what gives its start, and its body.
    Counted(&'static str, &'static str, &'static str),
}

/// Why a check gives no type.
#[derive(Debug, Drop)]
pub(crate) enum Unchecked {
    NoMemory,
    /// The node is refused.
    Refused(Exc),
    /// A text of the node is not read as what it should be.
    BadText(DescriptorError),
    /// The leaf of the node is not found.
    NoLeaf(Missing),
}

impl From<NoMemory> for Unchecked {
    fn from(_: NoMemory) -> Self {
        Unchecked::NoMemory
    }
}

impl From<CheckError> for Unchecked {
    fn from(error: CheckError) -> Self {
        match error {
            CheckError::NoMemory => Unchecked::NoMemory,
            CheckError::Refused(exc) => Unchecked::Refused(exc),
        }
    }
}

impl From<DescriptorError> for Unchecked {
    fn from(error: DescriptorError) -> Self {
        match error {
            DescriptorError::NoMemory => Unchecked::NoMemory,
            bad => Unchecked::BadText(bad),
        }
    }
}

impl From<Missing> for Unchecked {
    fn from(missing: Missing) -> Self {
        Unchecked::NoLeaf(missing)
    }
}

fn value(given: Given) -> Value {
    match given {
        Given::Null => Value::Null,
        Given::Int => Value::Boxed(Num::I(5)),
        Given::Long => Value::Boxed(Num::J(5)),
    }
}

/// The method type of a descriptor.
pub(crate) fn method_type(
    alloc: Global,
    text: &str,
    classes: &Classes,
) -> Result<MethodTy, DescriptorError>
    ensures { IfOk result (λ ty. desc classes.now text.now ≡ Ok ty) }
{
    Ok(read_descriptor(alloc, text.as_bytes(), classes)?)
}

/// A type, and nothing for `V`.
fn option_type(text: &str, classes: &Classes) -> Result<Option<Ty>, DescriptorError> {
    if text == "V" {
        return Ok(None);
    }
    Ok(Some(read_type(text.as_bytes(), classes)?))
}

/// The type of the leaf `demo/Host.add`.
fn checked_leaf(alloc: Global, leaves: &Leaves) -> Result<MethodTy, Unchecked> {
    let leaf = leaves.find(b"demo/Host", b"add", b"(II)I", How::Static)?;
    Ok(check_leaf(alloc, leaf, leaves)?)
}

/// The type of a node that drops arguments of these types.
fn checked_drop(
    alloc: Global,
    classes: &Classes,
    t: &MethodTy,
    weight: u32,
    (pos, put): (u8, &str),
) -> Result<MethodTy, Unchecked> {
    let put = read_types(alloc, put.as_bytes(), classes)?;
    Ok(check_drop(alloc, t, weight, pos, &put, classes)?)
}

/// The type of a node that permutes arguments to this type.
fn checked_permute(
    alloc: Global,
    classes: &Classes,
    t: &MethodTy,
    weight: u32,
    (asked, order): (&str, &[u8]),
) -> Result<MethodTy, Unchecked> {
    let asked = method_type(alloc, asked, classes)?;
    Ok(check_permute(alloc, t, weight, &asked, order, classes)?)
}

/// The type of a node that converts to this type.
fn checked_astype(
    alloc: Global,
    classes: &Classes,
    t: &MethodTy,
    weight: u32,
    asked: &str,
) -> Result<MethodTy, Unchecked> {
    let asked = method_type(alloc, asked, classes)?;
    Ok(check_astype(alloc, t, weight, &asked, classes)?)
}

/// The type of a node of one part, of this type and weight.
fn checked_one(
    alloc: Global,
    classes: &Classes,
    t: &MethodTy,
    weight: u32,
    adapter: Adapter,
) -> Result<MethodTy, Unchecked> {
    match adapter {
        Adapter::Bind(pos, v) => Ok(check_bind(alloc, t, weight, pos, &value(v), classes)?),
        Adapter::Drop(pos, put) => checked_drop(alloc, classes, t, weight, (pos, put)),
        Adapter::Permute(asked, order) => {
            checked_permute(alloc, classes, t, weight, (asked, order))
        }
        Adapter::Spread(array, count) => {
            let array = option_type(array, classes)?;
            Ok(check_spread(alloc, t, weight, array, count, classes)?)
        }
        Adapter::Gather(array, count) => {
            let array = option_type(array, classes)?;
            Ok(check_gather(alloc, t, weight, array, count, classes)?)
        }
        Adapter::AsType(asked) => checked_astype(alloc, classes, t, weight, asked),
    }
}

/// The type of a node of two parts, of these types and each of this weight.
fn checked_two(
    alloc: Global,
    classes: &Classes,
    (t, part): (&MethodTy, &MethodTy),
    weight: u32,
    joint: Joint,
) -> Result<MethodTy, Unchecked> {
    let checked = match joint {
        Joint::Filter(pos) => check_filter(alloc, t, weight, pos, part, weight, classes),
        Joint::FilterReturn => check_filterret(alloc, t, weight, part, weight, classes),
        Joint::Fold(pos) => check_fold(alloc, t, weight, pos, part, weight, classes),
        Joint::Collect(pos) => check_collect(alloc, t, weight, pos, part, weight, classes),
        Joint::Catch(class) => check_catch(alloc, t, weight, class, part, weight, classes),
        Joint::TryFinally => check_tryfinally(alloc, t, weight, part, weight, classes),
    };
    Ok(checked?)
}

/// The type of a guard whose parts each have this weight.
fn checked_guard(
    alloc: Global,
    classes: &Classes,
    test: &str,
    target: &str,
    fallback: &str,
    weight: u32,
) -> Result<MethodTy, Unchecked> {
    let c = method_type(alloc, test, classes)?;
    let t = method_type(alloc, target, classes)?;
    let e = method_type(alloc, fallback, classes)?;
    Ok(check_guard(alloc, &c, weight, &t, weight, &e, weight, classes)?)
}

/// The type of a switch whose fallback has this weight, and whose cases have it together.
fn checked_switch(
    alloc: Global,
    classes: &Classes,
    fallback: &str,
    cases: &[&str],
    weight: u32,
) -> Result<MethodTy, Unchecked> {
    let fallback = method_type(alloc, fallback, classes)?;
    let mut types = Seq::new(alloc);
    for case in cases.iter().copied() {
        types.push(method_type(alloc, case, classes)?)?;
    }
    Ok(check_switch(alloc, &fallback, weight, types.as_slice(), weight, classes)?)
}

/// The type of a loop whose parts each have this weight.
fn checked_counted(
    alloc: Global,
    classes: &Classes,
    iterations: &str,
    init: &str,
    body: &str,
    weight: u32,
) -> Result<MethodTy, Unchecked> {
    let n = method_type(alloc, iterations, classes)?;
    let i = method_type(alloc, init, classes)?;
    let b = method_type(alloc, body, classes)?;
    Ok(check_counted(alloc, &n, weight, &i, weight, &b, weight, classes)?)
}

/// The type of a node whose parts each have this weight, or its refusal. The cases of a switch have
/// it together.
pub(crate) fn checked(
    alloc: Global,
    leaves: &Leaves,
    node: Node,
    weight: u32,
) -> Result<MethodTy, Unchecked> {
    let classes = leaves.classes();
    match node {
        Node::Leaf => checked_leaf(alloc, leaves),
        Node::Constant(ty, v) => {
            let ty = option_type(ty, classes)?;
            Ok(check_constant(alloc, ty, &value(v), classes)?)
        }
        Node::Identity(ty) => Ok(check_identity(alloc, option_type(ty, classes)?, classes)?),
        Node::Throw(ret, class) => {
            let ret = option_type(ret, classes)?;
            Ok(check_throw(alloc, ret, class, classes)?)
        }
        Node::One(t, adapter) => {
            let t = method_type(alloc, t, classes)?;
            checked_one(alloc, classes, &t, weight, adapter)
        }
        Node::Two(t, part, joint) => {
            let t = method_type(alloc, t, classes)?;
            let part = method_type(alloc, part, classes)?;
            checked_two(alloc, classes, (&t, &part), weight, joint)
        }
        Node::Guard(test, target, fallback) => {
            checked_guard(alloc, classes, test, target, fallback, weight)
        }
        Node::Switch(fallback, cases) => checked_switch(alloc, classes, fallback, cases, weight),
        Node::Counted(iterations, init, body) => {
            checked_counted(alloc, classes, iterations, init, body, weight)
        }
    }
}
