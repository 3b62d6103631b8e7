use crate::bodies::text;
use crate::nodes::Adapter::{AsType, Bind, Drop, Gather, Permute, Spread};
use crate::nodes::Given::{Int, Long, Null};
use crate::nodes::Joint::{Catch, Collect, Filter, FilterReturn, Fold, TryFinally};
use crate::nodes::Node::{Constant, Counted, Guard, Identity, Leaf, One, Switch, Throw, Two};
use crate::nodes::{Node, Unchecked, checked, method_type};
use Want::{Illegal, Refused, TooHeavy, Type};
use mh_leaves::{Leaves, ManifestError, read_manifest};
use mh_texts::{show_exc, show_type};
use mh_values::{ClassId, Classes, DescriptorError, Exc, MethodTy, is_same_method_type};
use std::alloc::Global;
use std::test::Fail;

/// 127 longs, which take 254 slots.
const LONGS: &str =
    "(JJJJJJJJJJJJJJJJJJJJJJJJJJJJJJJJJJJJJJJJJJJJJJJJJJJJJJJJJJJJJJJJJJJJJJJJJJJJJJJJJJJJJJJJJJJJJJJJJJJJJJJJJJJJJJJJJJJJJJJJJJJJJJJ)V";

/// A slot more.
const LONGS_AND_ONE: &str =
    "(JJJJJJJJJJJJJJJJJJJJJJJJJJJJJJJJJJJJJJJJJJJJJJJJJJJJJJJJJJJJJJJJJJJJJJJJJJJJJJJJJJJJJJJJJJJJJJJJJJJJJJJJJJJJJJJJJJJJJJJJJJJJJJJZ)V";

/// What a check answers for a node.
#[derive(Clone, Copy)]
enum Want {
    /// Its type, as a descriptor.
    Type(&'static str),
    /// It is refused with an exception of the class, with the message.
    Refused(ClassId, &'static str),
    /// It is refused with an `IllegalArgumentException`, with the message.
    Illegal(&'static str),
    /// It is refused for its weight.
    TooHeavy,
}

/// The built-in classes, and one leaf.
fn host(alloc: Global) -> Result<Leaves, ManifestError> {
    read_manifest(
        alloc,
        b"class demo/Host java/lang/Object\nstatic demo/Host add (II)I iadd\n",
    )
}

/// Whether an exception is of the class, with the message.
fn is_exception(exc: &Exc, class: ClassId, message: &str) -> bool {
    exc.class() == class && exc.message().iter().copied().eq(message.chars())
}

/// Whether it is the exception of a refusal that is wanted.
fn is_refusal(exc: &Exc, want: Want) -> bool {
    match want {
        Want::Type(_) => false,
        Want::Refused(class, message) => is_exception(exc, class, message),
        Want::Illegal(message) => is_exception(exc, ClassId::ILLEGAL_ARGUMENT, message),
        Want::TooHeavy => is_exception(exc, ClassId::INTERNAL_ERROR, "weight"),
    }
}

/// Whether it is the type that is wanted.
fn is_type(
    alloc: Global,
    ty: &MethodTy,
    want: Want,
    classes: &Classes,
) -> Result<bool, DescriptorError> {
    let Want::Type(text) = want else {
        return Ok(false);
    };
    let wanted = method_type(alloc, text, classes)?;
    Ok(is_same_method_type(ty, &wanted))
}

/// A node, the weight of each of its parts, and what a check answers for it.
type Row = (Node, u32, Want);

/// Nodes without parts.
static NO_PART: [Row; 9] = [
    (Leaf, 1, Type("(II)I")),
    (Constant("I", Int), 1, Type("()I")),
    (Constant("V", Int), 1, Illegal("constant")),
    (
        Constant("I", Null),
        1,
        Refused(ClassId::NULL_POINTER, "constant"),
    ),
    (
        Constant("I", Long),
        1,
        Refused(ClassId::CLASS_CAST, "constant"),
    ),
    (Identity("J"), 1, Type("(J)J")),
    (Identity("V"), 1, Illegal("identity")),
    (
        Throw("I", ClassId::EXCEPTION),
        1,
        Type("(Ljava/lang/Exception;)I"),
    ),
    (Throw("I", ClassId::OBJECT), 1, Illegal("throw")),
];

/// Nodes of one part.
static ONE_PART: [Row; 35] = [
    (One("(II)I", Bind(1, Int)), 255, Type("(I)I")),
    (One("(II)I", Bind(2, Int)), 1, Illegal("bind")),
    (
        One("(II)I", Bind(0, Null)),
        1,
        Refused(ClassId::NULL_POINTER, "bind"),
    ),
    (
        One("(II)I", Bind(0, Long)),
        1,
        Refused(ClassId::CLASS_CAST, "bind"),
    ),
    (One("(II)I", Bind(0, Int)), 256, TooHeavy),
    (One("(II)I", Drop(2, "JZ")), 255, Type("(IIJZ)I")),
    (One("(II)I", Drop(3, "J")), 1, Illegal("drop")),
    (One(LONGS, Drop(127, "Z")), 1, Illegal("drop")),
    (One("(II)I", Drop(0, "J")), 256, TooHeavy),
    (
        One("(IJ)I", Permute("(JZI)I", &[2, 0])),
        255,
        Type("(JZI)I"),
    ),
    (One("(II)I", Permute("(II)I", &[0])), 1, Illegal("permute")),
    (
        One("(II)I", Permute("(II)I", &[0, 2])),
        1,
        Illegal("permute"),
    ),
    (
        One("(II)I", Permute("(IJ)I", &[0, 1])),
        1,
        Illegal("permute"),
    ),
    (
        One("(II)I", Permute("(II)J", &[0, 1])),
        1,
        Illegal("permute"),
    ),
    (
        One("()V", Permute(LONGS_AND_ONE, &[])),
        1,
        Illegal("permute"),
    ),
    (One("(II)I", Permute("(II)I", &[1, 0])), 256, TooHeavy),
    (One("(JII)I", Spread("[I", 2)), 255, Type("(J[I)I")),
    (One("(II)I", Spread("I", 1)), 1, Illegal("spread")),
    (One("(II)I", Spread("[I", 3)), 1, Illegal("spread")),
    (One("(JI)I", Spread("[I", 2)), 1, Illegal("spread")),
    (One(LONGS, Spread("[I", 0)), 1, Illegal("spread")),
    (One("(II)I", Spread("[I", 2)), 256, TooHeavy),
    (One("(J[I)I", Gather("[I", 2)), 255, Type("(JII)I")),
    (One("([I)I", Gather("I", 2)), 1, Illegal("gather")),
    (One("()I", Gather("[I", 2)), 1, Illegal("gather")),
    (One("([I)I", Gather("[J", 2)), 1, Illegal("gather")),
    (One("([I)I", Gather("[I", 255)), 1, Illegal("gather")),
    (One("([J)I", Gather("[J", 128)), 1, Illegal("gather")),
    (One("([I)I", Gather("[I", 2)), 256, TooHeavy),
    (One("(J)I", AsType("(I)J")), 255, Type("(I)J")),
    (
        One("(II)I", AsType("(I)I")),
        1,
        Refused(ClassId::WRONG_METHOD_TYPE, "have (II)I want (I)I"),
    ),
    (
        One("(I)I", AsType("(J)I")),
        1,
        Refused(ClassId::WRONG_METHOD_TYPE, "have (I)I want (J)I"),
    ),
    (
        One("(I)J", AsType("(I)I")),
        1,
        Refused(ClassId::WRONG_METHOD_TYPE, "have (I)J want (I)I"),
    ),
    (
        One(LONGS_AND_ONE, AsType(LONGS_AND_ONE)),
        1,
        Illegal("astype"),
    ),
    (One("(II)I", AsType("(II)J")), 256, TooHeavy),
];

/// Nodes of two or three parts.
static MORE_PARTS: [Row; 47] = [
    (Two(LONGS, "()V", Collect(127)), 1, Type(LONGS)),
    (Two("(IJ)I", "(Z)J", Filter(1)), 127, Type("(IZ)I")),
    (Two("(IJ)I", "(Z)J", Filter(2)), 1, Illegal("filter")),
    (Two("(IJ)I", "(ZZ)J", Filter(1)), 1, Illegal("filter")),
    (Two("(IJ)I", "(Z)I", Filter(1)), 1, Illegal("filter")),
    (Two("(IJ)I", "(Z)V", Filter(2)), 1, Illegal("filter")),
    (
        Two(LONGS_AND_ONE, "(Z)Z", Filter(127)),
        1,
        Illegal("filter"),
    ),
    (Two("(IJ)I", "(Z)J", Filter(1)), 128, TooHeavy),
    (Two("(II)I", "(I)J", FilterReturn), 127, Type("(II)J")),
    (Two("(I)V", "()J", FilterReturn), 1, Type("(I)J")),
    (Two("(II)I", "(J)J", FilterReturn), 1, Illegal("filterret")),
    (Two("(II)I", "()J", FilterReturn), 1, Illegal("filterret")),
    (Two("(I)V", "(I)J", FilterReturn), 1, Illegal("filterret")),
    (
        Two(LONGS_AND_ONE, "()I", FilterReturn),
        1,
        Illegal("filterret"),
    ),
    (Two("(II)I", "(I)J", FilterReturn), 128, TooHeavy),
    (Two("(IJZ)I", "(Z)J", Fold(1)), 127, Type("(IZ)I")),
    (Two("(IJ)I", "(J)V", Fold(1)), 1, Type("(IJ)I")),
    (Two("(II)I", "()I", Fold(2)), 1, Illegal("fold")),
    (Two("(II)I", "(I)J", Fold(0)), 1, Illegal("fold")),
    (Two("(II)I", "(J)I", Fold(0)), 1, Illegal("fold")),
    (Two("(II)I", "(II)I", Fold(0)), 1, Illegal("fold")),
    (Two("(II)I", "()V", Fold(3)), 1, Illegal("fold")),
    (Two(LONGS_AND_ONE, "()V", Fold(0)), 1, Illegal("fold")),
    (Two("(II)I", "(I)I", Fold(0)), 128, TooHeavy),
    (Two("(IJ)I", "(ZZ)J", Collect(1)), 127, Type("(IZZ)I")),
    (Two("(II)I", "(Z)V", Collect(2)), 1, Type("(IIZ)I")),
    (Two("(II)I", "()I", Collect(2)), 1, Illegal("collect")),
    (Two("(II)I", "(I)J", Collect(0)), 1, Illegal("collect")),
    (Two("(II)I", "()V", Collect(3)), 1, Illegal("collect")),
    (Two(LONGS, "(I)V", Collect(0)), 1, Illegal("collect")),
    (Two("(II)I", "(I)I", Collect(0)), 128, TooHeavy),
    (Guard("(I)Z", "(IJ)V", "(IJ)V"), 85, Type("(IJ)V")),
    (Guard("(I)Z", "(IJ)V", "(IJ)I"), 1, Illegal("guard")),
    (Guard("(I)I", "(IJ)V", "(IJ)V"), 1, Illegal("guard")),
    (Guard("(J)Z", "(IJ)V", "(IJ)V"), 1, Illegal("guard")),
    (Guard("(IJI)Z", "(IJ)V", "(IJ)V"), 1, Illegal("guard")),
    (
        Guard("()Z", LONGS_AND_ONE, LONGS_AND_ONE),
        1,
        Illegal("guard"),
    ),
    (Guard("(I)Z", "(IJ)V", "(IJ)V"), 86, TooHeavy),
    (
        Two(
            "(II)I",
            "(Ljava/lang/Exception;I)I",
            Catch(ClassId::RUNTIME_EXCEPTION),
        ),
        127,
        Type("(II)I"),
    ),
    (
        Two("(II)I", "(Ljava/lang/Exception;I)I", Catch(ClassId::OBJECT)),
        1,
        Illegal("catch"),
    ),
    (
        Two("(II)I", "()I", Catch(ClassId::EXCEPTION)),
        1,
        Illegal("catch"),
    ),
    (
        Two(
            "(II)I",
            "(Ljava/lang/Exception;I)I",
            Catch(ClassId::THROWABLE),
        ),
        1,
        Illegal("catch"),
    ),
    (
        Two(
            "(II)I",
            "(Ljava/lang/Exception;J)I",
            Catch(ClassId::EXCEPTION),
        ),
        1,
        Illegal("catch"),
    ),
    (
        Two(
            "(II)I",
            "(Ljava/lang/Exception;III)I",
            Catch(ClassId::EXCEPTION),
        ),
        1,
        Illegal("catch"),
    ),
    (
        Two(
            "(II)I",
            "(Ljava/lang/Exception;I)J",
            Catch(ClassId::EXCEPTION),
        ),
        1,
        Illegal("catch"),
    ),
    (
        Two(
            LONGS_AND_ONE,
            "(Ljava/lang/Exception;)V",
            Catch(ClassId::EXCEPTION),
        ),
        1,
        Illegal("catch"),
    ),
    (
        Two(
            "(II)I",
            "(Ljava/lang/Exception;I)I",
            Catch(ClassId::EXCEPTION),
        ),
        128,
        TooHeavy,
    ),
];

static ENDINGS: [Row; 36] = [
    (
        Two("(II)I", "(Ljava/lang/Throwable;II)I", TryFinally),
        127,
        Type("(II)I"),
    ),
    (
        Two("(II)I", "(Ljava/lang/Throwable;II)I", TryFinally),
        128,
        TooHeavy,
    ),
    (
        Two("(II)I", "(Ljava/lang/Throwable;III)I", TryFinally),
        1,
        Type("(II)I"),
    ),
    (
        Two("(IJ)V", "(Ljava/lang/Throwable;I)V", TryFinally),
        1,
        Type("(IJ)V"),
    ),
    (
        Two("(II)I", "(Ljava/lang/Throwable;IIII)I", TryFinally),
        1,
        Illegal("tryfinally"),
    ),
    (
        Two("(II)I", "(Ljava/lang/Throwable;)I", TryFinally),
        1,
        Illegal("tryfinally"),
    ),
    (
        Two("(II)I", "(Ljava/lang/Error;I)I", TryFinally),
        1,
        Illegal("tryfinally"),
    ),
    (Two("(II)I", "()I", TryFinally), 1, Illegal("tryfinally")),
    (
        Two("(II)I", "(Ljava/lang/Throwable;J)I", TryFinally),
        1,
        Illegal("tryfinally"),
    ),
    (
        Two("(II)I", "(Ljava/lang/Throwable;IJ)I", TryFinally),
        1,
        Illegal("tryfinally"),
    ),
    (
        Two("(II)I", "(Ljava/lang/Throwable;I)J", TryFinally),
        1,
        Illegal("tryfinally"),
    ),
    (
        Two("(IJ)V", "(Ljava/lang/Throwable;J)V", TryFinally),
        1,
        Illegal("tryfinally"),
    ),
    (
        Two(LONGS_AND_ONE, "(Ljava/lang/Throwable;)V", TryFinally),
        1,
        Illegal("tryfinally"),
    ),
    (Switch("(IJ)I", &["(IJ)I"]), 127, Type("(IJ)I")),
    (Switch("(IJ)I", &["(IJ)I"]), 128, TooHeavy),
    (Switch("(I)V", &["(I)V"; 16]), 1, Type("(I)V")),
    (Switch("(I)V", &["(I)V"; 17]), 1, Illegal("switch")),
    (Switch("(I)V", &[]), 1, Illegal("switch")),
    (Switch("(I)V", &["(I)V", "(I)I"]), 1, Illegal("switch")),
    (Switch("(IJ)V", &["(II)V"]), 1, Illegal("switch")),
    (Switch("(J)V", &["(J)V"]), 1, Illegal("switch")),
    (Switch("(Z)V", &["(Z)V"]), 1, Illegal("switch")),
    (Switch("()V", &["()V"]), 1, Illegal("switch")),
    (Counted("()I", "()J", "(JI)J"), 43, Type("()J")),
    (Counted("()I", "()J", "(JI)J"), 44, TooHeavy),
    (Counted("(I)I", "(IJ)V", "(IIJ)V"), 1, Type("(IJ)V")),
    (Counted("(J)I", "()I", "(II)I"), 1, Type("(J)I")),
    (Counted("()J", "()I", "(II)I"), 1, Illegal("counted")),
    (Counted("()I", "()J", "(II)I"), 1, Illegal("counted")),
    (Counted("()I", "()I", "(I)I"), 1, Illegal("counted")),
    (Counted("()I", "()V", "()V"), 1, Illegal("counted")),
    (Counted("()I", "()I", "(IJ)I"), 1, Illegal("counted")),
    (Counted("(J)I", "()I", "(III)I"), 1, Illegal("counted")),
    (Counted("(II)I", "()I", "(III)I"), 1, Illegal("counted")),
    (Counted("()I", "(J)I", "(III)I"), 1, Illegal("counted")),
    (Counted("()I", "(I)I", "(II)I"), 1, Illegal("counted")),
];

/// A node for which a check answers something else than is wanted: the node, the weight of each of
/// its parts, and the answer, which is a type as a descriptor or an exception.
#[derive(Drop)]
struct Wrong {
    node: Node,
    weight: u32,
    answer: Vec<u8>,
}

impl Wrong {
    fn told(self) -> Fail {
        let (node, weight) = (self.node, self.weight);
        Fail::new(format_args!("{node:?}, weight {weight}: {}", text(&self.answer)))
    }
}

/// What a check of a node answers, as a text, unless it is what is wanted.
fn other_answer(
    alloc: Global,
    leaves: &Leaves,
    (node, weight, want): Row,
) -> Result<Option<Vec<u8>>, Unchecked> {
    let classes = leaves.classes();
    let (is_wanted, answer) = match checked(alloc, leaves, node, weight) {
        Ok(ty) => (
            is_type(alloc, &ty, want, classes)?,
            show_type(alloc, &ty, classes)?,
        ),
        Err(Unchecked::Refused(exc)) => (is_refusal(&exc, want), show_exc(alloc, &exc, classes)?),
        Err(unchecked) => return Err(unchecked),
    };
    Ok(if is_wanted { None } else { Some(answer) })
}

/// The first of these nodes for which a check answers something else than is wanted.
fn first_wrong(alloc: Global, leaves: &Leaves, rows: &[Row]) -> Result<Option<Wrong>, Unchecked> {
    for row in rows.iter().copied() {
        if let Some(answer) = other_answer(alloc, leaves, row)? {
            let (node, weight, _) = row;
            return Ok(Some(Wrong {
                node,
                weight,
                answer,
            }));
        }
    }
    Ok(None)
}

#[test]
fn nodes_without_parts(rt: HostRuntime) -> Result<(), Fail> {
    let leaves = host(rt.alloc())?;
    if let Some(wrong) = first_wrong(rt.alloc(), &leaves, &NO_PART)? {
        return Err(wrong.told());
    }
    Ok(())
}

#[test]
fn nodes_of_one_part(rt: HostRuntime) -> Result<(), Fail> {
    let leaves = host(rt.alloc())?;
    if let Some(wrong) = first_wrong(rt.alloc(), &leaves, &ONE_PART)? {
        return Err(wrong.told());
    }
    Ok(())
}

#[test]
fn nodes_of_more_parts(rt: HostRuntime) -> Result<(), Fail> {
    let leaves = host(rt.alloc())?;
    if let Some(wrong) = first_wrong(rt.alloc(), &leaves, &MORE_PARTS)? {
        return Err(wrong.told());
    }
    Ok(())
}

#[test]
fn cleanups_switches_and_loops(rt: HostRuntime) -> Result<(), Fail> {
    let leaves = host(rt.alloc())?;
    if let Some(wrong) = first_wrong(rt.alloc(), &leaves, &ENDINGS)? {
        return Err(wrong.told());
    }
    Ok(())
}
