ghost use Rattle.std.specs.Prelude.{◌≡◌, ◌++◌, OnOk, IfOk, flat_map};
ghost use Rattle.mh_values.specs.TypeText.{primitive_text, class_text, component_text, type_text, return_text, method_type_text};
ghost use Rattle.mh_tree.specs.Rows.{mismatch};

use mh_base::{Frozen, NoMemory, Seq};
use mh_values::{ClassId, Classes, Comp, Exc, ExcParts, MethodTy, Primitive, Ty};
use std::alloc::Global;

fn push_ascii(text: &mut Seq<char>, bytes: &[u8]) -> Result<(), NoMemory>
    ensures { OnOk result (text.new ≡ text.old ++ bytes.now) }
{
    for byte in bytes {
        text.push(char::from(*byte))?;
    }
    Ok(())
}

fn push_primitive(text: &mut Seq<char>, primitive: Primitive) -> Result<(), NoMemory>
    ensures { OnOk result (text.new ≡ text.old ++ primitive_text primitive) }
{
    push_ascii(text, &[primitive.letter()])
}

fn push_class(text: &mut Seq<char>, class: ClassId, classes: &Classes) -> Result<(), NoMemory>
    ensures { OnOk result (text.new ≡ text.old ++ class_text classes.now class) }
{
    push_ascii(text, b"L")?;
    push_ascii(text, classes.name(class))?;
    push_ascii(text, b";")
}

fn push_component(text: &mut Seq<char>, component: Comp, classes: &Classes) -> Result<(), NoMemory>
    ensures { OnOk result (text.new ≡ text.old ++ component_text classes.now component) }
{
    match component {
        Comp::Prim(primitive) => push_primitive(text, primitive),
        Comp::Class(class) => push_class(text, class, classes),
    }
}

fn push_type(text: &mut Seq<char>, ty: Ty, classes: &Classes) -> Result<(), NoMemory>
    ensures { OnOk result (text.new ≡ text.old ++ type_text classes.now ty) }
{
    match ty {
        Ty::Prim(primitive) => push_primitive(text, primitive),
        Ty::Class(class) => push_class(text, class, classes),
        Ty::Array(component) => {
            push_ascii(text, b"[")?;
            push_component(text, component, classes)
        }
    }
}

fn push_types(text: &mut Seq<char>, types: &[Ty], classes: &Classes) -> Result<(), NoMemory>
    ensures { OnOk result (text.new ≡ text.old ++ flat_map (type_text classes.now) types.now) }
{
    for ty in types {
        push_type(text, *ty, classes)?;
    }
    Ok(())
}

fn push_return(text: &mut Seq<char>, ret: Option<Ty>, classes: &Classes) -> Result<(), NoMemory>
    ensures { OnOk result (text.new ≡ text.old ++ return_text classes.now ret) }
{
    match ret {
        None => push_ascii(text, b"V"),
        Some(ty) => push_type(text, ty, classes),
    }
}

fn push_method_type(text: &mut Seq<char>, ty: &MethodTy, classes: &Classes) -> Result<(), NoMemory>
    ensures { OnOk result (text.new ≡ text.old ++ method_type_text classes.now ty.now) }
{
    push_ascii(text, b"(")?;
    push_types(text, ty.params.as_slice(), classes)?;
    push_ascii(text, b")")?;
    push_return(text, ty.ret, classes)
}

/// The exception of two types that do not agree: `have A want B`, with the types as descriptors.
pub fn mismatch(
    alloc: Global,
    own: &MethodTy,
    asked: &MethodTy,
    classes: &Classes,
) -> Result<Exc, NoMemory>
    ensures { IfOk result (λ exc. exc ≡ mismatch classes.now own.now asked.now) }
{
    let mut message = Seq::new(alloc);
    push_ascii(&mut message, b"have ")?;
    push_method_type(&mut message, own, classes)?;
    push_ascii(&mut message, b" want ")?;
    push_method_type(&mut message, asked, classes)?;
    let message = Frozen::of(alloc, message)?;
    Exc::of(
        alloc,
        ExcParts {
            class: ClassId::WRONG_METHOD_TYPE,
            message,
            cause: None,
        },
    )
}
