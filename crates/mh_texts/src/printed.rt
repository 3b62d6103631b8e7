ghost use Rattle.std.specs.Prelude.{◌≡◌, ◌∷◌, ◌++◌, [], ◌<◌, ◌≤◌, codes, flat_map, length, take, All, IfOk, IsTrue, OnOk};
ghost use Rattle.std.specs.Fmt.{signed_decimal, decimal};
ghost use Rattle.mh_values.specs.TypeText.{primitive_text};
ghost use Rattle.mh_texts.specs.Text.{numbered_char, escaped_char, escaped, cut};
ghost use Rattle.mh_texts.specs.LiteralText.{bool_text, mark_of, number_text, prim_text, boxed_text, string_text};
ghost use Rattle.mh_texts.specs.Printed.{name_text, printed_class, printed_component, printed_type, printed_return, printed_method_type, object_text, exception_text, item_text, items_text, array_text, value_text};

use itoa::Buffer;
use mh_base::NoMemory;
use mh_values::{Cell, ClassId, Classes, Comp, Exc, MethodTy, Num, Primitive, Ty, Value};

/// How many characters of a printed text are shown.
const MOST_SHOWN: usize = 1024;

/// How many characters are written at once if each of them is written as itself.
const FEW: usize = 32;

/// Cuts a printed text if it is too long.
pub(crate) fn cut(mut bytes: Vec<u8>) -> Result<Vec<u8>, NoMemory>
    ensures { IfOk result (λ shown. shown.items ≡ cut bytes.items) }
{
    if bytes.len() > MOST_SHOWN {
        bytes.truncate(MOST_SHOWN);
        bytes.extend_from_slice(b"...")?;
    }
    Ok(bytes)
}

/// Writes bytes as they are.
fn push(bytes: &mut Vec<u8>, text: &[u8]) -> Result<(), NoMemory>
    ensures { OnOk result (bytes.new.items ≡ bytes.old.items ++ text.now) }
{
    bytes.extend_from_slice(text)?;
    Ok(())
}

/// Writes a character by its number.
fn push_code(bytes: &mut Vec<u8>, character: char) -> Result<(), NoMemory>
    ensures { OnOk result (bytes.new.items ≡ bytes.old.items ++ numbered_char character) }
{
    let alloc = *bytes.allocator();
    let number = format!(in alloc; "\\u{{{:x}}}", character as u32)?;
    push(bytes, number.as_bytes())
}

/// Writes a character: by its own escape, as itself, or by its number.
#[inline(never)]
fn push_escape(bytes: &mut Vec<u8>, character: char) -> Result<(), NoMemory>
    ensures { OnOk result (bytes.new.items ≡ bytes.old.items ++ escaped_char character) }
{
    match character {
        ' ' => push(bytes, b"\\s"),
        ',' => push(bytes, b"\\c"),
        '\n' => push(bytes, b"\\n"),
        '\\' => push(bytes, b"\\\\"),
        '!'..='~' => push(bytes, &[character as u8]),
        _ => push_code(bytes, character),
    }
}

/// Whether a character is written as itself, as letters, digits and most marks are.
#[inline(always)]
fn is_plain(character: char) -> bool
    ensures low { IsTrue result → character < 128 }
    ensures plain { IsTrue result → escaped_char character ≡ character ∷ [] }
{
    ('!'..='~').contains(&character) && character != ',' && character != '\\'
}

/// The characters of a text that matter where it is shown: one more than are shown at most, since
/// each is written as one byte or more.
pub(crate) fn front(text: &[char]) -> &[char]
    ensures { result.now ≡ take 1025 text.now }
{
    if text.len() > MOST_SHOWN {
        &text[..=MOST_SHOWN]
    } else {
        text
    }
}

/// Whether each character is written as itself. All are looked at, so that no jump depends on one.
fn are_plain(text: &[char]) -> bool
    ensures low { IsTrue result → All (λ c. c < 128) text.now }
    ensures plain { IsTrue result → escaped text.now ≡ text.now }
{
    let mut plain = true;
    for character in text {
        plain &= is_plain(*character);
    }
    plain
}

/// Writes a few characters as themselves.
#[tactic(auto, using(std::proofs::lemmas::List::take_more_set))]
fn push_plain(bytes: &mut Vec<u8>, text: &[char]) -> Result<(), NoMemory>
    requires low { All (λ c. c < 128) text.now }
    requires few { length text.now ≤ 32 }
    ensures { OnOk result (bytes.new.items ≡ bytes.old.items ++ text.now) }
{
    let mut plain = [0; FEW];
    for at in 0..text.len() {
        plain[at] = text[at] as u8;
    }
    push(bytes, &plain[..text.len()])
}

/// Writes characters one by one, with their escapes.
fn push_each(bytes: &mut Vec<u8>, text: &[char]) -> Result<(), NoMemory>
    ensures { OnOk result (bytes.new.items ≡ bytes.old.items ++ escaped text.now) }
{
    let mut left = text.len();
    bytes.reserve(left)?;
    for character in text {
        if is_plain(*character) {
            bytes.push_reserved(*character as u8);
        } else {
            push_escape(bytes, *character)?;
            bytes.reserve(left)?;
        }
        left -= 1;
    }
    Ok(())
}

/// Writes a few characters with their escapes.
fn push_few(bytes: &mut Vec<u8>, text: &[char]) -> Result<(), NoMemory>
    requires { length text.now ≤ 32 }
    ensures { OnOk result (bytes.new.items ≡ bytes.old.items ++ escaped text.now) }
{
    if are_plain(text) {
        push_plain(bytes, text)
    } else {
        push_each(bytes, text)
    }
}

/// Writes characters with their escapes.
pub(crate) fn push_chars(bytes: &mut Vec<u8>, text: &[char]) -> Result<(), NoMemory>
    ensures { OnOk result (bytes.new.items ≡ bytes.old.items ++ escaped text.now) }
{
    bytes.reserve(text.len())?;
    let mut rest = text;
    while rest.len() > FEW {
        let (few, more) = rest.split_at(FEW);
        push_few(bytes, few)?;
        rest = more;
    }
    push_few(bytes, rest)
}

/// Writes the bytes of a name, each as a character with its escape.
pub(crate) fn push_name(bytes: &mut Vec<u8>, name: &[u8]) -> Result<(), NoMemory>
    ensures { OnOk result (bytes.new.items ≡ bytes.old.items ++ escaped name.now) }
{
    let mut left = name.len();
    bytes.reserve(left)?;
    for byte in name {
        if is_plain(char::from(*byte)) {
            bytes.push_reserved(*byte);
        } else {
            push_escape(bytes, char::from(*byte))?;
            bytes.reserve(left)?;
        }
        left -= 1;
    }
    Ok(())
}

/// Writes a number.
fn push_int(bytes: &mut Vec<u8>, number: i32) -> Result<(), NoMemory>
    ensures { OnOk result (bytes.new.items ≡ bytes.old.items ++ signed_decimal number) }
{
    let mut buffer = Buffer::new();
    push(bytes, buffer.format(number).as_bytes())
}

/// Writes a number.
fn push_long(bytes: &mut Vec<u8>, number: i64) -> Result<(), NoMemory>
    ensures { OnOk result (bytes.new.items ≡ bytes.old.items ++ signed_decimal number) }
{
    let mut buffer = Buffer::new();
    push(bytes, buffer.format(number).as_bytes())
}

/// Writes a number without a sign.
fn push_unsigned(bytes: &mut Vec<u8>, number: u32) -> Result<(), NoMemory>
    ensures { OnOk result (bytes.new.items ≡ bytes.old.items ++ decimal number) }
{
    let mut buffer = Buffer::new();
    push(bytes, buffer.format(number).as_bytes())
}

/// Writes `true` or `false`.
fn push_bool(bytes: &mut Vec<u8>, truth: bool) -> Result<(), NoMemory>
    ensures { OnOk result (bytes.new.items ≡ bytes.old.items ++ bool_text truth) }
{
    if truth {
        push(bytes, b"true")
    } else {
        push(bytes, b"false")
    }
}

/// Writes a number without what comes before it.
fn push_number(bytes: &mut Vec<u8>, number: Num) -> Result<(), NoMemory>
    ensures { OnOk result (bytes.new.items ≡ bytes.old.items ++ number_text number) }
{
    match number {
        Num::Z(truth) => push_bool(bytes, truth),
        Num::B(number) => push_int(bytes, i32::from(number)),
        Num::C(number) => push_unsigned(bytes, u32::from(number)),
        Num::S(number) => push_int(bytes, i32::from(number)),
        Num::I(number) => push_int(bytes, number),
        Num::J(number) => push_long(bytes, number),
    }
}

/// The letter before the numbers of a primitive type.
fn mark(primitive: Primitive) -> u8
    ensures is { result ≡ mark_of primitive }
    ensures low { 32 ≤ result }
{
    match primitive {
        Primitive::Z => b'z',
        Primitive::B => b'b',
        Primitive::C => b'c',
        Primitive::S => b'h',
        Primitive::I => b'i',
        Primitive::J => b'j',
    }
}

/// Writes a number of a primitive type.
fn push_prim(bytes: &mut Vec<u8>, number: Num) -> Result<(), NoMemory>
    ensures { OnOk result (bytes.new.items ≡ bytes.old.items ++ prim_text number) }
{
    push(bytes, &[mark(number.primitive()), b':'])?;
    push_number(bytes, number)
}

/// Writes a boxed number.
fn push_boxed(bytes: &mut Vec<u8>, number: Num) -> Result<(), NoMemory>
    ensures { OnOk result (bytes.new.items ≡ bytes.old.items ++ boxed_text number) }
{
    push(bytes, &[mark(number.primitive()) - 32, b':'])?;
    push_number(bytes, number)
}

/// Writes a text.
pub(crate) fn push_string(bytes: &mut Vec<u8>, text: &[char]) -> Result<(), NoMemory>
    ensures { OnOk result (bytes.new.items ≡ bytes.old.items ++ string_text text.now) }
{
    push(bytes, b"s:")?;
    push_chars(bytes, text)
}

/// Writes an object.
fn push_object(
    bytes: &mut Vec<u8>,
    classes: &Classes,
    class: ClassId,
    number: u32,
) -> Result<(), NoMemory>
    ensures { OnOk result (bytes.new.items
        ≡ bytes.old.items ++ object_text classes.now class number) }
{
    push(bytes, b"o:")?;
    push_name(bytes, classes.name(class))?;
    push(bytes, b"#")?;
    push_unsigned(bytes, number)
}

/// Writes an exception as a value.
fn push_exception(bytes: &mut Vec<u8>, classes: &Classes, exc: &Exc) -> Result<(), NoMemory>
    ensures { OnOk result (bytes.new.items
        ≡ bytes.old.items ++ exception_text classes.now exc.now) }
{
    push(bytes, b"x:")?;
    push_name(bytes, classes.name(exc.class()))
}

/// Writes `null`.
fn push_null(bytes: &mut Vec<u8>) -> Result<(), NoMemory>
    ensures { OnOk result (bytes.new.items ≡ bytes.old.items ++ codes "null") }
{
    push(bytes, b"null")
}

/// Writes an item of an array.
fn push_item(bytes: &mut Vec<u8>, classes: &Classes, item: &Cell) -> Result<(), NoMemory>
    ensures { OnOk result (bytes.new.items ≡ bytes.old.items ++ item_text classes.now item.now) }
{
    match item {
        Cell::Prim(number) => push_prim(bytes, *number),
        Cell::Boxed(number) => push_boxed(bytes, *number),
        Cell::Text(text) => push_string(bytes, text.as_slice()),
        Cell::Object(class, number) => push_object(bytes, classes, *class, *number),
        Cell::Thrown(exc) => push_exception(bytes, classes, exc),
        Cell::Null => push_null(bytes),
    }
}

/// Writes items, each after a comma.
fn push_more(bytes: &mut Vec<u8>, classes: &Classes, items: &[Cell]) -> Result<(), NoMemory>
    ensures { OnOk result (bytes.new.items
        ≡ bytes.old.items ++ flat_map (λ item. codes "," ++ item_text classes.now item) items.now) }
{
    for item in items {
        push(bytes, b",")?;
        push_item(bytes, classes, item)?;
    }
    Ok(())
}

/// Writes items with a comma between them.
fn push_items(bytes: &mut Vec<u8>, classes: &Classes, items: &[Cell]) -> Result<(), NoMemory>
    ensures { OnOk result (bytes.new.items ≡ bytes.old.items ++ items_text classes.now items.now) }
{
    match items {
        [] => Ok(()),
        [first, rest @ ..] => {
            push_item(bytes, classes, first)?;
            push_more(bytes, classes, rest)
        }
    }
}

/// Writes the letter of a primitive type.
fn push_primitive(bytes: &mut Vec<u8>, primitive: Primitive) -> Result<(), NoMemory>
    ensures { OnOk result (bytes.new.items ≡ bytes.old.items ++ primitive_text primitive) }
{
    push(bytes, &[primitive.letter()])
}

/// Writes a class as a type.
fn push_class(bytes: &mut Vec<u8>, classes: &Classes, class: ClassId) -> Result<(), NoMemory>
    ensures { OnOk result (bytes.new.items ≡ bytes.old.items ++ printed_class classes.now class) }
{
    push(bytes, b"L")?;
    push_name(bytes, classes.name(class))?;
    push(bytes, b";")
}

/// Writes the type of an array's items.
fn push_component(bytes: &mut Vec<u8>, classes: &Classes, component: Comp) -> Result<(), NoMemory>
    ensures { OnOk result (bytes.new.items
        ≡ bytes.old.items ++ printed_component classes.now component) }
{
    match component {
        Comp::Prim(primitive) => push_primitive(bytes, primitive),
        Comp::Class(class) => push_class(bytes, classes, class),
    }
}

/// Writes a type.
fn push_type(bytes: &mut Vec<u8>, classes: &Classes, ty: Ty) -> Result<(), NoMemory>
    ensures { OnOk result (bytes.new.items ≡ bytes.old.items ++ printed_type classes.now ty) }
{
    match ty {
        Ty::Prim(primitive) => push_primitive(bytes, primitive),
        Ty::Class(class) => push_class(bytes, classes, class),
        Ty::Array(component) => {
            push(bytes, b"[")?;
            push_component(bytes, classes, component)
        }
    }
}

/// Writes types, one after the other.
fn push_types(bytes: &mut Vec<u8>, classes: &Classes, types: &[Ty]) -> Result<(), NoMemory>
    ensures { OnOk result (bytes.new.items
        ≡ bytes.old.items ++ flat_map (printed_type classes.now) types.now) }
{
    for ty in types {
        push_type(bytes, classes, *ty)?;
    }
    Ok(())
}

/// Writes a return type.
fn push_return(bytes: &mut Vec<u8>, classes: &Classes, ret: Option<Ty>) -> Result<(), NoMemory>
    ensures { OnOk result (bytes.new.items ≡ bytes.old.items ++ printed_return classes.now ret) }
{
    match ret {
        Some(ty) => push_type(bytes, classes, ty),
        None => push(bytes, b"V"),
    }
}

/// Writes a method type.
pub(crate) fn push_method_type(
    bytes: &mut Vec<u8>,
    classes: &Classes,
    ty: &MethodTy,
) -> Result<(), NoMemory>
    ensures { OnOk result (bytes.new.items
        ≡ bytes.old.items ++ printed_method_type classes.now ty.now) }
{
    push(bytes, b"(")?;
    push_types(bytes, classes, ty.params.as_slice())?;
    push(bytes, b")")?;
    push_return(bytes, classes, ty.ret)
}

/// Writes an array.
fn push_array(
    bytes: &mut Vec<u8>,
    classes: &Classes,
    component: Comp,
    items: &[Cell],
) -> Result<(), NoMemory>
    ensures { OnOk result (bytes.new.items
        ≡ bytes.old.items ++ array_text classes.now component items.now) }
{
    push(bytes, b"a:")?;
    push_component(bytes, classes, component)?;
    push(bytes, b"[")?;
    push_items(bytes, classes, items)?;
    push(bytes, b"]")
}

/// Writes a value.
pub(crate) fn push_value(bytes: &mut Vec<u8>, classes: &Classes, v: &Value) -> Result<(), NoMemory>
    ensures { OnOk result (bytes.new.items ≡ bytes.old.items ++ value_text classes.now v.now) }
{
    match v {
        Value::Prim(number) => push_prim(bytes, *number),
        Value::Boxed(number) => push_boxed(bytes, *number),
        Value::Text(text) => push_string(bytes, text.as_slice()),
        Value::Object(class, number) => push_object(bytes, classes, *class, *number),
        Value::Thrown(exc) => push_exception(bytes, classes, exc),
        Value::Array(component, items) => {
            push_array(bytes, classes, *component, items.as_slice())
        }
        Value::Null => push_null(bytes),
    }
}
