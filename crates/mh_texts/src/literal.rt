ghost use Rattle.std.specs.Prelude.{◌≡◌, map, Some, IfOk};
ghost use Rattle.std.specs.Option.{option_copied};
ghost use Rattle.mh_values.specs.Array.{value_of_item};
ghost use Rattle.mh_values.specs.Descriptor.{type_desc};
ghost use Rattle.mh_values.specs.ValueLimits.{IsValueWithinLimits};
ghost use Rattle.mh_texts.specs.Literal.{bool_of, primitive_marked, integer_meant, number_meant, marked_number, has_own_literal, object_of, exception_of, tagged, item_of, component_of, items_of, listed, unclosed, array_of_literal, literal_of, TellsLiteral};
ghost use Rattle.mh_texts.specs.LiteralText.{literal_text};
ghost use Rattle.mh_texts.specs.Spells.{TellsSpelling};

use crate::escape::read_text;
use crate::number::{read_long, read_unsigned};
use mh_base::{Frozen, NoMemory, Seq, split_at_byte, split_once};
use mh_values::{
    Cell, Cells, ClassId, Classes, Comp, Exc, MOST_ITEMS, Num, Primitive, Ty, Value, is_item_of,
    read_type,
};
use std::alloc::{AllocError, Global};
use std::error::Error;
use std::fmt;

/// Why a token was not read as a value.
#[derive(Clone, Copy, Debug, PartialEq, Eq)]
pub enum LiteralError {
    NoMemory,
    /// The token is no literal.
    Bad,
}

impl fmt::Display for LiteralError {
    fn fmt<W: fmt::Write>(&self, f: &mut fmt::Formatter<W>) -> fmt::Result {
        f.write_str(match self {
            LiteralError::NoMemory => "no memory is left",
            LiteralError::Bad => "no literal of a value",
        })
    }
}

impl Error for LiteralError {}

impl From<NoMemory> for LiteralError {
    ghost use Rattle.mh_texts.specs.declared.literal.LiteralError.TheVariants as literal_error;

    ghost from_gives = { λ _ error. error ≡ literal_error.NoMemory };

    fn from(_: NoMemory) -> Self {
        LiteralError::NoMemory
    }
}

impl From<AllocError> for LiteralError {
    ghost use Rattle.mh_texts.specs.declared.literal.LiteralError.TheVariants as literal_error;

    ghost from_gives = { λ _ error. error ≡ literal_error.NoMemory };

    fn from(_: AllocError) -> Self {
        LiteralError::NoMemory
    }
}

/// The truth value of its word.
fn read_bool(text: &[u8]) -> Option<bool>
    ensures { result ≡ bool_of text.now }
{
    if text == b"true".as_slice() {
        Some(true)
    } else if text == b"false".as_slice() {
        Some(false)
    } else {
        None
    }
}

/// The primitive type whose numbers follow a letter.
fn marked(letter: u8) -> Option<Primitive>
    ensures { result ≡ primitive_marked letter }
{
    match letter {
        b'z' => Some(Primitive::Z),
        b'b' => Some(Primitive::B),
        b'c' => Some(Primitive::C),
        b'h' => Some(Primitive::S),
        b'i' => Some(Primitive::I),
        b'j' => Some(Primitive::J),
        _ => None,
    }
}

/// The number of a primitive type that a text writes in decimal.
fn read_integer(primitive: Primitive, text: &[u8]) -> Option<Num>
    ensures { result ≡ integer_meant primitive text.now }
{
    primitive.number(read_long(text)?)
}

/// The number of a primitive type that a text writes.
fn read_number(primitive: Primitive, text: &[u8]) -> Option<Num>
    ensures { result ≡ number_meant primitive text.now }
{
    match primitive {
        Primitive::Z => read_bool(text).map(Num::Z),
        Primitive::B | Primitive::C | Primitive::S | Primitive::I | Primitive::J => {
            read_integer(primitive, text)
        }
    }
}

/// The number after a letter, which gives its type.
fn read_marked(letter: u8, text: &[u8]) -> Option<Num>
    ensures { result ≡ marked_number letter text.now }
{
    read_number(marked(letter)?, text)
}

/// Whether values of a class have literals of their own: those of String and of the wrappers, and
/// exceptions.
fn has_own_literal(classes: &Classes, class: ClassId) -> bool
    ensures { result ≡ has_own_literal classes.now class }
{
    (2 <= class.0 && class.0 <= 8) || classes.subclass(class, ClassId::THROWABLE)
}

/// The object that `CLASS#N` writes.
fn read_object(classes: &Classes, text: &[u8]) -> Option<Cell>
    ensures { result ≡ object_of classes.now text.now }
{
    let (name, digits) = split_once(text, b'#')?;
    let class = classes.find(name)?;
    let number = read_unsigned(digits)?;
    if has_own_literal(classes, class) {
        None
    } else {
        Some(Cell::Object(class, number))
    }
}

/// The exception of a class, with an empty message.
fn read_exception(classes: &Classes, name: &[u8]) -> Option<Cell>
    ensures { result ≡ exception_of classes.now name.now }
{
    let class = classes.find(name)?;
    if classes.subclass(class, ClassId::THROWABLE) {
        Some(Cell::Thrown(Exc::bare(class)))
    } else {
        None
    }
}

/// What follows a letter and a colon.
fn read_tagged(
    alloc: Global,
    classes: &Classes,
    letter: u8,
    text: &[u8],
) -> Result<Cell, LiteralError>
    ensures { TellsLiteral result (tagged classes.now letter text.now) }
{
    let read = match letter {
        b's' => Some(Cell::Text(read_text(alloc, text)?)),
        b'o' => read_object(classes, text),
        b'x' => read_exception(classes, text),
        b'a'..=u8::MAX => read_marked(letter, text).map(Cell::Prim),
        _ => read_marked(letter + 32, text).map(Cell::Boxed),
    };
    read.ok_or(LiteralError::Bad)
}

/// The value of a token that is no array's literal.
fn read_item(alloc: Global, classes: &Classes, token: &[u8]) -> Result<Cell, LiteralError>
    ensures { TellsLiteral result (item_of classes.now token.now) }
{
    match token {
        [letter, b':', text @ ..] => read_tagged(alloc, classes, *letter, text),
        _ if token == b"null".as_slice() => Ok(Cell::Null),
        _ => Err(LiteralError::Bad),
    }
}

/// The value that an item stands for.
fn value_of(item: Cell) -> Value
    ensures { result ≡ value_of_item item }
{
    match item {
        Cell::Prim(number) => Value::Prim(number),
        Cell::Boxed(number) => Value::Boxed(number),
        Cell::Text(text) => Value::Text(text),
        Cell::Object(class, number) => Value::Object(class, number),
        Cell::Thrown(exc) => Value::Thrown(exc),
        Cell::Null => Value::Null,
    }
}

/// The component type of its descriptor.
fn read_component(classes: &Classes, text: &[u8]) -> Option<Comp>
    ensures { result ≡ component_of (type_desc classes.now text.now) }
{
    match read_type(text, classes) {
        Ok(Ty::Prim(primitive)) => Some(Comp::Prim(primitive)),
        Ok(Ty::Class(class)) => Some(Comp::Class(class)),
        _ => None,
    }
}

/// The items of a component type that the texts write, one each.
fn read_items(
    alloc: Global,
    classes: &Classes,
    component: Comp,
    texts: &[&[u8]],
) -> Result<Cells, LiteralError>
    ensures { TellsLiteral result (items_of classes.now component (map (λ x. x.now) texts.now)) }
{
    let mut items = Seq::new(alloc);
    for text in texts {
        let item = read_item(alloc, classes, *text)?;
        if !is_item_of(component, &item, classes) {
            return Err(LiteralError::Bad);
        }
        items.push(item)?;
    }
    Ok(Frozen::of(alloc, items)?)
}

/// The items between the brackets.
fn read_listed(
    alloc: Global,
    classes: &Classes,
    component: Comp,
    text: &[u8],
) -> Result<Cells, LiteralError>
    ensures { TellsLiteral result (listed classes.now component text.now) }
{
    if text.is_empty() {
        return Ok(Frozen::new());
    }
    let texts = split_at_byte(alloc, text, b',')?;
    read_items(alloc, classes, component, &texts)
}

/// A text that ends with `]`, without it.
fn unclosed(text: &[u8]) -> Option<&[u8]>
    ensures { option_copied result ≡ unclosed text.now }
{
    match text {
        [inside @ .., b']'] => Some(inside),
        _ => None,
    }
}

/// The array that `COMP[ITEM,ITEM]` writes.
fn read_array(alloc: Global, classes: &Classes, text: &[u8]) -> Result<Value, LiteralError>
    ensures { TellsLiteral result (array_of_literal classes.now text.now) }
{
    let Some((component, rest)) = split_once(text, b'[') else {
        return Err(LiteralError::Bad);
    };
    let Some(component) = read_component(classes, component) else {
        return Err(LiteralError::Bad);
    };
    let Some(inside) = unclosed(rest) else {
        return Err(LiteralError::Bad);
    };
    let items = read_listed(alloc, classes, component, inside)?;
    if items.len() <= MOST_ITEMS {
        Ok(Value::Array(component, items))
    } else {
        Err(LiteralError::Bad)
    }
}

/// The value of a token: an array after `a:`, otherwise an item.
fn read_value(alloc: Global, classes: &Classes, token: &[u8]) -> Result<Value, LiteralError>
    ensures { TellsLiteral result (literal_of classes.now token.now) }
{
    match token {
        [b'a', b':', text @ ..] => read_array(alloc, classes, text),
        _ => Ok(value_of(read_item(alloc, classes, token)?)),
    }
}

/// Reads the literal of a value: `z:`, `b:`, `c:`, `h:`, `i:` and `j:` begin a number of a
/// primitive type; `h` is `short`, and a `char` is written as its number. The same letters as
/// capitals begin a boxed number. `s:` begins a text, `o:CLASS#N` is an object, and `x:CLASS` an
/// exception with an empty message. `a:COMP[ITEM,ITEM]` is an array, and `null` is null. In a text
/// `\s` is a space, `\c` a comma, `\n` LF, `\\` a backslash, and `\u{H}` the character of a
/// hexadecimal number.
pub fn read_literal(alloc: Global, token: &[u8], classes: &Classes) -> Result<Value, LiteralError>
    ensures spelled { TellsSpelling classes.now token.now result }
    ensures tells { TellsLiteral result (literal_of classes.now token.now) }
    ensures limits { IfOk result IsValueWithinLimits }
    ensures again { IfOk result
        (λ v. literal_of classes.now (literal_text classes.now v) ≡ Some v) }
{
    read_value(alloc, classes, token)
}
