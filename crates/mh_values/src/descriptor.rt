ghost use Rattle.std.specs.Prelude.{◌≡◌, ◌+◌, ◌<◌, ◌≤◌, ◌^◌, length, map, false, None, Some, OnOk, IfOk, IfErr};
ghost use Rattle.mh_values.specs.Spelling.{IsMethodDescriptor, IsTypeText, AreTypeTexts, IsFirstBad};
ghost use Rattle.mh_values.specs.Grammar.{is_base, after_type, element, begun, within_array, within_name, parameter, next, is_end, first_bad, descriptor_fault, type_fault, types_fault};
ghost use Rattle.mh_values.specs.ReadAs.{IsTypeRead, AreTypesRead, IsMethodTypeRead};
ghost use Rattle.mh_values.specs.Descriptor.{pieces, ends_type, primitive_meant, class_meant, element_meant, type_meant, types_meant, return_meant, last_of, method_of, desc, type_desc, types_desc, bytes_of, TellsType};

use crate::{Classes, Comp, MethodTy, Primitive, Ty, Tys};
use mh_base::{NoMemory, Seq};
use std::alloc::Global;
use std::error::Error;
use std::fmt;

/// The first byte of a text that continues no text of its sort, or the text's length if it ends
/// early. Slots above 255 are refused at the first byte of the parameter that takes them.
#[derive(Clone, Copy, Debug, PartialEq, Eq)]
pub struct BadAt {
    pub at: usize,
}

impl fmt::Display for BadAt {
    fn fmt<W: fmt::Write>(&self, f: &mut fmt::Formatter<W>) -> fmt::Result {
        write!(f, "no descriptor, at byte {}", self.at)
    }
}

impl Error for BadAt {}

/// Why a descriptor was not read: the reason furthest to the left in it.
#[derive(Clone, Copy, Debug, PartialEq, Eq)]
pub enum DescriptorError {
    NoMemory,
    /// The text is no descriptor; the place is that of [`BadAt`].
    Bad { at: usize },
    /// No class has the name that begins at the place and has this many bytes.
    NoClass { at: usize, len: usize },
    /// `mh` lacks the type that begins at the place: `float`, `double`, or an array of one of these
    /// or of more than one dimension.
    Unsupported { at: usize },
}

impl fmt::Display for DescriptorError {
    fn fmt<W: fmt::Write>(&self, f: &mut fmt::Formatter<W>) -> fmt::Result {
        match self {
            DescriptorError::NoMemory => write!(f, "no memory is left"),
            DescriptorError::Bad { at } => write!(f, "no descriptor, at byte {at}"),
            DescriptorError::NoClass { at, .. } => write!(f, "no class of that name, at byte {at}"),
            DescriptorError::Unsupported { at } => write!(f, "a type left out, at byte {at}"),
        }
    }
}

impl Error for DescriptorError {}

impl From<NoMemory> for DescriptorError {
    ghost use Rattle.mh_values.specs.declared.descriptor.DescriptorError.TheVariants as descriptor;

    ghost from_gives = { λ _ error. error ≡ descriptor.NoMemory };

    fn from(_: NoMemory) -> Self {
        DescriptorError::NoMemory
    }
}

impl From<BadAt> for DescriptorError {
    ghost use Rattle.mh_values.specs.declared.descriptor.DescriptorError.TheVariants as descriptor;

    ghost from_gives = { λ bad error. error ≡ descriptor.Bad bad.at };

    fn from(bad: BadAt) -> Self {
        DescriptorError::Bad { at: bad.at }
    }
}

/// What a type stands for in a text of types.
#[derive(Clone, Copy)]
enum Place {
    /// A parameter; with it the parameters take this many slots.
    Parameter(u8),
    /// One of several types that are written one after the other.
    Listed,
    /// The return type, or a type that is written alone.
    Last,
}

/// How far a method descriptor, or another text of types, was read (JVMS SE 17, 4.3.2 and 4.3.3).
#[derive(Clone, Copy)]
enum Standing {
    /// Nothing was read.
    Front,
    /// After `(` and parameters that take this many slots.
    Parameters(u8),
    /// After `)`.
    Close,
    /// Where a type is written alone.
    Alone,
    /// Where types are written one after the other, after some of them or before all.
    Types(bool),
    /// After this many `[` of a type.
    Dimensions(Place, u8),
    /// After an `L`, with or without bytes of the name.
    Name(Place, bool),
    /// After the last type.
    End,
}

/// Whether a byte is a type of one letter.
fn is_base(byte: u8) -> bool
    ensures { result ≡ is_base byte }
{
    matches!(byte, b'B' | b'C' | b'D' | b'F' | b'I' | b'J' | b'S' | b'Z')
}

impl Place {
    /// After a whole type.
    fn after_type(self) -> Standing
        ensures { result ≡ after_type self }
    {
        match self {
            Place::Parameter(slots) => Standing::Parameters(slots),
            Place::Listed => Standing::Types(true),
            Place::Last => Standing::End,
        }
    }

    /// After the first byte of a type that is no array.
    fn element(self, byte: u8) -> Option<Standing>
        ensures { result ≡ element self byte }
    {
        if byte == b'L' {
            Some(Standing::Name(self, false))
        } else if is_base(byte) {
            Some(self.after_type())
        } else {
            None
        }
    }

    /// After the first byte of a type.
    fn begun(self, byte: u8) -> Option<Standing>
        ensures { result ≡ begun self byte }
    {
        if byte == b'[' {
            Some(Standing::Dimensions(self, 1))
        } else {
            self.element(byte)
        }
    }

    /// After a further byte of a type that began with this many `[`.
    fn within_array(self, dimensions: u8, byte: u8) -> Option<Standing>
        ensures { result ≡ within_array self dimensions byte }
    {
        if byte == b'[' {
            Some(Standing::Dimensions(self, dimensions.checked_add(1)?))
        } else {
            self.element(byte)
        }
    }

    /// After a further byte of a class name.
    fn within_name(self, has_bytes: bool, byte: u8) -> Option<Standing>
        ensures { result ≡ within_name self has_bytes byte }
    {
        match byte {
            b';' if has_bytes => Some(self.after_type()),
            b';' | b'.' | b'[' => None,
            _ => Some(Standing::Name(self, true)),
        }
    }
}

/// After the first byte of a parameter: `long` and `double` take two slots.
fn parameter(slots: u8, byte: u8) -> Option<Standing>
    ensures { result ≡ parameter slots byte }
{
    let taken = if byte == b'J' || byte == b'D' { 2 } else { 1 };
    Place::Parameter(slots.checked_add(taken)?).begun(byte)
}

impl Standing {
    /// After one more byte, if the text may go on with it.
    fn next(self, byte: u8) -> Option<Standing>
        ensures { result ≡ next self byte }
    {
        match self {
            Standing::Front => (byte == b'(').then_some(Standing::Parameters(0)),
            Standing::Parameters(_) if byte == b')' => Some(Standing::Close),
            Standing::Parameters(slots) => parameter(slots, byte),
            Standing::Close if byte == b'V' => Some(Standing::End),
            Standing::Close | Standing::Alone => Place::Last.begun(byte),
            Standing::Types(_) => Place::Listed.begun(byte),
            Standing::Dimensions(place, dimensions) => place.within_array(dimensions, byte),
            Standing::Name(place, has_bytes) => place.within_name(has_bytes, byte),
            Standing::End => None,
        }
    }

    /// Whether the text may end here.
    fn is_end(self) -> bool
        ensures { result ≡ is_end self }
    {
        match self {
            Standing::End | Standing::Types(true) => true,
            _ => false,
        }
    }
}

/// Whether the rest of a text makes it a whole one.
fn text_from(start: Standing, bytes: &[u8]) -> Result<(), BadAt>
    ensures ok { OnOk result (first_bad 0 start bytes.now ≡ None) }
    ensures bad { IfErr result (λ bad. first_bad 0 start bytes.now ≡ Some bad.at) }
{
    let mut standing = start;
    for (at, byte) in bytes.iter().enumerate() {
        let Some(next) = standing.next(*byte) else {
            return Err(BadAt { at });
        };
        standing = next;
    }
    if standing.is_end() {
        Ok(())
    } else {
        Err(BadAt { at: bytes.len() })
    }
}

/// Whether a text is a method descriptor, of any types that the JVMS has: even those that have no
/// [`crate::Ty`], and undeclared classes (JVMS SE 17, 4.3.3).
pub fn descriptor_text(bytes: &[u8]) -> Result<(), BadAt>
    ensures accepted { OnOk result (IsMethodDescriptor bytes.now) }
    ensures refused { IfErr result (λ bad. IsFirstBad IsMethodDescriptor bytes.now bad.at) }

    ensures ok { OnOk result (descriptor_fault bytes.now ≡ None) }
    ensures bad { IfErr result (λ bad. descriptor_fault bytes.now ≡ Some bad.at) }
{
    text_from(Standing::Front, bytes)
}

/// Whether a text is one type, of any kind that the JVMS has (JVMS SE 17, 4.3.2).
pub fn field_descriptor_text(bytes: &[u8]) -> Result<(), BadAt>
    ensures accepted { OnOk result (IsTypeText bytes.now) }
    ensures refused { IfErr result (λ bad. IsFirstBad IsTypeText bytes.now bad.at) }

    ensures ok { OnOk result (type_fault bytes.now ≡ None) }
    ensures bad { IfErr result (λ bad. type_fault bytes.now ≡ Some bad.at) }
{
    text_from(Standing::Alone, bytes)
}

/// Whether a text is one or more types, written one after the other.
pub fn types_text(bytes: &[u8]) -> Result<(), BadAt>
    ensures accepted { OnOk result (AreTypeTexts bytes.now) }
    ensures refused { IfErr result (λ bad. IsFirstBad AreTypeTexts bytes.now bad.at) }

    ensures ok { OnOk result (types_fault bytes.now ≡ None) }
    ensures bad { IfErr result (λ bad. types_fault bytes.now ≡ Some bad.at) }
{
    text_from(Standing::Types(false), bytes)
}

/// Whether a type ends with a byte, which is in a name or not.
fn ends_type(in_name: bool, byte: u8) -> bool
    ensures { result ≡ ends_type in_name byte }
{
    if in_name {
        byte == b';'
    } else {
        byte != b'[' && byte != b'L'
    }
}

/// A text of types, cut after each of them.
fn type_pieces(alloc: Global, bytes: &[u8]) -> Result<Vec<&[u8]>, NoMemory>
    ensures { IfOk result (λ v. map (λ x. x.now) v.items ≡ pieces false bytes.now) }
{
    let mut found = Vec::new(alloc);
    let mut start = 0;
    let mut in_name = false;
    for (at, byte) in bytes.iter().enumerate() {
        if ends_type(in_name, *byte) {
            found.push(&bytes[start..at + 1])?;
            start = at + 1;
            in_name = false;
        } else {
            in_name = in_name || *byte == b'L';
        }
    }
    if start < bytes.len() {
        found.push(&bytes[start..])?;
    }
    Ok(found)
}

/// The primitive type of a letter, in the type that begins at a place.
fn primitive_of(whole: usize, letter: u8) -> Result<Comp, DescriptorError>
    ensures { result ≡ primitive_meant whole letter }
{
    match Primitive::of_letter(letter) {
        Some(primitive) => Ok(Comp::Prim(primitive)),
        None => Err(DescriptorError::Unsupported { at: whole }),
    }
}

/// The class of a name that begins at a place.
fn class_of(classes: &Classes, at: usize, name: &[u8]) -> Result<Comp, DescriptorError>
    ensures { result ≡ class_meant classes.now at name.now }
{
    match classes.find(name) {
        Some(class) => Ok(Comp::Class(class)),
        None => Err(DescriptorError::NoClass {
            at,
            len: name.len(),
        }),
    }
}

/// The type, no array, of a text at a place within the whole type.
fn element_of(
    classes: &Classes,
    whole: usize,
    at: usize,
    text: &[u8],
) -> Result<Comp, DescriptorError>
    requires { at ≤ 2 ^ 63 }
    ensures { result ≡ element_meant classes.now whole at text.now }
{
    let Some((first, rest)) = text.split_first() else {
        return Err(DescriptorError::Unsupported { at: whole });
    };
    if *first == b'L' {
        class_of(classes, at + 1, &rest[..rest.len().saturating_sub(1)])
    } else {
        primitive_of(whole, *first)
    }
}

/// The type of a text at a place.
fn type_of(classes: &Classes, at: usize, text: &[u8]) -> Result<Ty, DescriptorError>
    requires { at < 2 ^ 63 }
    ensures { result ≡ type_meant classes.now at text.now }
{
    let Some((first, rest)) = text.split_first() else {
        return Err(DescriptorError::Unsupported { at });
    };
    if *first == b'[' {
        Ok(Ty::Array(element_of(classes, at, at + 1, rest)?))
    } else {
        Ok(element_of(classes, at, at, text)?.item_type())
    }
}

/// The types of texts, one after the other, from a place on.
fn types_of(
    alloc: Global,
    classes: &Classes,
    start: usize,
    texts: &[&[u8]],
) -> Result<Tys, DescriptorError>
    requires { start + bytes_of (map (λ x. x.now) texts.now) < 2 ^ 63 }
    ensures { TellsType result (types_meant classes.now start (map (λ x. x.now) texts.now)) }
{
    let mut at = start;
    let mut found = Seq::new(alloc);
    for text in texts {
        found.push(type_of(classes, at, *text)?)?;
        at += text.len();
    }
    Ok(found)
}

/// The return type of a text at a place.
fn return_of(classes: &Classes, at: usize, text: &[u8]) -> Result<Option<Ty>, DescriptorError>
    requires { at < 2 ^ 63 }
    ensures { result ≡ return_meant classes.now at text.now }
{
    match text {
        [b'V', ..] => Ok(None),
        _ => Ok(Some(type_of(classes, at, text)?)),
    }
}

/// The last text.
fn last_of<'b>(texts: &[&'b [u8]]) -> &'b [u8]
    ensures { result.now ≡ last_of (map (λ x. x.now) texts.now) }
{
    match texts {
        [] => &[],
        [.., last] => *last,
    }
}

/// The method type of the pieces after `(`, which end at a place.
fn method_of(
    alloc: Global,
    classes: &Classes,
    end: usize,
    texts: &[&[u8]],
) -> Result<MethodTy, DescriptorError>
    requires end { end < 2 ^ 63 }
    requires texts { bytes_of (map (λ x. x.now) texts.now) + 1 < 2 ^ 63 }
    ensures { TellsType result (method_of classes.now end (map (λ x. x.now) texts.now)) }
{
    let params = types_of(alloc, classes, 1, &texts[..texts.len().saturating_sub(2)])?;
    let last = last_of(texts);
    let ret = return_of(classes, end.saturating_sub(last.len()), last)?;
    Ok(MethodTy { params, ret })
}

/// Reads a method descriptor (JVMS SE 17, 4.3.3). If it is one, the first type from the left
/// decides that is of an undeclared class or that `mh` lacks.
pub fn read_descriptor(
    alloc: Global,
    bytes: &[u8],
    classes: &Classes,
) -> Result<MethodTy, DescriptorError>
    ensures read { IsMethodTypeRead classes.now bytes.now result }
    ensures tells { TellsType result (desc classes.now bytes.now) }
{
    descriptor_text(bytes)?;
    let [_, after @ ..] = bytes else {
        return Err(DescriptorError::Bad { at: 0 });
    };
    let texts = type_pieces(alloc, after)?;
    method_of(alloc, classes, bytes.len(), &texts)
}

/// Reads one or more types that are written one after the other (JVMS SE 17, 4.3.2). Void is none.
pub fn read_types(alloc: Global, bytes: &[u8], classes: &Classes) -> Result<Tys, DescriptorError>
    ensures read { AreTypesRead classes.now bytes.now result }
    ensures tells { TellsType result (types_desc classes.now bytes.now) }
{
    types_text(bytes)?;
    let texts = type_pieces(alloc, bytes)?;
    types_of(alloc, classes, 0, &texts)
}

/// Reads one type (JVMS SE 17, 4.3.2). Void is none. It takes no memory.
pub fn read_type(bytes: &[u8], classes: &Classes) -> Result<Ty, DescriptorError>
    ensures read { IsTypeRead classes.now bytes.now result }
    ensures is { result ≡ type_desc classes.now bytes.now }
{
    field_descriptor_text(bytes)?;
    type_of(classes, 0, bytes)
}
