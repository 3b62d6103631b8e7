//! What fields hold, as texts.

ghost use Rattle.std.specs.Prelude.{◌≡◌, ◌++◌, [], ◌∷◌, IfOk, OnOk, None, Some, codes, flat_map};
ghost use Rattle.std.specs.Fmt.{signed_decimal};
ghost use Rattle.std.specs.Option.{option_copied};
ghost use Rattle.mh_drawing.specs.Drawing.{body_text, form_of};
ghost use Rattle.mh_drawing.specs.Fields.{bound_text, conv_text, held_text, part_text, piece_text, ret_conv_text, slot_text, type_text};

use crate::label::{number_of, push};
use crate::shown_form::{ShownForm, body_text, form_of};
use itoa::Buffer;
use mh_base::{NoMemory, Seq};
use mh_convert::{Conv, RetConv};
use mh_form::{Bound, Field, FormBody, Slot};
use mh_pieces::{Piece, Pieces};
use mh_shown::push_number;
use mh_texts::{show_name, show_text, show_type, show_value};
use mh_values::{Classes, Comp, MethodTy, Ty};
use std::alloc::Global;

fn push_int(text: &mut Vec<u8>, number: i32) -> Result<(), NoMemory>
    ensures { OnOk result (text.new.items ≡ text.old.items ++ signed_decimal number) }
{
    let mut buffer = Buffer::new();
    push(text, buffer.format(number).as_bytes())
}

fn push_long(text: &mut Vec<u8>, number: i64) -> Result<(), NoMemory>
    ensures { OnOk result (text.new.items ≡ text.old.items ++ signed_decimal number) }
{
    let mut buffer = Buffer::new();
    push(text, buffer.format(number).as_bytes())
}

fn push_slot(
    alloc: Global,
    text: &mut Vec<u8>,
    slot: &Slot,
    classes: &Classes,
) -> Result<(), NoMemory>
    ensures { OnOk result (text.new.items ≡ text.old.items ++ slot_text classes.now slot.now) }
{
    match slot {
        Slot::I(number) => {
            push(text, b"int ")?;
            push_int(text, *number)
        }
        Slot::J(number) => {
            push(text, b"long ")?;
            push_long(text, *number)
        }
        Slot::L(value) => {
            push(text, b"value ")?;
            push(text, &show_value(alloc, value, classes)?)
        }
    }
}

fn push_type(alloc: Global, text: &mut Vec<u8>, ty: Ty, classes: &Classes) -> Result<(), NoMemory>
    ensures { OnOk result (text.new.items ≡ text.old.items ++ type_text classes.now ty) }
{
    let shape = MethodTy {
        params: Seq::new(alloc),
        ret: Some(ty),
    };
    push(text, &show_type(alloc, &shape, classes)?)
}

fn push_conv(
    alloc: Global,
    text: &mut Vec<u8>,
    conv: Conv,
    classes: &Classes,
) -> Result<(), NoMemory>
    ensures { OnOk result (text.new.items ≡ text.old.items ++ conv_text classes.now conv) }
{
    let mut params = Seq::new(alloc);
    params.push(conv.from)?;
    let shape = MethodTy {
        params,
        ret: Some(conv.to),
    };
    push(text, &show_type(alloc, &shape, classes)?)
}

fn push_conversion(
    alloc: Global,
    text: &mut Vec<u8>,
    word: &[u8],
    conv: Conv,
    classes: &Classes,
) -> Result<(), NoMemory>
    ensures { OnOk result (text.new.items
        ≡ text.old.items ++ (word.now ++ conv_text classes.now conv)) }
{
    push(text, word)?;
    push_conv(alloc, text, conv, classes)
}

fn push_ret_conv(
    alloc: Global,
    text: &mut Vec<u8>,
    conv: RetConv,
    classes: &Classes,
) -> Result<(), NoMemory>
    ensures { OnOk result (text.new.items ≡ text.old.items ++ ret_conv_text classes.now conv) }
{
    match conv {
        RetConv::Keep => push(text, b"keeps void"),
        RetConv::Discard => push(text, b"drops the result"),
        RetConv::Default(ty) => {
            push(text, b"default ")?;
            push_type(alloc, text, ty, classes)
        }
        RetConv::Value(conv) => {
            push(text, b"converts ")?;
            push_conv(alloc, text, conv, classes)
        }
    }
}

fn push_result(
    alloc: Global,
    text: &mut Vec<u8>,
    word: &[u8],
    conv: RetConv,
    classes: &Classes,
) -> Result<(), NoMemory>
    ensures { OnOk result (text.new.items
        ≡ text.old.items ++ (word.now ++ ret_conv_text classes.now conv)) }
{
    push(text, word)?;
    push_ret_conv(alloc, text, conv, classes)
}

fn push_piece(
    alloc: Global,
    text: &mut Vec<u8>,
    piece: &Piece,
    classes: &Classes,
) -> Result<(), NoMemory>
    ensures { OnOk result (text.new.items ≡ text.old.items ++ piece_text classes.now piece.now) }
{
    match piece {
        Piece::Lit(lit) => {
            push(text, b" text ")?;
            push(text, &show_text(alloc, lit.as_slice())?)
        }
        Piece::Arg(ty) => {
            push(text, b" argument ")?;
            push_type(alloc, text, *ty, classes)
        }
    }
}

fn push_pieces(
    alloc: Global,
    text: &mut Vec<u8>,
    pieces: &[Piece],
    classes: &Classes,
) -> Result<(), NoMemory>
    ensures { OnOk result (text.new.items
        ≡ text.old.items ++ flat_map (piece_text classes.now) pieces.now) }
{
    for piece in pieces {
        push_piece(alloc, text, piece, classes)?;
    }
    Ok(())
}

fn push_form(text: &mut Vec<u8>, form: Option<&ShownForm<'_>>) -> Result<(), NoMemory>
    ensures { OnOk result (text.new.items
        ≡ text.old.items ++ part_text (option_copied form.entry)) }
{
    match form {
        None => push(text, b"another form"),
        Some(form) => {
            push(text, b"form ")?;
            push_number(text, number_of(form.form()))
        }
    }
}

// The form of a side part.
fn push_part_form(
    alloc: Global,
    text: &mut Vec<u8>,
    forms: &[ShownForm<'_>],
    body: &FormBody,
) -> Result<(), NoMemory>
    ensures { OnOk result (text.new.items
        ≡ text.old.items ++ part_text (form_of forms.now (body_text body.now))) }
{
    let sought = body_text(alloc, body)?;
    push_form(text, form_of(forms, sought.as_slice()))
}

// A side part: its form, and what its fields hold.
#[cycle(held)]
fn push_part(
    alloc: Global,
    text: &mut Vec<u8>,
    forms: &[ShownForm<'_>],
    part: &Bound<'_>,
    classes: &Classes,
) -> Result<(), NoMemory>
    ensures { OnOk result (text.new.items
        ≡ text.old.items ++ bound_text classes.now forms.now part.now) }
{
    push(text, b"part (")?;
    push_part_form(alloc, text, forms, part.body)?;
    for field in part.fields.as_slice() {
        push(text, b", ")?;
        push_held(alloc, text, forms, field, classes)?;
    }
    push(text, b")")
}

/// Writes what a field holds.
#[cycle(held)]
#[tactic(auto, using(crate::proofs::Parts::held_part))]
pub(crate) fn push_held(
    alloc: Global,
    text: &mut Vec<u8>,
    forms: &[ShownForm<'_>],
    field: &Field<'_>,
    classes: &Classes,
) -> Result<(), NoMemory>
    ensures { OnOk result (text.new.items
        ≡ text.old.items ++ held_text classes.now forms.now field.now) }
{
    match field {
        Field::Val(slot) => push_slot(alloc, text, slot, classes),
        Field::Leaf(leaf) => {
            push(text, b"leaf ")?;
            push_number(text, leaf.0)
        }
        Field::Part(part) => push_part(alloc, text, forms, part, classes),
        Field::Class(class) => {
            push(text, b"class ")?;
            push(text, &show_name(alloc, classes.name(*class))?)
        }
        Field::Conv(conv) => push_conversion(alloc, text, b"conversion ", *conv, classes),
        Field::Ret(conv) => push_result(alloc, text, b"result ", *conv, classes),
        Field::Explicit(conv) => {
            push_conversion(alloc, text, b"explicit conversion ", *conv, classes)
        }
        Field::ExplicitRet(conv) => {
            push_result(alloc, text, b"explicit result ", *conv, classes)
        }
        Field::Comp(component) => {
            push(text, b"items ")?;
            push_type(alloc, text, component.item_type(), classes)
        }
        Field::Joined(pieces) => {
            push(text, b"pieces")?;
            push_pieces(alloc, text, pieces.as_slice(), classes)
        }
    }
}
