//! Labels in the language DOT.

ghost use Rattle.std.specs.Prelude.{◌≡◌, ◌++◌, OnOk, IfOk};
ghost use Rattle.std.specs.Fmt.{decimal};
ghost use Rattle.mh_drawing.specs.Dot.{form_node, label_line, quoted, quoted_char, short, site_node};

use mh_base::NoMemory;
use mh_handle::Form;
use mh_shown::push_number;
use std::alloc::Global;

/// How many characters of a text of a label are shown.
const MOST_SHOWN: usize = 48;

/// Writes bytes as they are.
pub(crate) fn push(text: &mut Vec<u8>, more: &[u8]) -> Result<(), NoMemory>
    ensures { OnOk result (text.new.items ≡ text.old.items ++ more.now) }
{
    text.extend_from_slice(more)?;
    Ok(())
}

fn push_char(text: &mut Vec<u8>, byte: u8) -> Result<(), NoMemory>
    ensures { OnOk result (text.new.items ≡ text.old.items ++ quoted_char byte) }
{
    match byte {
        b'"' => push(text, b"\\\""),
        b'\\' => push(text, b"\\\\"),
        _ => push(text, &[byte]),
    }
}

fn push_quoted(text: &mut Vec<u8>, shown: &[u8]) -> Result<(), NoMemory>
    ensures { OnOk result (text.new.items ≡ text.old.items ++ quoted shown.now) }
{
    for byte in shown {
        push_char(text, *byte)?;
    }
    Ok(())
}

/// Cuts a text of a label if it is too long.
fn short(mut text: Vec<u8>) -> Result<Vec<u8>, NoMemory>
    ensures { IfOk result (λ cut. cut.items ≡ short text.items) }
{
    if text.len() > MOST_SHOWN {
        text.truncate(MOST_SHOWN);
        text.extend_from_slice(b"...")?;
    }
    Ok(text)
}

/// Writes a line of a label.
pub(crate) fn push_line(text: &mut Vec<u8>, line: Vec<u8>) -> Result<(), NoMemory>
    ensures { OnOk result (text.new.items ≡ text.old.items ++ label_line line.items) }
{
    let line = short(line)?;
    push_quoted(text, &line)?;
    push(text, b"\\l")
}

/// Writes a line of a label, of a word and a number.
pub(crate) fn push_numbered(
    alloc: Global,
    text: &mut Vec<u8>,
    word: &[u8],
    number: u32,
) -> Result<(), NoMemory>
    ensures { OnOk result (text.new.items
        ≡ text.old.items ++ label_line (word.now ++ decimal number)) }
{
    let mut line = Vec::new(alloc);
    push(&mut line, word)?;
    push_number(&mut line, number)?;
    push_line(text, line)
}

/// The number of a form.
pub(crate) fn number_of(form: &Form) -> u32
    ensures { result ≡ form.now.number }
{
    form.number() as u32
}

/// Writes the node of a form, by its number.
pub(crate) fn push_form_node(text: &mut Vec<u8>, number: u32) -> Result<(), NoMemory>
    ensures { OnOk result (text.new.items ≡ text.old.items ++ form_node number) }
{
    push(text, b"f")?;
    push_number(text, number)
}

/// Writes the box of a call site, by its number.
pub(crate) fn push_site_node(text: &mut Vec<u8>, number: u32) -> Result<(), NoMemory>
    ensures { OnOk result (text.new.items ≡ text.old.items ++ site_node number) }
{
    push(text, b"s")?;
    push_number(text, number)
}
