//! The boxes of call sites.

ghost use Rattle.std.specs.Prelude.{◌≡◌, ◌++◌, IfOk, OnOk};
ghost use Rattle.std.specs.Fmt.{decimal};
ghost use Rattle.mh_drawing.specs.Dot.{label_line};
ghost use Rattle.mh_drawing.specs.Drawing.{ending_text, site_label, site_line};

use crate::label::{push, push_line, push_numbered, push_site_node};
use crate::site::Site;
use itoa::Buffer;
use mh_attempt::Linked;
use mh_base::{NoMemory, Seq};
use mh_texts::show_exc;
use mh_values::Classes;
use std::alloc::Global;

fn push_serial(line: &mut Vec<u8>, serial: u64) -> Result<(), NoMemory>
    ensures { OnOk result (line.new.items ≡ line.old.items ++ decimal serial) }
{
    let mut buffer = Buffer::new();
    push(line, buffer.format(serial).as_bytes())
}

// How a call site is linked.
fn ending(
    alloc: Global,
    serial: u64,
    linked: &Linked<'_>,
    classes: &Classes,
) -> Result<Vec<u8>, NoMemory>
    ensures { IfOk result (λ line. line.items ≡ ending_text classes.now serial linked.now) }
{
    let mut line = Vec::new(alloc);
    match linked {
        Linked::Target(_) => {
            push(&mut line, b"serial ")?;
            push_serial(&mut line, serial)?;
        }
        Linked::Error(exc) => {
            push(&mut line, b"error ")?;
            push(&mut line, &show_exc(alloc, exc, classes)?)?;
        }
    }
    Ok(line)
}

fn push_copied_line(alloc: Global, text: &mut Vec<u8>, line: &Seq<u8>) -> Result<(), NoMemory>
    ensures { OnOk result (text.new.items ≡ text.old.items ++ label_line line.now) }
{
    let copy = Vec::from_slice(alloc, line.as_slice())?;
    push_line(text, copy)
}

fn push_site_label(
    alloc: Global,
    text: &mut Vec<u8>,
    site: &Site<'_, '_>,
    classes: &Classes,
) -> Result<(), NoMemory>
    ensures { OnOk result (text.new.items ≡ text.old.items ++ site_label classes.now site.now) }
{
    push_numbered(alloc, text, b"site ", site.number)?;
    push_copied_line(alloc, text, &site.place.class)?;
    push_copied_line(alloc, text, &site.place.method)?;
    push_copied_line(alloc, text, &site.place.ty)?;
    push_line(text, ending(alloc, site.serial, site.linked, classes)?)
}

/// Writes the box of a call site.
pub(crate) fn push_site_line(
    alloc: Global,
    text: &mut Vec<u8>,
    site: &Site<'_, '_>,
    classes: &Classes,
) -> Result<(), NoMemory>
    ensures { OnOk result (text.new.items ≡ text.old.items ++ site_line classes.now site.now) }
{
    push(text, b"  ")?;
    push_site_node(text, site.number)?;
    push(text, b" [shape=box, label=\"")?;
    push_site_label(alloc, text, site, classes)?;
    push(text, b"\"];\n")?;
    Ok(())
}
