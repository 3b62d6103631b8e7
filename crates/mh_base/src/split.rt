ghost use Rattle.std.specs.Prelude.{◌≡◌, ◌==◌, ◌≤◌, ◌<◌, ◌+◌, length, IfOk, IfSome, map, option_map};
ghost use Rattle.std.specs.List.{position, slice_split};
ghost use Rattle.mh_base.specs.Lines.{cut_at};

use std::alloc::{AllocError, Global};

/// The pieces of a text between the places of a byte: one more than there are such places.
pub fn split_at_byte<'b>(
    alloc: Global,
    bytes: &'b [u8],
    at: u8,
) -> Result<Vec<&'b [u8]>, AllocError>
    ensures pieces { IfOk result (λ v. map (λ x. x.now) v.items ≡ slice_split
        (λ b. b == at) bytes.now) }
    ensures few { IfOk result (λ v. length v.items ≤ length bytes.now + 1) }
{
    bytes.split(|byte| *byte == at).collect(alloc)
}

// The first place of a byte.
fn place_of(text: &[u8], byte: u8) -> Option<usize>
    ensures first { result ≡ position (λ b. b == byte) text.now }
    ensures within { IfSome result (λ at. at < length text.now) }
{
    text.iter().position(|b| *b == byte)
}

/// A text before the first place of a byte, and after it; `None` if the text does not have the
/// byte.
pub fn split_once(text: &[u8], byte: u8) -> Option<(&[u8], &[u8])>
    ensures { option_map (λ parts. (parts.0.now, parts.1.now)) result ≡ cut_at byte text.now }
{
    let at = place_of(text, byte)?;
    Some((&text[..at], &text[at + 1..]))
}
