ghost use Rattle.std.specs.Prelude.{◌≡◌, ◌↔◌, None};

use mh_base::split_once;

/// The first line in which two texts differ: its number from 1 on, and each text from there on.
#[derive(Clone, Copy, Debug)]
pub struct Difference<'t> {
    pub line: u64,
    pub wanted: &'t [u8],
    pub found: &'t [u8],
}

/// The first line of a text with its end, and the rest.
fn front_line(text: &[u8]) -> (&[u8], &[u8]) {
    match text.iter().position(|byte| *byte == b'\n') {
        Some(at) => text.split_at(at + 1),
        None => (text, &[]),
    }
}

/// Where two texts differ. The ends of lines count.
pub fn first_difference<'t>(wanted: &'t [u8], found: &'t [u8]) -> Option<Difference<'t>>
    ensures { result ≡ None ↔ wanted.now ≡ found.now }
{
    if wanted == found {
        return None;
    }
    let mut left = wanted;
    let mut right = found;
    let mut line = 1u64;
    for _ in 0..wanted.len() {
        let (want, want_rest) = front_line(left);
        let (have, have_rest) = front_line(right);
        if want != have {
            break;
        }
        line = line.saturating_add(1);
        left = want_rest;
        right = have_rest;
    }
    Some(Difference {
        line,
        wanted: left,
        found: right,
    })
}

/// The first line of a text without its end, and a remark if the text ends there.
pub fn shown_line(text: &[u8]) -> (&[u8], &'static str) {
    match split_once(text, b'\n') {
        Some((line, _)) => (line, ""),
        None if text.is_empty() => (text, "(the text ends here)"),
        None => (text, "(the text ends within this line)"),
    }
}
