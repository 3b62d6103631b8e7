ghost use Rattle.std.specs.Prelude.{◌≡◌};
ghost use Rattle.mh_base.specs.Lines.{is_passed, is_plain};

use crate::NoMemory;
use std::alloc::AllocError;

/// Why a line was not taken: no memory is left, or the line has no meaning where it stands, with
/// what is wrong with it.
#[derive(Clone, Copy, Debug, PartialEq, Eq)]
pub enum LineError<K> {
    NoMemory,
    Kind(K),
}

impl<K> From<NoMemory> for LineError<K> {
    ghost use Rattle.mh_base.specs.declared.lines.LineError.TheVariants as line_error;

    ghost from_gives = { λ _ error. error ≡ line_error.NoMemory };

    fn from(_: NoMemory) -> Self {
        LineError::NoMemory
    }
}

impl<K> From<AllocError> for LineError<K> {
    ghost use Rattle.mh_base.specs.declared.lines.LineError.TheVariants as line_error;

    ghost from_gives = { λ _ error. error ≡ line_error.NoMemory };

    fn from(_: AllocError) -> Self {
        LineError::NoMemory
    }
}

/// The first line of a text that has no meaning where it stands: its number, counted from 1, and
/// what is wrong with it.
#[derive(Clone, Copy, Debug, PartialEq, Eq)]
pub struct LineFault<K> {
    pub line: u32,
    pub kind: K,
}

/// Whether a line is passed over: it is empty, or a comment that begins with `#`.
pub fn is_passed(line: &[u8]) -> bool
    ensures { result ≡ is_passed line.now }
{
    match line {
        [] => true,
        [first, ..] => *first == b'#',
    }
}

/// Whether a line has only bytes from 0x20 to 0x7E.
pub fn is_plain(line: &[u8]) -> bool
    ensures { result ≡ is_plain line.now }
{
    line.iter().all(|byte| 0x20 <= *byte && *byte <= 0x7E)
}
