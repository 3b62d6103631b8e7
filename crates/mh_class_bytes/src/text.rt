ghost use Rattle.std.specs.Prelude.{◌≡◌, [], ◌+◌, ◌≤◌, ◌<◌, ◌^◌, length, drop, IfOk, OnOk, IfErr};
ghost use Rattle.mh_class_bytes.specs.Mutf8.{IsText, IsBadAt, unit_len, sound_len};

use std::marker::Model;

/// The bytes are no modified UTF-8.
#[derive(Clone, Copy, Debug, PartialEq, Eq)]
pub struct BadText {
    /// The first byte of the first sequence that is refused.
    pub at: usize,
}

/// A text in modified UTF-8 (JVMS 4.4.7), borrowed from the class file. Contracts see its bytes.
#[derive(Debug, Drop)]
pub struct Text<'b> {
    bytes: &'b [u8],
}

impl<'b> Model for Text<'b> {
    ghost use Rattle.std.specs.Prelude.{◌≡◌, ℕ, List, length};
    ghost use Rattle.mh_class_bytes.specs.Mutf8.{sound_len};

    ghost Value = { List ℕ };

    ghost view = { λ t. t.bytes.now };

    ghost invariant = { λ t. sound_len t.bytes.now ≡ length t.bytes.now };
}

impl<'b> Text<'b> {
    /// The text of no characters.
    #[tactic(auto, unfolding(crate::specs::Mutf8::sound_from))]
    pub fn empty() -> Text<'b>
        ensures { result ≡ [] }
    {
        Text { bytes: &[] }
    }

    /// The same text, borrowed once more.
    pub fn copy(&self) -> Text<'b>
        ensures { result ≡ self.now }
    {
        Text { bytes: self.bytes }
    }

    /// The bytes of the text, as they are in the file.
    pub fn bytes(&self) -> &'b [u8]
        ensures bytes { result.now ≡ self.now }
        ensures text { sound_len self.now ≡ length self.now }
    {
        self.bytes
    }
}

/// The text that the bytes are, borrowed. It takes no memory.
pub fn mutf8_check<'b>(bytes: &'b [u8]) -> Result<Text<'b>, BadText>
    ensures text { IfOk result (λ t. t ≡ bytes.now) }
    ensures accepted { OnOk result (IsText bytes.now) }
    ensures refused { IfErr result (λ e. IsBadAt bytes.now e.at) }

    // The same by computation, for callers that compute.
    ensures whole { OnOk result (sound_len bytes.now ≡ length bytes.now) }
    ensures place { IfErr result (λ e. e.at ≡ sound_len bytes.now) }
    ensures within { IfErr result (λ e. e.at < length bytes.now) }
    ensures small { length bytes.now < 2 ^ 63 }
{
    let mut at = pass_plain(bytes, 0);
    while at < bytes.len() {
        let len = unit_len(&bytes[at..]);
        if len == 0 {
            return Err(BadText { at });
        }
        at = pass_plain(bytes, at + len);
    }
    Ok(Text { bytes })
}

/// The place after the units of one byte from a place on; most texts have no others.
fn pass_plain(bytes: &[u8], at: usize) -> usize
    requires { at ≤ length bytes.now }
    ensures onward { at ≤ result }
    ensures within { result ≤ length bytes.now }
    ensures passed { at + sound_len (drop at bytes.now)
        ≡ result + sound_len (drop result bytes.now) }
{
    let mut end = at;
    while end < bytes.len() && 1 <= bytes[end] && bytes[end] <= 0x7F {
        end += 1;
    }
    end
}

/// How many bytes the first unit takes; 0 if none is spelled there.
#[tactic(auto, unfolding(crate::specs::Mutf8::unit_len))]
pub(crate) fn unit_len(bytes: &[u8]) -> usize
    ensures value { result ≡ unit_len bytes.now }
    ensures few { result < 4 }
    ensures within { result ≤ length bytes.now }
{
    match bytes {
        [1..=0x7F, ..] => 1,
        [0xC0, 0x80, ..] => 2,
        [0xC2..=0xDF, 0x80..=0xBF, ..] => 2,
        [0xE0, 0xA0..=0xBF, 0x80..=0xBF, ..] => 3,
        [0xE1..=0xEF, 0x80..=0xBF, 0x80..=0xBF, ..] => 3,
        _ => 0,
    }
}
