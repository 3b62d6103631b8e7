ghost use Rattle.std.specs.Prelude.{◌≡◌, ◌↔◌, ℕ, Some};
ghost use Rattle.mh_texts.specs.Number.{long_of, unsigned_of};
ghost use Rattle.mh_texts.specs.Spells.{SpellsUnsigned};

use itoa::Buffer;

/// The number of 64 bits that a text writes.
pub(crate) fn read_long(bytes: &[u8]) -> Option<i64>
    ensures { result ≡ long_of bytes.now }
{
    let Ok(text) = str::from_utf8(bytes) else {
        return None;
    };
    let Ok(number) = text.parse::<i64>() else {
        return None;
    };
    let mut buffer = Buffer::new();
    if buffer.format(number) == text || text == "-0" {
        Some(number)
    } else {
        None
    }
}

/// The number of 32 bits that a text writes without a sign.
fn unsigned_in(bytes: &[u8]) -> Option<u32>
    ensures { result ≡ unsigned_of bytes.now }
{
    let Ok(text) = str::from_utf8(bytes) else {
        return None;
    };
    let Ok(number) = text.parse::<u32>() else {
        return None;
    };
    let mut buffer = Buffer::new();
    if buffer.format(number) == text {
        Some(number)
    } else {
        None
    }
}

/// The number from 0 to 4,294,967,295 that a text writes in decimal, without a sign or a needless
/// zero.
pub fn read_unsigned(bytes: &[u8]) -> Option<u32>
    ensures spelled { (n : ℕ) → (result ≡ Some n) ↔ SpellsUnsigned bytes.now n }
    ensures is { result ≡ unsigned_of bytes.now }
{
    unsigned_in(bytes)
}
