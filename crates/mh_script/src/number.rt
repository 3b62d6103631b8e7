ghost use Rattle.std.specs.Prelude.{◌≡◌, map, IfOk};
ghost use Rattle.mh_script.specs.Numbers.{number_of, small_of, numbers_of, order_of, fail_of};

use crate::Step;
use itoa::Buffer;
use mh_base::{NoMemory, Seq, split_at_byte};
use std::alloc::Global;

/// The largest modulus of `failmod`.
const MOST_MODULUS: u64 = 1_000_000;

/// The number of 64 bits that a text writes, in decimal and without a needless zero.
pub(crate) fn read_number(bytes: &[u8]) -> Option<u64>
    ensures { result ≡ number_of bytes.now }
{
    let Ok(text) = str::from_utf8(bytes) else {
        return None;
    };
    let Ok(number) = text.parse::<u64>() else {
        return None;
    };
    let mut buffer = Buffer::new();
    if buffer.format(number) == text {
        Some(number)
    } else {
        None
    }
}

/// The number from 0 to 255 that a text writes.
pub(crate) fn read_small(bytes: &[u8]) -> Option<u8>
    ensures { result ≡ small_of bytes.now }
{
    let number = read_number(bytes)?;
    u8::try_from(number).ok()
}

// The numbers that texts write, one each.
fn read_numbers(alloc: Global, texts: &[&[u8]]) -> Result<Option<Seq<u8>>, NoMemory>
    ensures { IfOk result (λ numbers. numbers ≡ numbers_of (map (λ t. t.now) texts.now)) }
{
    let mut numbers = Seq::new(alloc);
    for text in texts {
        let Some(number) = read_small(*text) else {
            return Ok(None);
        };
        numbers.push(number)?;
    }
    Ok(Some(numbers))
}

/// The numbers of an order, with commas between them; `-` stands for none.
pub(crate) fn read_order(alloc: Global, token: &[u8]) -> Result<Option<Seq<u8>>, NoMemory>
    ensures { IfOk result (λ numbers. numbers ≡ order_of token.now) }
{
    if token == b"-".as_slice() {
        return Ok(Some(Seq::new(alloc)));
    }
    let texts = split_at_byte(alloc, token, b',')?;
    read_numbers(alloc, &texts)
}

/// The line `failmod K R` of these numbers: K is from 1 to 1,000,000, and R below K.
pub(crate) fn read_fail(modulus: &[u8], remainder: &[u8]) -> Option<Step>
    ensures { result ≡ fail_of modulus.now remainder.now }
{
    let modulus = read_number(modulus)?;
    let remainder = read_number(remainder)?;
    if 1 <= modulus && modulus <= MOST_MODULUS && remainder < modulus {
        Some(Step::FailMod {
            modulus: modulus as u32,
            remainder: remainder as u32,
        })
    } else {
        None
    }
}
