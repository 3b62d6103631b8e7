use std::alloc::AllocError;

/// What a hexadecimal digit stands for.
fn digit(byte: u8) -> Option<u8> {
    char::from(byte)
        .to_digit(16)
        .and_then(|value| u8::try_from(value).ok())
}

/// Puts the bytes of a text after others: two hexadecimal digits a byte, with spaces anywhere. It
/// answers whether the text is such digits.
pub(crate) fn push_hex(bytes: &mut Vec<u8>, text: &str) -> Result<bool, AllocError> {
    let mut high = None;
    for byte in text.as_bytes() {
        if *byte == b' ' {
            continue;
        }
        let Some(value) = digit(*byte) else {
            return Ok(false);
        };
        match high {
            None => high = Some(value),
            Some(first) => {
                bytes.push((first & 0xf) * 16 + (value & 0xf))?;
                high = None;
            }
        }
    }
    Ok(high.is_none())
}
