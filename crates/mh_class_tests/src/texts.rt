use mh_base::NoMemory;
use mh_class_bytes::{CharsError, Cursor, Short, Text, mutf8_check};
use std::alloc::Global;
use std::test::*;

/// The place at which bytes are no text, if there is one.
fn bad_at(bytes: &[u8]) -> Option<usize> {
    mutf8_check(bytes).err().map(|bad| bad.at)
}

/// The characters of a text, and those that are shown of it.
fn chars_of(alloc: Global, bytes: &[u8]) -> Result<(Vec<char>, Vec<char>), Fail> {
    let text = mutf8_check(bytes)?;
    Ok((text.chars(alloc)?, text.shown(alloc)?))
}

/// Where a text has a half of a pair without a partner, if it has one, and what is shown of it.
fn lone_at(alloc: Global, bytes: &[u8]) -> Result<(Option<usize>, Vec<char>), Fail> {
    let text = mutf8_check(bytes)?;
    let lone = match text.chars(alloc) {
        Ok(_) => None,
        Err(CharsError::LoneSurrogate { at }) => Some(at),
        Err(CharsError::NoMemory) => return Err(NoMemory.into()),
    };
    Ok((lone, text.shown(alloc)?))
}

/// Bytes that are no text, and the place that shows it.
static NO_TEXTS: [(&[u8], usize); 16] = [
    (&[0], 0),
    (&[b'a', 0, b'b'], 1),
    (&[0xE0, 0x80, 0x80], 0),
    (&[b'a', 0xE0, 0x9F, 0xBF], 1),
    (&[0xC1, 0x80], 0),
    (&[0xC0, 0x81], 0),
    (&[0x80], 0),
    (&[b'a', b'b', 0xBF], 2),
    (&[0xC3], 0),
    (&[0xC3, b'a'], 0),
    (&[0xED], 0),
    (&[0xED, 0xA0], 0),
    (&[0xED, 0xA0, b'a'], 0),
    (&[b'a', 0xE2, 0x82], 1),
    (&[0xC0, 0x80, 0xC0], 2),
    (&[0xFF, b'a'], 0),
];

#[test]
fn bytes_that_are_no_text(rt: HostRuntime) {
    for (bytes, at) in &NO_TEXTS {
        assert_eq!(rt; bad_at(*bytes), Some(*at), "{bytes:?}");
    }
    for first in 0xF0..=0xFE_u8 {
        let at = bad_at(&[b'a', first, 0x9F, 0x98, 0x80]);
        assert_eq!(rt; at, Some(1), "first byte {first}");
    }
}

/// Texts and their characters.
static TEXTS: [(&[u8], &[char]); 8] = [
    (&[], &[]),
    (b"java/lang", &['j', 'a', 'v', 'a', '/', 'l', 'a', 'n', 'g']),
    (&[0xC0, 0x80], &['\0']),
    (&[0xC2, 0x80, 0xDF, 0xBF], &['\u{80}', '\u{7FF}']),
    (
        &[0xE0, 0xA0, 0x80, 0xEF, 0xBF, 0xBF],
        &['\u{800}', '\u{FFFF}'],
    ),
    (&[0xED, 0xA0, 0xBD, 0xED, 0xB8, 0x80], &['\u{1F600}']),
    (
        &[0xED, 0xAF, 0xBF, 0xED, 0xBF, 0xBF, b'.'],
        &['\u{10FFFF}', '.'],
    ),
    (
        &[0xED, 0x9F, 0xBF, 0xEE, 0x80, 0x80],
        &['\u{D7FF}', '\u{E000}'],
    ),
];

#[test]
fn characters_of_texts(rt: HostRuntime) -> Result<(), Fail> {
    for (bytes, chars) in &TEXTS {
        let (own, shown) = chars_of(rt.alloc(), *bytes)?;
        assert_eq!(rt; own.as_slice(), *chars, "{bytes:?}");
        assert_eq!(rt; shown.as_slice(), *chars, "{bytes:?}");
    }
    Ok(())
}

/// Below U+10000, except for U+0000, the spelling of a character is its UTF-8.
#[test]
fn characters_spelled_as_in_utf8(rt: HostRuntime) -> Result<(), Fail> {
    for step in 0..400_u32 {
        if let Some(char) = char::from_u32(1 + 163 * step) {
            let mut buffer = [0; 4];
            let spelling = char.encode_utf8(&mut buffer).as_bytes();
            let (own, shown) = chars_of(rt.alloc(), spelling)?;
            assert_eq!(rt; own.as_slice(), [char].as_slice());
            assert_eq!(rt; shown.as_slice(), [char].as_slice());
        }
    }
    Ok(())
}

/// Texts, the place of a half of a pair without a partner, if any, and what is shown of them.
static HALVES: [(&[u8], usize, &[char]); 4] = [
    (&[0xED, 0xA0, 0x80], 0, &['\u{FFFD}']),
    (&[b'a', 0xED, 0xB8, 0x80], 1, &['a', '\u{FFFD}']),
    (&[0xED, 0xA0, 0xBD, b'a'], 0, &['\u{FFFD}', 'a']),
    (
        &[0xED, 0xA0, 0xBD, 0xED, 0xB8, 0x80, 0xED, 0xB8, 0x80],
        6,
        &['\u{1F600}', '\u{FFFD}'],
    ),
];

#[test]
fn halves_without_a_partner(rt: HostRuntime) -> Result<(), Fail> {
    for (bytes, at, wanted) in &HALVES {
        let (lone, shown) = lone_at(rt.alloc(), *bytes)?;
        assert_eq!(rt; lone, Some(*at), "{bytes:?}");
        assert_eq!(rt; shown.as_slice(), *wanted, "{bytes:?}");
    }
    Ok(())
}

/// Whether the numbers at the front are read, up to one that does not fit.
fn reads_numbers(cursor: &mut Cursor<'_>) -> bool {
    matches!(cursor.u1(), Ok(1))
        && matches!(cursor.u2(), Ok(2))
        && matches!(cursor.u4(), Ok(256))
        && matches!(cursor.u4(), Err(Short { at: 7 }))
}

/// Whether the rest is read, and nothing after it.
fn reads_runs(cursor: &mut Cursor<'_>) -> bool {
    matches!(cursor.take(2), Ok([7, 8]))
        && matches!(cursor.u2(), Err(Short { at: 9 }))
        && matches!(cursor.u1(), Ok(9))
        && matches!(cursor.take(1), Err(Short { at: 10 }))
        && matches!(cursor.take(0), Ok([]))
}

#[test]
fn numbers_and_runs(rt: HostRuntime) {
    let mut cursor = Cursor::new(&[1, 0, 2, 0, 0, 1, 0, 7, 8, 9]);
    assert!(rt;
        reads_numbers(&mut cursor),
        "numbers, up to {}",
        cursor.at()
    );
    assert!(rt; reads_runs(&mut cursor), "runs, up to {}", cursor.at());
    assert_eq!(rt; cursor.at(), 10);
}
