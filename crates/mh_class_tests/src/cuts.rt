use crate::faults::first_fault;
use crate::files::{made, made_site};
use mh_classfile::ClassKind;
use std::test::*;

/// Where the numbers, texts and contents of [`made`] begin.
static MADE_PARTS: [usize; 54] = [
    0, 4, 6, 8, 10, 11, 13, 22, 23, 25, 26, 28, 44, 45, 47, 48, 50, 53, 54, 56, 59, 60, 62, 66, 67,
    69, 85, 86, 88, 97, 98, 100, 101, 103, 218, 219, 221, 222, 224, 226, 228, 230, 232, 234, 236,
    238, 240, 242, 244, 248, 261, 263, 265, 269,
];

/// Where those of [`made_site`] begin, from the entry of the pool on that [`made`] has not.
static SITE_PARTS: [usize; 38] = [
    222, 223, 225, 229, 230, 232, 234, 235, 237, 239, 240, 241, 243, 244, 246, 251, 252, 254, 256,
    257, 259, 261, 263, 265, 267, 269, 271, 273, 275, 277, 279, 281, 283, 287, 305, 307, 309, 313,
];

/// The last of these places that is not after the end.
fn last_part(parts: &[usize], end: usize) -> usize {
    let mut last = 0;
    for part in parts {
        if *part <= end {
            last = *part;
        }
    }
    last
}

/// As much of a file as this many bytes.
fn front(file: &[u8], len: usize) -> &[u8] {
    file.get(..len).unwrap_or(file)
}

#[test]
fn each_cut_of_a_file_without_a_site(rt: HostRuntime) -> Result<(), Fail> {
    for len in 0..made().len() {
        let fault = first_fault(rt.alloc(), front(made(), len), 1)?;
        let wanted = Some((ClassKind::Truncated, last_part(&MADE_PARTS, len)));
        assert_eq!(rt; fault, wanted, "{len} bytes");
    }
    Ok(())
}

/// As far as to byte 222 the two files differ in the pool's count alone.
#[test]
fn each_cut_of_a_file_with_a_site(rt: HostRuntime) -> Result<(), Fail> {
    for len in 222..made_site().len() {
        let fault = first_fault(rt.alloc(), front(made_site(), len), 1)?;
        let wanted = Some((ClassKind::Truncated, last_part(&SITE_PARTS, len)));
        assert_eq!(rt; fault, wanted, "{len} bytes");
    }
    Ok(())
}
