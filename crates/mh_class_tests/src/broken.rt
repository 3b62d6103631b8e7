use crate::faults::{Answer, first_fault};
use crate::files::{all_tags, made, made_site};
use Change::{Append, Cut, Put};
use File::{AllTags, Made, MadeSite, NoRoom};
use mh_base::NoMemory;
use mh_classfile::ClassKind::{
    BadBootstraps, BadCode, BadDescriptor, BadIndex, BadMagic, BadTag, BadText, BadVersion,
    TooManySites, Trailing, Truncated, WrongKind,
};
use std::alloc::{AllocError, Global};
use std::test::*;

/// A file, and how many call sites it may have when it is read.
#[derive(Clone, Copy)]
enum File {
    /// [`made`], and none.
    Made,
    /// [`made_site`], and one.
    MadeSite,
    /// [`made_site`], and none.
    NoRoom,
    /// [`all_tags`], and none.
    AllTags,
}

/// A change of a file.
#[derive(Clone, Copy)]
enum Change {
    /// These bytes stand from a place on.
    Put(usize, &'static [u8]),
    /// This many bytes are left, those at the front.
    Cut(usize),
    /// These bytes stand after the last.
    Append(&'static [u8]),
}

/// A file with changes, and what reading it answers.
struct Row {
    name: &'static str,
    file: File,
    changes: &'static [Change],
    answer: Answer,
}

/// Made files: what is at a place of them, and the first fault if something else is there.
static MADE_ROWS: [Row; 44] = [
    Row {
        name: "no change",
        file: Made,
        changes: &[],
        answer: None,
    },
    Row {
        name: "a magic number that begins with 0",
        file: Made,
        changes: &[Put(0, &[0])],
        answer: Some((BadMagic, 0)),
    },
    Row {
        name: "major version 44",
        file: Made,
        changes: &[Put(6, &[0, 44])],
        answer: Some((BadVersion, 6)),
    },
    Row {
        name: "major version 45",
        file: Made,
        changes: &[Put(6, &[0, 45])],
        answer: None,
    },
    Row {
        name: "major version 65",
        file: Made,
        changes: &[Put(6, &[0, 65])],
        answer: None,
    },
    Row {
        name: "major version 66",
        file: Made,
        changes: &[Put(6, &[0, 66])],
        answer: Some((BadVersion, 6)),
    },
    Row {
        name: "a pool without the entry 0",
        file: Made,
        changes: &[Put(8, &[0, 0])],
        answer: Some((BadIndex, 8)),
    },
    Row {
        name: "a tag of no constant",
        file: Made,
        changes: &[Put(10, &[2])],
        answer: Some((BadTag, 10)),
    },
    Row {
        name: "a zero byte in a text",
        file: Made,
        changes: &[Put(13, &[0])],
        answer: Some((BadText, 13)),
    },
    Row {
        name: "a class named by entry 0",
        file: Made,
        changes: &[Put(23, &[0, 0])],
        answer: Some((BadIndex, 22)),
    },
    Row {
        name: "a class named by the entry after the last",
        file: Made,
        changes: &[Put(23, &[0, 13])],
        answer: Some((BadIndex, 22)),
    },
    Row {
        name: "a class named by a class",
        file: Made,
        changes: &[Put(23, &[0, 2])],
        answer: Some((WrongKind, 22)),
    },
    Row {
        name: "a text in the place of this class",
        file: Made,
        changes: &[Put(224, &[0, 1])],
        answer: Some((WrongKind, 224)),
    },
    Row {
        name: "no superclass",
        file: Made,
        changes: &[Put(226, &[0, 0])],
        answer: None,
    },
    Row {
        name: "contents of Code that end in its last count",
        file: Made,
        changes: &[Put(247, &[12])],
        answer: Some((BadCode, 259)),
    },
    Row {
        name: "contents of Code with a byte left over",
        file: Made,
        changes: &[Put(247, &[14])],
        answer: Some((BadCode, 261)),
    },
    Row {
        name: "code of no bytes",
        file: Made,
        changes: &[Put(252, &[0, 0, 0, 0])],
        answer: Some((BadCode, 252)),
    },
    Row {
        name: "code of 65,535 bytes that are not there",
        file: Made,
        changes: &[Put(252, &[0, 0, 0xFF, 0xFF])],
        answer: Some((BadCode, 256)),
    },
    Row {
        name: "code of 65,536 bytes",
        file: Made,
        changes: &[Put(252, &[0, 1, 0, 0])],
        answer: Some((BadCode, 252)),
    },
    Row {
        name: "an opcode of no instruction",
        file: Made,
        changes: &[Put(256, &[0xCA])],
        answer: Some((BadCode, 256)),
    },
    Row {
        name: "an instruction that passes the end of the code",
        file: Made,
        changes: &[Put(256, &[0x10])],
        answer: Some((BadCode, 256)),
    },
    Row {
        name: "an attribute Code of the class",
        file: Made,
        changes: &[Put(263, &[0, 7])],
        answer: None,
    },
    Row {
        name: "contents of BootstrapMethods of one byte",
        file: Made,
        changes: &[Put(268, &[1])],
        answer: Some((BadBootstraps, 269)),
    },
    Row {
        name: "a second BootstrapMethods",
        file: Made,
        changes: &[Put(261, &[0, 2]), Append(&[0, 8, 0, 0, 0, 2, 0, 0])],
        answer: Some((BadBootstraps, 271)),
    },
    Row {
        name: "no byte",
        file: Made,
        changes: &[Cut(0)],
        answer: Some((Truncated, 0)),
    },
    Row {
        name: "a cut in the major version",
        file: Made,
        changes: &[Cut(7)],
        answer: Some((Truncated, 6)),
    },
    Row {
        name: "a cut in the pool's count",
        file: Made,
        changes: &[Cut(9)],
        answer: Some((Truncated, 8)),
    },
    Row {
        name: "a cut before the pool",
        file: Made,
        changes: &[Cut(10)],
        answer: Some((Truncated, 10)),
    },
    Row {
        name: "a cut in the last number",
        file: Made,
        changes: &[Cut(270)],
        answer: Some((Truncated, 269)),
    },
    Row {
        name: "a byte after the last",
        file: Made,
        changes: &[Append(&[0])],
        answer: Some((Trailing, 271)),
    },
    Row {
        name: "no change of a file with a call site",
        file: MadeSite,
        changes: &[],
        answer: None,
    },
    Row {
        name: "no room for the call site",
        file: NoRoom,
        changes: &[],
        answer: Some((TooManySites, 295)),
    },
    Row {
        name: "a type that is no descriptor",
        file: MadeSite,
        changes: &[Put(247, &[b'X'])],
        answer: Some((BadDescriptor, 243)),
    },
    Row {
        name: "a bootstrap method after the last",
        file: MadeSite,
        changes: &[Put(257, &[0, 1])],
        answer: Some((BadBootstraps, 256)),
    },
    Row {
        name: "a call site of entry 0",
        file: MadeSite,
        changes: &[Put(296, &[0, 0])],
        answer: Some((BadIndex, 295)),
    },
    Row {
        name: "a call site of the entry after the last",
        file: MadeSite,
        changes: &[Put(296, &[0, 20])],
        answer: Some((BadIndex, 295)),
    },
    Row {
        name: "a call site of a name and type",
        file: MadeSite,
        changes: &[Put(296, &[0, 18])],
        answer: Some((WrongKind, 295)),
    },
    Row {
        name: "a third byte of a call site that is not 0",
        file: MadeSite,
        changes: &[Put(298, &[1])],
        answer: Some((BadCode, 295)),
    },
    Row {
        name: "a fourth byte of a call site that is not 0",
        file: MadeSite,
        changes: &[Put(299, &[1])],
        answer: Some((BadCode, 295)),
    },
    Row {
        name: "no room, and a call site whose third byte is not 0",
        file: NoRoom,
        changes: &[Put(298, &[1])],
        answer: Some((BadCode, 295)),
    },
    Row {
        name: "a class named by entry 0, and a cut after it",
        file: Made,
        changes: &[Put(23, &[0, 0]), Cut(100)],
        answer: Some((Truncated, 100)),
    },
    Row {
        name: "a class named by entry 0, and no code",
        file: Made,
        changes: &[Put(23, &[0, 0]), Put(252, &[0, 0, 0, 0])],
        answer: Some((BadIndex, 22)),
    },
    Row {
        name: "a bootstrap method after the last, and a byte after the last",
        file: MadeSite,
        changes: &[Put(257, &[0, 1]), Append(&[0])],
        answer: Some((Trailing, 319)),
    },
    Row {
        name: "a byte after the last of a file with a call site",
        file: MadeSite,
        changes: &[Append(&[0])],
        answer: Some((Trailing, 319)),
    },
];

/// A file with a constant of each tag.
static TAG_ROWS: [Row; 14] = [
    Row {
        name: "a Long at the last index",
        file: AllTags,
        changes: &[Put(8, &[0, 8])],
        answer: Some((BadIndex, 56)),
    },
    Row {
        name: "a Double at the last index",
        file: AllTags,
        changes: &[Put(8, &[0, 10])],
        answer: Some((BadIndex, 65)),
    },
    Row {
        name: "a class named by the second index of a Long",
        file: AllTags,
        changes: &[Put(22, &[0, 8])],
        answer: Some((BadIndex, 21)),
    },
    Row {
        name: "a handle of kind 0",
        file: AllTags,
        changes: &[Put(126, &[0])],
        answer: Some((WrongKind, 125)),
    },
    Row {
        name: "a handle of kind 10",
        file: AllTags,
        changes: &[Put(126, &[10])],
        answer: Some((WrongKind, 125)),
    },
    Row {
        name: "kind 1 of a Methodref",
        file: AllTags,
        changes: &[Put(127, &[0, 19])],
        answer: Some((WrongKind, 125)),
    },
    Row {
        name: "kind 8 of an InterfaceMethodref",
        file: AllTags,
        changes: &[Put(131, &[0, 20])],
        answer: Some((WrongKind, 129)),
    },
    Row {
        name: "kind 9 of a Methodref",
        file: AllTags,
        changes: &[Put(135, &[0, 19])],
        answer: Some((WrongKind, 133)),
    },
    Row {
        name: "a method type that is no descriptor",
        file: AllTags,
        changes: &[Put(142, &[0, 15])],
        answer: Some((BadDescriptor, 96)),
    },
    Row {
        name: "a dynamic constant of the bootstrap method after the last",
        file: AllTags,
        changes: &[Put(145, &[0, 1])],
        answer: Some((BadBootstraps, 144)),
    },
    Row {
        name: "an interface of entry 0",
        file: AllTags,
        changes: &[Put(200, &[0, 0])],
        answer: Some((BadIndex, 200)),
    },
    Row {
        name: "BootstrapMethods of no bytes before the other one",
        file: AllTags,
        changes: &[Put(237, &[0, 30])],
        answer: Some((BadBootstraps, 243)),
    },
    Row {
        name: "a static argument that is a Utf8",
        file: AllTags,
        changes: &[Put(271, &[0, 1])],
        answer: Some((WrongKind, 271)),
    },
    Row {
        name: "a static argument at the second index of a Long",
        file: AllTags,
        changes: &[Put(271, &[0, 8])],
        answer: Some((BadIndex, 271)),
    },
];

/// The bytes of a file, and how many call sites it may have.
fn base(file: File) -> (&'static [u8], u32) {
    match file {
        Made => (made(), 0),
        MadeSite => (made_site(), 1),
        NoRoom => (made_site(), 0),
        AllTags => (all_tags(), 0),
    }
}

/// Puts bytes in the place of those from a place on.
fn put(bytes: &mut [u8], from: usize, to: &[u8]) {
    for (byte, new) in bytes.iter_mut().skip(from).zip(to) {
        *byte = *new;
    }
}

fn make_change(bytes: &mut Vec<u8>, change: Change) -> Result<(), AllocError> {
    match change {
        Put(from, to) => put(bytes, from, to),
        Cut(len) => bytes.truncate(len),
        Append(more) => bytes.extend_from_slice(more)?,
    }
    Ok(())
}

/// The bytes of a file with changes.
fn changed(alloc: Global, file: &[u8], changes: &[Change]) -> Result<Vec<u8>, AllocError> {
    let mut bytes = Vec::from_slice(alloc, file)?;
    for each in changes {
        make_change(&mut bytes, *each)?;
    }
    Ok(bytes)
}

/// What reading the file of a row answers.
fn came(alloc: Global, row: &Row) -> Result<Answer, NoMemory> {
    let (file, room) = base(row.file);
    let bytes = changed(alloc, file, row.changes)?;
    first_fault(alloc, &bytes, room)
}

#[test]
fn made_files_with_changes(rt: HostRuntime) -> Result<(), Fail> {
    for row in &MADE_ROWS {
        assert_eq!(rt; came(rt.alloc(), row)?, row.answer, "{}", row.name);
    }
    Ok(())
}

#[test]
fn constants_of_each_tag_with_changes(rt: HostRuntime) -> Result<(), Fail> {
    for row in &TAG_ROWS {
        assert_eq!(rt; came(rt.alloc(), row)?, row.answer, "{}", row.name);
    }
    Ok(())
}
