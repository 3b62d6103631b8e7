use crate::files::{all_tags, code_front, demo, made};
use mh_classfile::opcodes::{IINC, ILOAD, LOOKUPSWITCH, TABLESWITCH, WIDE};
use mh_classfile::{ClassError, ClassKind, ClassView, Constant, HandleRef, SiteView, read};
use std::alloc::{AllocError, Global};
use std::test::*;

/// Whether the bytes are refused with a fault of this place and kind.
fn has_fault(alloc: Global, bytes: &[u8], room: u32, at: usize, kind: ClassKind) -> bool {
    match read(alloc, bytes, room) {
        Err(ClassError::Fault(fault)) => fault.at == at && fault.kind == kind,
        _ => false,
    }
}

/// A class of one method with this code.
fn with_code(alloc: Global, code: &[u8]) -> Result<Vec<u8>, AllocError> {
    let mut bytes = Vec::new(alloc);
    bytes.extend_from_slice(code_front())?;
    bytes.extend_from_slice(&(code.len() as u64).wrapping_add(12).to_be_bytes()[4..])?;
    bytes.extend_from_slice(&[0, 2, 0, 0])?;
    bytes.extend_from_slice(&(code.len() as u64).to_be_bytes()[4..])?;
    bytes.extend_from_slice(code)?;
    bytes.extend_from_slice(&[0, 0, 0, 0, 0, 0])?;
    Ok(bytes)
}

/// Where the code of such a class begins.
const CODE_START: usize = 256;

/// Whether code is accepted.
fn is_code(alloc: Global, code: &[u8]) -> Result<bool, AllocError> {
    let bytes = with_code(alloc, code)?;
    Ok(read(alloc, &bytes, 0).is_ok())
}

/// Whether the last instruction of code, which stands at `pc`, is refused.
fn is_bad_at(alloc: Global, code: &[u8], pc: usize) -> Result<bool, AllocError> {
    let bytes = with_code(alloc, code)?;
    let at = CODE_START.wrapping_add(pc);
    Ok(has_fault(alloc, &bytes, 0, at, ClassKind::BadCode))
}

/// Whether code is accepted, and refused at its instruction at `pc` once its last byte is cut off.
fn is_whole(alloc: Global, code: &[u8], pc: usize) -> Result<bool, AllocError> {
    let [front @ .., _] = code else {
        return Ok(false);
    };
    Ok(is_code(alloc, code)? && (front.is_empty() || is_bad_at(alloc, front, pc)?))
}

fn is_handle(handle: &HandleRef<'_>, kind: u8, owner: &[u8], name: &[u8], len: usize) -> bool {
    handle.kind == kind
        && handle.owner.bytes() == owner
        && handle.name.bytes() == name
        && handle.descriptor.bytes().len() == len
}

/// An index of the pool, the kind of the constant there, and its number or text, if any.
type Entry = (u16, &'static str, i64, &'static [u8]);

/// Constants of [`made`].
static MADE_CONSTANTS: [Entry; 4] = [
    (0, "none", 0, b""),
    (1, "other", 0, b""),
    (2, "class", 0, b"made/Main"),
    (13, "none", 0, b""),
];

/// Constants of [`all_tags`].
static ALL_TAGS_CONSTANTS: [Entry; 12] = [
    (5, "integer", -2, b""),
    (6, "float", 0, b""),
    (7, "long", -3, b""),
    (8, "none", 0, b""),
    (9, "double", 0, b""),
    (10, "none", 0, b""),
    (12, "string", 0, &[0xED, 0xA0, 0xBD, 0xED, 0xB8, 0x80]),
    (19, "other", 0, b""),
    (25, "method type", 0, b"()V"),
    (26, "dynamic", 0, b""),
    (27, "other", 0, b""),
    (32, "none", 0, b""),
];

/// The kind of a constant, and its number or text, if any.
fn parts<'b>(constant: &Constant<'b>) -> (&'static str, i64, &'b [u8]) {
    match constant {
        Constant::Integer(number) => ("integer", i64::from(*number), b""),
        Constant::Long(number) => ("long", *number, b""),
        Constant::Float => ("float", 0, b""),
        Constant::Double => ("double", 0, b""),
        Constant::Class(name) => ("class", 0, name.bytes()),
        Constant::Str(text) => ("string", 0, text.bytes()),
        Constant::Handle(handle) => ("handle", i64::from(handle.kind), handle.name.bytes()),
        Constant::MethodType(descriptor) => ("method type", 0, descriptor.bytes()),
        Constant::Dynamic(_) => ("dynamic", 0, b""),
        Constant::Other => ("other", 0, b""),
    }
}

fn has_constant(view: &ClassView<'_>, entry: &Entry) -> bool {
    let (index, kind, number, text) = *entry;
    match view.constant(index) {
        Some(constant) => parts(&constant) == (kind, number, text),
        None => kind == "none",
    }
}

/// Whether a file is read without call sites, and has this constant.
fn is_read_with(alloc: Global, file: &[u8], entry: &Entry) -> bool {
    match read(alloc, file, 0) {
        Ok(view) => has_constant(&view, entry),
        Err(_) => false,
    }
}

#[test]
fn constants_of_a_made_class(rt: HostRuntime) {
    for entry in &MADE_CONSTANTS {
        assert!(rt;
            is_read_with(rt.alloc(), made(), entry),
            "constant {}",
            entry.0
        );
    }
}

#[test]
fn constants_of_each_kind(rt: HostRuntime) {
    for entry in &ALL_TAGS_CONSTANTS {
        assert!(rt;
            is_read_with(rt.alloc(), all_tags(), entry),
            "constant {}",
            entry.0
        );
    }
}

/// Whether the constant at an index of [`all_tags`] is the handle of an interface method.
fn has_handle(alloc: Global, index: u16) -> bool {
    let Ok(view) = read(alloc, all_tags(), 0) else {
        return false;
    };
    matches!(
        view.constant(index),
        Some(Constant::Handle(h)) if is_handle(&h, 8, b"all/Tags", b"m", 3)
    )
}

#[test]
fn a_handle(rt: HostRuntime) {
    assert!(rt; has_handle(rt.alloc(), 22));
}

/// Whether the one Dynamic entry of a view is that of [`all_tags`].
fn has_the_dynamic(view: &ClassView<'_>) -> bool {
    if view.dynamics() != 1 {
        return false;
    }
    let dynamic = view.dynamic(0);
    dynamic.index == 26
        && dynamic.bootstrap == 0
        && dynamic.name.bytes() == b"m".as_slice()
        && dynamic.descriptor.bytes() == b"I".as_slice()
}

/// Whether [`all_tags`] is read with its Dynamic entry, and the number of it.
fn is_dynamic_read(alloc: Global) -> bool {
    match read(alloc, all_tags(), 0) {
        Ok(view) => { has_the_dynamic(&view) && view.number_of(26) == 0 && view.number_of(27) == 1 }
        Err(_) => false,
    }
}

#[test]
fn a_dynamic_constant(rt: HostRuntime) {
    assert!(rt; is_dynamic_read(rt.alloc()));
}

/// Whether a file is read as one without call sites and bootstrap methods.
fn has_no_sites(alloc: Global, file: &[u8]) -> bool {
    match read(alloc, file, 0) {
        Ok(view) => view.sites() == 0 && view.bootstraps() == 0,
        Err(_) => false,
    }
}

#[test]
fn a_class_without_sites(rt: HostRuntime) {
    assert!(rt; has_no_sites(rt.alloc(), made()));
}

/// Whether a call site of `run(I)V` has this place, bootstrap method and type.
fn is_site(site: &SiteView<'_>, pc: u32, bootstrap: u16, descriptor: &[u8]) -> bool {
    site.method.bytes() == b"run".as_slice()
        && site.method_descriptor.bytes() == b"(I)V".as_slice()
        && site.pc == pc
        && site.bootstrap == bootstrap
        && site.descriptor.bytes() == descriptor
}

/// Whether the call sites of a view are those of [`demo`].
fn has_demo_sites(view: &ClassView<'_>) -> bool {
    if view.sites() != 2 {
        return false;
    }
    is_site(&view.site(0), 21, 0, b"(I)Ljava/lang/String;")
        && view.site(0).name.bytes() == b"makeConcatWithConstants".as_slice()
        && is_site(&view.site(1), 27, 1, b"()Ljava/lang/Runnable;")
}

/// Whether the bootstrap methods of a view are those of [`demo`].
fn has_demo_bootstraps(view: &ClassView<'_>) -> bool {
    if view.bootstraps() != 2 {
        return false;
    }
    let owner = b"java/lang/invoke/LambdaMetafactory";
    is_handle(&view.bootstrap(1), 6, owner, b"metafactory", 204)
        && view.arguments(0) == 1
        && view.arguments(1) == 3
}

/// Whether [`demo`] is read with its call sites and bootstrap methods.
fn is_demo_read(alloc: Global) -> bool {
    match read(alloc, demo(), 2) {
        Ok(view) => has_demo_sites(&view) && has_demo_bootstraps(&view),
        Err(_) => false,
    }
}

#[test]
fn the_sites_of_a_class(rt: HostRuntime) {
    assert!(rt; is_demo_read(rt.alloc()));
}

/// The first and the last opcode of a run of instructions of this length, by their numbers in JVMS
/// SE 17, chapter 7.
static LENGTHS: [(u8, u8, usize); 25] = [
    (0, 15, 1),
    (16, 16, 2),
    (17, 17, 3),
    (18, 18, 2),
    (19, 20, 3),
    (21, 25, 2),
    (26, 53, 1),
    (54, 58, 2),
    (59, 131, 1),
    (132, 132, 3),
    (133, 152, 1),
    (153, 168, 3),
    (169, 169, 2),
    (172, 177, 1),
    (178, 184, 3),
    (185, 185, 5),
    (187, 187, 3),
    (188, 188, 2),
    (189, 189, 3),
    (190, 191, 1),
    (192, 193, 3),
    (194, 195, 1),
    (197, 197, 4),
    (198, 199, 3),
    (200, 201, 5),
];

/// Whether instructions of these opcodes have this length.
fn have_len(alloc: Global, low: u8, high: u8, len: usize) -> Result<bool, AllocError> {
    for opcode in low..=high {
        let code = [opcode, 0, 0, 0, 0];
        if !is_whole(alloc, code.get(..len).unwrap_or(&[]), 0)? {
            return Ok(false);
        }
    }
    Ok(true)
}

#[test]
fn lengths_of_instructions(rt: HostRuntime) -> Result<(), Fail> {
    for (low, high, len) in &LENGTHS {
        assert!(rt;
            have_len(rt.alloc(), *low, *high, *len)?,
            "opcodes {low} to {high}"
        );
    }
    Ok(())
}

#[test]
fn opcodes_of_no_instruction(rt: HostRuntime) -> Result<(), Fail> {
    for opcode in 202..=255_u8 {
        assert!(rt; is_bad_at(rt.alloc(), &[opcode], 0)?, "opcode {opcode}");
    }
    Ok(())
}

/// Whether a switch with these operands is whole at `pc`. Its padding depends on its place.
fn is_whole_switch(
    alloc: Global,
    opcode: u8,
    operands: &[u8],
    pc: usize,
) -> Result<bool, AllocError> {
    let mut code = Vec::new(alloc);
    code.extend_from_slice([0; 3].get(..pc).unwrap_or(&[]))?;
    code.push(opcode)?;
    code.extend_from_slice([7; 3].get(pc..).unwrap_or(&[]))?;
    code.extend_from_slice(operands)?;
    is_whole(alloc, &code, pc)
}

#[test]
fn switches(rt: HostRuntime) -> Result<(), Fail> {
    let table = [
        0, 0, 0, 9, 0xFF, 0xFF, 0xFF, 0xFF, 0, 0, 0, 0, 0, 0, 0, 9, 0, 0, 0, 9,
    ];
    let lookup = [0, 0, 0, 9, 0, 0, 0, 1, 0, 0, 0, 5, 0, 0, 0, 9];
    for pc in 0..4_usize {
        assert!(rt;
            is_whole_switch(rt.alloc(), TABLESWITCH, &table, pc)?,
            "table at {pc}"
        );
        assert!(rt;
            is_whole_switch(rt.alloc(), LOOKUPSWITCH, &lookup, pc)?,
            "lookup at {pc}"
        );
    }
    Ok(())
}

#[test]
fn bad_instructions(rt: HostRuntime) -> Result<(), Fail> {
    let codes: [&[u8]; 3] = [
        // The low index is above the high one.
        &[TABLESWITCH, 0, 0, 0, 0, 0, 0, 9, 0, 0, 0, 1, 0, 0, 0, 0],
        // The number of pairs is negative.
        &[LOOKUPSWITCH, 0, 0, 0, 0, 0, 0, 9, 0xFF, 0xFF, 0xFF, 0xFF],
        // Nothing to be widened.
        &[WIDE, 0, 0, 0],
    ];
    for code in codes {
        assert!(rt; is_bad_at(rt.alloc(), code, 0)?, "{code:?}");
    }
    Ok(())
}

#[test]
fn wide_instructions(rt: HostRuntime) -> Result<(), Fail> {
    let codes: [&[u8]; 2] = [&[WIDE, ILOAD, 1, 0], &[WIDE, IINC, 1, 0, 0, 1]];
    for code in codes {
        assert!(rt; is_whole(rt.alloc(), code, 0)?, "{code:?}");
    }
    Ok(())
}
