ghost use Rattle.std.specs.Prelude.{◌≡◌, ◌≤◌, ◌<◌, ◌+◌, ◌-◌, ◌*◌, ◌^◌, length, nat_lt, [], ◌∷◌, ◌++◌, OnOk, IfOk, IsTrue, IsSome};
ghost use Rattle.std.specs.Option.{option_to_list};
ghost use Rattle.mh_class_bytes.specs.Format.{Reads};
ghost use Rattle.mh_class_pool.specs.Answers.{Gives};
ghost use Rattle.mh_classfile.specs.Code.{is_local, fixed_len, raised, padding, table, table_switch, lookup_switch, wide, passed, ordinary, operands, call_site, instruction, code_sites};

use crate::opcodes::{
    ALOAD, ANEWARRAY, ARRAYLENGTH, ASTORE, ATHROW, BIPUSH, CHECKCAST, DCMPG, DCONST_1, GETSTATIC,
    GOTO_W, I2L, IFEQ, IFNONNULL, IFNULL, IINC, ILOAD, ILOAD_0, INSTANCEOF, INVOKEDYNAMIC,
    INVOKEINTERFACE, INVOKESTATIC, IRETURN, ISTORE, ISTORE_0, JSR, JSR_W, LDC, LDC_W, LDC2_W,
    LOOKUPSWITCH, LXOR, MONITORENTER, MONITOREXIT, MULTIANEWARRAY, NEW, NEWARRAY, NOP, RET, RETURN,
    SALOAD, SIPUSH, TABLESWITCH, WIDE,
};
use crate::site::{MethodCode, Site, Sites};
use mh_class_bytes::Cursor;
use mh_class_pool::{ClassError, ClassFault, ClassKind, Kind, check_name, run, u1, u2, u4};

fn is_local(opcode: u8) -> bool
    ensures { result ≡ is_local opcode }
{
    matches!(opcode, ILOAD..=ALOAD | ISTORE..=ASTORE | RET)
}

/// How many bytes an instruction of fixed length takes, with its opcode; 0 for the others
/// (JVMS SE 17, 6.5).
fn fixed_len(opcode: u8) -> usize
    ensures { result ≡ fixed_len opcode }
{
    match opcode {
        NOP..=DCONST_1
        | ILOAD_0..=SALOAD
        | ISTORE_0..=LXOR
        | I2L..=DCMPG
        | IRETURN..=RETURN
        | ARRAYLENGTH
        | ATHROW
        | MONITORENTER
        | MONITOREXIT => 1,
        BIPUSH | LDC | ILOAD..=ALOAD | ISTORE..=ASTORE | RET | NEWARRAY => 2,
        SIPUSH
        | LDC_W
        | LDC2_W
        | IINC
        | IFEQ..=JSR
        | GETSTATIC..=INVOKESTATIC
        | NEW
        | ANEWARRAY
        | CHECKCAST
        | INSTANCEOF
        | IFNULL
        | IFNONNULL => 3,
        MULTIANEWARRAY => 4,
        INVOKEINTERFACE | GOTO_W | JSR_W => 5,
        _ => 0,
    }
}

/// How many bytes there are from the one after an opcode at `at` to the next place that is a
/// multiple of 4, counted from the code's start.
fn padding(start: usize, at: usize) -> usize
    requires { start ≤ at }
    ensures { result ≡ padding start at }
{
    3 - (at - start) % 4
}

/// A signed number, raised by 2 ^ 31, so that its order is that of the numbers.
fn raised(number: u32) -> u32
    ensures { result ≡ raised number }
{
    number.wrapping_add(0x8000_0000)
}

/// Passes four bytes for each number from `low` to `high`.
#[tactic(auto, unfolding(crate::specs::Code::passed))]
fn pass_entries(low: u32, high: u32, cursor: &mut Cursor<'_>) -> Result<(), ClassFault>
    requires { low ≤ high }
    ensures reads { Reads (λ x. x) result cursor.old cursor.new (passed (4 * (high - low + 1))) }
{
    pass(4 * ((high - low) as usize + 1), cursor)
}

/// Passes the lowest and the highest number of a `tableswitch`, and its entries.
fn pass_table(at: usize, cursor: &mut Cursor<'_>) -> Result<(), ClassFault>
    ensures reads { Reads (λ x. x) result cursor.old cursor.new (table at) }
{
    let kind = ClassKind::BadCode;
    let low = raised(u4(cursor, kind)?);
    let high = raised(u4(cursor, kind)?);
    if low > high {
        return Err(ClassFault { at, kind });
    }
    pass_entries(low, high, cursor)
}

#[tactic(auto, unfolding(crate::specs::Code::table_switch))]
fn pass_table_switch(start: usize, at: usize, cursor: &mut Cursor<'_>) -> Result<(), ClassFault>
    requires { start ≤ at }
    ensures reads { Reads (λ x. x) result cursor.old cursor.new (table_switch start at) }
{
    let kind = ClassKind::BadCode;
    let _padding = run(cursor, padding(start, at), kind)?;
    let _default = u4(cursor, kind)?;
    pass_table(at, cursor)
}

#[tactic(auto, unfolding(crate::specs::Code::lookup_switch))]
fn pass_lookup_switch(start: usize, at: usize, cursor: &mut Cursor<'_>) -> Result<(), ClassFault>
    requires { start ≤ at }
    ensures reads { Reads (λ x. x) result cursor.old cursor.new (lookup_switch start at) }
{
    let kind = ClassKind::BadCode;
    let _padding = run(cursor, padding(start, at), kind)?;
    let _default = u4(cursor, kind)?;
    let pairs = u4(cursor, kind)?;
    if pairs >= 0x8000_0000 {
        return Err(ClassFault { at, kind });
    }
    let _entries = run(cursor, 8 * pairs as usize, kind)?;
    Ok(())
}

/// Passes over this many bytes of code.
#[tactic(auto, unfolding(crate::specs::Code::passed))]
pub fn pass(len: usize, cursor: &mut Cursor<'_>) -> Result<(), ClassFault>
    ensures reads { Reads (λ x. x) result cursor.old cursor.new (passed len) }
{
    let _bytes = run(cursor, len, ClassKind::BadCode)?;
    Ok(())
}

#[tactic(auto, unfolding(crate::specs::Code::wide))]
fn pass_wide(at: usize, cursor: &mut Cursor<'_>) -> Result<(), ClassFault>
    ensures reads { Reads (λ x. x) result cursor.old cursor.new (wide at) }
{
    let kind = ClassKind::BadCode;
    let opcode = u1(cursor, kind)?;
    if opcode == IINC {
        pass(4, cursor)
    } else if is_local(opcode) {
        pass(2, cursor)
    } else {
        Err(ClassFault { at, kind })
    }
}

/// Passes an instruction but `invokedynamic`, after its opcode.
#[tactic(auto, unfolding(crate::specs::Code::ordinary))]
fn pass_ordinary(
    opcode: u8,
    start: usize,
    at: usize,
    cursor: &mut Cursor<'_>,
) -> Result<(), ClassFault>
    requires { start ≤ at }
    ensures reads { Reads (λ x. x) result cursor.old cursor.new (ordinary opcode start at) }
{
    let kind = ClassKind::BadCode;
    let passed = match opcode {
        TABLESWITCH => pass_table_switch(start, at, cursor),
        LOOKUPSWITCH => pass_lookup_switch(start, at, cursor),
        WIDE => pass_wide(at, cursor),
        _ => {
            let len = fixed_len(opcode);
            if len == 0 {
                return Err(ClassFault { at, kind });
            }
            pass(len - 1, cursor)
        }
    };
    match passed {
        Ok(()) => Ok(()),
        Err(_) => Err(ClassFault { at, kind }),
    }
}

#[tactic(auto, unfolding(crate::specs::Code::operands))]
fn read_operands(cursor: &mut Cursor<'_>) -> Result<(u16, u16), ClassFault>
    ensures reads { Reads (λ x. x) result cursor.old cursor.new operands }
{
    let index = u2(cursor, ClassKind::BadCode)?;
    let zeros = u2(cursor, ClassKind::BadCode)?;
    Ok((index, zeros))
}

/// The call site of an `invokedynamic`, after its opcode.
#[tactic(auto, unfolding(crate::specs::Code::call_site))]
fn read_call_site(
    code: &MethodCode<'_, '_>,
    has_room: bool,
    at: usize,
    cursor: &mut Cursor<'_>,
) -> Result<Site, ClassFault>
    requires begun { code.now.start ≤ at }
    requires near { at < code.now.start + 2 ^ 16 }
    ensures reads { Reads (λ x. x) result cursor.old cursor.new
        (call_site code.now.pool.now code.now.method has_room code.now.start at) }
    ensures room { OnOk result (IsTrue has_room) }
{
    let kind = ClassKind::BadCode;
    let Ok((index, zeros)) = read_operands(cursor) else {
        return Err(ClassFault { at, kind });
    };
    check_name(code.pool, Kind::InvokeDynamic, index, at)?;
    if zeros != 0 {
        return Err(ClassFault { at, kind });
    }
    if !has_room {
        let kind = ClassKind::TooManySites;
        return Err(ClassFault { at, kind });
    }
    let pc = (at - code.start) as u32;
    Ok(Site {
        method: code.method,
        pc,
        index,
    })
}

/// The next instruction: its call site, if it is one.
#[tactic(auto, unfolding(crate::specs::Code::instruction))]
fn read_instruction(
    code: &MethodCode<'_, '_>,
    has_room: bool,
    cursor: &mut Cursor<'_>,
) -> Result<Option<Site>, ClassFault>
    requires begun { code.now.start ≤ cursor.old.at }
    requires near { cursor.old.at < code.now.start + 2 ^ 16 }
    ensures reads { Reads option_to_list result cursor.old cursor.new
        (instruction code.now.pool.now code.now.method has_room code.now.start) }
    ensures onward { OnOk result (cursor.old.at < cursor.new.at) }
    ensures room { IfOk result (λ found. IsSome found → IsTrue has_room) }
{
    let at = cursor.at();
    let opcode = u1(cursor, ClassKind::BadCode)?;
    if opcode == INVOKEDYNAMIC {
        let site = read_call_site(code, has_room, at, cursor)?;
        return Ok(Some(site));
    }
    pass_ordinary(opcode, code.start, at, cursor)?;
    Ok(None)
}

/// Finds the call sites of code from a start to an end, after those before it.
pub fn read_sites(
    code: &MethodCode<'_, '_>,
    end: usize,
    sites: &mut Sites,
    cursor: &mut Cursor<'_>,
) -> Result<(), ClassError>
    requires begun { code.now.start ≤ cursor.old.at }
    requires near { end ≤ code.now.start + 2 ^ 16 }
    ensures gives { Gives (λ _. sites.new.sites) result cursor.old cursor.new
        (code_sites code.now.pool.now code.now.method sites.old.room code.now.start end
        sites.old.sites) }
    ensures room { sites.new.room ≡ sites.old.room }
{
    'instructions: while cursor.at() < end {
        let has_room = sites.has_room();
        if let Some(site) = read_instruction(code, has_room, cursor)? {
            sites.push(site)?;
        }
    }
    Ok(())
}
