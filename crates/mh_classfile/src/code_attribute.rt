ghost use Rattle.std.specs.Prelude.{◌≡◌, ◌≤◌, ◌+◌, ◌^◌};
ghost use Rattle.mh_class_bytes.specs.Format.{Reads};
ghost use Rattle.mh_class_pool.specs.Answers.{Gives, Yields};
ghost use Rattle.mh_class_pool.specs.declared.fault.ClassKind.TheVariants.{BadCode};
ghost use Rattle.mh_classfile.specs.Code.{passed, code_sites};
ghost use Rattle.mh_classfile.specs.Members.{between, rows, code_bytes, code_tail, code_contents, code_attribute};

use crate::attributes::{check_filled, pass_counted_attributes};
use crate::code::{pass, read_sites};
use crate::site::{Method, MethodCode, Sites};
use mh_class_bytes::Cursor;
use mh_class_pool::{ClassError, ClassFault, ClassKind, Pool, run, u2, u4};

/// The most bytes that the code of a method may have (JVMS SE 17, 4.7.3).
const MOST_BYTES: u32 = 65_535;

/// How many bytes an exception entry takes (4.7.3).
const HANDLER_LEN: usize = 8;

/// Passes over this many exception entries.
fn pass_handlers(count: u16, cursor: &mut Cursor<'_>) -> Result<(), ClassFault>
    ensures reads { Reads (λ x. x) result cursor.old cursor.new (rows (passed 8) count) }
{
    for _ in 0..count {
        pass(HANDLER_LEN, cursor)?;
    }
    Ok(())
}

/// Finds the call sites of the code up to a cursor.
fn read_code_between(
    code: &MethodCode<'_, '_>,
    sites: &mut Sites,
    end: &Cursor<'_>,
) -> Result<(), ClassError>
    requires begun { code.now.start ≤ end.now.at }
    requires near { end.now.at ≤ code.now.start + 2 ^ 16 }
    ensures gives { Yields (λ _. (sites.new.sites, end.now)) result
        (between code.now.start BadCode
        (code_sites code.now.pool.now code.now.method sites.old.room code.now.start end.now.at
        sites.old.sites) end.now) }
    ensures room { sites.new.room ≡ sites.old.room }
{
    let to = end.at();
    let mut cursor = Cursor::resume(&end.whole()[..to], code.start);
    read_sites(code, to, sites, &mut cursor)?;
    check_filled(cursor.at(), to, ClassKind::BadCode)?;
    Ok(())
}

#[tactic(auto, unfolding(crate::specs::Members::code_bytes))]
fn read_code_bytes(
    pool: &Pool<'_>,
    method: Method,
    sites: &mut Sites,
    cursor: &mut Cursor<'_>,
) -> Result<(), ClassError>
    ensures gives { Gives (λ _. sites.new.sites) result cursor.old cursor.new
        (code_bytes pool.now method sites.old.room sites.old.sites) }
    ensures room { sites.new.room ≡ sites.old.room }
{
    let kind = ClassKind::BadCode;
    let at = cursor.at();
    let len = u4(cursor, kind)?;
    if len == 0 || len > MOST_BYTES {
        return Err(ClassError::Fault(ClassFault { at, kind }));
    }
    let start = cursor.at();
    let _code = run(cursor, len as usize, kind)?;
    let code = MethodCode {
        pool,
        method,
        start,
    };
    read_code_between(&code, sites, cursor)
}

#[tactic(auto, unfolding(crate::specs::Members::code_tail))]
fn pass_code_tail(pool: &Pool<'_>, cursor: &mut Cursor<'_>) -> Result<(), ClassFault>
    ensures reads { Reads (λ x. x) result cursor.old cursor.new (code_tail pool.now) }
{
    let kind = ClassKind::BadCode;
    let handlers = u2(cursor, kind)?;
    pass_handlers(handlers, cursor)?;
    pass_counted_attributes(kind, pool, cursor)
}

#[tactic(auto, unfolding(crate::specs::Members::code_contents))]
fn read_code_contents(
    pool: &Pool<'_>,
    method: Method,
    sites: &mut Sites,
    cursor: &mut Cursor<'_>,
) -> Result<(), ClassError>
    ensures gives { Gives (λ _. sites.new.sites) result cursor.old cursor.new
        (code_contents pool.now method sites.old.room sites.old.sites) }
    ensures room { sites.new.room ≡ sites.old.room }
{
    let kind = ClassKind::BadCode;
    let _max_stack = u2(cursor, kind)?;
    let _max_locals = u2(cursor, kind)?;
    read_code_bytes(pool, method, sites, cursor)?;
    pass_code_tail(pool, cursor)?;
    Ok(())
}

/// Finds the call sites of the contents of a `Code` attribute, between a place and the cursor.
fn read_contents_between(
    pool: &Pool<'_>,
    method: Method,
    sites: &mut Sites,
    begin: usize,
    end: &Cursor<'_>,
) -> Result<(), ClassError>
    requires { begin ≤ end.now.at }
    ensures gives { Yields (λ _. (sites.new.sites, end.now)) result
        (between begin BadCode
        (code_contents pool.now method sites.old.room sites.old.sites) end.now) }
    ensures room { sites.new.room ≡ sites.old.room }
{
    let to = end.at();
    let mut contents = Cursor::resume(&end.whole()[..to], begin);
    read_code_contents(pool, method, sites, &mut contents)?;
    check_filled(contents.at(), to, ClassKind::BadCode)?;
    Ok(())
}

/// Finds the call sites of a `Code` attribute, after its name (JVMS SE 17, 4.7.3).
#[tactic(auto, unfolding(crate::specs::Members::code_attribute))]
pub fn read_code(
    pool: &Pool<'_>,
    method: Method,
    sites: &mut Sites,
    cursor: &mut Cursor<'_>,
) -> Result<(), ClassError>
    ensures gives { Gives (λ _. sites.new.sites) result cursor.old cursor.new
        (code_attribute pool.now method sites.old.room sites.old.sites) }
    ensures room { sites.new.room ≡ sites.old.room }
{
    let len = u4(cursor, ClassKind::Truncated)?;
    let begin = cursor.at();
    let _contents = run(cursor, len as usize, ClassKind::Truncated)?;
    read_contents_between(pool, method, sites, begin, cursor)
}
