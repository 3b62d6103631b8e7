ghost use Rattle.std.specs.Prelude.{◌≡◌, [], false};
ghost use Rattle.mh_class_bytes.specs.Format.{Reads, repeated};
ghost use Rattle.mh_class_pool.specs.Answers.{Gives};
ghost use Rattle.mh_classfile.specs.Members.{rows, method_attribute, member, field, method, members, interface, supertypes, class_names};

use crate::attribute_names::CODE;
use crate::attributes::{pass_contents, pass_counted_attributes, read_index};
use crate::code_attribute::read_code;
use crate::site::{Method, Sites};
use mh_class_bytes::Cursor;
use mh_class_pool::{ClassError, ClassFault, ClassKind, Kind, Pool, check_name_or_none, u2};

/// Reads an attribute of a method. `seen` and the answer say whether a `Code` was among those
/// before and with this one.
#[tactic(auto, unfolding(crate::specs::Members::method_attribute))]
fn read_attribute(
    pool: &Pool<'_>,
    method: Method,
    seen: bool,
    sites: &mut Sites,
    cursor: &mut Cursor<'_>,
) -> Result<bool, ClassError>
    ensures gives { Gives (λ code. (code, sites.new.sites)) result cursor.old cursor.new
        (method_attribute pool.now method sites.old.room (seen, sites.old.sites)) }
    ensures room { sites.new.room ≡ sites.old.room }
{
    let at = cursor.at();
    let name = read_index(ClassKind::Truncated, pool, Kind::Utf8, cursor)?;
    if !pool.is_text(name, CODE) {
        pass_contents(ClassKind::Truncated, cursor)?;
        return Ok(seen);
    }
    if seen {
        let kind = ClassKind::BadCode;
        return Err(ClassError::Fault(ClassFault { at, kind }));
    }
    read_code(pool, method, sites, cursor)?;
    Ok(true)
}

/// Reads this many attributes of a method.
fn read_attributes(
    pool: &Pool<'_>,
    method: Method,
    count: u16,
    sites: &mut Sites,
    cursor: &mut Cursor<'_>,
) -> Result<bool, ClassError>
    ensures gives { Gives (λ code. (code, sites.new.sites)) result cursor.old cursor.new
        (repeated (method_attribute pool.now method sites.old.room) count
        (false, sites.old.sites)) }
    ensures room { sites.new.room ≡ sites.old.room }
{
    let mut seen = false;
    for _ in 0..count {
        seen = read_attribute(pool, method, seen, sites, cursor)?;
    }
    Ok(seen)
}

#[tactic(auto, unfolding(crate::specs::Members::member))]
fn read_member(pool: &Pool<'_>, cursor: &mut Cursor<'_>) -> Result<Method, ClassFault>
    ensures reads { Reads (λ x. x) result cursor.old cursor.new (member pool.now) }
{
    let short = ClassKind::Truncated;
    let _flags = u2(cursor, short)?;
    let name = read_index(short, pool, Kind::Utf8, cursor)?;
    let descriptor = read_index(short, pool, Kind::Utf8, cursor)?;
    Ok(Method { name, descriptor })
}

#[tactic(auto, unfolding(crate::specs::Members::field))]
fn pass_field(pool: &Pool<'_>, cursor: &mut Cursor<'_>) -> Result<(), ClassFault>
    ensures reads { Reads (λ x. x) result cursor.old cursor.new (field pool.now) }
{
    let _names = read_member(pool, cursor)?;
    pass_counted_attributes(ClassKind::Truncated, pool, cursor)
}

fn pass_fields(pool: &Pool<'_>, count: u16, cursor: &mut Cursor<'_>) -> Result<(), ClassFault>
    ensures reads { Reads (λ x. x) result cursor.old cursor.new (rows (field pool.now) count) }
{
    for _ in 0..count {
        pass_field(pool, cursor)?;
    }
    Ok(())
}

/// Finds the call sites of the next method (JVMS SE 17, 4.6).
#[tactic(auto, unfolding(crate::specs::Members::method))]
fn read_method(
    pool: &Pool<'_>,
    sites: &mut Sites,
    cursor: &mut Cursor<'_>,
) -> Result<(), ClassError>
    ensures gives { Gives (λ _. sites.new.sites) result cursor.old cursor.new
        (method pool.now sites.old.room sites.old.sites) }
    ensures room { sites.new.room ≡ sites.old.room }
{
    let method = read_member(pool, cursor)?;
    let count = u2(cursor, ClassKind::Truncated)?;
    let _has_code = read_attributes(pool, method, count, sites, cursor)?;
    Ok(())
}

fn read_methods(
    pool: &Pool<'_>,
    count: u16,
    sites: &mut Sites,
    cursor: &mut Cursor<'_>,
) -> Result<(), ClassError>
    ensures gives { Gives (λ _. sites.new.sites) result cursor.old cursor.new
        (repeated (method pool.now sites.old.room) count sites.old.sites) }
    ensures room { sites.new.room ≡ sites.old.room }
{
    for _ in 0..count {
        read_method(pool, sites, cursor)?;
    }
    Ok(())
}

/// Reads the fields and the methods of a class, and finds the call sites.
#[tactic(auto, unfolding(crate::specs::Members::members))]
pub fn read_members(
    pool: &Pool<'_>,
    sites: &mut Sites,
    cursor: &mut Cursor<'_>,
) -> Result<(), ClassError>
    requires { sites.old.sites ≡ [] }
    ensures gives { Gives (λ _. sites.new.sites) result cursor.old cursor.new
        (members pool.now sites.old.room) }
    ensures room { sites.new.room ≡ sites.old.room }
{
    let fields = u2(cursor, ClassKind::Truncated)?;
    pass_fields(pool, fields, cursor)?;
    let methods = u2(cursor, ClassKind::Truncated)?;
    read_methods(pool, methods, sites, cursor)
}

#[tactic(auto, unfolding(crate::specs::Members::interface))]
fn pass_interface(pool: &Pool<'_>, cursor: &mut Cursor<'_>) -> Result<(), ClassFault>
    ensures reads { Reads (λ x. x) result cursor.old cursor.new (interface pool.now) }
{
    let _index = read_index(ClassKind::Truncated, pool, Kind::Class, cursor)?;
    Ok(())
}

fn pass_interfaces(pool: &Pool<'_>, count: u16, cursor: &mut Cursor<'_>) -> Result<(), ClassFault>
    ensures reads { Reads (λ x. x) result cursor.old cursor.new (rows (interface pool.now) count) }
{
    for _ in 0..count {
        pass_interface(pool, cursor)?;
    }
    Ok(())
}

/// Passes the superclass of a class and its interfaces.
fn pass_supertypes(pool: &Pool<'_>, cursor: &mut Cursor<'_>) -> Result<(), ClassFault>
    ensures reads { Reads (λ x. x) result cursor.old cursor.new (supertypes pool.now) }
{
    let at = cursor.at();
    let superclass = u2(cursor, ClassKind::Truncated)?;
    check_name_or_none(pool, Kind::Class, superclass, at)?;
    let interfaces = u2(cursor, ClassKind::Truncated)?;
    pass_interfaces(pool, interfaces, cursor)
}

/// Passes the flags of a class, its name, its superclass and its interfaces.
#[tactic(auto, unfolding(crate::specs::Members::class_names))]
pub fn pass_class_names(pool: &Pool<'_>, cursor: &mut Cursor<'_>) -> Result<(), ClassFault>
    ensures reads { Reads (λ x. x) result cursor.old cursor.new (class_names pool.now) }
{
    let short = ClassKind::Truncated;
    let _flags = u2(cursor, short)?;
    let _this = read_index(short, pool, Kind::Class, cursor)?;
    pass_supertypes(pool, cursor)
}
