ghost use Rattle.std.specs.Prelude.{◌≡◌, ◌==◌, if◌then◌else◌, Ok, Err};
ghost use Rattle.mh_class_bytes.specs.Format.{Judges, Reads};
ghost use Rattle.mh_classfile.specs.Members.{named_index, passed_contents, attribute, attributes, counted_attributes};

use mh_class_bytes::Cursor;
use mh_class_pool::{ClassFault, ClassKind, Kind, Pool, check_name, run, u2, u4};

/// An index that names an entry of the kind.
#[tactic(auto, unfolding(crate::specs::Members::named_index))]
pub fn read_index(
    short: ClassKind,
    pool: &Pool<'_>,
    kind: Kind,
    cursor: &mut Cursor<'_>,
) -> Result<u16, ClassFault>
    ensures reads { Reads (λ x. x) result cursor.old cursor.new (named_index short pool.now kind) }
{
    let at = cursor.at();
    let index = u2(cursor, short)?;
    check_name(pool, kind, index, at)?;
    Ok(index)
}

/// Passes the contents of an attribute, by their length.
#[tactic(auto, unfolding(crate::specs::Members::passed_contents))]
pub fn pass_contents(short: ClassKind, cursor: &mut Cursor<'_>) -> Result<(), ClassFault>
    ensures reads { Reads (λ x. x) result cursor.old cursor.new (passed_contents short) }
{
    let len = u4(cursor, short)?;
    let _contents = run(cursor, len as usize, short)?;
    Ok(())
}

#[tactic(auto, unfolding(crate::specs::Members::attribute))]
fn pass_attribute(
    short: ClassKind,
    pool: &Pool<'_>,
    cursor: &mut Cursor<'_>,
) -> Result<(), ClassFault>
    ensures reads { Reads (λ x. x) result cursor.old cursor.new (attribute short pool.now) }
{
    let _name = read_index(short, pool, Kind::Utf8, cursor)?;
    pass_contents(short, cursor)
}

/// Passes over this many attributes.
fn pass_attributes(
    short: ClassKind,
    pool: &Pool<'_>,
    count: u16,
    cursor: &mut Cursor<'_>,
) -> Result<(), ClassFault>
    ensures reads { Reads (λ x. x) result cursor.old cursor.new (attributes short pool.now count) }
{
    for _ in 0..count {
        pass_attribute(short, pool, cursor)?;
    }
    Ok(())
}

/// Passes attributes, after their number.
pub fn pass_counted_attributes(
    short: ClassKind,
    pool: &Pool<'_>,
    cursor: &mut Cursor<'_>,
) -> Result<(), ClassFault>
    ensures reads { Reads (λ x. x) result cursor.old cursor.new
        (counted_attributes short pool.now) }
{
    let count = u2(cursor, short)?;
    pass_attributes(short, pool, count, cursor)
}

/// That the file, or a part of it, was read to its end.
pub fn check_filled(at: usize, end: usize, kind: ClassKind) -> Result<(), ClassFault>
    ensures { Judges (λ x. x) result
        (if at == end then Ok tt else Err (record { at = at; kind = kind })) }
{
    if at == end {
        Ok(())
    } else {
        Err(ClassFault { at, kind })
    }
}
