ghost use Rattle.std.specs.Prelude.{◌≡◌, [], ◌+◌, ◌<◌, ◌^◌, length, OnOk, None};
ghost use Rattle.mh_class_bytes.specs.Format.{listed, times, repeated};
ghost use Rattle.mh_class_pool.specs.Answers.{Gives};
ghost use Rattle.mh_class_pool.specs.declared.entry.Kind.TheVariants.{Argument};
ghost use Rattle.mh_class_pool.specs.declared.fault.ClassKind.TheVariants.{BadBootstraps};
ghost use Rattle.mh_classfile.specs.Members.{named_index};
ghost use Rattle.mh_classfile.specs.Rows.{closed_of};
ghost use Rattle.mh_classfile.specs.Bootstraps.{bootstrap, bootstraps, bootstraps_attribute, class_attribute, class_attributes};

use crate::attribute_names::BOOTSTRAP_METHODS;
use crate::attributes::{check_filled, pass_contents, read_index};
use crate::bootstraps::Bootstraps;
use mh_class_bytes::Cursor;
use mh_class_pool::{ClassError, ClassFault, ClassKind, Kind, Pool, run, u2, u4};
use std::alloc::Global;

/// Reads this many static arguments.
fn read_arguments(
    pool: &Pool<'_>,
    count: u16,
    methods: &mut Bootstraps,
    cursor: &mut Cursor<'_>,
) -> Result<(), ClassError>
    requires { methods.old.begun ≡ [] }
    ensures gives { Gives (λ _. methods.new.begun) result cursor.old cursor.new
        (times (named_index BadBootstraps pool.now Argument) count) }
    ensures closed { methods.new.closed ≡ methods.old.closed }
    ensures count { OnOk result (length methods.new.begun ≡ count) }
{
    for _ in 0..count {
        let argument = read_index(ClassKind::BadBootstraps, pool, Kind::Argument, cursor)?;
        methods.push(argument)?;
    }
    Ok(())
}

/// Reads a bootstrap method, and puts it after those before it.
#[tactic(auto, unfolding(crate::specs::Bootstraps::bootstrap))]
fn read_bootstrap(
    pool: &Pool<'_>,
    methods: &mut Bootstraps,
    cursor: &mut Cursor<'_>,
) -> Result<(), ClassError>
    requires begun { methods.old.begun ≡ [] }
    requires few { length methods.old.closed + 1 < 2 ^ 16 }
    ensures gives { Gives (λ _. methods.new.closed) result cursor.old cursor.new
        (listed (bootstrap pool.now) methods.old.closed) }
    ensures begun { OnOk result (methods.new.begun ≡ []) }
    ensures count { OnOk result (length methods.new.closed ≡ length methods.old.closed + 1) }
{
    let handle = read_index(ClassKind::BadBootstraps, pool, Kind::MethodHandle, cursor)?;
    let count = u2(cursor, ClassKind::BadBootstraps)?;
    read_arguments(pool, count, methods, cursor)?;
    methods.close(handle, count)?;
    Ok(())
}

fn read_methods(
    alloc: Global,
    pool: &Pool<'_>,
    count: u16,
    cursor: &mut Cursor<'_>,
) -> Result<Bootstraps, ClassError>
    ensures gives { Gives (λ b. b.closed) result cursor.old cursor.new
        (times (bootstrap pool.now) count) }
{
    let mut methods = Bootstraps::new(alloc);
    for _ in 0..count {
        read_bootstrap(pool, &mut methods, cursor)?;
    }
    Ok(methods)
}

#[tactic(auto, unfolding(crate::specs::Bootstraps::bootstraps))]
fn read_bootstraps(
    alloc: Global,
    pool: &Pool<'_>,
    cursor: &mut Cursor<'_>,
) -> Result<Bootstraps, ClassError>
    ensures gives { Gives (λ b. b.closed) result cursor.old cursor.new (bootstraps pool.now) }
{
    let count = u2(cursor, ClassKind::BadBootstraps)?;
    read_methods(alloc, pool, count, cursor)
}

/// Reads a `BootstrapMethods` attribute, after its name (JVMS SE 17, 4.7.23).
#[tactic(auto, unfolding(crate::specs::Bootstraps::bootstraps_attribute))]
fn read_bootstraps_attribute(
    alloc: Global,
    pool: &Pool<'_>,
    cursor: &mut Cursor<'_>,
) -> Result<Bootstraps, ClassError>
    ensures gives { Gives (λ b. b.closed) result cursor.old cursor.new
        (bootstraps_attribute pool.now) }
{
    let len = u4(cursor, ClassKind::Truncated)?;
    let begin = cursor.at();
    let _contents = run(cursor, len as usize, ClassKind::Truncated)?;
    let end = cursor.at();
    let mut contents = Cursor::resume(&cursor.whole()[..end], begin);
    let methods = read_bootstraps(alloc, pool, &mut contents)?;
    check_filled(contents.at(), end, ClassKind::BadBootstraps)?;
    Ok(methods)
}

/// Reads an attribute of a class, with the bootstrap methods among those before it.
#[tactic(auto, unfolding(crate::specs::Bootstraps::class_attribute))]
fn read_class_attribute(
    alloc: Global,
    pool: &Pool<'_>,
    so_far: Option<Bootstraps>,
    cursor: &mut Cursor<'_>,
) -> Result<Option<Bootstraps>, ClassError>
    ensures gives { Gives closed_of result cursor.old cursor.new
        (class_attribute pool.now (closed_of so_far)) }
{
    let at = cursor.at();
    let name = read_index(ClassKind::Truncated, pool, Kind::Utf8, cursor)?;
    if !pool.is_text(name, BOOTSTRAP_METHODS) {
        pass_contents(ClassKind::Truncated, cursor)?;
        return Ok(so_far);
    }
    if so_far.is_some() {
        let kind = ClassKind::BadBootstraps;
        return Err(ClassError::Fault(ClassFault { at, kind }));
    }
    Ok(Some(read_bootstraps_attribute(alloc, pool, cursor)?))
}

fn read_attributes(
    alloc: Global,
    pool: &Pool<'_>,
    count: u16,
    cursor: &mut Cursor<'_>,
) -> Result<Option<Bootstraps>, ClassError>
    ensures gives { Gives closed_of result cursor.old cursor.new
        (repeated (class_attribute pool.now) count None) }
{
    let mut found = None;
    for _ in 0..count {
        found = read_class_attribute(alloc, pool, found, cursor)?;
    }
    Ok(found)
}

/// Reads the attributes of a class: its bootstrap methods, if it has some.
#[tactic(auto, unfolding(crate::specs::Bootstraps::class_attributes))]
pub fn read_class_attributes(
    alloc: Global,
    pool: &Pool<'_>,
    cursor: &mut Cursor<'_>,
) -> Result<Option<Bootstraps>, ClassError>
    ensures gives { Gives closed_of result cursor.old cursor.new (class_attributes pool.now) }
{
    let count = u2(cursor, ClassKind::Truncated)?;
    read_attributes(alloc, pool, count, cursor)
}
