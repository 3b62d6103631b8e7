ghost use Rattle.std.specs.Prelude.{◌≡◌, ◌<◌, ◌≤◌, length, OnOk, IfOk, Ok};
ghost use Rattle.mh_class_bytes.specs.Format.{Judges, Reads};
ghost use Rattle.mh_class_pool.specs.Answers.{Yields};
ghost use Rattle.mh_class_pool.specs.Entries.{slot};
ghost use Rattle.mh_class_pool.specs.References.{each};
ghost use Rattle.mh_classfile.specs.Rows.{closed_of};
ghost use Rattle.mh_classfile.specs.Class.{Class, HasBootstraps, HasDynamics};
ghost use Rattle.mh_classfile.specs.File.{header, has_bootstrap, rows_or_none, class_end, class_rest, class_body, class_read, IsClassFile, class_or_fault, IsEither};

use crate::attributes::check_filled;
use crate::bootstraps::Bootstraps;
use crate::class_attributes::read_class_attributes;
use crate::members::{pass_class_names, read_members};
use crate::site::Sites;
use crate::view::ClassView;
use mh_class_bytes::Cursor;
use mh_class_pool::{
    ClassError, ClassFault, ClassKind, Entry, Pool, check_pool, read_pool, u2, u4,
};
use std::alloc::Global;

/// What a class file begins with (JVMS SE 17, 4.1).
const MAGIC: u32 = 0xCAFE_BABE;

/// The major version of the oldest class files, of JDK 1.1 (4.1, table 4.1-A).
const OLDEST_MAJOR: u16 = 45;

/// The major version of the newest class files that are read, of Java SE 21.
const NEWEST_MAJOR: u16 = 65;

/// Magic and versions, and the count of the pool.
#[tactic(auto, unfolding(crate::specs::File::header))]
fn read_header(cursor: &mut Cursor<'_>) -> Result<u16, ClassFault>
    ensures reads { Reads (λ x. x) result cursor.old cursor.new header }
    ensures inside { OnOk result (0 < cursor.new.at) }
{
    let short = ClassKind::Truncated;
    let start = cursor.at();
    if u4(cursor, short)? != MAGIC {
        let kind = ClassKind::BadMagic;
        return Err(ClassFault { at: start, kind });
    }
    let _minor = u2(cursor, short)?;
    let at = cursor.at();
    let major = u2(cursor, short)?;
    if !(OLDEST_MAJOR..=NEWEST_MAJOR).contains(&major) {
        let kind = ClassKind::BadVersion;
        return Err(ClassFault { at, kind });
    }
    let at = cursor.at();
    let count = u2(cursor, short)?;
    if count == 0 {
        let kind = ClassKind::BadIndex;
        return Err(ClassFault { at, kind });
    }
    Ok(count)
}

#[tactic(auto, unfolding(crate::specs::File::has_bootstrap))]
fn check_bootstrap(pool: &Pool<'_>, count: u16, index: usize) -> Result<(), ClassFault>
    ensures { Judges (λ x. x) result (has_bootstrap count (slot pool.now index)) }
{
    match pool.get(index) {
        Some((at, Entry::InvokeDynamic(bootstrap, _) | Entry::Dynamic(bootstrap, _))) => {
            if bootstrap < count {
                Ok(())
            } else {
                let kind = ClassKind::BadBootstraps;
                Err(ClassFault { at, kind })
            }
        }
        _ => Ok(()),
    }
}

fn check_bootstraps(pool: &Pool<'_>, count: u16) -> Result<(), ClassFault>
    ensures { Judges (λ x. x) result (each (has_bootstrap count) pool.now) }
{
    for index in 0..pool.len() {
        check_bootstrap(pool, count, index)?;
    }
    Ok(())
}

fn methods_or_none(alloc: Global, found: Option<Bootstraps>) -> Bootstraps
    ensures { result.closed ≡ rows_or_none (closed_of found) }
{
    match found {
        Some(methods) => methods,
        None => Bootstraps::new(alloc),
    }
}

/// The class of a file of this many bytes, which was read up to a cursor.
fn read_end<'b>(
    pool: Pool<'b>,
    sites: Sites,
    bootstraps: Bootstraps,
    total: usize,
    cursor: &Cursor<'b>,
) -> Result<ClassView<'b>, ClassError>
    ensures { Yields (λ v. v) result
        (class_read (class_end pool.entry sites.sites bootstraps.closed total) cursor.now) }
{
    check_filled(cursor.at(), total, ClassKind::Trailing)?;
    check_bootstraps(&pool, bootstraps.len())?;
    Ok(ClassView {
        pool,
        sites,
        bootstraps,
    })
}

/// The class whose attributes stand at a cursor, after its members.
fn read_rest<'b>(
    alloc: Global,
    pool: Pool<'b>,
    sites: Sites,
    total: usize,
    mut cursor: Cursor<'b>,
) -> Result<ClassView<'b>, ClassError>
    ensures { Yields (λ v. v) result
        (class_read (class_rest pool.entry sites.sites total) cursor.entry) }
{
    let found = read_class_attributes(alloc, &pool, &mut cursor)?;
    let bootstraps = methods_or_none(alloc, found);
    read_end(pool, sites, bootstraps, total, &cursor)
}

/// The class whose flags and names stand at a cursor, after the pool.
fn read_body<'b>(
    alloc: Global,
    pool: Pool<'b>,
    room: u32,
    total: usize,
    mut cursor: Cursor<'b>,
) -> Result<ClassView<'b>, ClassError>
    ensures { Yields (λ v. v) result (class_read (class_body pool.entry room total) cursor.entry) }
{
    pass_class_names(&pool, &mut cursor)?;
    let mut sites = Sites::new(alloc, room);
    read_members(&pool, &mut sites, &mut cursor)?;
    read_rest(alloc, pool, sites, total, cursor)
}

#[tactic(auto, unfolding(crate::specs::File::class_file))]
fn read_exact<'b>(alloc: Global, bytes: &'b [u8], room: u32) -> Result<ClassView<'b>, ClassError>
    ensures { Yields (λ v. v) result (class_or_fault room bytes.now) }
{
    let mut cursor = Cursor::new(bytes);
    let count = read_header(&mut cursor)?;
    let pool = read_pool(alloc, count, &mut cursor)?;
    check_pool(alloc, &pool)?;
    read_body(alloc, pool, room, bytes.len(), cursor)
}

/// The class that the bytes are, as a view of them, if it has at most `room` call sites. Otherwise
/// the first condition, in the order of reading, that does not hold (JVMS SE 17, 4.1). It does not
/// look at flags, the spelling of names, or the descriptors of fields and methods. Nor does it look
/// at attributes except `Code` and `BootstrapMethods`, at what exception entries name, at whether a
/// method should have code, or at what verification adds (4.8 to 4.10).
pub fn read<'b>(alloc: Global, bytes: &'b [u8], room: u32) -> Result<ClassView<'b>, ClassError>
    // A view is the class of a class file.
    ensures found { IfOk result (λ v. IsClassFile room bytes.now v) }

    // Each of its call sites has its bootstrap method.
    ensures bootstraps { IfOk result (λ v. HasBootstraps v) }

    // Each Dynamic entry that a bootstrap method is given is one of the class's.
    ensures dynamics { IfOk result (λ v. HasDynamics v) }

    // They are no more than there is room for.
    ensures few { IfOk result (λ v. length v.sites ≤ room) }

    // A class file is accepted, unless memory runs out.
    ensures only { (c : Class) → IsClassFile room bytes.now c → Yields (λ v. v) result (Ok c) }

    // A fault is the first one, with its place and kind.
    ensures exact { Yields (λ v. v) result (class_or_fault room bytes.now) }

    // There is one class, or a fault, and not both.
    ensures either { IsEither room bytes.now }
{
    read_exact(alloc, bytes, room)
}
