ghost use Rattle.std.specs.Prelude.{◌≡◌};
ghost use Rattle.mh_class_bytes.specs.Format.{Reads};
ghost use Rattle.mh_class_pool.specs.Entries.{utf8_bytes, utf8, numeric, named, paired, handle, contents, entry, is_wide_tag, is_wide, is_dynamic, is_argument, is_kind};

use crate::fault::{ClassFault, ClassKind};
use crate::numbers::{run, u1, u2, u4};
use crate::tags;
use mh_class_bytes::{Cursor, Text, mutf8_check};

/// An entry of the constant pool (JVMS SE 17, 4.4). The numbers are indexes of the pool, with four
/// exceptions: `Integer`, the two halves of a `Long`, high first, the kind of a `MethodHandle`, and
/// the first number of a `Dynamic` or an `InvokeDynamic`. The latter counts bootstrap methods.
#[derive(Debug, Drop)]
pub enum Entry<'b> {
    Utf8(Text<'b>),
    Integer(u32),
    Float,
    Long(u32, u32),
    Double,
    Class(u16),
    Str(u16),
    Fieldref(u16, u16),
    Methodref(u16, u16),
    InterfaceMethodref(u16, u16),
    NameAndType(u16, u16),
    MethodHandle(u8, u16),
    MethodType(u16),
    Dynamic(u16, u16),
    InvokeDynamic(u16, u16),
    Module(u16),
    Package(u16),
}

/// What a reference may name.
#[derive(Clone, Copy, Debug, PartialEq, Eq)]
pub enum Kind {
    Utf8,
    Class,
    Fieldref,
    Methodref,
    InterfaceMethodref,
    /// A method of a class or of an interface.
    AnyMethodref,
    NameAndType,
    MethodHandle,
    InvokeDynamic,
    /// What a bootstrap method may be given (4.7.23, loadable by 4.4).
    Argument,
}

impl<'b> Entry<'b> {
    /// The same entry; its text is borrowed once more.
    pub fn copy(&self) -> Entry<'b>
        ensures { result ≡ self.now }
    {
        match self {
            Entry::Utf8(text) => Entry::Utf8(text.copy()),
            Entry::Integer(number) => Entry::Integer(*number),
            Entry::Float => Entry::Float,
            Entry::Long(high, low) => Entry::Long(*high, *low),
            Entry::Double => Entry::Double,
            Entry::Class(name) => Entry::Class(*name),
            Entry::Str(text) => Entry::Str(*text),
            Entry::Fieldref(class, name) => Entry::Fieldref(*class, *name),
            Entry::Methodref(class, name) => Entry::Methodref(*class, *name),
            Entry::InterfaceMethodref(class, name) => Entry::InterfaceMethodref(*class, *name),
            Entry::NameAndType(name, descriptor) => Entry::NameAndType(*name, *descriptor),
            Entry::MethodHandle(kind, reference) => Entry::MethodHandle(*kind, *reference),
            Entry::MethodType(descriptor) => Entry::MethodType(*descriptor),
            Entry::Dynamic(bootstrap, name) => Entry::Dynamic(*bootstrap, *name),
            Entry::InvokeDynamic(bootstrap, name) => Entry::InvokeDynamic(*bootstrap, *name),
            Entry::Module(name) => Entry::Module(*name),
            Entry::Package(name) => Entry::Package(*name),
        }
    }

    /// Whether the entry is of the kind.
    pub fn is_kind(&self, kind: Kind) -> bool
        ensures { result ≡ is_kind kind self.now }
    {
        match kind {
            Kind::Utf8 => matches!(self, Entry::Utf8(_)),
            Kind::Class => matches!(self, Entry::Class(_)),
            Kind::Fieldref => matches!(self, Entry::Fieldref(_, _)),
            Kind::Methodref => matches!(self, Entry::Methodref(_, _)),
            Kind::InterfaceMethodref => matches!(self, Entry::InterfaceMethodref(_, _)),
            Kind::AnyMethodref => {
                matches!(
                    self,
                    Entry::Methodref(_, _) | Entry::InterfaceMethodref(_, _)
                )
            }
            Kind::NameAndType => matches!(self, Entry::NameAndType(_, _)),
            Kind::MethodHandle => matches!(self, Entry::MethodHandle(_, _)),
            Kind::InvokeDynamic => matches!(self, Entry::InvokeDynamic(_, _)),
            Kind::Argument => self.is_argument(),
        }
    }

    fn is_argument(&self) -> bool
        ensures { result ≡ is_argument self.now }
    {
        matches!(
            self,
            Entry::Integer(_)
                | Entry::Float
                | Entry::Long(_, _)
                | Entry::Double
                | Entry::Class(_)
                | Entry::Str(_)
                | Entry::MethodHandle(_, _)
                | Entry::MethodType(_)
                | Entry::Dynamic(_, _)
        )
    }

    /// Whether the entry takes two indexes.
    pub fn is_wide(&self) -> bool
        ensures { result ≡ is_wide self.now }
    {
        matches!(self, Entry::Long(_, _) | Entry::Double)
    }

    /// Whether the entry is a constant that is computed (4.4.10).
    pub fn is_dynamic(&self) -> bool
        ensures { result ≡ is_dynamic self.now }
    {
        matches!(self, Entry::Dynamic(_, _))
    }
}

// The bytes of a Utf8 entry after its tag.
#[tactic(auto, unfolding(crate::specs::Entries::utf8_bytes))]
fn read_utf8_bytes<'b>(cursor: &mut Cursor<'b>) -> Result<&'b [u8], ClassFault>
    ensures reads { Reads (λ x. x.now) result cursor.old cursor.new utf8_bytes }
{
    let len = u2(cursor, ClassKind::Truncated)?;
    run(cursor, len as usize, ClassKind::Truncated)
}

#[tactic(auto, unfolding(crate::specs::Entries::utf8))]
fn read_utf8<'b>(cursor: &mut Cursor<'b>) -> Result<Entry<'b>, ClassFault>
    ensures reads { Reads (λ x. x) result cursor.old cursor.new utf8 }
{
    let start = cursor.at();
    let bytes = read_utf8_bytes(cursor)?;
    match mutf8_check(bytes) {
        Ok(text) => Ok(Entry::Utf8(text)),
        Err(bad) => Err(ClassFault {
            at: start + 2 + bad.at,
            kind: ClassKind::BadText,
        }),
    }
}

/// A number, a Long or a Double, after its tag.
#[tactic(auto, unfolding(crate::specs::Entries::numeric))]
fn read_numeric<'b>(tag: u8, cursor: &mut Cursor<'b>) -> Result<Entry<'b>, ClassFault>
    ensures reads { Reads (λ x. x) result cursor.old cursor.new (numeric tag) }
{
    let first = u4(cursor, ClassKind::Truncated)?;
    match tag {
        tags::INTEGER => Ok(Entry::Integer(first)),
        tags::FLOAT => Ok(Entry::Float),
        tags::LONG => {
            let low = u4(cursor, ClassKind::Truncated)?;
            Ok(Entry::Long(first, low))
        }
        _ => {
            let _low = u4(cursor, ClassKind::Truncated)?;
            Ok(Entry::Double)
        }
    }
}

/// An entry of one index, after its tag.
#[tactic(auto, unfolding(crate::specs::Entries::named))]
fn read_named<'b>(tag: u8, cursor: &mut Cursor<'b>) -> Result<Entry<'b>, ClassFault>
    ensures reads { Reads (λ x. x) result cursor.old cursor.new (named tag) }
{
    let name = u2(cursor, ClassKind::Truncated)?;
    match tag {
        tags::CLASS => Ok(Entry::Class(name)),
        tags::STRING => Ok(Entry::Str(name)),
        tags::METHOD_TYPE => Ok(Entry::MethodType(name)),
        tags::MODULE => Ok(Entry::Module(name)),
        _ => Ok(Entry::Package(name)),
    }
}

/// An entry of two indexes, after its tag.
#[tactic(auto, unfolding(crate::specs::Entries::paired))]
fn read_paired<'b>(tag: u8, cursor: &mut Cursor<'b>) -> Result<Entry<'b>, ClassFault>
    ensures reads { Reads (λ x. x) result cursor.old cursor.new (paired tag) }
{
    let first = u2(cursor, ClassKind::Truncated)?;
    let second = u2(cursor, ClassKind::Truncated)?;
    match tag {
        tags::FIELDREF => Ok(Entry::Fieldref(first, second)),
        tags::METHODREF => Ok(Entry::Methodref(first, second)),
        tags::INTERFACE_METHODREF => Ok(Entry::InterfaceMethodref(first, second)),
        tags::NAME_AND_TYPE => Ok(Entry::NameAndType(first, second)),
        tags::DYNAMIC => Ok(Entry::Dynamic(first, second)),
        _ => Ok(Entry::InvokeDynamic(first, second)),
    }
}

/// A MethodHandle, after its tag.
#[tactic(auto, unfolding(crate::specs::Entries::handle))]
fn read_handle<'b>(cursor: &mut Cursor<'b>) -> Result<Entry<'b>, ClassFault>
    ensures reads { Reads (λ x. x) result cursor.old cursor.new handle }
{
    let kind = u1(cursor, ClassKind::Truncated)?;
    let reference = u2(cursor, ClassKind::Truncated)?;
    Ok(Entry::MethodHandle(kind, reference))
}

// The contents of an entry, except a Utf8 one, after its tag, which is at `at`.
#[tactic(auto, unfolding(crate::specs::Entries::contents))]
fn read_contents<'b>(tag: u8, at: usize, cursor: &mut Cursor<'b>) -> Result<Entry<'b>, ClassFault>
    ensures reads { Reads (λ x. x) result cursor.old cursor.new (contents tag at) }
{
    match tag {
        tags::INTEGER..=tags::DOUBLE => read_numeric(tag, cursor),
        tags::CLASS | tags::STRING | tags::METHOD_TYPE | tags::MODULE | tags::PACKAGE => {
            read_named(tag, cursor)
        }
        tags::FIELDREF..=tags::NAME_AND_TYPE | tags::DYNAMIC | tags::INVOKE_DYNAMIC => {
            read_paired(tag, cursor)
        }
        tags::METHOD_HANDLE => read_handle(cursor),
        _ => Err(ClassFault {
            at,
            kind: ClassKind::BadTag,
        }),
    }
}

/// The next entry; at the last index of the pool it must not take two indexes, and in a pool with
/// the most Dynamic entries it must not be one.
#[tactic(auto, unfolding(crate::specs::Entries::entry))]
pub fn read_entry<'b>(
    is_last: bool,
    is_full: bool,
    cursor: &mut Cursor<'b>,
) -> Result<Entry<'b>, ClassFault>
    ensures reads { Reads (λ x. x) result cursor.old cursor.new (entry is_last is_full) }
{
    let at = cursor.at();
    let tag = u1(cursor, ClassKind::Truncated)?;
    if is_last && is_wide_tag(tag) {
        return Err(ClassFault {
            at,
            kind: ClassKind::BadIndex,
        });
    }
    if is_full && tag == tags::DYNAMIC {
        return Err(ClassFault {
            at,
            kind: ClassKind::TooManyConstants,
        });
    }
    if tag == tags::UTF8 {
        read_utf8(cursor)
    } else {
        read_contents(tag, at, cursor)
    }
}

fn is_wide_tag(tag: u8) -> bool
    ensures { result ≡ is_wide_tag tag }
{
    tag == tags::LONG || tag == tags::DOUBLE
}
