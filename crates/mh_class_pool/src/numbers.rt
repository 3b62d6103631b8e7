ghost use Rattle.std.specs.Prelude.{◌≡◌, ◌<◌, OnOk};
ghost use Rattle.mh_class_bytes.specs.Format.{Reads, number, run};

use crate::fault::{ClassFault, ClassKind};
use mh_class_bytes::Cursor;

/// A number of one byte, or the fault of this kind if it does not fit.
pub fn u1(cursor: &mut Cursor<'_>, kind: ClassKind) -> Result<u8, ClassFault>
    ensures reads { Reads (λ x. x) result cursor.old cursor.new (number kind 1) }
    ensures onward { OnOk result (cursor.old.at < cursor.new.at) }
{
    match cursor.u1() {
        Ok(x) => Ok(x),
        Err(short) => Err(ClassFault { at: short.at, kind }),
    }
}

/// A number of two bytes.
pub fn u2(cursor: &mut Cursor<'_>, kind: ClassKind) -> Result<u16, ClassFault>
    ensures reads { Reads (λ x. x) result cursor.old cursor.new (number kind 2) }
    ensures onward { OnOk result (cursor.old.at < cursor.new.at) }
{
    match cursor.u2() {
        Ok(x) => Ok(x),
        Err(short) => Err(ClassFault { at: short.at, kind }),
    }
}

/// A number of four bytes.
pub fn u4(cursor: &mut Cursor<'_>, kind: ClassKind) -> Result<u32, ClassFault>
    ensures reads { Reads (λ x. x) result cursor.old cursor.new (number kind 4) }
    ensures onward { OnOk result (cursor.old.at < cursor.new.at) }
{
    match cursor.u4() {
        Ok(x) => Ok(x),
        Err(short) => Err(ClassFault { at: short.at, kind }),
    }
}

/// The next `n` bytes, borrowed.
pub fn run<'b>(cursor: &mut Cursor<'b>, n: usize, kind: ClassKind) -> Result<&'b [u8], ClassFault>
    ensures reads { Reads (λ x. x.now) result cursor.old cursor.new (run kind n) }
{
    match cursor.take(n) {
        Ok(x) => Ok(x),
        Err(short) => Err(ClassFault { at: short.at, kind }),
    }
}
