ghost use Rattle.std.specs.Prelude.{◌≡◌, ◌≤◌, ◌<◌, ◌^◌, length, OnOk};
ghost use Rattle.mh_class_bytes.specs.Bytes.{Takes, bytes_at, number_at};

use byteorder::{BigEndian, ByteOrder};
use std::marker::Model;

/// Fewer bytes are left than were asked for.
#[derive(Clone, Copy, Debug, PartialEq, Eq)]
pub struct Short {
    /// The place where reading stopped.
    pub at: usize,
}

/// A place in a run of bytes, read from left to right.
#[derive(Drop)]
pub struct Cursor<'b> {
    bytes: &'b [u8],
    at: usize,
}

impl<'b> Model for Cursor<'b> {
    ghost use Rattle.std.specs.Prelude.{◌≤◌, length};
    ghost use Rattle.mh_class_bytes.specs.Position.{Position};

    ghost Value = { Position };

    ghost view = { λ c. record { bytes = c.bytes.now; at = c.at } };

    ghost invariant = { λ c. c.at ≤ length c.bytes.now };
}

impl<'b> Cursor<'b> {
    /// A cursor before the first byte.
    pub fn new(bytes: &'b [u8]) -> Cursor<'b>
        ensures { result ≡ record { bytes = bytes.now; at = 0 } }
    {
        Cursor { bytes, at: 0 }
    }

    /// A cursor at a place.
    pub fn resume(bytes: &'b [u8], at: usize) -> Cursor<'b>
        requires { at ≤ length bytes.now }
        ensures { result ≡ record { bytes = bytes.now; at = at } }
    {
        Cursor { bytes, at }
    }

    /// All the bytes, from the first one on.
    pub fn whole(&self) -> &'b [u8]
        ensures { result.now ≡ self.now.bytes }
    {
        self.bytes
    }

    /// The place that is read next, counted from the first byte.
    pub fn at(&self) -> usize
        ensures place { result ≡ self.now.at }
        ensures within { self.now.at ≤ length self.now.bytes }
        ensures small { length self.now.bytes < 2 ^ 63 }
    {
        let _len = self.bytes.len();
        self.at
    }

    /// The next run of `n` bytes, borrowed from the input.
    pub fn take(&mut self, n: usize) -> Result<&'b [u8], Short>
        ensures gives { Takes (λ run. run.now) self.old result self.new (bytes_at n self.old) }
    {
        if self.bytes.len() - self.at < n {
            return Err(Short { at: self.at });
        }
        let bytes: &'b [u8] = self.bytes;
        let start = self.at;
        let end = start + n;
        self.at = end;
        Ok(&bytes[start..end])
    }

    /// The next byte.
    pub fn u1(&mut self) -> Result<u8, Short>
        ensures gives { Takes (λ x. x) self.old result self.new (number_at 1 self.old) }
        ensures onward { OnOk result (self.old.at < self.new.at) }
    {
        let run = self.take(1)?;
        Ok(run[0])
    }

    /// The next two bytes as a number.
    pub fn u2(&mut self) -> Result<u16, Short>
        ensures gives { Takes (λ x. x) self.old result self.new (number_at 2 self.old) }
        ensures onward { OnOk result (self.old.at < self.new.at) }
    {
        let run = self.take(2)?;
        Ok(BigEndian::read_u16(run))
    }

    /// The next four bytes as a number.
    pub fn u4(&mut self) -> Result<u32, Short>
        ensures gives { Takes (λ x. x) self.old result self.new (number_at 4 self.old) }
        ensures onward { OnOk result (self.old.at < self.new.at) }
    {
        let run = self.take(4)?;
        Ok(BigEndian::read_u32(run))
    }
}
