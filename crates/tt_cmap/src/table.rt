//! The bytes of cmap, as a lookup reads them number by number. The bytes do not leave this module, so every read of a
//! lookup is counted.

ghost use Rattle.std.specs.Prelude.{◌≡◌, ◌+◌, ◌<◌, ◌≤◌, ◌^◌, length};
ghost use Rattle.tt_core.specs.Numbers.{unsigned_at, number_at};

use crate::lookup::reads::Reads;
use std::marker::Model;
use tt_core::{u16_at, u24_at, u32_at};

/// The bytes of cmap. Clauses see a list.
#[derive(Drop)]
pub(crate) struct Table<'a> {
    bytes: &'a [u8],
}

impl<'a> Model for Table<'a> {
    ghost use Rattle.std.specs.Prelude.{ℕ, List};

    ghost Value = { List ℕ };

    ghost view = { λ t. t.bytes.now };
}

impl<'a> Table<'a> {
    pub(crate) fn new(bytes: &'a [u8]) -> Table<'a>
        ensures exact { result ≡ bytes.now }
    {
        Table { bytes }
    }

    /// The uint16 at an offset.
    pub(crate) fn word(&self, at: usize, reads: &mut Reads) -> usize
        requires fits { at + 2 ≤ length self.now }
        requires room { reads.old + 1 < 2 ^ 32 }
        ensures exact { result ≡ unsigned_at self.now at 2 }
        ensures bound { result < 65536 }
        ensures count { reads.new ≡ reads.old + 1 }
    {
        reads.one_more();
        usize::from(u16_at(self.bytes, at).unwrap())
    }

    /// The uint8 at an offset.
    pub(crate) fn byte(&self, at: usize, reads: &mut Reads) -> usize
        requires fits { at + 1 ≤ length self.now }
        requires room { reads.old + 1 < 2 ^ 32 }
        ensures exact { result ≡ unsigned_at self.now at 1 }
        ensures bound { result < 256 }
        ensures count { reads.new ≡ reads.old + 1 }
    {
        reads.one_more();
        usize::from(self.bytes[at])
    }

    /// The uint24 at an offset.
    pub(crate) fn triple(&self, at: usize, reads: &mut Reads) -> usize
        requires fits { at + 3 ≤ length self.now }
        requires room { reads.old + 1 < 2 ^ 32 }
        ensures exact { result ≡ unsigned_at self.now at 3 }
        ensures bound { result < 2 ^ 32 }
        ensures count { reads.new ≡ reads.old + 1 }
    {
        reads.one_more();
        u24_at(self.bytes, at).unwrap() as usize
    }

    /// The sum of the uint24 at an offset and the uint8 after it. The four bytes are read as one number.
    pub(crate) fn span_end(&self, at: usize, reads: &mut Reads) -> usize
        requires fits { at + 4 ≤ length self.now }
        requires room { reads.old + 1 < 2 ^ 32 }
        ensures exact { result ≡ unsigned_at self.now at 3 + unsigned_at self.now (at + 3) 1 }
        ensures bound { result ≤ 4294967550 }
        ensures count { reads.new ≡ reads.old + 1 }
    {
        reads.one_more();
        u24_at(self.bytes, at).unwrap() as usize + usize::from(self.bytes[at + 3])
    }

    /// The uint32 at an offset.
    pub(crate) fn long(&self, at: usize, reads: &mut Reads) -> usize
        requires fits { at + 4 ≤ length self.now }
        requires room { reads.old + 1 < 2 ^ 32 }
        ensures exact { result ≡ unsigned_at self.now at 4 }
        ensures bound { result < 2 ^ 32 }
        ensures count { reads.new ≡ reads.old + 1 }
    {
        reads.one_more();
        u32_at(self.bytes, at).unwrap() as usize
    }

    /// The uint16 at an offset, or None past the end. A read past the end counts too.
    pub(crate) fn word_if_there(&self, at: usize, reads: &mut Reads) -> Option<u16>
        requires room { reads.old + 1 < 2 ^ 32 }
        ensures exact { result ≡ number_at self.now at 2 }
        ensures count { reads.new ≡ reads.old + 1 }
    {
        reads.one_more();
        u16_at(self.bytes, at)
    }
}
