//! The bytes of a table, read number by number. The bytes do not leave this module, so every read is counted. A number
//! that isn't whole within its table is 0 (profile).

ghost use Rattle.std.specs.Prelude.{◌≡◌, ◌+◌, ◌*◌, ◌^◌, ◌<◌, ◌≤◌, length, unsigned_abs};
ghost use Rattle.tt_kern.specs.Words.{word, long, signed};

use crate::kerning::tally::Tally;
use std::marker::Model;
use tt_core::{i16_at, u16_at, u32_at};

/// The bytes of GPOS or of kern. Clauses see a list.
#[derive(Drop)]
pub(crate) struct Words<'a> {
    bytes: &'a [u8],
}

impl<'a> Model for Words<'a> {
    ghost use Rattle.std.specs.Prelude.{ℕ, List};

    ghost Value = { List ℕ };

    ghost view = { λ t. t.bytes.now };
}

impl<'a> Words<'a> {
    pub(crate) fn new(bytes: &'a [u8]) -> Words<'a>
        ensures { result ≡ bytes.now }
    {
        Words { bytes }
    }

    /// A copy of the reference. The bytes are not copied.
    pub(crate) fn copy(&self) -> Words<'a>
        ensures { result ≡ self.now }
    {
        Words { bytes: self.bytes }
    }

    /// The count of bytes. No number is read.
    pub(crate) fn len(&self) -> usize
        ensures { result ≡ length self.now }
    {
        self.bytes.len()
    }

    /// The uint16 at an offset.
    #[tactic(auto, unfolding(crate::specs::Words::word))]
    pub(crate) fn word(&self, at: usize, reads: &mut Tally) -> usize
        requires { reads.old + 1 < 2 ^ 32 }
        ensures exact { result ≡ word self.now at }
        ensures bound { result < 65536 }
        ensures count { reads.new ≡ reads.old + 1 }
    {
        reads.one_more();
        match u16_at(self.bytes, at) {
            Some(number) => usize::from(number),
            None => 0,
        }
    }

    /// The uint32 at an offset.
    #[tactic(auto, unfolding(crate::specs::Words::long))]
    pub(crate) fn long(&self, at: usize, reads: &mut Tally) -> usize
        requires { reads.old + 1 < 2 ^ 32 }
        ensures exact { result ≡ long self.now at }
        ensures bound { result < 2 ^ 32 }
        ensures count { reads.new ≡ reads.old + 1 }
    {
        reads.one_more();
        match u32_at(self.bytes, at) {
            Some(number) => number as usize,
            None => 0,
        }
    }

    /// The int16 at an offset.
    #[tactic(auto, unfolding(crate::specs::Words::word))]
    pub(crate) fn signed(&self, at: usize, reads: &mut Tally) -> i32
        requires { reads.old + 1 < 2 ^ 32 }
        ensures exact { result ≡ signed self.now at }
        ensures bound { unsigned_abs result ≤ 32768 }
        ensures count { reads.new ≡ reads.old + 1 }
    {
        reads.one_more();
        match i16_at(self.bytes, at) {
            Some(number) => i32::from(number),
            None => 0,
        }
    }
}

/// The product of two numbers of a table.
pub(crate) fn product(a: usize, b: usize) -> usize
    requires small { a < 65536 }
    requires large { b < 2 ^ 33 }
    ensures exact { result ≡ a * b }
    ensures bound { result < 2 ^ 49 }
{
    a * b
}
