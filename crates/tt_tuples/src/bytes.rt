//! The bytes that tuples are read from, by their places. OpenType, "Data types".

ghost use Rattle.std.specs.Prelude.{◌≡◌, ◌+◌, ◌≤◌, length, IfOk};
ghost use Rattle.tt_core.specs.Outcomes.{Gives};
ghost use Rattle.tt_tuples.specs.Bytes.{broken, byte_in, word_in, signed_in, slice_in};
ghost use Rattle.tt_tuples.specs.Views.{store_of};

use crate::tuple_store::TupleStore;
use tt_core::{Fault, Why, i16_at, u16_at};

impl<'a> TupleStore<'a> {
    /// The fault of data that are wrong at a place.
    #[cold]
    #[inline(never)]
    pub(crate) fn broken(&self, at: usize) -> Fault
        requires { at ≤ length self.now.bytes.now }
        ensures { result ≡ broken (store_of self.now) at }
    {
        let offset = self.start + at;
        Fault::new(self.table.tag(), offset as u32, Why::GlyphVariation)
    }

    /// The fault of data that end too early, at their end.
    fn ended(&self) -> Fault
        ensures { result ≡ broken (store_of self.now) (length self.now.bytes.now) }
    {
        self.broken(self.bytes.len())
    }

    /// The byte at a place.
    #[inline(always)]
    #[tactic(auto, unfolding(crate::specs::Bytes::byte_in))]
    pub(crate) fn byte(&self, at: usize) -> Result<u8, Fault>
        ensures exact { Gives (λ n. n) result (byte_in (store_of self.now) at) }
        ensures room { IfOk result (λ n. at + 1 ≤ length self.now.bytes.now) }
    {
        if at < self.bytes.len() {
            Ok(self.bytes[at])
        } else {
            Err(self.ended())
        }
    }

    /// The uint16 at a place.
    #[inline(always)]
    #[tactic(auto, unfolding(crate::specs::Bytes::word_in))]
    pub(crate) fn word(&self, at: usize) -> Result<u16, Fault>
        ensures exact { Gives (λ n. n) result (word_in (store_of self.now) at) }
        ensures room { IfOk result (λ n. at + 2 ≤ length self.now.bytes.now) }
    {
        match u16_at(self.bytes, at) {
            Some(word) => Ok(word),
            None => Err(self.ended()),
        }
    }

    /// The int16 at a place.
    #[inline(always)]
    #[tactic(auto, unfolding(crate::specs::Bytes::signed_in))]
    pub(crate) fn signed(&self, at: usize) -> Result<i16, Fault>
        ensures exact { Gives (λ n. n) result (signed_in (store_of self.now) at) }
        ensures room { IfOk result (λ n. at + 2 ≤ length self.now.bytes.now) }
    {
        match i16_at(self.bytes, at) {
            Some(word) => Ok(word),
            None => Err(self.ended()),
        }
    }

    /// The `n` bytes from a place on.
    #[tactic(auto, unfolding(crate::specs::Bytes::slice_in))]
    pub(crate) fn slice(&self, at: usize, n: usize) -> Result<&'a [u8], Fault>
        ensures exact { Gives (λ b. b.now) result (slice_in (store_of self.now) at n) }
        ensures room { IfOk result (λ b. at + n ≤ length self.now.bytes.now) }
    {
        if at > self.bytes.len() || self.bytes.len() - at < n {
            return Err(self.ended());
        }
        Ok(&self.bytes[at..at + n])
    }
}
