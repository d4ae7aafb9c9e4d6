//! The bytes of one glyph, read by offset.

ghost use Rattle.std.specs.Prelude.{◌≡◌, ◌+◌, ◌<◌, ◌≤◌, length, IsTrue, IfOk, IfErr};
ghost use Rattle.tt_core.specs.Limits.{font_limit};
ghost use Rattle.tt_core.specs.Outcomes.{Gives};
ghost use Rattle.tt_glyf.specs.Bytes.{byte_in, word_in, signed_in, slice_in, glyph_fault, short};

use std::alloc::Global;
use std::marker::Model;
use tt_core::{Fault, Why, i16_at, u16_at};

const GLYF: [u8; 4] = *b"glyf";

/// The bytes of one glyph, their offset in glyf, and where memory for its lists comes from. Clauses see the first two.
#[derive(Drop)]
pub(crate) struct GlyphBytes<'a> {
    alloc: Global,
    start: usize,
    bytes: &'a [u8],
}

impl<'a> Model for GlyphBytes<'a> {
    ghost use Rattle.std.specs.Prelude.{◌+◌, ◌≤◌, length};
    ghost use Rattle.tt_core.specs.Limits.{font_limit};
    ghost use Rattle.tt_glyf.specs.Bytes as slices;

    ghost Value = { slices.GlyphBytes };

    ghost view = { λ g. record { start = g.start; bytes = g.bytes.now } };

    ghost invariant = { λ g. g.start + length g.bytes.now ≤ font_limit };
}

impl<'a> GlyphBytes<'a> {
    pub(crate) fn new(alloc: Global, start: usize, bytes: &'a [u8]) -> GlyphBytes<'a>
        requires { start + length bytes.now ≤ font_limit }
        ensures { result ≡ record { start = start; bytes = bytes.now } }
    {
        GlyphBytes {
            alloc,
            start,
            bytes,
        }
    }

    /// Where memory comes from.
    pub(crate) fn alloc(&self) -> Global {
        self.alloc
    }

    pub(crate) fn len(&self) -> usize
        ensures { result ≡ length self.now.bytes }
    {
        self.bytes.len()
    }

    /// The offset in glyf of a place in the glyph. The place may be the end of the bytes.
    pub(crate) fn place(&self, at: usize) -> u32
        requires { at ≤ length self.now.bytes }
        ensures { result ≡ self.now.start + at }
    {
        (self.start + at) as u32
    }

    #[cold]
    #[inline(never)]
    pub(crate) fn fault(&self, at: usize, why: Why) -> Fault
        requires { at ≤ length self.now.bytes }
        ensures exact { result ≡ glyph_fault self.now at why }
    {
        Fault::new(GLYF, self.place(at), why)
    }

    /// The fault of bytes that end too early, at their end.
    #[cold]
    #[inline(never)]
    pub(crate) fn short(&self) -> Fault
        ensures exact { result ≡ short self.now }
    {
        self.fault(self.bytes.len(), Why::GlyphShort)
    }

    /// The byte at an offset. Error: GlyphShort.
    #[inline(always)]
    #[tactic(auto, unfolding(crate::specs::Bytes::byte_in))]
    pub(crate) fn byte(&self, at: usize) -> Result<u8, Fault>
        ensures exact { Gives (λ n. n) result (byte_in self.now at) }
        ensures room { IfOk result (λ n. at + 1 ≤ length self.now.bytes) }
        ensures limit { length self.now.bytes ≤ font_limit }
    {
        if at < self.bytes.len() {
            Ok(self.bytes[at])
        } else {
            Err(self.short())
        }
    }

    /// The unsigned word at an offset. Error: GlyphShort.
    #[inline(always)]
    #[tactic(auto, unfolding(crate::specs::Bytes::word_in))]
    pub(crate) fn word(&self, at: usize) -> Result<u16, Fault>
        ensures exact { Gives (λ n. n) result (word_in self.now at) }
        ensures room { IfOk result (λ n. at + 2 ≤ length self.now.bytes) }
        ensures limit { length self.now.bytes ≤ font_limit }
    {
        match u16_at(self.bytes, at) {
            Some(word) => Ok(word),
            None => Err(self.short()),
        }
    }

    /// The signed word at an offset. Error: GlyphShort.
    #[inline(always)]
    #[tactic(auto, unfolding(crate::specs::Bytes::signed_in))]
    pub(crate) fn signed(&self, at: usize) -> Result<i16, Fault>
        ensures exact { Gives (λ n. n) result (signed_in self.now at) }
        ensures room { IfOk result (λ n. at + 2 ≤ length self.now.bytes) }
        ensures limit { length self.now.bytes ≤ font_limit }
    {
        match i16_at(self.bytes, at) {
            Some(word) => Ok(word),
            None => Err(self.short()),
        }
    }

    /// The `n` bytes from an offset on. Error: GlyphShort.
    #[tactic(auto, unfolding(crate::specs::Bytes::slice_in))]
    pub(crate) fn slice(&self, at: usize, n: usize) -> Result<&'a [u8], Fault>
        ensures exact { Gives (λ b. b.now) result (slice_in self.now at n) }
        ensures room { IfOk result (λ b. at + n ≤ length self.now.bytes) }
    {
        if at > self.bytes.len() || self.bytes.len() - at < n {
            return Err(self.short());
        }
        Ok(&self.bytes[at..at + n])
    }
}
