//! A cache of glyphs by their numbers, with a limit in bytes.

ghost use Rattle.std.specs.Prelude.{◌≡◌, ◌+◌, ◌-◌, ◌∷◌, ◌<◌, ◌≤◌, ◌⊎◌, [], length, nat_eq, take, IfOk, IfSome, Some};
ghost use Rattle.std.specs.Map.{lookup, remove_entry};
ghost use Rattle.tt_strike_kept.specs.Glyph.{KeptGlyph};
ghost use Rattle.tt_strike_kept.specs.Kept.{bytes_in, bytes_of, fitting};

use crate::glyph::{KeptCounts, KeptGlyph};
use lru::LruCache;
use std::alloc::{AllocError, Global};
use std::marker::Model;

/// Glyphs by their numbers, within a limit in bytes; the oldest are dropped first. Contracts see the list of the glyphs
/// with their numbers, the newest first.
#[derive(Drop)]
pub struct KeptGlyphs {
    glyphs: LruCache<u16, KeptGlyph>,
    /// The bytes of all glyphs.
    bytes: usize,
    /// The limit of `bytes`.
    most: usize,
}

impl Model for KeptGlyphs {
    ghost use Rattle.std.specs.Prelude.{◌≡◌, ◌-◌, ◌^◌, ◌≤◌};
    ghost use Rattle.tt_strike_kept.specs.Kept.{Kept, bytes_in};

    ghost Value = { Kept };

    ghost view = { λ k. record { entries = k.glyphs.entries; most = k.most } };

    ghost invariant = { λ k. (k.bytes ≡ bytes_in k.glyphs.entries) × (k.bytes ≤ k.most) × (k.glyphs.cap ≡ 2 ^ 64 - 1) };
}

impl KeptGlyphs {
    /// An empty cache of at most `most` bytes. Error: memory ran out.
    pub fn new(alloc: Global, most: usize) -> Result<KeptGlyphs, AllocError>
        ensures { IfOk result (λ kept. kept ≡ record { entries = []; most = most }) }
    {
        Ok(KeptGlyphs {
            glyphs: LruCache::unbounded(alloc)?,
            bytes: 0,
            most,
        })
    }

    /// The glyph with this number, which then has one more owner; the order is unchanged. None where the cache lacks the
    /// number, and where the glyph has too many owners to be counted.
    pub fn find(&self, number: u16) -> Option<KeptGlyph>
        ensures { IfSome result (λ g. lookup (nat_eq number) self.now.entries ≡ Some g) }
    {
        self.glyphs.peek(&number)?.clone().ok()
    }

    /// The counts of the glyph with this number; None where the cache lacks the number.
    pub fn counts(&self, number: u16) -> Option<KeptCounts>
        ensures { IfSome result (λ n. (g : KeptGlyph) × (lookup (nat_eq number) self.now.entries ≡ Some g) × (n ≡ g.counts)) }
    {
        Some(self.glyphs.peek(&number)?.counts)
    }

    /// Adds a glyph as the newest, in place of one with its number, and drops the oldest until all fit the limit. A
    /// glyph that exceeds the limit alone is not added, and nothing is dropped for it. Where memory runs out it is not
    /// added either, but the dropped glyphs are gone.
    pub fn keep(&mut self, number: u16, glyph: KeptGlyph)
        ensures most { self.new.most ≡ self.old.most }
        ensures larger { self.old.most < bytes_of glyph → self.new ≡ self.old }
        ensures entries { let others = remove_entry (nat_eq number) self.old.entries in bytes_of glyph ≤ self.old.most
            → (self.new.entries ≡ fitting self.old.most ((number, glyph) ∷ others))
            ⊎ (self.new.entries ≡ fitting (self.old.most - bytes_of glyph) others) }
    {
        let Some(room) = glyph.room_beside(self.most) else {
            return;
        };
        self.give_up(number);
        self.make_room(room);
        self.put_newest(number, glyph, room);
    }

    /// Puts a glyph first, with `room` bytes beside it, unless memory runs out.
    fn put_newest(&mut self, number: u16, glyph: KeptGlyph, room: usize)
        requires none { lookup (nat_eq number) self.old.entries ≡ None }
        requires room { room + bytes_of glyph ≡ self.old.most }
        requires left { bytes_in self.old.entries ≤ room }
        ensures most { self.new.most ≡ self.old.most }
        ensures entries { (self.new.entries ≡ (number, glyph) ∷ self.old.entries)
            ⊎ (self.new.entries ≡ self.old.entries) }
    {
        if self.glyphs.put(number, glyph).is_ok() {
            self.bytes += self.most - room;
        }
    }

    /// Drops the glyph with this number, if there is one.
    fn give_up(&mut self, number: u16)
        ensures entries { self.new ≡ record self.old { entries = remove_entry (nat_eq number) self.old.entries } }
        ensures none { lookup (nat_eq number) self.new.entries ≡ None }
    {
        // The length of a cache gives the fact that no two of its keys are equal.
        let _count = self.glyphs.len();
        if let Some(glyph) = self.glyphs.pop(&number) {
            self.bytes = glyph.taken_off(self.bytes);
        }
    }

    /// Drops the oldest glyph, if there is one.
    fn give_up_oldest(&mut self)
        ensures { self.new ≡ record self.old { entries = take (length self.old.entries - 1) self.old.entries } }
    {
        if let Some((_, oldest)) = self.glyphs.pop_lru() {
            self.bytes = oldest.taken_off(self.bytes);
        }
    }

    /// Drops the fewest oldest glyphs such that at most `room` bytes remain.
    fn make_room(&mut self, room: usize)
        ensures { self.new ≡ record self.old { entries = fitting room self.old.entries } }
    {
        while self.bytes() > room {
            self.give_up_oldest();
        }
    }

    /// The bytes of all glyphs: for each those of its bitmap's words, and 224.
    pub fn bytes(&self) -> usize
        ensures exact { result ≡ bytes_in self.now.entries }
        ensures most { result ≤ self.now.most }
    {
        self.bytes
    }

    /// The limit in bytes.
    pub fn most(&self) -> usize
        ensures { result ≡ self.now.most }
    {
        self.most
    }

    /// Drops all glyphs.
    pub fn clear(&mut self)
        ensures { self.new ≡ record self.old { entries = [] } }
    {
        self.glyphs.clear();
        self.bytes = 0;
    }
}
