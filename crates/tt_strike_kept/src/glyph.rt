//! A cached glyph, and its bytes.

ghost use Rattle.std.specs.Prelude.{◌≡◌, ◌+◌, ◌-◌, ◌<◌, ◌≤◌, IfNone, IfSome};
ghost use Rattle.tt_strike_kept.specs.Kept.{bytes_of};

use crate::cut::CutGlyph;
use std::alloc::AllocError;
use std::marker::Model;
use std::rc::Rc;

/// Roughly the bytes of a glyph without the words of its bitmap: its place in the cache, and the glyph's owners.
const PLACE: usize = 224;

/// What a glyph counts of a line's work. A cached glyph need not be counted anew.
#[derive(Clone, Copy)]
pub struct KeptCounts {
    /// Its points, those of components too.
    pub points: u32,
    /// The work of its deltas at the font's instance, with those of components; 0 by the default.
    pub deltas: u32,
    /// The part of a job's work that its programs take.
    pub cost: u64,
}

/// A cached glyph with its counts. Clauses see the glyph itself.
#[derive(Drop)]
pub struct KeptGlyph {
    /// Its pixels and its facts. The glyph may have other owners.
    pub cut: Rc<CutGlyph>,
    pub counts: KeptCounts,
}

impl Model for KeptGlyph {
    ghost use Rattle.tt_strike_kept.specs.Glyph as glyph;

    ghost Value = { glyph.KeptGlyph };

    ghost view = { λ g. record {
      bitmap = g.cut.value.bitmap;
      ink = g.cut.value.ink;
      advance_left = g.cut.value.facts.advance_left;
      chords = g.cut.value.facts.chords;
      crossings = g.cut.value.facts.crossings;
      counts = g.counts;
      unfitted = g.cut.value.facts.unfitted;
    } };
}

impl Clone for KeptGlyph {
    ghost is_clone = { λ g copy. copy ≡ g };

    /// One more owner of the glyph, which is not copied. Error: too many owners to be counted.
    fn clone(&self) -> Result<KeptGlyph, AllocError> {
        Ok(KeptGlyph {
            cut: self.cut.clone()?,
            counts: self.counts,
        })
    }
}

impl KeptGlyph {
    /// What remains of `bytes` beside the glyph; None where it takes more.
    pub(crate) fn room_beside(&self, bytes: usize) -> Option<usize>
        ensures left { IfSome result (λ n. n + bytes_of self.now ≡ bytes) }
        ensures larger { IfNone result (bytes < bytes_of self.now) }
    {
        bytes
            .checked_sub(PLACE)?
            .checked_sub(self.cut.bitmap.bytes())
    }

    /// What remains of the bytes of some glyphs without this one.
    pub(crate) fn taken_off(&self, bytes: usize) -> usize
        requires { bytes_of self.now ≤ bytes }
        ensures { result ≡ bytes - bytes_of self.now }
    {
        bytes - PLACE - self.cut.bitmap.bytes()
    }
}
