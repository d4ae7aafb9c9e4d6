//! The cache of glyphs, which may be absent.

ghost use Rattle.std.specs.Prelude.{◌≡◌, ◌≤◌, ◌/◌, [], nat_eq, IfOk, IfSome, None, Some};
ghost use Rattle.std.specs.Map.{lookup};
ghost use Rattle.tt_fit.specs.Counting.{points_asked};
ghost use Rattle.tt_fit.specs.DeltaCounting.{deltas_asked};
ghost use Rattle.tt_fit.specs.Fitting.{Fitter};
ghost use Rattle.tt_picture.specs.Cached.{IsCacheFor, IsCached, entries_of, is_there, limit_of};
ghost use Rattle.tt_strike_kept.specs.Kept.{bytes_in};

use std::alloc::{AllocError, Global};
use std::marker::Model;
use tt_strike_kept::{KeptCounts, KeptGlyph, KeptGlyphs};

/// The glyphs that are cached from line to line, or no cache at all.
#[derive(Drop)]
pub struct Cache {
    glyphs: Option<KeptGlyphs>,
}

impl Model for Cache {
    ghost use Rattle.std.specs.Prelude.{Option};
    ghost use Rattle.tt_strike_kept.specs.Kept.{Kept};

    ghost Value = { Option Kept };

    ghost view = { λ c. c.glyphs };
}

impl Cache {
    /// An empty cache of at most `most` bytes. Error: Memory.
    pub fn new(alloc: Global, most: usize) -> Result<Cache, AllocError>
        ensures { IfOk result (λ c. c ≡ Some (record { entries = []; most = most })) }
    {
        let glyphs = KeptGlyphs::new(alloc, most)?;
        Ok(Cache {
            glyphs: Some(glyphs),
        })
    }

    /// No cache. It takes no memory.
    pub fn absent() -> Cache
        ensures { result ≡ None }
    {
        Cache { glyphs: None }
    }

    /// Whether there is a cache.
    pub(crate) fn is_there(&self) -> bool
        ensures { result ≡ is_there self.now }
    {
        match &self.glyphs {
            Some(_) => true,
            None => false,
        }
    }

    /// The cached glyph with this number.
    pub(crate) fn find(&self, number: u16) -> Option<KeptGlyph>
        ensures { IfSome result (λ g. lookup (nat_eq number) (entries_of self.now) ≡ Some g) }
    {
        match &self.glyphs {
            Some(glyphs) => glyphs.find(number),
            None => None,
        }
    }

    /// What the glyph with this number counts; None where it is not cached.
    pub fn counts(&self, number: u16) -> Option<KeptCounts>
        ensures points { IfSome result (λ n. (s : Fitter) → IsCacheFor s self.now → n.points ≡ points_asked s.tables s.levels number) }
        ensures deltas { IfSome result (λ n. (s : Fitter) → IsCacheFor s self.now → n.deltas ≡ deltas_asked s.instance s.tables s.levels number) }
    {
        match &self.glyphs {
            Some(glyphs) => glyphs.counts(number),
            None => None,
        }
    }

    /// Adds a glyph as the newest, where there is a cache. The oldest are dropped until all fit the limit.
    pub(crate) fn put(&mut self, number: u16, glyph: KeptGlyph)
        ensures cached { (s : Fitter) → IsCached s number glyph → IsCacheFor s self.old → IsCacheFor s self.new }
        ensures limit { limit_of self.new ≡ limit_of self.old }
    {
        let Some(glyphs) = &mut self.glyphs else {
            return;
        };
        glyphs.keep(number, glyph);
    }

    /// The bytes of the greatest bitmap that is cached: a sixteenth of the limit.
    pub(crate) fn bitmap_limit(&self) -> usize
        ensures { IfSome (limit_of self.now) (λ most. result ≡ most / 16) }
    {
        match &self.glyphs {
            Some(glyphs) => glyphs.most() / 16,
            None => 0,
        }
    }

    /// The bytes of the cached glyphs: for each those of its bitmap's words, and 224.
    pub fn bytes(&self) -> usize
        ensures exact { result ≡ bytes_in (entries_of self.now) }
        ensures limit { IfSome (limit_of self.now) (λ most. result ≤ most) }
    {
        match &self.glyphs {
            Some(glyphs) => glyphs.bytes(),
            None => 0,
        }
    }
}
