//! A cache of glyphs and advances. A text has few distinct characters, and most occur many times.

ghost use Rattle.std.specs.Prelude.{◌≡◌, ◌<◌, ◌≤◌, ◌^◌, ◌↔◌, [], chars, true};
ghost use Rattle.tt_cmap.specs.Lacking.{lacking_of};
ghost use Rattle.tt_cmap.specs.Maps.{glyph_count, glyph_of_unit};
ghost use Rattle.tt_cmap.specs.Units.{plain_unit};
ghost use Rattle.tt_core.specs.Limits.{size_limit};
ghost use Rattle.tt_line.specs.Known.{IsKnown};
ghost use Rattle.tt_line.specs.Layout.{advance_in_pixels};
ghost use Rattle.tt_metrics.specs.Metrics.{glyphs_of};

use crate::pixels::advance;
use std::marker::Model;
use tt_cmap::{CharacterMap, TextUnit};
use tt_metrics::Metrics;

/// Entries of the cache.
const KEPT: usize = 128;

/// A glyph and its advance in pixels.
#[derive(Clone, Copy)]
pub(crate) struct GlyphAdvance {
    pub(crate) glyph: u16,
    pub(crate) advance: u32,
}

/// A character and its step without a selector.
#[derive(Clone, Copy)]
struct KnownAdvance {
    code: u32,
    step: GlyphAdvance,
}

/// The glyphs and the advances of recent characters, one for each remainder of their codes by 128. Text after text is
/// laid out by them. Steps of characters with selectors are not kept. Clauses see their source: the tables and the
/// size.
#[derive(Drop)]
pub struct KnownAdvances<'t, 'a> {
    metrics: &'t Metrics<'a>,
    cmap: &'t CharacterMap<'a>,
    ppem: u32,
    known: [KnownAdvance; KEPT],
}

impl<'t, 'a> Model for KnownAdvances<'t, 'a> {
    ghost use Rattle.std.specs.Prelude.{◌<◌, ◌≤◌, ◌≡◌, All};
    ghost use Rattle.tt_cmap.specs.Maps.{glyph_count};
    ghost use Rattle.tt_cmap.specs.Units.{plain_unit};
    ghost use Rattle.tt_core.specs.Limits.{size_limit};
    ghost use Rattle.tt_metrics.specs.Metrics.{glyphs_of};
    ghost use Rattle.tt_line.specs.Known.{Source, IsKnown};

    ghost Value = { Source };

    ghost view = { λ k. record { metrics = k.metrics.now; cmap = k.cmap.now; ppem = k.ppem } };

    ghost invariant = { λ k. (k.ppem ≤ size_limit) × (glyph_count k.cmap.now ≡ glyphs_of k.metrics.now)
        × All (λ e. IsKnown (record { metrics = k.metrics.now; cmap = k.cmap.now; ppem = k.ppem }) (plain_unit e.code) e.step) k.known };
}

/// The step of a unit, without the cache.
#[cold]
#[inline(never)]
fn found(metrics: &Metrics, cmap: &CharacterMap, ppem: u32, unit: TextUnit) -> GlyphAdvance
    requires size { ppem ≤ size_limit }
    requires glyphs { glyph_count cmap.now ≡ glyphs_of metrics.now }
    ensures { IsKnown (record { metrics = metrics.now; cmap = cmap.now; ppem = ppem }) unit result }
{
    let glyph = cmap.glyph_of_unit(unit);
    GlyphAdvance {
        glyph,
        advance: advance(metrics, ppem, glyph),
    }
}

impl<'t, 'a> KnownAdvances<'t, 'a> {
    /// The characters of a font at a size. At first the cache has only the step of U+0000.
    pub fn new(metrics: &'t Metrics<'a>, cmap: &'t CharacterMap<'a>, ppem: u32) -> Self
        requires size { ppem ≤ size_limit }
        requires glyphs { glyph_count cmap.now ≡ glyphs_of metrics.now }
        ensures { result ≡ record { metrics = metrics.now; cmap = cmap.now; ppem = ppem } }
    {
        let unit = TextUnit {
            character: '\0',
            selector: None,
        };
        let first = KnownAdvance {
            code: 0,
            step: found(metrics, cmap, ppem, unit),
        };
        KnownAdvances {
            metrics,
            cmap,
            ppem,
            known: [first; KEPT],
        }
    }

    /// The metrics of the font.
    pub(crate) fn metrics(&self) -> &'t Metrics<'a>
        ensures { result.now ≡ self.now.metrics }
    {
        self.metrics
    }

    /// The map from characters to glyphs.
    pub fn cmap(&self) -> &'t CharacterMap<'a>
        ensures { result.now ≡ self.now.cmap }
    {
        self.cmap
    }

    /// The size in pixels per em.
    pub(crate) fn ppem(&self) -> u32
        ensures exact { result ≡ self.now.ppem }
        ensures limit { result ≤ size_limit }
    {
        self.ppem
    }

    /// Whether the font has a glyph for each unit of a text.
    pub fn has_all(&mut self, text: &str) -> bool
        ensures exact { (result ≡ true) ↔ (lacking_of self.old.cmap (chars text.now) ≡ []) }
        ensures same { self.new ≡ self.old }
    {
        for unit in self.cmap().units(text) {
            let glyph = self.step(unit).glyph;
            if glyph == 0 {
                return false;
            }
        }
        true
    }

    /// The glyph of a unit.
    #[inline(always)]
    pub fn glyph_of(&mut self, unit: TextUnit) -> u16
        ensures exact { result ≡ glyph_of_unit self.old.cmap unit }
        ensures known { result < glyphs_of self.old.metrics }
        ensures same { self.new ≡ self.old }
    {
        self.step(unit).glyph
    }

    /// The step of a unit.
    #[inline(always)]
    pub(crate) fn step(&mut self, unit: TextUnit) -> GlyphAdvance
        ensures glyph { result.glyph ≡ glyph_of_unit self.old.cmap unit }
        ensures known { result.glyph < glyphs_of self.old.metrics }
        ensures advance { result.advance ≡ advance_in_pixels self.old.metrics self.old.ppem result.glyph }
        ensures bound { result.advance < 2 ^ 25 }
        ensures same { self.new ≡ self.old }
    {
        match unit.selector {
            Some(_) => found(self.metrics, self.cmap, self.ppem, unit),
            None => self.plain_step(unit.character),
        }
    }

    /// The step of a character without a selector.
    #[inline(always)]
    fn plain_step(&mut self, c: char) -> GlyphAdvance
        ensures glyph { result.glyph ≡ glyph_of_unit self.old.cmap (plain_unit c) }
        ensures known { result.glyph < glyphs_of self.old.metrics }
        ensures advance { result.advance ≡ advance_in_pixels self.old.metrics self.old.ppem result.glyph }
        ensures bound { result.advance < 2 ^ 25 }
        ensures same { self.new ≡ self.old }
    {
        let place = c as usize % KEPT;
        let known = self.known[place];
        if known.code == c as u32 {
            return known.step;
        }
        let unit = TextUnit {
            character: c,
            selector: None,
        };
        let step = found(self.metrics, self.cmap, self.ppem, unit);
        self.known[place] = KnownAdvance {
            code: c as u32,
            step,
        };
        step
    }
}
