//! A cache of glyphs. A text has few distinct characters, and most occur many times.

ghost use Rattle.std.specs.Prelude.{◌≡◌, ◌<◌};
ghost use Rattle.tt_cmap.specs.Maps.{glyph_count, glyph_by, glyph_of_unit};

use crate::maps::CharacterMap;
use crate::units::TextUnit;
use std::marker::Model;

/// Entries of the cache.
const KEPT: usize = 128;

/// A character and its glyph.
#[derive(Clone, Copy)]
struct Known {
    code: u32,
    glyph: u16,
}

/// A character map with a cache of recent glyphs: one entry for each remainder of a code by 128. Clauses see the map.
#[derive(Drop)]
pub struct KnownGlyphs<'c, 'a> {
    cmap: &'c CharacterMap<'a>,
    known: [Known; KEPT],
}

impl<'c, 'a> Model for KnownGlyphs<'c, 'a> {
    ghost use Rattle.std.specs.Prelude.{◌<◌, ◌≡◌, All};
    ghost use Rattle.tt_cmap.specs.Maps as maps;

    ghost Value = { maps.CharacterMap };

    ghost view = { λ k. k.cmap.now };

    ghost invariant = { λ k. let cmap = k.cmap.now in
        All (λ e. (e.glyph ≡ maps.glyph_by cmap e.code) × (e.glyph < maps.glyph_count cmap)) k.known };
}

impl<'c, 'a> KnownGlyphs<'c, 'a> {
    /// A map whose cache has only the glyph of U+0000.
    pub fn new(cmap: &'c CharacterMap<'a>) -> Self
        ensures { result ≡ cmap.now }
    {
        let first = Known {
            code: 0,
            glyph: cmap.glyph('\0'),
        };
        KnownGlyphs {
            cmap,
            known: [first; KEPT],
        }
    }

    /// The glyph of a character. It is 0 if the map has no glyph, or gives one that the font lacks (profile).
    pub fn glyph(&mut self, c: char) -> u16
        ensures exact { result ≡ glyph_by self.old c }
        ensures bound { result < glyph_count self.old }
        ensures same { self.new ≡ self.old }
    {
        let place = c as usize % KEPT;
        let known = self.known[place];
        if known.code == c as u32 {
            return known.glyph;
        }
        let glyph = self.cmap.glyph(c);
        self.known[place] = Known {
            code: c as u32,
            glyph,
        };
        glyph
    }
    /// The glyph of a unit. Glyphs of characters with selectors are not kept.
    pub fn glyph_of_unit(&mut self, unit: TextUnit) -> u16
        ensures exact { result ≡ glyph_of_unit self.old unit }
        ensures bound { result < glyph_count self.old }
        ensures same { self.new ≡ self.old }
    {
        match unit.selector {
            Some(_) => self.cmap.glyph_of_unit(unit),
            None => self.glyph(unit.character),
        }
    }
}
