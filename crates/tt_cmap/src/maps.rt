//! A character map by either reading.

ghost use Rattle.std.specs.Prelude.{◌≡◌, ◌<◌, ◌≤◌, chars, length, IfOk, IfErr, OnOk};
ghost use Rattle.tt_core.specs.Directory.{HasNo};
ghost use Rattle.tt_core.specs.Limits.{font_limit};
ghost use Rattle.tt_core.specs.Outcomes.{Gives};
ghost use Rattle.tt_cmap.specs.Maps.{strict, map_by, glyph_count, glyph_by, glyph_of_unit, units_by, IsBadMap};

use crate::lookup::Cmap;
use crate::lookup::wide::WideCmap;
use crate::units::{TextUnit, TextUnits};
use std::marker::Model;
use tt_core::{Fault, Reading};

#[derive(Drop)]
enum Map<'a> {
    Strict(Cmap<'a>),
    Wide(WideCmap<'a>),
}

/// A character map by either reading. Clauses see the map.
#[derive(Drop)]
pub struct CharacterMap<'a> {
    map: Map<'a>,
}

impl<'a> Model for CharacterMap<'a> {
    ghost use Rattle.std.specs.Prelude.{◌<◌};
    ghost use Rattle.tt_cmap.specs.Maps as maps;

    ghost Value = { maps.CharacterMap };

    ghost view = { λ m. maps.map_view m.map };

    ghost invariant = { λ m. 0 < maps.glyph_count (maps.map_view m.map) };
}

impl<'a> CharacterMap<'a> {
    /// Opens cmap, as `Cmap::open` or `WideCmap::open`. Errors: CmapShape, NoCmap.
    pub fn open(table: &'a [u8], glyphs: u16, reading: Reading) -> Result<CharacterMap<'a>, Fault>
        requires size { length table.now ≤ font_limit }
        requires glyphs { 0 < glyphs }
        ensures exact { Gives (λ m. m) result (map_by reading table.now glyphs) }
        ensures glyphs { IfOk result (λ m. glyph_count m ≡ glyphs) }
        ensures sound { OnOk result (HasNo (IsBadMap reading table.now)) }
        ensures fault { IfErr result (IsBadMap reading table.now) }
    {
        match reading {
            Reading::Strict => Ok(CharacterMap {
                map: Map::Strict(Cmap::open(table, glyphs)?),
            }),
            Reading::Wide { face: _ } => Ok(CharacterMap {
                map: Map::Wide(WideCmap::open(table, glyphs)?),
            }),
        }
    }

    /// A map of the strict reading.
    pub fn strict(map: Cmap<'a>) -> CharacterMap<'a>
        ensures { result ≡ strict map.entry }
    {
        CharacterMap {
            map: Map::Strict(map),
        }
    }

    /// The units of a text. With the strict reading each character is a unit.
    pub fn units<'t>(&self, text: &'t str) -> TextUnits<'t>
        ensures { result ≡ units_by self.now (chars text.now) }
    {
        let pairs = match &self.map {
            Map::Strict(_) => false,
            Map::Wide(_) => true,
        };
        TextUnits { pairs, text }
    }

    /// The glyph of a character. It is 0 if the map has no glyph, or gives one that the font lacks (profile).
    pub fn glyph(&self, c: char) -> u16
        ensures exact { result ≡ glyph_by self.now c }
        ensures bound { result < glyph_count self.now }
    {
        match &self.map {
            Map::Strict(map) => map.glyph(c),
            Map::Wide(map) => map.look_up(c).glyph,
        }
    }

    /// The glyph of a unit. The strict reading has no units with selectors, and looks at the character alone.
    pub fn glyph_of_unit(&self, unit: TextUnit) -> u16
        ensures exact { result ≡ glyph_of_unit self.now unit }
        ensures bound { result < glyph_count self.now }
    {
        match (&self.map, unit.selector) {
            (Map::Wide(map), Some(selector)) => map.look_up_with(unit.character, selector).glyph,
            _ => self.glyph(unit.character),
        }
    }
}
