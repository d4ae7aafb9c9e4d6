//! The characters of a text without a glyph in a font.

ghost use Rattle.std.specs.Prelude.{◌≡◌, ◌≢◌, ℕ, chars, IfOk, OnOk};
ghost use Rattle.std.specs.List.{All, AllPairs, Contains};
ghost use Rattle.tt_cmap.specs.Lacking.{lacking_of, with_unit};
ghost use Rattle.tt_cmap.specs.Maps.{units_by, glyph_by, glyph_of_unit};
ghost use Rattle.tt_cmap.specs.declared.units.TextUnit.{TextUnit};

use crate::known::KnownGlyphs;
use crate::maps::CharacterMap;
use crate::units::TextUnit;
use std::alloc::{AllocError, Global};

/// The distinct characters of a text's units with glyph 0, in order of first appearance. Each of their occurrences is
/// compared with the list so far. Error: memory ran out.
pub fn lacking(alloc: Global, cmap: &CharacterMap, text: &str) -> Result<Vec<char>, AllocError>
    ensures exact { IfOk result (λ v. v.items ≡ lacking_of cmap.now (chars text.now)) }
    ensures missing { IfOk result (λ v. All (λ c. glyph_by cmap.now c ≡ 0) v.items) }
    ensures stand { IfOk result (λ v. All (Contains (chars text.now)) v.items) }
    ensures every { IfOk result (λ v. (u : TextUnit) → Contains (units_by cmap.now (chars text.now)) u
        → glyph_of_unit cmap.now u ≡ 0 → Contains v.items u.character) }
    ensures once { IfOk result (λ v. AllPairs (λ c d. c ≢ d) v.items) }
{
    let mut listed = Vec::new(alloc);
    let mut known = KnownGlyphs::new(cmap);
    for unit in cmap.units(text) {
        list_missing(&mut listed, &mut known, unit)?;
    }
    Ok(listed)
}

/// Lists a unit's character, unless the unit has a glyph or the character is listed already. Error: memory ran out.
fn list_missing(
    listed: &mut Vec<char>,
    known: &mut KnownGlyphs,
    unit: TextUnit,
) -> Result<(), AllocError>
    ensures exact { OnOk result (listed.new.items ≡ with_unit known.old listed.old.items unit) }
    ensures same { known.new ≡ known.old }
{
    if known.glyph_of_unit(unit) == 0 && !listed.contains(&unit.character) {
        listed.push(unit.character)?;
    }
    Ok(())
}
