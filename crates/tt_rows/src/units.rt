//! The units of a line, each with its glyph and its steps.

ghost use Rattle.std.specs.Prelude.{◌≡◌, chars, length, IfOk};
ghost use Rattle.tt_cmap.specs.Maps.{units_by};
ghost use Rattle.tt_rows.specs.Units.{row_units};

use crate::unit::RowUnit;
use std::alloc::{AllocError, Global};
use tt_cmap::CharacterMap;

/// The units of a line, by the glyphs of its units with their steps, without kerning and with it. Error: Memory.
pub fn row_units(
    alloc: Global,
    cmap: &CharacterMap,
    text: &str,
    plain: &[(u16, u32)],
    kerned: &[(u16, u32)],
) -> Result<Vec<RowUnit>, AllocError>
    requires plain { length plain.now ≡ length (units_by cmap.now (chars text.now)) }
    requires kerned { length kerned.now ≡ length plain.now }
    ensures exact { IfOk result (λ v. v.items ≡ row_units (units_by cmap.now (chars text.now)) plain.now kerned.now) }
    ensures count { IfOk result (λ v. length v.items ≡ length plain.now) }
{
    let mut made = Vec::with_capacity(alloc, plain.len())?;
    let mut i = 0;
    for unit in cmap.units(text) {
        made.push(RowUnit {
            character: unit.character,
            glyph: plain[i].0,
            step: plain[i].1,
            kerned: kerned[i].1,
        })?;
        i += 1;
    }
    Ok(made)
}
