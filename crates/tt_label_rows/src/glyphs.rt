//! The glyphs of some lines.

ghost use Rattle.std.specs.Prelude.{◌≡◌, ◌++◌, map, IfOk, OnOk};
ghost use Rattle.tt_label_rows.specs.Units.{all_glyphs, unit_glyphs};

use std::alloc::{AllocError, Global};
use tt_rows::RowUnit;

/// Adds the glyphs of some units to a line, each at pen 0. Error: Memory.
fn push_glyphs(made: &mut Vec<(u16, u32)>, units: &[RowUnit]) -> Result<(), AllocError>
    ensures { OnOk result (made.new.items ≡ made.old.items ++ map (λ u. (u.glyph, 0)) units.now) }
{
    for unit in units {
        made.push((unit.glyph, 0))?;
    }
    Ok(())
}

/// The glyphs of some units, each at pen 0. Error: Memory.
pub fn glyph_line(alloc: Global, units: &[RowUnit]) -> Result<Vec<(u16, u32)>, AllocError>
    ensures exact { IfOk result (λ v. v.items ≡ map (λ u. (u.glyph, 0)) units.now) }
    ensures numbers { IfOk result (λ v. map (λ g. g.0) v.items ≡ unit_glyphs units.now) }
{
    let mut made = Vec::with_capacity(alloc, units.len())?;
    push_glyphs(&mut made, units)?;
    Ok(made)
}

/// The glyphs of some lines, one after the other, each at pen 0. Error: Memory.
pub fn all_glyphs(alloc: Global, lines: &[Vec<RowUnit>]) -> Result<Vec<(u16, u32)>, AllocError>
    ensures { IfOk result (λ v. v.items ≡ map (λ g. (g, 0)) (all_glyphs (map (λ l. l.items) lines.now))) }
{
    let mut made = Vec::new(alloc);
    for line in lines {
        push_glyphs(&mut made, line)?;
    }
    Ok(made)
}
