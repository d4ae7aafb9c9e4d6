//! The glyphs of a row with their steps.

ghost use Rattle.std.specs.Prelude.{◌≡◌, ◌+◌, ◌<◌, drop, get_or, length, map, sum, IfOk};
ghost use Rattle.tt_rows.specs.Breaks.{no_unit};
ghost use Rattle.tt_rows.specs.Widths.{drawn_width, step_before, stepped_row};

use crate::unit::RowUnit;
use std::alloc::{AllocError, Global};

/// The step of a unit of a row; the last one is not kerned.
fn step_at(units: &[RowUnit], i: usize) -> u32
    requires { i < length units.now }
    ensures { result ≡ step_before (get_or units.now i no_unit) (drop (i + 1) units.now) }
{
    if i + 1 < units.len() {
        units[i].kerned
    } else {
        units[i].step
    }
}

/// The glyphs of the drawn units of a row, with their steps. Error: Memory.
pub fn row_steps(alloc: Global, units: &[RowUnit]) -> Result<Vec<(u16, u32)>, AllocError>
    ensures exact { IfOk result (λ v. v.items ≡ stepped_row units.now) }
    ensures glyphs { IfOk result (λ v. map (λ p. p.0) v.items ≡ map (λ u. u.glyph) units.now) }
    ensures width { IfOk result (λ v. sum (map (λ p. p.1) v.items) ≡ drawn_width units.now) }
{
    let mut line = Vec::with_capacity(alloc, units.len())?;
    for i in 0..units.len() {
        line.push((units[i].glyph, step_at(units, i)))?;
    }
    Ok(line)
}
