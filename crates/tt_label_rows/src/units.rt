//! The units of a text's lines.

ghost use Rattle.std.specs.List.{flat_map, sum_by};
ghost use Rattle.std.specs.Prelude.{◌≡◌, ◌<◌, ◌≤◌, chars, length, map, All, IfOk};
ghost use Rattle.tt_core.specs.Limits.{text_limit};
ghost use Rattle.tt_rows.specs.Rows.{one_at_least};
ghost use Rattle.tt_label_rows.specs.Units.{line_units, text_units};
ghost use Rattle.tt_metrics.specs.Metrics.{glyphs_of};

use std::alloc::{AllocError, Global};
use tt_line::{KnownAdvances, unmarked};
use tt_rows::RowUnit;

/// The units of a line, which have no steps yet. Error: Memory.
fn line_units(
    alloc: Global,
    known: &mut KnownAdvances,
    line: &str,
) -> Result<Vec<RowUnit>, AllocError>
    ensures exact { IfOk result (λ v. v.items ≡ line_units known.old.cmap line.now) }
    ensures known { IfOk result (λ v. All (λ u. u.glyph < glyphs_of known.old.metrics) v.items) }
    ensures few { IfOk result (λ v. length v.items ≤ length (chars line.now)) }
    ensures same { known.new ≡ known.old }
{
    let mut made = Vec::new(alloc);
    // A unit has at least a byte.
    made.reserve(line.len())?;
    for unit in known.cmap().units(line) {
        made.push(RowUnit {
            character: unit.character,
            glyph: known.glyph_of(unit),
            step: 0,
            kerned: 0,
        })?;
    }
    Ok(made)
}

/// The units of a text's lines, which have no steps yet. A text has at least one line. Error: Memory.
pub fn text_units(
    alloc: Global,
    known: &mut KnownAdvances,
    text: &str,
) -> Result<Vec<Vec<RowUnit>>, AllocError>
    requires text { length (chars text.now) ≤ text_limit }
    ensures exact { IfOk result (λ v. map (λ l. l.items) v.items ≡ text_units known.old.cmap text.now) }
    ensures known { IfOk result (λ v. All (λ l. All (λ u. u.glyph < glyphs_of known.old.metrics) l.items) v.items) }
    ensures few { IfOk result (λ v. length (flat_map (λ l. l.items) v.items) ≤ text_limit) }
    ensures some { IfOk result (λ v. 1 ≤ length v.items) }
    ensures rows { IfOk result (λ v. sum_by (λ l. one_at_least (length l.items)) v.items ≤ text_limit) }
    ensures same { known.new ≡ known.old }
{
    let mut lines = Vec::new(alloc);
    for line in unmarked(text).lines() {
        let units = line_units(alloc, known, line)?;
        lines.push(units)?;
    }
    if lines.is_empty() {
        lines.push(Vec::new(alloc))?;
    }
    Ok(lines)
}
