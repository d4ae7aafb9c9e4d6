//! Rows, laid out in their picture.

ghost use Rattle.std.specs.Prelude.{◌≡◌, ◌+◌, ◌-◌, ◌*◌, ◌<◌, ◌≤◌, ◌^◌, ◌+ℤ◌, ◌≤ℤ◌, pos, unsigned_abs, length, map, sum, All, IfOk};
ghost use Rattle.tt_core.specs.Limits.{text_limit, width_limit};
ghost use Rattle.tt_label_rows.specs.Pictures.{IsWithin, row_placed, rows_placed, start_of};
ghost use Rattle.tt_line.specs.Labels.{width_of};
ghost use Rattle.tt_line.specs.Layout.{glyphs_at_pens};
ghost use Rattle.tt_line.specs.Outcome.{placement_of};

use crate::picture::RowsPicture;
use crate::rows::width_of;
use std::alloc::{AllocError, Global};
use tt_line::Line;
use tt_rows::left_of;

/// The pixels from the left margin of the picture, whose first columns are skipped, to a row of this width.
fn start_of(picture: RowsPicture, width: u64) -> u64
    requires picture { IsWithin picture }
    requires width { width < 2 ^ 45 }
    ensures { result ≡ start_of picture width }
{
    let shift = left_of(picture.align, 0, picture.room, width);
    (shift + i64::from(picture.skipped)).unsigned_abs()
}

/// Puts the pen of each glyph in the place of its step, the first at `start`.
fn stand(glyphs: &mut [(u16, u32)], start: u32)
    requires { start + sum (map (λ p. p.1) glyphs.old) ≤ width_limit }
    ensures { glyphs.new ≡ map (λ g. (g.0, g.1 + start)) (glyphs_at_pens (map (λ p. p.0) glyphs.old) (map (λ p. p.1) glyphs.old)) }
{
    let mut pen = 0;
    for i in 0..glyphs.len() {
        let step = glyphs[i].1;
        glyphs[i].1 = pen + start;
        pen += step;
    }
}

/// A row in its picture, at this distance of its base line below the upper margin.
fn lay_row(picture: RowsPicture, rise: i32, row: Vec<(u16, u32)>) -> Line
    requires picture { IsWithin picture }
    requires rise { unsigned_abs rise ≤ 614400 + picture.height }
    requires few { length row.items ≤ text_limit }
    requires within { start_of picture (width_of row.items) + width_of row.items ≤ picture.width }
    ensures { placement_of result ≡ row_placed picture rise row.items }
{
    let start = start_of(picture, width_of(&row));
    let mut glyphs = row;
    stand(&mut glyphs, start as u32);
    Line {
        width: picture.width,
        height: picture.height,
        rise,
        glyphs,
    }
}

/// Rows in their picture, one below the other, the first at this distance of its base line below the upper margin. Error:
/// Memory.
pub fn lay_rows(
    alloc: Global,
    rows: Vec<Vec<(u16, u32)>>,
    picture: RowsPicture,
    rise: i32,
    step: u32,
) -> Result<Vec<Line>, AllocError>
    requires picture { IsWithin picture }
    requires step { step < 2 ^ 21 }
    requires first { unsigned_abs rise ≤ 614400 + picture.height }
    requires last { (pos ((length rows.items - 1) * step) +ℤ rise) ≤ℤ pos (614400 + picture.height) }
    requires count { length rows.items ≤ text_limit }
    requires rows { All (λ l. (length l.items ≤ text_limit) × (start_of picture (width_of l.items) + width_of l.items ≤ picture.width)) rows.items }
    ensures { IfOk result (λ v. map placement_of v.items ≡ rows_placed picture step rise (map (λ l. l.items) rows.items)) }
{
    let mut made = Vec::with_capacity(alloc, rows.len())?;
    let mut below = i64::from(rise);
    for row in rows {
        made.push(lay_row(picture, below as i32, row))?;
        below += i64::from(step);
    }
    Ok(made)
}
