//! The rows of a text in a box, if they fit.

ghost use Rattle.std.specs.List.{sum_by};
ghost use Rattle.std.specs.Prelude.{◌≡◌, ◌≤◌, length, map, All, IfOk, IfSome};
ghost use Rattle.tt_box.specs.Boxes.{laid_if_fits};
ghost use Rattle.tt_box.specs.Views.{AreBoxed, lines_of, place_of, rows_of};
ghost use Rattle.tt_core.specs.Limits.{text_limit};
ghost use Rattle.tt_label_rows.specs.Pictures.{AreHeights};
ghost use Rattle.tt_rows.specs.Rows.{one_at_least};

use crate::place::LabelBox;
use std::alloc::{AllocError, Global};
use tt_label::with_margin;
use tt_label_rows::{
    RowHeights, TextRows, box_picture, first_rise, is_low, lay_rows, text_rows, widest,
};
use tt_line::Line;
use tt_rows::RowUnit;
use tt_strike::Laid;

/// The rows of some lines in the middle of a box, or none where a word is broken, a row is wider than the room, or the rows
/// are too high. Error: Memory.
fn lines_in_box(
    alloc: Global,
    heights: RowHeights,
    units: &[Vec<RowUnit>],
    place: LabelBox,
) -> Result<Option<Vec<Line>>, AllocError>
    requires heights { AreHeights heights }
    requires few { All (λ l. length l.items ≤ text_limit) units.now }
    requires rows { sum_by (λ l. one_at_least (length l.items)) units.now ≤ text_limit }
    ensures { IfOk result (λ r. lines_of r ≡ laid_if_fits heights (place_of place) (map (λ l. l.items) units.now)) }
{
    let all = text_rows(alloc, units, place.width - 2 * place.margin)?;
    let TextRows { rows, broken } = all;
    if broken {
        return Ok(None);
    }
    let wide = widest(&rows);
    if wide > u64::from(place.width - 2 * place.margin) {
        return Ok(None);
    }
    let more = rows.len().saturating_sub(1);
    if !is_low(heights, more, place.height, place.margin) {
        return Ok(None);
    }
    let first = first_rise(heights, more, place.height, place.margin);
    let picture = box_picture(place.width, place.height, place.margin, place.align);
    let laid = lay_rows(alloc, rows, picture, first, heights.step)?;
    Ok(Some(laid))
}

/// These rows with their margin. Error: Memory.
pub(crate) fn rows_in_box(
    alloc: Global,
    heights: RowHeights,
    units: &[Vec<RowUnit>],
    place: LabelBox,
) -> Result<Option<Vec<Laid>>, AllocError>
    requires heights { AreHeights heights }
    requires few { All (λ l. length l.items ≤ text_limit) units.now }
    requires rows { sum_by (λ l. one_at_least (length l.items)) units.now ≤ text_limit }
    requires some { 1 ≤ length units.now }
    ensures exact { IfOk result (λ r. rows_of r ≡ laid_if_fits heights (place_of place) (map (λ l. l.items) units.now)) }
    ensures boxed { IfOk result (λ r. IfSome r (λ v. AreBoxed (place_of place) v.items)) }
{
    let lines = lines_in_box(alloc, heights, units, place)?;
    let Some(lines) = lines else {
        return Ok(None);
    };
    Ok(Some(with_margin(alloc, lines, place.margin)?))
}
