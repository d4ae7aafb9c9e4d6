//! How many units of a line fit into a row.

ghost use Rattle.std.specs.Prelude.{◌≡◌, ◌<◌, ◌≤◌, ◌^◌, length};
ghost use Rattle.tt_core.specs.Limits.{text_limit};
ghost use Rattle.tt_rows.specs.Rows.{fits_at, fitting};

use crate::classes::is_blank;
use crate::unit::RowUnit;

/// Whether a unit whose pen is at this place of a row fits into the room. A blank fits, since blanks at the end of a row
/// are not drawn.
fn fits_at(unit: RowUnit, pen: u64, room: u32) -> bool
    requires { pen < 2 ^ 45 }
    ensures { result ≡ fits_at room pen unit }
{
    is_blank(unit.character) || pen + u64::from(unit.step) <= u64::from(room)
}

/// The number of the first of some units that fit into a row, one after the other. No unit after the first that does
/// not fit is read.
pub(crate) fn fitting(units: &[RowUnit], room: u32) -> usize
    requires few { length units.now ≤ text_limit }
    ensures exact { result ≡ fitting room units.now }
    ensures within { result ≤ length units.now }
{
    let mut pen = 0;
    for i in 0..units.len() {
        if !fits_at(units[i], pen, room) {
            return i;
        }
        pen += u64::from(units[i].kerned);
    }
    units.len()
}
