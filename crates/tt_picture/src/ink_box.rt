//! Boxes of black pixels of a picture.

ghost use Rattle.std.specs.Prelude.{◌≡◌, ◌<◌, ◌≤◌, ◌^◌, unsigned_abs, IfSome};
ghost use Rattle.tt_core.specs.Limits.{margin_limit, width_limit};
ghost use Rattle.tt_picture.specs.Ink.{column_of, ink_at, joined, joined_boxes, row_of};
ghost use Rattle.tt_bitmap.specs.Inks.{IsNear};

use tt_bitmap::LeastBox;
use tt_scan::Frame;

/// The least box of some black pixels: columns and rows of a picture, counted from 0, all four included. A value is
/// below 0 or past the picture's last where ink is cut.
#[derive(Clone, Copy, Debug, PartialEq, Eq)]
pub struct InkBox {
    pub left: i64,
    pub top: i64,
    pub right: i64,
    pub bottom: i64,
}

/// The column of a picture at this distance right of a pen.
fn column_of(frame: Frame, pen: u32, column: i64) -> i64
    requires margin { frame.margin ≤ margin_limit }
    requires pen { pen ≤ width_limit }
    requires near { unsigned_abs column < 2 ^ 22 }
    ensures { result ≡ column_of frame pen column }
{
    column + i64::from(pen + frame.margin)
}

/// The row of a picture for a line counted from the base line.
fn row_of(frame: Frame, line: i64) -> i64
    requires margin { frame.margin ≤ margin_limit }
    requires near { unsigned_abs line < 2 ^ 22 }
    ensures { result ≡ row_of frame line }
{
    i64::from(frame.rise) + i64::from(frame.margin) - 1 - line
}

/// The box of a glyph's ink at a pen in a picture, if it has any.
pub fn ink_at(frame: Frame, pen: u32, ink: Option<LeastBox>) -> Option<InkBox>
    requires margin { frame.margin ≤ margin_limit }
    requires pen { pen ≤ width_limit }
    requires near { IfSome ink IsNear }
    ensures { result ≡ ink_at frame pen ink }
{
    match ink {
        Some(ink) => Some(InkBox {
            left: column_of(frame, pen, ink.left),
            top: row_of(frame, ink.top),
            right: column_of(frame, pen, ink.right),
            bottom: row_of(frame, ink.bottom),
        }),
        None => None,
    }
}

/// The least box that holds two boxes.
fn joined_boxes(a: InkBox, b: InkBox) -> InkBox
    ensures { result ≡ joined_boxes a b }
{
    InkBox {
        left: a.left.min(b.left),
        top: a.top.min(b.top),
        right: a.right.max(b.right),
        bottom: a.bottom.max(b.bottom),
    }
}

/// The least box that holds two boxes; the other one where one is None.
pub fn joined(a: Option<InkBox>, b: Option<InkBox>) -> Option<InkBox>
    ensures { result ≡ joined a b }
{
    match (a, b) {
        (Some(a), Some(b)) => Some(joined_boxes(a, b)),
        (Some(a), None) => Some(a),
        (None, b) => b,
    }
}
