//! A box that a label fills.

ghost use Rattle.std.specs.Prelude.{◌+◌, ◌*◌, ◌≤◌};
ghost use Rattle.tt_core.specs.Limits.{height_limit, margin_limit, width_limit};

use tt_line::Align;

/// A box, in pixels, with a margin on each side. It has at least one column and one row between its margins.
#[derive(Clone, Copy)]
pub struct LabelBox {
    pub width: u32,
    pub height: u32,
    pub margin: u32,
    pub align: Align,
    pub ghost sides: { margin ≤ margin_limit },
    pub ghost wide: { 2 * margin + 1 ≤ width },
    pub ghost high: { 2 * margin + 1 ≤ height },
    pub ghost columns: { width ≤ width_limit },
    pub ghost rows: { height ≤ height_limit },
}
