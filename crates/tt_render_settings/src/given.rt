//! The space of a label, which passed its test.

ghost use Rattle.std.specs.Prelude.{◌+◌, ◌*◌, ◌≤◌};
ghost use Rattle.tt_core.specs.Limits.{height_limit, margin_limit, width_limit};

use crate::sides::BoxSides;

/// A width of a label's picture that has room between the margins.
#[derive(Clone, Copy)]
pub struct GivenWidth {
    pub width: u32,
    pub margin: u32,
    ghost room: { 2 * margin + 1 ≤ width },
    ghost high: { width ≤ width_limit },
}

/// A box that has room between the margins.
#[derive(Clone, Copy)]
pub struct GivenBox {
    pub sides: BoxSides,
    pub margin: u32,
    ghost within: { margin ≤ margin_limit },
    ghost wide: { 2 * margin + 1 ≤ sides.width },
    ghost columns: { sides.width ≤ width_limit },
    ghost high: { 2 * margin + 1 ≤ sides.height },
    ghost rows: { sides.height ≤ height_limit },
}

/// The space of a label, which passed its test.
#[derive(Clone, Copy)]
pub enum GivenSpace {
    Free,
    Width(GivenWidth),
    Box(GivenBox),
}
