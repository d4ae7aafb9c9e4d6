//! The outline of a glyph at a size.

ghost use Rattle.tt_fit_outline.specs.Outline.{phantom_of, IsOutline};

use tt_core::Fault;
use tt_state::ScanControl;

/// An outline, in 26.6 pixels.
#[derive(Drop)]
pub struct Outline {
    /// x, y, and whether the point is on the curve; contour after contour.
    pub points: Vec<(i32, i32, bool)>,
    /// For each contour the number one past its last point.
    pub ends: Vec<u32>,
    /// The left and right ends of the advance, the ascent and the descent.
    pub phantom: [(i32, i32); 4],
    /// With `Fit::Fallback` and `Fit::Best`, the fault of a program that makes it unfitted.
    pub unfitted: Option<Fault>,
    /// The scan control after the last program run for the glyph or its components; None where none was run.
    pub scan: Option<ScanControl>,
    pub ghost valid: { IsOutline (record { points = points.items; ends = ends.items; phantom = phantom_of phantom; scan = scan }) },
}
