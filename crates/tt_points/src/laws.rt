//! Laws of the instructions on single points: what they leave unchanged, the whole instruction set, and too few values.

ghost use Rattle.tt_state.specs.declared.graphics_state.GraphicsState.{GraphicsState};
ghost use Rattle.tt_points_zones.specs.Zones.{ZoneLists};
ghost use Rattle.tt_points.specs.Enough.{SinglesEnough};
ghost use Rattle.tt_points.specs.Shapes.{ShapeIsKept};
ghost use Rattle.tt_points.specs.WithAll.{SinglesStay};

/// Lemma: no instruction on single points adds or removes a point.
pub fn shape_is_kept()
    ensures { (z : ZoneLists) (g : GraphicsState) → ShapeIsKept z g }
{}

/// Lemma: the whole instruction set changes no result, except for the refusals OffProfile and Perpendicular.
pub fn singles_stay()
    ensures { (z : ZoneLists) (g : GraphicsState) → SinglesStay z g }
{}

/// Lemma: no instruction on single points is refused for too few values.
pub fn singles_enough()
    ensures { (z : ZoneLists) (g : GraphicsState) → SinglesEnough z g }
{}
