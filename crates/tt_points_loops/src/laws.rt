//! Laws of the instructions on several points: what they leave unchanged, the whole instruction set, and the tolerant
//! machine.

ghost use Rattle.tt_state.specs.declared.graphics_state.GraphicsState.{GraphicsState};
ghost use Rattle.tt_points_zones.specs.Zones.{ZoneLists};
ghost use Rattle.tt_points_loops.specs.Loosened.{SeveralLoosened};
ghost use Rattle.tt_points_loops.specs.Shapes.{ShapeIsKept};
ghost use Rattle.tt_points_loops.specs.Total.{SeveralTotal};
ghost use Rattle.tt_points_loops.specs.WithAll.{SeveralStay};

/// Lemma: no instruction on several points adds or removes a point.
pub fn shape_is_kept()
    ensures { (z : ZoneLists) (g : GraphicsState) → ShapeIsKept z g }
{}

/// Lemma: the whole instruction set changes no result, except for the refusals OffProfile and Perpendicular.
pub fn several_stay()
    ensures { (z : ZoneLists) (g : GraphicsState) → SeveralStay z g }
{}

/// Lemma: a tolerant machine gives the result of a strict one, unless that is a refusal that tolerance lifts.
pub fn several_loosened()
    ensures { (z : ZoneLists) (g : GraphicsState) → SeveralLoosened z g }
{}

/// Lemma: a tolerant machine refuses no instruction on points or pairs in turn for a missing thing or too few values.
/// No machine refuses FLIPRGON, FLIPRGOFF, SHC or SHZ for too few values.
pub fn several_total()
    ensures { (z : ZoneLists) (g : GraphicsState) → SeveralTotal z g }
{}
