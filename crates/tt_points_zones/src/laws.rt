//! Laws of the definitions, for all points. No code runs.

ghost use Rattle.std.specs.Prelude.{ℤ, Bool};
ghost use Rattle.tt_points_zones.specs.Laws.{OnAxis, AlongBoth};
ghost use Rattle.tt_points_zones.specs.Originals.{DistancesTurnRound, DistancesAreNear};
ghost use Rattle.tt_state.specs.declared.graphics_state.Axis.{Axis};
ghost use Rattle.tt_state.specs.declared.graphics_state.GraphicsState.{GraphicsState};
ghost use Rattle.tt_state.specs.declared.point.Point.{Point};

/// Lemma: where all three vectors are along one axis, points are measured and moved by their coordinates on it. Without
/// the whole instruction set, vectors along one axis move points on it, and vectors along two axes are Perpendicular.
pub fn on_axes()
    ensures points { (a : Axis) (p q : Point) (d : ℤ) (touched : Bool) → OnAxis a p q d touched }
    ensures direction { (g : GraphicsState) (projection freedom : Axis) → AlongBoth g projection freedom }
{
    tt_state::laws::on_axes();
}

/// Lemma: with halves away from zero, the way back has the distance of the way there with its sign changed. For points
/// at their scaled font units, with any halves, the distance is at most a 64th of a pixel off that in 26.6. Both hold
/// along an axis, for distances that are measured in font units and scaled.
pub fn originals_turn_round()
    ensures turned { DistancesTurnRound }
    ensures near { DistancesAreNear }
{
    tt_core::laws::scales_keep_order();
    tt_state::laws::on_axes();
}
