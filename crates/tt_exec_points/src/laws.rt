//! A law of the instructions on points: what they leave unchanged.

ghost use Rattle.std.specs.Prelude.{ℕ, ℤ, List, length, IfOk};
ghost use Rattle.tt_state.specs.declared.graphics_state.GraphicsState.{GraphicsState};
ghost use Rattle.tt_state.specs.declared.tolerance.Tolerance.{Tolerance};
ghost use Rattle.tt_points.specs.zones.Zones.{ZoneLists, AreContours};
ghost use Rattle.tt_exec_points.specs.declared.instruction.OnPoints.{OnPoints};
ghost use Rattle.tt_exec_points.specs.Instruction as is;
ghost use Rattle.tt_exec_points.specs.Shapes.{SameSizes};

/// Lemma: no instruction adds or removes a point or a control value, if the contours are ranges of the glyph's points.
pub fn sizes_are_kept()
    ensures { (t : Tolerance) (op : OnPoints) (ppem : ℕ) (s : List ℤ) (z : ZoneLists) (g : GraphicsState)
        (cvt : List ℤ) → AreContours 0 z.contours (length z.glyph)
        → IfOk (is.on_points t op ppem s z g cvt) (SameSizes z cvt) }
{
    tt_points::laws::shape_is_kept();
    tt_points_loops::laws::shape_is_kept();
    tt_points_iup::laws::shape_is_kept();
}
