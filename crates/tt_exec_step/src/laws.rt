//! Laws of steps one after another, which are runs. Apple TrueType Reference Manual, "Instructing TrueType Glyphs".

ghost use Rattle.std.specs.Prelude.{ℕ};
ghost use Rattle.tt_exec_points.specs.zones.Zones.{SameShape};
ghost use Rattle.tt_exec_step.specs.MachineState.{MachineState};
ghost use Rattle.tt_exec_step.specs.Outcomes.{HasOneOutcome};
ghost use Rattle.tt_exec_step.specs.Runs.{Ends};
ghost use Rattle.tt_exec_step.specs.Sizes.{HasContours, SameSizes};

/// Lemma: a run from any state either ends, after one count of steps in one state, or halts with one fault, never both.
pub fn one_outcome()
    ensures { (state : MachineState) → HasOneOutcome state }
{}

/// Lemma: a run that ends adds or removes no point, storage place or control value, and leaves the contours unchanged.
/// It begins with contours that are ranges of the glyph's points.
pub fn sizes_are_kept()
    ensures shape { (old new : MachineState) (n : ℕ) → HasContours old.zones → Ends old n new
        → SameShape old.zones new.zones }
    ensures sizes { (old new : MachineState) (n : ℕ) → HasContours old.zones → Ends old n new → SameSizes old new }
{
    tt_exec_points::laws::sizes_are_kept();
    tt_exec_state::laws::sizes_are_kept();
}
