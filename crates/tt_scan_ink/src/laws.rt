//! Lemmas about the definitions, for all outlines.

ghost use Rattle.tt_scan_ink.specs.Laws.{DropoutsInkHoldsAll, EdgesInkHoldsAll};

/// Lemma: the box of the black pixels of closed contours holds all these pixels, and no smaller box does. The box of
/// the dropouts of any contours holds all these dropouts, and no smaller box does.
pub fn holds_all_ink()
    ensures edges { EdgesInkHoldsAll }
    ensures dropouts { DropoutsInkHoldsAll }
{}
