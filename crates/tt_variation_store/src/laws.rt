//! Lemmas about the definitions, for all tables and all instances. No code runs.

ghost use Rattle.tt_variation_store.specs.Laws.{SharesAreParts, WholeAtPeaks, OneAxisEnds};

/// Lemma: at most the whole of a region's deltas holds. Everything holds where each axis is at the region's peak, and
/// nothing where one axis leaves nothing.
pub fn regions_hold()
    ensures parts { SharesAreParts }
    ensures peaks { WholeAtPeaks }
    ensures one { OneAxisEnds }
{
    tt_axes::laws::shares_fall();
}
