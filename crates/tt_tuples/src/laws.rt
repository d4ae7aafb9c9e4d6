//! Lemmas about the definitions. No code runs.

ghost use Rattle.tt_tuples.specs.Laws.{AllHoldsAtPeak, NothingHolds, PartsHold, TuplesAreWhole};

use tt_axes::laws::shares_fall;

/// Lemma: no more than the whole of a tuple holds; the whole at its peak; nothing where one axis leaves nothing.
pub fn parts_hold()
    ensures parts { PartsHold }
    ensures peak { AllHoldsAtPeak }
    ensures nothing { NothingHolds }
{
    shares_fall();
}

/// Lemma: tuples that are read have as many deltas as points, which rise; and are no more than the header's count.
pub fn tuples_are_whole()
    ensures { TuplesAreWhole }
{
    shares_fall();
}
