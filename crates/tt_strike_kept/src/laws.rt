//! Laws of the definitions. Each function is a lemma: its clauses hold of all lists of glyphs, and no code runs.

ghost use Rattle.tt_strike_kept.specs.Laws.{FittingIsLongest, FittingIsPart};

/// Lemma: the glyphs that fit are the newest of the list, in unchanged order.
pub fn newest_stay()
    ensures { FittingIsPart }
{}

/// Lemma: the glyphs that fit are within the limit, and any more of the newest would exceed it.
pub fn most_stay()
    ensures { FittingIsLongest }
{}
