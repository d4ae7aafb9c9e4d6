//! Lemmas about the definitions, for all outlines. No code runs.

ghost use Rattle.tt_arc.specs.Bounds.{BoxHoldsEdges, BoxMoved};
ghost use Rattle.tt_arc.specs.ChordLaws.{ChordsAreNear, ChordsJoin, ChordsMove, ChordsNest, ChordsTurned, CountsAreLeast, EightAreExact, EightByBend, EndsAreNear, EndsRise};
ghost use Rattle.tt_arc.specs.Laws.{OnByPoints, BlackByPoints, SidesAgree, OutlineMoved, ContoursJoined, ContoursAreClosed, ContoursMoved, ContoursRaised};

/// Lemma: a place is on an outline exactly if it is on an edge of a single point. A place is black exactly if it is
/// there, or the edges go round it. Where edges are joined, this holds at the centres of rows.
pub fn outline_points()
    ensures on { OnByPoints }
    ensures black { BlackByPoints }
{}

/// Lemma: off the edges of an outline, the winding of a place is equal from either side.
pub fn sides_agree()
    ensures { SidesAgree }
{}

/// Lemma: moving an outline right by whole pixels moves its edges by the same distance.
pub fn outline_moved()
    ensures { OutlineMoved }
{}

/// Lemma: the edges of an outline are the edges of its contours in sequence.
pub fn contours_joined()
    ensures { ContoursJoined }
{}

/// Lemma: the edges of each contour lead from one to the next, and from the last to the first.
pub fn contours_closed()
    ensures { ContoursAreClosed }
{}

/// Lemma: moving an outline right or up by whole pixels moves the edges of each contour by the same distance.
pub fn contours_moved()
    ensures right { ContoursMoved }
    ensures up { ContoursRaised }
{}

/// Lemma: a curve has the least number of chords that suffices, wherever it is.
pub fn chords_counted()
    ensures least { CountsAreLeast }
    ensures eight { EightByBend }
{}

/// Lemma: where the ends of a curve's chords are. They move with the curve, begin and end where the curve does, are
/// among those of 32 chords, and do not depend on the direction. They are near the curve, and rise where the curve does.
/// Eight chords are exact.
pub fn chords_placed()
    ensures moved { ChordsMove }
    ensures joined { ChordsJoin }
    ensures nested { ChordsNest }
    ensures turned { ChordsTurned }
    ensures near { EndsAreNear }
    ensures along { ChordsAreNear }
    ensures rising { EndsRise }
    ensures exact { EightAreExact }
{}

/// Lemma: the box of an outline's points holds its edges, and moves with the outline.
pub fn points_boxed()
    ensures held { BoxHoldsEdges }
    ensures moved { BoxMoved }
{}
