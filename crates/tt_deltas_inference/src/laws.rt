//! The inference of deltas, for all points. No code runs.

ghost use Rattle.tt_deltas_inference.specs.Laws.{ContoursStay, NamedPointsStay, PhantomPointsStay, SharesAreNear, WholeGlyphsStay};

/// Lemma: named points keep their deltas, and so do the points after the last contour. A contour without a named point is
/// unchanged. If all points of a glyph are named, nothing is inferred.
pub fn named_points_stay()
    ensures named { NamedPointsStay }
    ensures phantom { PhantomPointsStay }
    ensures alone { ContoursStay }
    ensures whole { WholeGlyphsStay }
{}

/// Lemma: between two neighbours a point moves to its share of the way between them, up to half of 1/65536 unit for each
/// unit from the lower one on.
pub fn shares_are_near()
    ensures { SharesAreNear }
{}
