//! Lemmas about painting and ink, for all bitmaps and bands.

ghost use Rattle.tt_bitmap.specs.Laws.{InkMoves, JoinedHoldsBoth, OrderChangesNothing, PaintingIsOr, TwiceIsOnce};

/// Lemma: a pixel of a band is black by either of two that are painted, in whichever order; what is painted twice is
/// painted once.
pub fn painting_unites()
    ensures both { PaintingIsOr }
    ensures order { OrderChangesNothing }
    ensures twice { TwiceIsOnce }
{}

/// Lemma: two boxes joined are the least box that holds all that either holds. A least box moves with its pixels.
pub fn inks_unite()
    ensures both { JoinedHoldsBoth }
    ensures moved { InkMoves }
{}
