//! Lemmas about the definitions, for all bytes and all vectors. No code runs.

ghost use Rattle.std.specs.Prelude.{ℤ};
ghost use Rattle.tt_state.specs.Laws.{PixelsAreWhole, OnX, OnY, AxesAreUnits, PartsAreGreatest, VectorsKeepParts};

/// Lemma: with SROUND's grid of a pixel, the period is half a pixel, a pixel or two, and its quarters and eighths are
/// whole.
pub fn pixels_are_whole()
    ensures { PixelsAreWhole }
{}

/// Lemma: on the axes, the rules for vectors become the rules for coordinates.
pub fn on_axes()
    ensures x { (x y d : ℤ) → OnX x y d }
    ensures y { (x y d : ℤ) → OnY x y d }
    ensures units { AxesAreUnits }
{}

/// Lemma: a part of a unit vector is as great as possible, and a vector has the parts that it is made from.
pub fn parts_are_greatest()
    ensures parts { PartsAreGreatest }
    ensures kept { VectorsKeepParts }
{}
