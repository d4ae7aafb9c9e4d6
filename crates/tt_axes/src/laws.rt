//! Lemmas about the definitions. No code runs.

ghost use Rattle.tt_axes.specs.Laws.{CoordinatesAreNear, CoordinatesRise, DefaultIsZero, DefaultsAreZero, NoPairKeeps, ZeroIsKept};
ghost use Rattle.tt_axes.specs.Shares.{AllAtPeak, NothingAtEnds, RegionSharesFall, SharesFall};
ghost use Rattle.tt_axes.specs.ShownValues.{PartsAreRead, ValuesAreRead};

/// Lemma: no axis makes a share larger. At its peak a variation keeps its share; at the ends of its region it has none.
pub fn shares_fall()
    ensures tuples { SharesFall }
    ensures regions { RegionSharesFall }
    ensures ends { NothingAtEnds }
    ensures peak { AllAtPeak }
{}

/// Lemma: on an axis the default has coordinate 0, each coordinate is from -1 to 1, and a greater place never has a
/// smaller coordinate.
pub fn coordinates_rise()
    ensures default { DefaultIsZero }
    ensures near { CoordinatesAreNear }
    ensures order { CoordinatesRise }
{}

/// Lemma: without a named instance and values, all coordinates before avar are 0. A list of avar keeps 0, where it has a
/// pair from 0 to 0 in its order, or no pair above 0.
pub fn defaults_are_zero()
    ensures instance { DefaultsAreZero }
    ensures pair { ZeroIsKept }
    ensures none { NoPairKeeps }
{}

/// Lemma: a magnitude of 16.16 in 1/100000, to the nearest, is read as the same magnitude.
pub fn parts_are_read()
    ensures { PartsAreRead }
{}

/// Lemma: a value of 16.16 that is shown as a decimal is read as the same value, but for -32768, which no word may give.
pub fn values_are_read()
    ensures { ValuesAreRead }
{}
