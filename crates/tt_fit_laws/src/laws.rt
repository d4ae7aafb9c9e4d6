//! Laws of the definitions. Each function is a lemma: its clauses hold of all glyphs, and no code runs.

ghost use Rattle.tt_fit.specs.Laws.{FallbackFits, FallbackScales, FallbackRefuses, FallbackUnfitsAll, OthersNeverFallBack, FullIsByPrograms, NoneIsWithoutPrograms, BestIsBounded, WorkFalls, OriginalsAreScaled, DefaultsBeginScaled, OriginalsAreMoved, OthersMeasureInPixels, OthersFillNone, RulesStay, UnfittedByTypeOne, EmptyByTypeOne, SkippedByTypeOne, FittedByScan, OffFillsNone, OtherTypesFillNone};
ghost use Rattle.tt_fit.specs.Counting.{OutlinesAreCounted};
ghost use Rattle.tt_fit.specs.Default.{DefaultsAreUnvaried, DefaultsCostTheSame};
ghost use Rattle.tt_fit.specs.Hinted.{BestRoundsWhereHinted, OthersRoundAlways, EmptyIsOff, LeftoversFit, SwitchedIsOff, UnfittedIsOff, OffIsPlain, EndsAreWhole, SimpleStepsAreWhole};

/// Lemma: an outline has at most as many points and contours as `Fitter::points` counts.
pub fn outlines_are_counted()
    ensures { OutlinesAreCounted }
{}

/// Lemma: where a fitter has no instance, each glyph has the outline, the fault and the work of the font's default.
pub fn defaults_are_unvaried()
    ensures outlines { DefaultsAreUnvaried }
    ensures work { DefaultsCostTheSame }
{}

/// Lemma: with enough work, `Fit::Fallback` and `Fit::Best` give the outline by the programs alone. After a program's
/// fault they give the answer without programs. Any other fault is unchanged. With `Fit::Fallback` these two answers
/// are those of `Fit::Full` and `Fit::None`.
pub fn glyphs_fall_back()
    ensures fitted { FallbackFits }
    ensures scaled { FallbackScales }
    ensures refused { FallbackRefuses }
    ensures unfitted { FallbackUnfitsAll }
    ensures never { OthersNeverFallBack }
    ensures full { FullIsByPrograms }
    ensures none { NoneIsWithoutPrograms }
{}

/// Lemma: with `Fit::Best` the font's programs leave at most the job's limit of work, and no glyph increases the
/// remaining work.
pub fn work_falls()
    ensures begun { BestIsBounded }
    ensures falls { WorkFalls }
{}

/// Lemma: with `Fit::Best` and by the font's default, a simple glyph's program measures originals that are its points in
/// font units, scaled. At an instance the originals are whole font units, and the points are scaled from 64ths of one.
/// With every other fit no program measures in font units, and halves round upwards.
pub fn originals_are_scaled()
    ensures scaled { OriginalsAreScaled }
    ensures begun { DefaultsBeginScaled }
    ensures instance { OriginalsAreMoved }
    ensures others { OthersMeasureInPixels }
{}

/// Lemma: with every fit but `Fit::Best` no dropouts are filled, whatever the programs set; and no glyph changes the
/// rules for later glyphs.
pub fn others_fill_none()
    ensures none { OthersFillNone }
    ensures stay { RulesStay }
{}

/// Lemma: with `Fit::Best` hinting is off for every glyph where glyph programs are switched off. Hinting is off too where
/// the font program and the control value program are both empty, and no glyph is unfitted there. For an unfitted glyph
/// hinting is off. Then the outline is the one that all programs empty and no ROUND_XY_TO_GRID would give.
pub fn hinting_is_off()
    ensures empty { EmptyIsOff }
    ensures leftovers { LeftoversFit }
    ensures switched { SwitchedIsOff }
    ensures unfitted { UnfittedIsOff }
    ensures plain { OffIsPlain }
{}

/// Lemma: with `Fit::Best` distances are rounded to whole pixels where hinting is on. The ends of a simple glyph's
/// advance are then whole pixels before its program. Without a program the glyph's step is their difference. With every
/// other fit halves go away from zero.
pub fn distances_are_rounded_where_hinted()
    ensures best { BestRoundsWhereHinted }
    ensures others { OthersRoundAlways }
    ensures ends { EndsAreWhole }
    ensures steps { SimpleStepsAreWhole }
{}

/// Lemma: with `Fit::Best` an unfitted glyph has the rules of scan type 1. Every glyph has them where the font program
/// and the control value program are both empty, or glyph programs are switched off. Else the last program's scan
/// control gives the rules. Where it is off, or its type is none of 0, 1, 4 and 5, no dropouts are filled.
pub fn best_fills_by_scan()
    ensures unfitted { UnfittedByTypeOne }
    ensures empty { EmptyByTypeOne }
    ensures skipped { SkippedByTypeOne }
    ensures fitted { FittedByScan }
    ensures off { OffFillsNone }
    ensures others { OtherTypesFillNone }
{}
