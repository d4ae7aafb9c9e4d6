//! Laws of the definitions. Each function is a lemma: its clauses hold of all glyphs, and no code runs.

ghost use Rattle.tt_fit.specs.Laws.{OutlinesAreWhole, OutlineFaultsStand, OthersReadNoInstance, BestReadsPlaces, UnboundedIsEnough, OthersAreUnbounded, UnboundedStays, SpentWorkUnfits, SpentProgramsUnfitAll};
ghost use Rattle.tt_fit.specs.DeltaCounting.{DefaultsAskNoDeltas};
ghost use Rattle.tt_fit.specs.GlyphCost.{ChargesTakeWorkAlone, CostsStay, FittersRenew, GlyphsAreMadeFor, GlyphsHaveCosts, GlyphsTakeWorkAlone, PaidIsMade, WorkIsApart};

/// Lemma: an outline means that the glyph and its components have no defect, and a fault names a defect they have.
pub fn outlines_are_whole()
    ensures whole { OutlinesAreWhole }
    ensures fault { OutlineFaultsStand }
{}

/// Lemma: with every fit but `Fit::Best` no program can read the instance's places. Of the instance the two programs see
/// the control values alone. With `Fit::Best` they read the place on each axis.
pub fn others_read_no_instance()
    ensures others { OthersReadNoInstance }
    ensures best { BestReadsPlaces }
{}

/// Lemma: by the font's default no deltas are asked for.
pub fn defaults_ask_no_deltas()
    ensures { DefaultsAskNoDeltas }
{}

/// Lemma: with every fit but `Fit::Best` work is unbounded and refuses no glyph. With `Fit::Best` a glyph whose
/// programs exceed the remaining work is made without them. If the font's programs exceed the work, every glyph is.
pub fn work_unfits()
    ensures enough { UnboundedIsEnough }
    ensures others { OthersAreUnbounded }
    ensures stays { UnboundedStays }
    ensures spent { SpentWorkUnfits }
    ensures programs { SpentProgramsUnfitAll }
{}

/// Lemma: the work of a glyph's programs has one cost, whatever remains. A glyph that did not lack work is made the same
/// wherever its cost remains, and leaves the rest. Glyphs made before change nothing of this. So where the cost is paid,
/// the glyph need not be made anew.
pub fn glyphs_have_costs()
    ensures cost { GlyphsHaveCosts }
    ensures made { GlyphsAreMadeFor }
    ensures stay { CostsStay }
    ensures paid { PaidIsMade }
{}

/// Lemma: a glyph and a charge change nothing of a fitter but its remaining work. Fitters that differ in their remaining
/// work alone have the same glyph data, size, levels and dropout rules. With its work set back, a fitter is the same again.
pub fn only_work_changes()
    ensures glyphs { GlyphsTakeWorkAlone }
    ensures charges { ChargesTakeWorkAlone }
    ensures renewed { FittersRenew }
    ensures alike { WorkIsApart }
{}
