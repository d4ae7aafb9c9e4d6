//! Lemmas about the definitions, for all tables. No code runs.

ghost use Rattle.tt_glyf.specs.Laws.{LocationsAreWhole, GlyphsAreWhole, GlyphFaultsStand, SizesAreTold};

/// Lemma: if the definition gives loca, then loca has no defect.
pub fn locations_are_whole()
    ensures { LocationsAreWhole }
{}

/// Lemma: if the definition gives a glyph, its bytes have no defect; if it gives a fault, that defect exists.
pub fn glyphs_are_whole()
    ensures whole { GlyphsAreWhole }
    ensures fault { GlyphFaultsStand }
{}

/// Lemma: a simple glyph that the definition gives has as many contours and points as its first bytes declare.
pub fn sizes_are_told()
    ensures { SizesAreTold }
{}
