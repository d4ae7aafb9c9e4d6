//! Lemmas about the definitions, for all texts. No code runs.

ghost use Rattle.tt_line.specs.Laws.{AdvancesAreSteps, KerningLooksOneAhead, NoTableNoKerning, PlacesGlyphs, PlainTextsKeepGlyphs, StepsLead, StrictTexts, UnkernedLinesAdvance};

/// Lemma: if the definition lays out a text, each unit has its glyph, in the text's order.
pub fn glyphs_are_placed()
    ensures { PlacesGlyphs }
{}

/// Lemma: the first pen of a line is 0, each step leads to the next pen, and the last step leads to the right margin.
/// No pen is left of a pen before it.
pub fn steps_lead()
    ensures { StepsLead }
{}

/// Lemma: the layout of a text by advances is the layout by steps, with the advances as the steps.
pub fn advances_are_steps()
    ensures { AdvancesAreSteps }
{}

/// Lemma: where pairs are not kerned, and in a font without tables of kerning, lines are laid out by the advances alone.
/// The step of a glyph depends on the next glyph alone.
pub fn kerning_is_by_pairs()
    ensures unkerned { UnkernedLinesAdvance }
    ensures none { NoTableNoKerning }
    ensures ahead { KerningLooksOneAhead }
{}

/// Lemma: with the strict reading, each character of a text has its glyph. The wide reading gives the same glyphs for a
/// text without selectors, if each character has the same glyph.
pub fn readings_give_glyphs()
    ensures strict { StrictTexts }
    ensures wide { PlainTextsKeepGlyphs }
{}
