//! Lemmas about the definitions, for all characters. No code runs.

ghost use Rattle.tt_bdf.specs.Laws.{BlanksHaveZeros, BoxIsLeast, CodesBelong, CodesRise, NoneIsLeftOut};
ghost use Rattle.tt_bdf.specs.Reading.{RowsReadBack};

/// Lemma: the code points of a file rise. They are those in some range that the font has a glyph for, without
/// surrogates and variation selectors.
pub fn codes_rise()
    ensures rise { CodesRise }
    ensures belong { CodesBelong }
    ensures whole { NoneIsLeftOut }
{}

/// Lemma: the box of a font is the least that holds the ink of all characters. Without ink it is four zeros.
pub fn box_is_least()
    ensures least { BoxIsLeast }
    ensures blank { BlanksHaveZeros }
{}

/// Lemma: a reader takes the lines of a bitmap's rows for its rows.
pub fn rows_read_back()
    ensures { RowsReadBack }
{}
