//! Lemmas about the definitions, for all fonts. No code runs.

ghost use Rattle.tt_file_laws.specs.Laws.{EncodingsRise, LinesAreComposed, OthersAreAlike};

/// Lemma: ENCODING rises in a file.
pub fn encodings_rise()
    ensures { EncodingsRise }
{
    tt_bdf::laws::codes_rise();
}

/// Lemma: the picture of a text of a file's characters, by the setting of the file, is the one that a reader of the
/// file composes, where the file and the line make each glyph alike. With every fit but `Fit::Best` they do.
pub fn lines_are_composed()
    ensures lines { LinesAreComposed }
    ensures alike { OthersAreAlike }
{
    tt_bdf::laws::codes_rise();
    tt_fit::laws::work_unfits();
    tt_glyphs::laws::lines_are_bitmaps();
    tt_glyphs::laws::entries_are_drawn();
}
