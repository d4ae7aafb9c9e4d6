//! Laws of texts and lines: what `draw_text` and `draw_lines` give is what `run` gives. Each function is a lemma: its
//! clauses hold of all jobs and files, and no code runs.
#![tactic(auto)]

ghost use Rattle.tt_run_laws.specs.Laws.{WrittenFontsAreWhole, MappedFontsAreWhole, OthersWriteByEdges};
ghost use Rattle.tt_run_laws.specs.ReadingLaws.{CharactersHaveLines, FacesMapAsFonts, FacesRunAsFonts, StrictMaps, StrictRuns, WideMaps, WideRuns};
ghost use Rattle.tt_run_laws.specs.RunLaws.{LinesAreRuns, LinesAreTexts, PlainCallsAreRuns, PlainReportsAreRuns, PlainTextsAreRuns, TextsAreRuns};

/// Lemma: the picture of `draw_text`, and of each line of `draw_lines`, is what `run` gives for that text alone. A text
/// that `run` refuses is refused for the same reason. A line of at most 16,384 bytes of UTF-8 has the answer of
/// `draw_text`.
pub fn lines_are_runs()
    ensures texts { TextsAreRuns }
    ensures lines { LinesAreRuns }
    ensures alike { LinesAreTexts }
{}

/// Lemma: by a plain setting `draw_text` is `run` for the setting's job. A plain setting wants the picture as it is,
/// and refuses no text for a character without a glyph. The bitmap, the refusal and the report of unfitted glyphs are
/// the same. With `Missing::Draw` nothing else is reported. A call that meets the outcome of `draw_text` meets that of
/// `run`.
pub fn plain_texts_are_runs()
    ensures texts { PlainTextsAreRuns }
    ensures reports { PlainReportsAreRuns }
    ensures calls { PlainCallsAreRuns }
{}

/// Lemma: where the definition of `run` or `map` gives bytes, the font has no defect for the call. So a call that ends
/// with Ok or Write found none.
pub fn fonts_are_whole()
    ensures run { WrittenFontsAreWhole }
    ensures map { MappedFontsAreWhole }
{
    tt_face::laws::instances_are_whole();
    tt_advances::laws::found_advances_are_whole();
    tt_strike_laws::laws::fonts_are_whole();
}

/// Lemma: with every fit but `Fit::Best` `run` writes a picture as without dropout control.
pub fn others_fill_none()
    ensures { OthersWriteByEdges }
{
    tt_strike_laws::laws::others_fill_none();
}

/// Lemma: with the strict reading `run` and `map` answer by the font that the file begins with. Then `map` has a line for
/// each character. Where the strict reading gives a face, face 0 of the wide reading answers alike for a text without
/// selectors. A face of a file has the answers of a font with the face's tables.
pub fn readings_agree()
    ensures strict { StrictRuns }
    ensures strict_map { StrictMaps }
    ensures characters { CharactersHaveLines }
    ensures wide { WideRuns }
    ensures wide_map { WideMaps }
    ensures fonts { FacesRunAsFonts }
    ensures fonts_map { FacesMapAsFonts }
{
    tt_face::laws::readings_give_faces();
    tt_face::laws::rules_keep_faces();
    tt_face::laws::defaults_are_faces();
    tt_advances::laws::tables_give_advances();
    tt_strike_laws::laws::faces_draw_alike();
}
