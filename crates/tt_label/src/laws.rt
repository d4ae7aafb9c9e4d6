//! Lemmas about the definitions, for all faces, jobs and lines. No code runs.

ghost use Rattle.tt_label.specs.InkLaws.{BaselinesAreApart};
ghost use Rattle.tt_label.specs.LineLaws.{EmptyTextsAreColumns, LabelsAreNeverEmpty, LinesMakeLabels, OneLineHasPixels, OneLineIsGrown, OneLineReports};

/// Lemma: a label of one line is the picture of `Strike::grown_line`. The refusals are the same too, except EmptyPicture,
/// and so are the unfitted glyphs. Also where that refusal would come, the label is the grown picture of the line, in at
/// least one column and one row.
pub fn one_line_is_grown()
    ensures picture { OneLineIsGrown }
    ensures report { OneLineReports }
    ensures pixels { OneLineHasPixels }
{}

/// Lemma: no label is refused as empty. A text without a character is a picture as wide as two margins, and at least one
/// column.
pub fn labels_are_never_empty()
    ensures never { LabelsAreNeverEmpty }
    ensures column { EmptyTextsAreColumns }
{}

/// Lemma: texts with the same lines have the same label. So a mark at the start and a last line feed change nothing.
pub fn lines_make_labels()
    ensures { LinesMakeLabels }
{}

/// Lemma: from one baseline of a label to the next are the rows of one line and the font's gap, and at least one row. The
/// enlarged picture has the same distances.
pub fn baselines_are_apart()
    ensures { BaselinesAreApart }
{}
