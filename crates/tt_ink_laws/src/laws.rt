//! Laws of ink. Each function is a lemma: its clauses hold of all jobs and lines, and no code runs.

ghost use Rattle.tt_ink_laws.specs.GrownLaws.{GrownLinesAreBitmaps, GrownLinesAreMade, GrownLinesHoldBitmaps};
ghost use Rattle.tt_ink_laws.specs.LabelInk.{LabelInkIsDrawn, LabelsAddFewest, LabelsCutNone};

/// Lemma: no ink of a label lies outside of its picture. On each side where columns or rows were added, the outermost one
/// has ink. Ink within the picture is black pixels.
pub fn labels_cut_none()
    ensures cut { LabelsCutNone }
    ensures fewest { LabelsAddFewest }
    ensures drawn { LabelInkIsDrawn }
{
    tt_scan_ink::laws::holds_all_ink();
    tt_arc::laws::contours_joined();
    tt_arc::laws::contours_closed();
}

/// Lemma: a grown picture has the black pixels of its glyphs' bitmaps at the grown line's pens, and no others. All of these
/// bitmaps lie in the picture. They are made, if their numbers are glyphs of the font.
pub fn grown_lines_are_bitmaps()
    ensures pixels { GrownLinesAreBitmaps }
    ensures within { GrownLinesHoldBitmaps }
    ensures made { GrownLinesAreMade }
{
    tt_scan_ink::laws::holds_all_ink();
    tt_arc::laws::contours_joined();
    tt_arc::laws::contours_closed();
    tt_strike_laws::laws::grown_cuts_none();
}
