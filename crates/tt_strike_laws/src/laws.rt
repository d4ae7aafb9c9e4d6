//! Laws of the definitions. Each function is a lemma: its clauses hold of all jobs, files and glyphs, and no code runs.

ghost use Rattle.tt_face.specs.Files.{FacesAreWhole, ReadFacesAreWhole};
ghost use Rattle.tt_strike_laws.specs.Laws.{DrawnFontsAreWhole, OthersListNothing, MarginMoves, MeasuredAsDrawn, BoundedLinesCrossFew, GlyphsByThemselves, UnfilledAreEdges, OthersFillNone, OthersDrawByEdges, GrownRefusals, SidesMove, SidesRefuseNothing};
ghost use Rattle.tt_strike_laws.specs.LayoutLaws.{LaidOutAsMeasured, LayoutsAddUp, NoGlyphIsRead};
ghost use Rattle.tt_strike_laws.specs.ReadingLaws.{FacesDrawAlike};
ghost use Rattle.tt_strike_laws.specs.StepLaws.{BestLaysBySteps, DefaultsLayByAdvances, EqualGlyphsStepAlike, GlyphsBeforeExtent, MeasureTellsSteps, MovedOutlinesAgree, OthersLayByAdvances, OthersLayByUnits};
ghost use Rattle.tt_strike_laws.specs.UnhintedSteps.{UnhintedStepsAreNear};
ghost use Rattle.tt_strike_laws.specs.InkLaws.{GrownAddsFewest, GrownCutsNone, GrownMeasuredAsDrawn, InkIsDrawn, MeasureHoldsInk};

/// Lemma: where the definitions give a font's tables, by the file or by a reading, these have no defect. Where they give
/// a job's picture, the font has no defect for the job and its reading.
pub fn fonts_are_whole()
    ensures tables { FacesAreWhole }
    ensures readings { ReadFacesAreWhole }
    ensures picture { DrawnFontsAreWhole }
{
    tt_face::laws::readings_give_faces();
    tt_face::laws::instances_are_whole();
    tt_line::laws::glyphs_are_placed();
    tt_line::laws::steps_lead();
}

/// Lemma: two faces with the same tables, the same metrics and the same glyphs for a text give the same picture.
pub fn faces_draw_alike()
    ensures { FacesDrawAlike }
{}

/// Lemma: with every fit but `Fit::Best` a text is laid out by advances. With `Fit::Best` it is laid out by the steps of
/// its glyphs, and a defect of a glyph is told whatever the extent of the picture would be.
pub fn best_lays_by_steps()
    ensures units { OthersLayByUnits }
    ensures advances { OthersLayByAdvances }
    ensures default { DefaultsLayByAdvances }
    ensures steps { BestLaysBySteps }
    ensures order { GlyphsBeforeExtent }
{}

/// Lemma: an outline that is moved right with both ends of its advance has the same step, and the same edges at each pen.
pub fn moved_outlines_agree()
    ensures { MovedOutlinesAgree }
{}

/// Lemma: the step of a glyph whose hinting is off is at most a pixel off its advance, and equal to it unless the exact
/// advance is within 1/32 pixel of a half.
pub fn unhinted_steps_are_near()
    ensures { UnhintedStepsAreNear }
{
    tt_core::laws::scales_keep_order();
}

/// Lemma: a measure tells the step from each pen to the next. Where pairs are not kerned, equal glyphs have equal steps.
pub fn measures_tell_steps()
    ensures pens { MeasureTellsSteps }
    ensures glyphs { EqualGlyphsStepAlike }
{
    tt_line::laws::steps_lead();
}

/// Lemma: a defined report is empty unless the job's fit is `Fit::Fallback` or `Fit::Best`.
pub fn others_list_nothing()
    ensures { OthersListNothing }
{
    tt_fit_laws::laws::glyphs_fall_back();
    tt_fit::laws::work_unfits();
}

/// Lemma: a margin greater by m moves each pixel by m, and changes nothing else.
pub fn margins_move()
    ensures { MarginMoves }
{}

/// Lemma: a text is measured exactly where it has a picture, and refused for the same reason.
pub fn measured_as_drawn()
    ensures { MeasuredAsDrawn }
{}

/// Lemma: a picture with added columns and rows has the pixels of the smaller one. They are moved right and down by the
/// columns on the left and the rows at the top.
pub fn sides_move()
    ensures { SidesMove }
{}

/// Lemma: added columns and rows change no refusal of a line, because its glyphs count the same. So an enlarged picture
/// is refused as the picture itself, or because it is too large.
pub fn sides_refuse_nothing()
    ensures line { SidesRefuseNothing }
    ensures grown { GrownRefusals }
{}

/// Lemma: the black pixels of a glyph, dropouts included, do not depend on its neighbours.
pub fn glyphs_by_themselves()
    ensures { GlyphsByThemselves }
{}

/// Lemma: with `Fit::Best` the glyphs of a line that is not refused have at most 10,000,000 crossings, in its picture and
/// outside.
pub fn bounded_lines_cross_few()
    ensures { BoundedLinesCrossFew }
{}

/// Lemma: glyphs without filled dropouts are black exactly where their edges blacken. With every fit but `Fit::Best`
/// all glyphs of a line are of this kind, and the picture is as without dropout control.
pub fn others_fill_none()
    ensures pixels { UnfilledAreEdges }
    ensures glyphs { OthersFillNone }
    ensures picture { OthersDrawByEdges }
{
    tt_fit_laws::laws::others_fill_none();
}

/// Lemma: a text's grown picture is refused exactly where its measure is, and for the same reason.
pub fn grown_measured_as_drawn()
    ensures { GrownMeasuredAsDrawn }
{}

/// Lemma: the box of a measure holds all black pixels of the line, those outside of the picture too, and no smaller box
/// does. Within the picture they are the picture's black pixels.
pub fn measure_holds_ink()
    ensures ink { MeasureHoldsInk }
    ensures drawn { InkIsDrawn }
{
    tt_scan_ink::laws::holds_all_ink();
    tt_arc::laws::contours_joined();
    tt_arc::laws::contours_closed();
}

/// Lemma: no ink of a grown picture lies outside of it. On each side where columns or rows were added, the outermost one
/// has ink.
pub fn grown_cuts_none()
    ensures cut { GrownCutsNone }
    ensures fewest { GrownAddsFewest }
{
    tt_scan_ink::laws::holds_all_ink();
    tt_arc::laws::contours_joined();
    tt_arc::laws::contours_closed();
}

/// Lemma: the advances of a text's pens and two margins make the width of its layout. Each pen is the margin and the
/// advances before. With every fit but `Fit::Best` a layout depends on the metrics and the character map alone.
pub fn layouts_add_up()
    ensures sums { LayoutsAddUp }
    ensures unread { NoGlyphIsRead }
{}

/// Lemma: a text that is measured has a layout and pens, which tell the same. A layout may exist without a measure.
pub fn laid_out_as_measured()
    ensures { LaidOutAsMeasured }
{
    tt_line::laws::steps_lead();
}
