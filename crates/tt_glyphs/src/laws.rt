//! Lemmas about the definitions, for all glyphs and lists.

ghost use Rattle.tt_glyphs.specs.EntryLaws.{AdvancesAreDrawn, AdvancesAreRounded, RowsAreDrawn, UnboundedAreAlike};
ghost use Rattle.tt_glyphs.specs.GlyphLaws.{BitmapsAreLeast, LinesAreBitmaps, LinesAreMade, OrderChangesNothing, RepeatsAreEqual, RoomIsExact, RowsAreCounted};

/// Lemma: each side of a bitmap that is made has a black pixel.
pub fn bitmaps_are_least()
    ensures { BitmapsAreLeast }
{
    tt_scan_ink::laws::holds_all_ink();
    tt_arc::laws::contours_joined();
    tt_arc::laws::contours_closed();
}

/// Lemma: the picture of a line has the black pixels of its glyphs' bitmaps at their pens, and no others. Where the ink of
/// all glyphs lies in the picture, all bitmaps are made.
pub fn lines_are_bitmaps()
    ensures pixels { LinesAreBitmaps }
    ensures made { LinesAreMade }
{
    tt_scan_ink::laws::holds_all_ink();
    tt_arc::laws::contours_joined();
    tt_arc::laws::contours_closed();
}

/// Lemma: equal numbers of a list have equal entries. Where work is not bounded, the report of a number does not depend
/// on the other numbers.
pub fn entries_agree()
    ensures repeats { RepeatsAreEqual }
    ensures order { OrderChangesNothing }
{
    tt_fit::laws::work_unfits();
}

/// Lemma: the rows have as many bytes as are wanted. A room is large enough exactly where it has that many.
pub fn rows_fit()
    ensures rows { RowsAreCounted }
    ensures room { RoomIsExact }
{}

/// Lemma: where a list and a line make a glyph alike, the rows of its entry have its black pixels in the line, and its
/// entry has its advance there. Where glyphs are fitted before a line is laid out, the advance is the one in 26.6
/// pixels, rounded. Where work is not bounded, all glyphs are made alike.
pub fn entries_are_drawn()
    ensures rows { RowsAreDrawn }
    ensures advances { AdvancesAreDrawn }
    ensures rounded { AdvancesAreRounded }
    ensures alike { UnboundedAreAlike }
{
    tt_fit::laws::work_unfits();
}
