//! Lemmas about the definitions, for all outlines.

ghost use Rattle.tt_scan_dropouts.specs.Laws.{AddedByColumnsWasWhite, AddedByRowsWasWhite, BandsAreCounted, BitmapIsCounted, ColumnsCrossedBothWays, CountsStay, DropoutWasWhite, DropoutsLieInBox, DropoutsMoved, NoDotIsLost, NoGapStaysWhite, RowsAreCounted, RowsCrossedBothWays};

/// Lemma: the rows add only pixels that rules 1 and 2 leave white, and the columns only pixels that are still white
/// then.
pub fn added_were_white()
    ensures rows { AddedByRowsWasWhite }
    ensures columns { AddedByColumnsWasWhite }
    ensures both { DropoutWasWhite }
{}

/// Lemma: an outline moved by whole pixels has its dropouts moved by as much.
pub fn dropouts_moved()
    ensures { DropoutsMoved }
{}

/// Lemma: a dropout lies in the glyph's box, where the box holds the edges. A dot may lie in the next column or row.
pub fn dropouts_lie_in_box()
    ensures { DropoutsLieInBox }
{}

/// Lemma: nothing is lost. A gap that needs a pixel has a black one after its pass. If a contour has the box of a dot and
/// needs no pixel, the pixel that holds its middle is black.
pub fn nothing_is_lost()
    ensures gaps { NoGapStaysWhite }
    ensures dots { NoDotIsLost }
{}

/// Lemma: a free gap of a row is crossed both ways or not at all, whatever the edges. A free gap of a column is too, if
/// the contours are closed.
pub fn crossed_both_ways()
    ensures rows { RowsCrossedBothWays }
    ensures columns { ColumnsCrossedBothWays }
{}

/// Lemma: the rows of a picture need at most as many crossings of a glyph's edges as these count, whatever the frame.
/// So do the rows of several pictures, one below the other.
pub fn rows_are_counted()
    ensures { RowsAreCounted }
{}

/// Lemma: where dropouts are filled, the bitmap of a part of a glyph's box is counted, one for each 64 bytes. So are
/// the bitmaps of all bands of the box.
pub fn bitmaps_are_counted()
    ensures part { BitmapIsCounted }
    ensures bands { BandsAreCounted }
{}

/// Lemma: an outline moved by whole pixels counts the same.
pub fn counts_stay()
    ensures { CountsStay }
{}
