//! The dropouts of a glyph in a window: first a pass over the rows, and then a pass over the columns. For the second
//! pass the pixels that the first added are black.

ghost use Rattle.std.specs.Prelude.{◌≡◌, true, false, ℤ, ◌||◌, ◌&&◌, [], ◌∷◌, map, All, IfOk, OnOk};
ghost use Rattle.std.specs.List.{list_any};
ghost use Rattle.std.specs.Ordering.{int_eq};
ghost use Rattle.tt_bitmap.specs.Bitmaps as bitmaps;
ghost use Rattle.tt_scan.specs.Contours.{IsClosed, contours_at};
ghost use Rattle.tt_scan_edges.specs.Winding.{EdgeFits, is_black};
ghost use Rattle.tt_scan_gaps.specs.Crossings.{centre};
ghost use Rattle.tt_scan_gaps.specs.Seen.{seen_by, turned_round};
ghost use Rattle.tt_scan_dropouts.specs.Dropouts.{is_dropout, outline_turned, pass_adds, row_adds, rules_turned};
ghost use Rattle.tt_scan_dropouts.specs.Passes.{has_pixel};
ghost use Rattle.tt_scan_dropouts.specs.Seen.{is_black_on, is_black_to};
ghost use Rattle.tt_scan_gaps.specs.Walk.{is_in_free_gap};
ghost use Rattle.tt_scan_dropouts.specs.Windows.{WindowFits, has, has_pixel_by, is_black_by, is_black_in, widened};
ghost use Rattle.tt_scan_gaps.specs.declared.seen.Over.TheVariants as over;

use crate::bitmap::Bitmap;
use crate::contours::{Contours, Outlined};
use crate::counting::BAND_ROWS;
use crate::dots::push_dots;
use crate::marks::{Pass, crosses_free_gap, free_marks, touches_free_gap};
use crate::may_have::closed_may_have_dropouts;
use crate::pass::added_by;
use crate::pixel::Pixel;
use crate::window::{Window, clipped, has, widened};
use std::alloc::{AllocError, Global};
use tt_bitmap::BoxBitmap;
use tt_scan::Edge;
use tt_scan_gaps::{
    Columns, Over, all_turned_round, meets, pixels_in, pixels_reached, seen_by, sort_marks,
};

/// The pixels that a pass adds, by contours as the pass sees them and the columns of the glyph's box. Error: memory ran
/// out.
fn pass_over(
    alloc: Global,
    pass: Pass,
    columns: Columns,
    contours: Contours,
) -> Result<Vec<Pixel>, AllocError>
    ensures { IfOk result (λ v. (p j : ℤ) → has_pixel v.items p j ≡ pass_adds pass.entry.rules columns
        (contours_at contours.entry.edges.now contours.entry.ends.now) (is_black_to pass.entry) p j) }
{
    let mut marks = free_marks(alloc, pass, contours)?;
    sort_marks(&mut marks);
    added_by(alloc, pass, columns, &marks)
}

/// Whether an edge, as a pass sees it, makes a mark in a free gap: a crossing, or, where stubs are drawn, an end that
/// touches a line. A pass in one value would be copied for each edge.
#[inline(never)]
fn makes_mark(ink: &Bitmap, over: Over, stubs: bool, edge: &Edge) -> bool
    requires { EdgeFits edge.now }
    ensures { result ≡ is_in_free_gap stubs (is_black_by over ink.now) (seen_by over edge.now) }
{
    let edge = seen_by(over, *edge);
    crosses_free_gap(ink, over, edge) || (stubs && touches_free_gap(ink, over, edge))
}

/// `makes_mark` with a quick test first: most edges are short and meet no line.
#[inline(always)]
fn is_in_free_gap(ink: &Bitmap, over: Over, stubs: bool, edge: &Edge) -> bool
    requires { EdgeFits edge.now }
    ensures { result ≡ is_in_free_gap stubs (is_black_by over ink.now) (seen_by over edge.now) }
{
    meets(over, stubs, edge) && makes_mark(ink, over, stubs, edge)
}

/// Whether some edge makes a mark in a free gap by rows, and whether some edge does by columns. Where none does, the
/// pass adds nothing, and its walk is not needed.
#[inline(never)]
fn some_in_free_gap(ink: &Bitmap, stubs: bool, edges: &[Edge]) -> (bool, bool)
    requires { All EdgeFits edges.now }
    ensures rows { result.0 ≡ list_any (is_in_free_gap stubs (is_black_by over.Rows ink.now)) edges.now }
    ensures columns { result.1
        ≡ list_any (is_in_free_gap stubs (is_black_by over.Columns ink.now)) (map turned_round edges.now) }
{
    let mut rows = false;
    let mut columns = false;
    for edge in edges {
        rows = is_in_free_gap(ink, Over::Rows, stubs, edge) || rows;
        columns = is_in_free_gap(ink, Over::Columns, stubs, edge) || columns;
    }
    (rows, columns)
}

/// The pixels that a pass adds; none where no edge makes a mark in a free gap. Error: memory ran out.
fn added(
    alloc: Global,
    pass: Pass,
    some: bool,
    columns: Columns,
    contours: Contours,
) -> Result<Vec<Pixel>, AllocError>
    requires { some ≡ false → list_any (is_in_free_gap pass.rules.stubs (is_black_to pass))
        contours.edges.now ≡ false }
    ensures { IfOk result (λ v. (p j : ℤ) → has_pixel v.items p j ≡ pass_adds pass.entry.rules columns
        (contours_at contours.entry.edges.now contours.entry.ends.now) (is_black_to pass.entry) p j) }
{
    if !some {
        return Ok(Vec::new(alloc));
    }
    pass_over(alloc, pass, columns, contours)
}

/// `added` for contours with x and y exchanged, which take memory only where the pass is needed.
fn added_turned(
    alloc: Global,
    pass: Pass,
    some: bool,
    columns: Columns,
    contours: Contours,
) -> Result<Vec<Pixel>, AllocError>
    requires { some ≡ false → list_any (is_in_free_gap pass.rules.stubs (is_black_to pass))
        (map turned_round contours.edges.now) ≡ false }
    ensures { IfOk result (λ v. (p j : ℤ) → has_pixel v.items p j ≡ pass_adds pass.entry.rules columns
        (contours_at (map turned_round contours.entry.edges.now) contours.entry.ends.now) (is_black_to pass.entry) p j) }
{
    if !some {
        return Ok(Vec::new(alloc));
    }
    let turned = all_turned_round(alloc, contours.edges)?;
    let contours = Contours {
        edges: &turned,
        ends: contours.ends,
    };
    pass_over(alloc, pass, columns, contours)
}

/// The pixel of a pass, by its column and its row.
#[inline(always)]
fn pixel_at(over: Over, pixel: Pixel) -> Pixel
    ensures { (c j : ℤ) → (int_eq result.column c && int_eq result.row j) ≡ has_pixel_by over (pixel ∷ []) c j }
{
    match over {
        Over::Rows => pixel,
        Over::Columns => Pixel {
            column: pixel.row,
            row: pixel.column,
        },
    }
}

/// Adds a pixel if it lies in a window. Error: memory ran out.
#[inline(always)]
pub(crate) fn push_if_within(
    found: &mut Vec<Pixel>,
    window: Window,
    pixel: Pixel,
) -> Result<(), AllocError>
    ensures { OnOk result ((c j : ℤ) → has_pixel found.new.items c j
        ≡ (has_pixel found.old.items c j || (has window c j && (int_eq pixel.column c && int_eq pixel.row j)))) }
{
    if has(window, pixel.column, pixel.row) {
        found.push(pixel)?;
    }
    Ok(())
}

/// Adds the pixels of a list that lie in a window. Error: memory ran out.
fn push_within(
    found: &mut Vec<Pixel>,
    window: Window,
    over: Over,
    pixels: &[Pixel],
) -> Result<(), AllocError>
    ensures { OnOk result ((c j : ℤ) → has_pixel found.new.items c j
        ≡ (has_pixel found.old.items c j || (has window c j && has_pixel_by over pixels.now c j))) }
{
    for pixel in pixels {
        push_if_within(found, window, pixel_at(over, *pixel))?;
    }
    Ok(())
}

/// The pixels that the pass over the rows adds, and then those that the pass over the columns adds, which have column and
/// row exchanged. The pixels of the first are black in the bitmap afterwards. `some` has for each pass whether an edge
/// makes a mark in a free gap. Error: memory ran out.
fn both_passes(
    alloc: Global,
    glyph: Outlined,
    some: (bool, bool),
    ink: &mut Bitmap,
) -> Result<(Vec<Pixel>, Vec<Pixel>), AllocError>
    requires rows { some.0 ≡ false → list_any (is_in_free_gap glyph.rules.rules.stubs (is_black_by over.Rows ink.old))
        glyph.tape.now.edges ≡ false }
    requires columns { some.1 ≡ false → list_any (is_in_free_gap glyph.rules.rules.stubs (is_black_by over.Columns ink.old))
        (map turned_round glyph.tape.now.edges) ≡ false }
    ensures rows { IfOk result (λ both. (c j : ℤ) → has_pixel both.0.items c j
        ≡ row_adds glyph.entry.rules (contours_at glyph.entry.tape.now.edges glyph.entry.ends.now) (is_black_in ink.old) c j) }
    ensures columns { IfOk result (λ both. (p j : ℤ) → has_pixel both.1.items p j
        ≡ row_adds (rules_turned glyph.entry.rules)
        (outline_turned (contours_at glyph.entry.tape.now.edges glyph.entry.ends.now)) (is_black_by over.Columns ink.new) p j) }
    ensures also { IfOk result (λ both. (c j : ℤ) → is_black_in ink.new c j
        ≡ (is_black_in ink.old c j || has_pixel both.0.items c j)) }
    ensures window { OnOk result (ink.new.window ≡ ink.old.window) }
{
    let contours = glyph.contours();
    let rules = glyph.rules.rules;
    let (columns, rows) = pixels_in(glyph.rules.extents);
    let across = Pass {
        rules,
        over: Over::Rows,
        ink,
    };
    let by_rows = added(alloc, across, some.0, columns, contours)?;
    // The pixels that are black now make no further gap free, so the test by columns remains true.
    ink.blacken_all(&by_rows);
    let along = Pass {
        rules,
        over: Over::Columns,
        ink,
    };
    let by_columns = added_turned(alloc, along, some.1, rows, contours)?;
    Ok((by_rows, by_columns))
}

/// Adds the dropouts of a glyph in a few rows of the columns and rows where they may lie. A bitmap has the pixels there, and
/// five more on each side, that the edges blacken. `some` has for each pass whether an edge makes a mark in a free gap. Error:
/// memory ran out.
fn push_found(
    alloc: Global,
    found: &mut Vec<Pixel>,
    glyph: Outlined,
    band: Window,
    some: (bool, bool),
    ink: &mut Bitmap,
) -> Result<(), AllocError>
    requires rows { some.0 ≡ false → list_any (is_in_free_gap glyph.rules.rules.stubs (is_black_by over.Rows ink.old))
        glyph.tape.now.edges ≡ false }
    requires columns { some.1 ≡ false → list_any (is_in_free_gap glyph.rules.rules.stubs (is_black_by over.Columns ink.old))
        (map turned_round glyph.tape.now.edges) ≡ false }
    requires ink { (c j : ℤ) → has (widened 5 band) c j ≡ true
        → is_black_in ink.old c j ≡ is_black glyph.tape.now.edges (centre c) (centre j) }
    ensures { OnOk result ((c j : ℤ) → has_pixel found.new.items c j ≡ (has_pixel found.old.items c j
        || (has band c j && is_dropout glyph.entry.rules (contours_at glyph.entry.tape.now.edges glyph.entry.ends.now) c j))) }
{
    push_dots(alloc, found, glyph, band, ink)?;
    let (by_rows, by_columns) = both_passes(alloc, glyph, some, ink)?;
    push_within(found, band, Over::Rows, &by_rows)?;
    push_within(found, band, Over::Columns, &by_columns)
}

/// Adds the dropouts of a glyph in a few rows of the columns and rows where they may lie. Error: memory ran out.
fn push_band(
    alloc: Global,
    found: &mut Vec<Pixel>,
    glyph: Outlined,
    band: Window,
) -> Result<(), AllocError>
    requires { WindowFits (widened 5 band) }
    ensures { OnOk result ((c j : ℤ) → has_pixel found.new.items c j ≡ (has_pixel found.old.items c j
        || (has band c j && is_dropout glyph.entry.rules (contours_at glyph.entry.tape.now.edges glyph.entry.ends.now) c j))) }
{
    // A dropout depends on pixels as far off as five gaps.
    let mut ink = Bitmap::inked(alloc, glyph.tape, widened(band, 5))?;
    let some = some_in_free_gap(&ink, glyph.rules.rules.stubs, glyph.tape.lend());
    push_found(alloc, found, glyph, band, some, &mut ink)
}

/// The dropouts in a window of a glyph: the pixels that are black besides those of the scan converter's rules 1 and 2.
/// The rows are done band after band from the lowest on. Error: memory ran out.
pub fn dropouts(alloc: Global, glyph: Outlined, window: Window) -> Result<Vec<Pixel>, AllocError>
    requires window { WindowFits (widened 2 window) }
    ensures exact { IfOk result (λ v. (c j : ℤ) → has_pixel v.items c j
        ≡ (has window c j && is_dropout glyph.entry.rules (contours_at glyph.entry.tape.now.edges glyph.entry.ends.now) c j)) }
{
    let mut found = Vec::new(alloc);
    let (columns, rows) = pixels_reached(glyph.rules.extents, glyph.rules.rules.dots);
    let part = match clipped(window, columns, rows) {
        Some(part) => part,
        None => return Ok(found),
    };
    let mut done = 0;
    while done < part.height {
        let height = (part.height - done).min(BAND_ROWS);
        let band = Window {
            left: part.left,
            bottom: part.bottom + done as i32,
            width: part.width,
            height,
        };
        push_band(alloc, &mut found, glyph, band)?;
        done += height;
    }
    Ok(found)
}

/// `dropouts` where a bitmap has all pixels that the edges blacken: no row is cut. `some` has for each pass whether an edge
/// makes a mark in a free gap. Error: memory ran out.
pub fn dropouts_beside(
    alloc: Global,
    glyph: Outlined,
    window: Window,
    inked: &BoxBitmap,
    some: (bool, bool),
) -> Result<Vec<Pixel>, AllocError>
    requires window { WindowFits (widened 2 window) }
    requires inked { (c j : ℤ) → bitmaps.is_black inked.now c j ≡ is_black glyph.tape.now.edges (centre c) (centre j) }
    requires rows { some.0 ≡ false → list_any (is_in_free_gap glyph.rules.rules.stubs (is_black_on over.Rows inked.now))
        glyph.tape.now.edges ≡ false }
    requires columns { some.1 ≡ false → list_any (is_in_free_gap glyph.rules.rules.stubs (is_black_on over.Columns inked.now))
        (map turned_round glyph.tape.now.edges) ≡ false }
    ensures exact { IfOk result (λ v. (c j : ℤ) → has_pixel v.items c j
        ≡ (has window c j && is_dropout glyph.entry.rules (contours_at glyph.entry.tape.now.edges glyph.entry.ends.now) c j)) }
{
    let (columns, rows) = pixels_reached(glyph.rules.extents, glyph.rules.rules.dots);
    let mut found = Vec::new(alloc);
    let part = match clipped(window, columns, rows) {
        Some(part) => part,
        None => return Ok(found),
    };
    if part.height > BAND_ROWS {
        return dropouts(alloc, glyph, window);
    }
    let mut ink = Bitmap::painted(alloc, inked, widened(part, 5))?;
    push_found(alloc, &mut found, glyph, part, some, &mut ink)?;
    Ok(found)
}

/// The dropouts in a window of a glyph whose contours are closed. Error: memory ran out.
pub(crate) fn closed_dropouts(
    alloc: Global,
    glyph: Outlined,
    window: Window,
) -> Result<Vec<Pixel>, AllocError>
    requires closed { All IsClosed (contours_at glyph.tape.now.edges glyph.ends.now) }
    requires window { WindowFits (widened 2 window) }
    ensures exact { IfOk result (λ v. (c j : ℤ) → has_pixel v.items c j
        ≡ (has window c j && is_dropout glyph.entry.rules (contours_at glyph.entry.tape.now.edges glyph.entry.ends.now) c j)) }
{
    if !closed_may_have_dropouts(glyph.rules.rules, glyph.contours()) {
        return Ok(Vec::new(alloc));
    }
    dropouts(alloc, glyph, window)
}
