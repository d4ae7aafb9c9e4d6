//! Whether a glyph may have dropouts, by the bitmap of the pixels that its edges blacken. Its contours are closed. If closed
//! contours cross a free gap, some edge rises through the gap. So of the edges that cross, those that rise are tested.

ghost use Rattle.std.specs.Prelude.{◌≡◌, false, ℤ, ◌^◌, ◌<◌, map, unsigned_abs, All, IfNone, IfSome};
ghost use Rattle.std.specs.List.{list_any};
ghost use Rattle.tt_bitmap.specs.Bitmaps as bitmaps;
ghost use Rattle.tt_scan.specs.Contours.{IsClosed, contours_at};
ghost use Rattle.tt_scan_edges.specs.Winding.{EdgeFits, is_black};
ghost use Rattle.tt_scan_gaps.specs.Crossings.{centre, crossings, touches};
ghost use Rattle.tt_scan_gaps.specs.Gaps.{is_free};
ghost use Rattle.tt_scan_gaps.specs.Seen.{seen_by, turned_round};
ghost use Rattle.tt_scan_gaps.specs.Walk.{is_in_free_gap, some_in_free_gap};
ghost use Rattle.tt_scan_gaps.specs.declared.seen.Over.TheVariants as over;
ghost use Rattle.tt_scan_dropouts.specs.Dropouts.{is_dropout};
ghost use Rattle.tt_scan_dropouts.specs.Rising.{is_tested, rises_in_free_gap};
ghost use Rattle.tt_scan_dropouts.specs.Seen.{is_black_on};

use tt_bitmap::BoxBitmap;
use tt_scan::Edge;
use tt_scan_dropouts::{Outlined, may_have_dots};
use tt_scan_gaps::{Over, gap_crossed, line_crossed, lines_crossed, meets, seen_by, touch};

/// Whether both pixels of a gap of a line are white. The pixel that edges which rise mostly have inside comes first.
#[inline(always)]
fn is_free(inked: &BoxBitmap, over: Over, gap: i64, line: i64) -> bool
    requires { unsigned_abs gap < 2 ^ 32 }
    ensures { result ≡ is_free (is_black_on over inked.now) gap line }
{
    match over {
        Over::Rows => !inked.is_black(gap + 1, line) && !inked.is_black(gap, line),
        Over::Columns => !inked.is_black(line, gap) && !inked.is_black(line, gap + 1),
    }
}

/// Whether an edge crosses a free gap.
fn crosses_free(inked: &BoxBitmap, over: Over, edge: Edge) -> bool
    requires { EdgeFits edge }
    ensures { result ≡ some_in_free_gap (is_black_on over inked.now) (crossings edge) }
{
    for k in 0..lines_crossed(edge) {
        if is_free(inked, over, gap_crossed(edge, k), line_crossed(edge, k)) {
            return true;
        }
    }
    false
}

/// Whether an end of an edge touches a line in a free gap.
fn touches_free(inked: &BoxBitmap, over: Over, edge: Edge) -> bool
    requires { EdgeFits edge }
    ensures { result ≡ some_in_free_gap (is_black_on over inked.now) (touches edge) }
{
    match touch(edge) {
        Some(at) => is_free(inked, over, i64::from(at.gap), i64::from(at.line)),
        None => false,
    }
}

/// Whether an edge that crosses lines rises through a free gap. Most such edges cross one line.
#[inline(always)]
fn rises_there(inked: &BoxBitmap, over: Over, seen: Edge) -> bool
    requires { EdgeFits seen }
    ensures { result ≡ rises_in_free_gap (is_black_on over inked.now) seen }
{
    if seen.by <= seen.ay {
        return false;
    }
    if lines_crossed(seen) == 1 {
        return is_free(inked, over, gap_crossed(seen, 0), line_crossed(seen, 0));
    }
    crosses_free(inked, over, seen)
}

/// Whether an edge, as a pass sees it, rises through a free gap. Most edges meet no line.
#[inline(always)]
fn rises(inked: &BoxBitmap, over: Over, edge: &Edge) -> bool
    requires { EdgeFits edge.now }
    ensures { result ≡ rises_in_free_gap (is_black_on over inked.now) (seen_by over edge.now) }
{
    meets(over, false, edge) && rises_there(inked, over, seen_by(over, *edge))
}

/// Whether an edge, as a pass sees it, is such that the pass is needed.
#[inline(always)]
fn is_tested(inked: &BoxBitmap, over: Over, stubs: bool, edge: &Edge) -> bool
    requires { EdgeFits edge.now }
    ensures { result ≡ is_tested stubs (is_black_on over inked.now) (seen_by over edge.now) }
{
    rises(inked, over, edge) || (stubs && touches_free(inked, over, seen_by(over, *edge)))
}

/// Whether some edge makes a pass needed. Each pass has a loop of its own, since most edges meet no line and a short loop
/// passes over them.
#[inline(always)]
fn some_tested_over(inked: &BoxBitmap, over: Over, stubs: bool, edges: &[Edge]) -> bool
    requires { All EdgeFits edges.now }
    ensures { result ≡ list_any (λ e. is_tested stubs (is_black_on over inked.now) (seen_by over e)) edges.now }
{
    for edge in edges {
        if is_tested(inked, over, stubs, edge) {
            return true;
        }
    }
    false
}

/// Whether some edge makes the pass over rows needed, and whether some edge makes that over columns needed.
#[inline(never)]
fn some_tested(inked: &BoxBitmap, stubs: bool, edges: &[Edge]) -> (bool, bool)
    requires { All EdgeFits edges.now }
    ensures rows { result.0 ≡ list_any (is_tested stubs (is_black_on over.Rows inked.now)) edges.now }
    ensures columns { result.1 ≡ list_any (is_tested stubs (is_black_on over.Columns inked.now)) (map turned_round edges.now) }
{
    // The loops of the second pair ask nothing about stubs.
    if stubs {
        let rows = some_tested_over(inked, Over::Rows, true, edges);
        return (rows, some_tested_over(inked, Over::Columns, true, edges));
    }
    let rows = some_tested_over(inked, Over::Rows, false, edges);
    (rows, some_tested_over(inked, Over::Columns, false, edges))
}

/// Whether the pass over rows may add dropouts to the pixels of a bitmap, and whether that over columns may. The bitmap has
/// the pixels that a glyph's edges blacken; the contours are closed. None where there are no dropouts at all.
pub(crate) fn passes_needed(glyph: Outlined, inked: &BoxBitmap) -> Option<(bool, bool)>
    requires closed { All IsClosed (contours_at glyph.tape.now.edges glyph.ends.now) }
    requires inked { (c j : ℤ) → bitmaps.is_black inked.now c j ≡ is_black glyph.tape.now.edges (centre c) (centre j) }
    ensures none { IfNone result ((c j : ℤ)
        → is_dropout glyph.entry.rules (contours_at glyph.entry.tape.now.edges glyph.entry.ends.now) c j ≡ false) }
    ensures rows { IfSome result (λ some. some.0 ≡ false → list_any
        (is_in_free_gap glyph.entry.rules.rules.stubs (is_black_on over.Rows inked.now)) glyph.entry.tape.now.edges ≡ false) }
    ensures columns { IfSome result (λ some. some.1 ≡ false → list_any
        (is_in_free_gap glyph.entry.rules.rules.stubs (is_black_on over.Columns inked.now))
        (map turned_round glyph.entry.tape.now.edges) ≡ false) }
{
    let edges = glyph.tape.lend();
    let (rows, columns) = some_tested(inked, glyph.rules.rules.stubs, edges);
    if rows || columns {
        return Some((rows, columns));
    }
    if may_have_dots(glyph.rules.rules, edges, glyph.ends) {
        return Some((rows, columns));
    }
    None
}
