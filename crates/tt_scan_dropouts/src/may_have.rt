//! Whether a glyph may have dropouts. If closed contours cross a free gap, they cross it both rising and falling. So
//! where no free gap is crossed both ways, and no contour has the box of a dot, there are no dropouts, and nothing else
//! need be computed.

ghost use Rattle.std.specs.Prelude.{◌≡◌, ℤ, true, false, length, All};
ghost use Rattle.tt_scan_edges.specs.Winding.{EdgeFits};
ghost use Rattle.std.specs.List.{list_any};
ghost use Rattle.tt_scan.specs.Contours.{AreEnds, IsClosed, contours_at};
ghost use Rattle.tt_scan_gaps.specs.Crossings.{has_end_on_line};
ghost use Rattle.tt_scan_gaps.specs.Dots.{has_dot_box};
ghost use Rattle.tt_scan_dropouts.specs.Dropouts.{is_dropout};
ghost use Rattle.tt_scan_dropouts.specs.declared.boxed.BoxedRules.{BoxedRules};

use crate::closed::are_closed;
use crate::contours::Contours;
use tt_scan::Edge;
use tt_scan_gaps::{Rules, has_dot_box, has_end_on_line, may_cross_both_ways};

/// Whether an end of some edge lies on a line, of rows or of columns.
fn some_end_on_line(edges: &[Edge]) -> bool
    requires { All EdgeFits edges.now }
    ensures { result ≡ list_any has_end_on_line edges.now }
{
    for edge in edges {
        if has_end_on_line(*edge) {
            return true;
        }
    }
    false
}

/// Whether some contour has the box of a dot.
fn some_dot_box(contours: Contours) -> bool
    ensures { result ≡ false → list_any has_dot_box (contours_at contours.entry.edges.now contours.entry.ends.now) ≡ false }
{
    let Contours { edges, ends } = contours;
    let mut from = 0;
    for i in 0..ends.len() {
        if has_dot_box(&edges[from..ends[i]]) {
            return true;
        }
        from = ends[i];
    }
    false
}

/// Whether dots are drawn and some contour has the box of one. Each contour ends before the edge of a number in `ends`.
pub fn may_have_dots(rules: Rules, edges: &[Edge], ends: &[usize]) -> bool
    requires edges { All EdgeFits edges.now }
    requires ends { AreEnds (length edges.now) ends.now }
    ensures { result ≡ false → rules.dots ≡ true → list_any has_dot_box (contours_at edges.now ends.now) ≡ false }
{
    rules.dots && some_dot_box(Contours { edges, ends })
}

/// Whether an outline with closed contours may have dropouts. False means that it has none: it crosses no free gap both
/// rising and falling, no edge ends on a line where stubs are drawn, and no contour has the box of a dot where dots are.
pub(crate) fn closed_may_have_dropouts(rules: Rules, contours: Contours) -> bool
    requires { All IsClosed (contours_at contours.edges.now contours.ends.now) }
    ensures { result ≡ false → (boxed : BoxedRules) → boxed.rules.stubs ≡ rules.stubs → boxed.rules.dots ≡ rules.dots
        → (c j : ℤ) → is_dropout boxed (contours_at contours.entry.edges.now contours.entry.ends.now) c j ≡ false }
{
    if rules.stubs && some_end_on_line(contours.edges) {
        return true;
    }
    if may_have_dots(rules, contours.edges, contours.ends) {
        return true;
    }
    may_cross_both_ways(contours.edges)
}

/// Whether an outline may have dropouts. False means that it has none: its contours are closed, it crosses no free gap
/// both rising and falling, no edge ends on a line where stubs are drawn, and no contour has the box of a dot where dots
/// are. Each contour ends before the edge of a number in `ends`.
pub fn may_have_dropouts(rules: Rules, edges: &[Edge], ends: &[usize]) -> bool
    requires edges { All EdgeFits edges.now }
    requires ends { AreEnds (length edges.now) ends.now }
    ensures { result ≡ false → (boxed : BoxedRules) → boxed.rules.stubs ≡ rules.stubs → boxed.rules.dots ≡ rules.dots
        → (c j : ℤ) → is_dropout boxed (contours_at edges.now ends.now) c j ≡ false }
{
    let contours = Contours { edges, ends };
    !are_closed(contours) || closed_may_have_dropouts(rules, contours)
}
