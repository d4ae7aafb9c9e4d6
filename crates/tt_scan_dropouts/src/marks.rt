//! The crossings of an outline as marks in the gaps of its lines. Marks in gaps that are not free have no effect and
//! are omitted.

ghost use Rattle.std.specs.Prelude.{◌≡◌, ◌++◌, [], ◌∷◌, ◌<◌, true, false, length, map, All, IfOk, OnOk};
ghost use Rattle.std.specs.List.{list_any};
ghost use Rattle.tt_scan.specs.Contours.{contours_at};
ghost use Rattle.tt_scan_edges.specs.Winding.{EdgeFits};
ghost use Rattle.tt_scan_gaps.specs.Crossings.{crossings, touches};
ghost use Rattle.tt_scan_gaps.specs.Gaps.{free_marks, is_free};
ghost use Rattle.tt_scan_gaps.specs.Walk.{contour_marks, edge_marks, is_in_free_gap, mark_of, marks, some_in_free_gap, step_marks, walk_marks};
ghost use Rattle.tt_scan_dropouts.specs.Seen.{is_black_to};
ghost use Rattle.tt_scan_dropouts.specs.Windows.{is_black_by};

use crate::bitmap::Bitmap;
use crate::contours::Contours;
use std::alloc::{AllocError, Global};
use tt_scan::Edge;
use tt_scan_gaps::{
    Crossing, Mark, Over, Rules, Step, crossing, gap_crossed, is_of_stub, line_crossed,
    lines_crossed, meets, touch, walk,
};

/// A pass over the rows or the columns of a glyph: its rules, and the pixels that are black before it.
#[derive(Clone, Copy)]
pub(crate) struct Pass<'a> {
    pub(crate) rules: Rules,
    pub(crate) over: Over,
    pub(crate) ink: &'a Bitmap,
}

/// Whether the gap of a crossing is free.
#[inline(always)]
pub(crate) fn is_free(pass: Pass, at: Crossing) -> bool
    ensures { result ≡ is_free (is_black_to pass.entry) at.gap at.line }
{
    pass.ink
        .is_free(pass.over, i64::from(at.gap), i64::from(at.line))
}

/// Whether an edge crosses a free gap.
pub(crate) fn crosses_free_gap(ink: &Bitmap, over: Over, edge: Edge) -> bool
    requires { EdgeFits edge }
    ensures { result ≡ some_in_free_gap (is_black_by over ink.now) (crossings edge) }
{
    // Most edges that cross lines cross one, and for one line a loop is not begun.
    if lines_crossed(edge) == 1 {
        return ink.is_free(over, gap_crossed(edge, 0), line_crossed(edge, 0));
    }
    for k in 0..lines_crossed(edge) {
        if ink.is_free(over, gap_crossed(edge, k), line_crossed(edge, k)) {
            return true;
        }
    }
    false
}

/// Whether an end of an edge touches a line in a free gap.
pub(crate) fn touches_free_gap(ink: &Bitmap, over: Over, edge: Edge) -> bool
    requires { EdgeFits edge }
    ensures { result ≡ some_in_free_gap (is_black_by over ink.now) (touches edge) }
{
    match touch(edge) {
        Some(at) => ink.is_free(over, i64::from(at.gap), i64::from(at.line)),
        None => false,
    }
}

/// Adds a crossing as a mark that needs a pixel. Error: memory ran out.
#[inline(always)]
fn push_asking(marks: &mut Vec<Mark>, pass: Pass, at: Crossing) -> Result<(), AllocError>
    ensures { OnOk result (marks.new.items
        ≡ marks.old.items ++ free_marks (is_black_to pass.entry) (mark_of true at ∷ [])) }
{
    if is_free(pass, at) {
        marks.push(Mark { at, asks: true })?;
    }
    Ok(())
}

/// Adds the marks of step `k` of a walk. Error: memory ran out.
fn push_step_marks(
    marks: &mut Vec<Mark>,
    pass: Pass,
    steps: &[Step],
    k: usize,
) -> Result<(), AllocError>
    requires { k < length steps.now }
    ensures { OnOk result (marks.new.items
        ≡ marks.old.items ++ free_marks (is_black_to pass.entry) (step_marks steps.now k)) }
{
    if let Step::Cross(at) = steps[k] {
        if is_free(pass, at) {
            marks.push(Mark {
                at,
                asks: !is_of_stub(steps, k, at),
            })?;
        }
    }
    Ok(())
}

/// Adds the marks of a walk, where stubs are not drawn. Error: memory ran out.
fn push_walk_marks(marks: &mut Vec<Mark>, pass: Pass, steps: &[Step]) -> Result<(), AllocError>
    ensures { OnOk result (marks.new.items
        ≡ marks.old.items ++ free_marks (is_black_to pass.entry) (walk_marks steps.now)) }
{
    for k in 0..steps.len() {
        push_step_marks(marks, pass, steps, k)?;
    }
    Ok(())
}

/// Adds the crossings of an edge. Error: memory ran out.
fn push_crossings(marks: &mut Vec<Mark>, pass: Pass, edge: Edge) -> Result<(), AllocError>
    requires { EdgeFits edge }
    ensures { OnOk result (marks.new.items
        ≡ marks.old.items ++ free_marks (is_black_to pass.entry) (map (mark_of true) (crossings edge))) }
{
    for k in 0..lines_crossed(edge) {
        push_asking(marks, pass, crossing(edge, k))?;
    }
    Ok(())
}

/// Adds the marks of an edge, where stubs are drawn. Error: memory ran out.
fn push_edge_marks(marks: &mut Vec<Mark>, pass: Pass, edge: Edge) -> Result<(), AllocError>
    requires { EdgeFits edge }
    ensures { OnOk result (marks.new.items ≡ marks.old.items ++ free_marks (is_black_to pass.entry) (edge_marks edge)) }
{
    push_crossings(marks, pass, edge)?;
    if let Some(at) = touch(edge) {
        push_asking(marks, pass, at)?;
    }
    Ok(())
}

/// Adds the marks of a contour's edges, where stubs are drawn. Error: memory ran out.
fn push_all_edge_marks(marks: &mut Vec<Mark>, pass: Pass, edges: &[Edge]) -> Result<(), AllocError>
    requires { All EdgeFits edges.now }
    ensures { OnOk result (marks.new.items
        ≡ marks.old.items ++ free_marks (is_black_to pass.entry) (contour_marks true edges.now)) }
{
    for i in 0..edges.len() {
        push_edge_marks(marks, pass, edges[i])?;
    }
    Ok(())
}

/// Whether an edge crosses a free gap. Most edges meet no line.
#[inline(always)]
fn is_in_free_gap(pass: Pass, edge: &Edge) -> bool
    requires { EdgeFits edge.now }
    ensures { result ≡ is_in_free_gap false (is_black_to pass.entry) edge.now }
{
    meets(Over::Rows, false, edge) && crosses_free_gap(pass.ink, pass.over, *edge)
}

/// Whether some edge of a contour crosses a free gap.
fn some_in_free_gap(pass: Pass, edges: &[Edge]) -> bool
    requires { All EdgeFits edges.now }
    ensures { result ≡ false → list_any (is_in_free_gap false (is_black_to pass.entry)) edges.now ≡ false }
{
    for edge in edges {
        if is_in_free_gap(pass, edge) {
            return true;
        }
    }
    false
}

/// Adds the marks of a contour. Error: memory ran out.
fn push_contour_marks(
    alloc: Global,
    marks: &mut Vec<Mark>,
    pass: Pass,
    edges: &[Edge],
) -> Result<(), AllocError>
    requires { All EdgeFits edges.now }
    ensures { OnOk result (marks.new.items
        ≡ marks.old.items ++ free_marks (is_black_to pass.entry) (contour_marks pass.entry.rules.stubs edges.now)) }
{
    if pass.rules.stubs {
        return push_all_edge_marks(marks, pass, edges);
    }
    // Most contours cross no free gap, and their walks are not needed.
    if !some_in_free_gap(pass, edges) {
        return Ok(());
    }
    let steps = walk(alloc, edges)?;
    push_walk_marks(marks, pass, &steps)
}

/// The marks of an outline's contours in free gaps. Error: memory ran out.
pub(crate) fn free_marks(
    alloc: Global,
    pass: Pass,
    contours: Contours,
) -> Result<Vec<Mark>, AllocError>
    ensures { IfOk result (λ v. v.items ≡ free_marks (is_black_to pass.entry)
        (marks pass.entry.rules.stubs (contours_at contours.entry.edges.now contours.entry.ends.now))) }
{
    let Contours { edges, ends } = contours;
    let mut marks = Vec::new(alloc);
    let mut from = 0;
    for i in 0..ends.len() {
        push_contour_marks(alloc, &mut marks, pass, &edges[from..ends[i]])?;
        from = ends[i];
    }
    Ok(marks)
}
