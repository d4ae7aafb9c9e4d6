//! The edges of a closed contour.

ghost use Rattle.std.specs.Prelude.{◌≡◌, ◌+◌, ◌^◌, ◌<◌, ◌++◌, All, length, map, IfOk, OnOk};
ghost use Rattle.tt_arc.specs.Chords.{PointFits, IsNear, EdgeEndFits, moved, edge_end_of, number_after, edges_of, contour_chords, contour_edges};
ghost use Rattle.tt_arc.specs.Added.{AreAdded};

use crate::exact::push_chords;
use crate::joining::{SoFar, push_edge, push_last};
use crate::point::{Corner, Offset, PlacedPoint, moved};
use crate::quadratic::{EdgeEnd, edge_between, quadratic_of};
use crate::rule::ChordRule;
use std::alloc::AllocError;
use tt_scan::EdgeList;

/// A point on the curve as an end of an edge.
#[inline(always)]
pub(crate) fn edge_end_of(p: PlacedPoint) -> EdgeEnd
    requires { PointFits p }
    ensures exact { result ≡ edge_end_of p }
    ensures valid { EdgeEndFits result }
{
    EdgeEnd {
        x: (128 * p.x) as i32,
        y: (128 * p.y) as i32,
    }
}

/// Adds the edges of a point behind those so far of its contour. Error: memory ran out.
#[inline(always)]
#[tactic(auto, unfolding(crate::specs::Chords::edges_of))]
fn push_edges(
    list: &mut EdgeList,
    so_far: &mut SoFar,
    corner: Corner,
    rule: ChordRule,
) -> Result<(), AllocError>
    requires { so_far.old.chords < 2 ^ 63 }
    ensures added { OnOk result (AreAdded rule list.old.edges so_far.old.last (edges_of rule corner.before corner.point corner.after)
        list.new.edges so_far.new.last) }
    ensures chords { OnOk result (so_far.new.chords
        ≡ so_far.old.chords + length (edges_of rule corner.before corner.point corner.after)) }
{
    if !corner.point.on {
        return push_chords(list, so_far, quadratic_of(corner), rule);
    }
    if corner.after.on {
        list.reserve(1)?;
        let edge = edge_between(edge_end_of(corner.point), edge_end_of(corner.after));
        push_edge(list, &mut so_far.last, edge, rule);
        so_far.chords += 1;
    }
    Ok(())
}

/// The number of the point after point `i`, in a closed contour of `n` points.
#[inline(always)]
pub(crate) fn number_after(n: usize, i: usize) -> usize
    requires { i < n }
    ensures exact { result ≡ number_after n i }
    ensures within { result < n }
{
    if i + 1 < n { i + 1 } else { 0 }
}

/// Adds the edges of a contour to a list, and returns how many chords and straight edges there were before any were
/// joined. A contour of one point has none. Error: memory ran out.
#[inline(never)]
pub(crate) fn push_contour(
    list: &mut EdgeList,
    points: &[(i32, i32, bool)],
    by: Offset,
    rule: ChordRule,
) -> Result<usize, AllocError>
    requires near { All (IsNear by.dx by.dy) points.now }
    requires few { length points.now < 2 ^ 32 }
    ensures exact { OnOk result (list.new.edges ≡ list.old.edges ++ contour_edges rule (map (moved by.dx by.dy) points.now)) }
    ensures counted { IfOk result (λ n. n ≡ length (contour_chords rule (map (moved by.dx by.dy) points.now))) }
    ensures small { IfOk result (λ n. n < 2 ^ 63) }
{
    if points.len() < 2 {
        return Ok(0);
    }
    let mut before = moved(points[points.len() - 1], by);
    let mut point = moved(points[0], by);
    let mut so_far = SoFar {
        last: None,
        chords: 0,
    };
    for i in 0..points.len() {
        let after = moved(points[number_after(points.len(), i)], by);
        let corner = Corner {
            before,
            point,
            after,
        };
        push_edges(list, &mut so_far, corner, rule)?;
        before = point;
        point = after;
    }
    let SoFar { last, chords } = so_far;
    push_last(list, last, rule)?;
    Ok(chords)
}
