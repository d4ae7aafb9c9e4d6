//! The edges of an outline, as a list and on a tape.

ghost use Rattle.std.specs.Prelude.{◌≡◌, ◌+◌, ◌*◌, ◌^◌, ◌<◌, ◌≤◌, ◌++◌, true, [], ◌∷◌, length, map, if◌then◌else◌, All, IfOk, OnOk};
ghost use Rattle.tt_fit_outline.specs.Outline.{AreEnds};
ghost use Rattle.tt_scan.specs.Contours.{contours_at, AreEnds as AreEdgeEnds};
ghost use Rattle.tt_scan_edges.specs.Winding.{FrameFits};
ghost use Rattle.tt_arc.specs.Chords.{IsNear, moved, contour_chords, contour_edges, outline_edges, outline_contours, chords_of, chord_edges, chord_contours, chords_counted};
ghost use Rattle.tt_arc.specs.Ends.{ends_from};

use crate::contour::push_contour;
use crate::point::Offset;
use crate::rule::ChordRule;
use std::alloc::{AllocError, Global};
use tt_fit_outline::Outline;
use tt_scan::{EdgeList, Frame, Tape};

/// The edges of an outline, contour by contour.
#[derive(Drop)]
pub struct OutlineEdges {
    pub list: EdgeList,
    /// For each contour, the number of edges up to its end; empty where the ends are not wanted.
    pub ends: Vec<usize>,
    /// How many chords and straight edges there were before any were joined.
    pub chords: usize,
}

/// Adds the edges of a contour to those made so far. Error: memory ran out.
fn push_one(
    made: &mut OutlineEdges,
    points: &[(i32, i32, bool)],
    by: Offset,
    rule: ChordRule,
    with_ends: bool,
) -> Result<(), AllocError>
    requires near { All (IsNear by.dx by.dy) points.now }
    requires points { length points.now < 2 ^ 32 }
    requires few { made.old.chords ≤ 2 ^ 37 }
    ensures exact { OnOk result (made.new.list.edges ≡ made.old.list.edges ++ contour_edges rule (map (moved by.dx by.dy) points.now)) }
    ensures ends { OnOk result (made.new.ends.items
        ≡ (if with_ends then made.old.ends.items ++ length made.new.list.edges ∷ [] else made.old.ends.items)) }
    ensures chords { OnOk result (made.new.chords ≡ made.old.chords + length (contour_chords rule (map (moved by.dx by.dy) points.now))) }
{
    made.chords += push_contour(&mut made.list, points, by, rule)?;
    if with_ends {
        made.ends.push(made.list.len())?;
    }
    Ok(())
}

/// Adds the edges of all contours to those made so far, which are none. An entry of `ends` is one past its contour's
/// last point. Error: memory ran out.
#[tactic(auto, using(crate::proofs::Contours::none_left, crate::proofs::Few::none_counted))]
fn push_contours(
    made: &mut OutlineEdges,
    points: &[(i32, i32, bool)],
    ends: &[u32],
    by: Offset,
    rule: ChordRule,
    with_ends: bool,
) -> Result<(), AllocError>
    requires ends { AreEnds (length points.now) ends.now }
    requires near { All (IsNear by.dx by.dy) points.now }
    requires edges { made.old.list.edges ≡ [] }
    requires none { made.old.ends.items ≡ [] }
    requires zero { made.old.chords ≡ 0 }
    ensures exact { OnOk result (made.new.list.edges ≡ outline_edges rule (map (moved by.dx by.dy) points.now) ends.now) }
    ensures ends { OnOk result (with_ends ≡ true
        → made.new.ends.items ≡ ends_from 0 (outline_contours rule (map (moved by.dx by.dy) points.now) ends.now)) }
    ensures chords { OnOk result (made.new.chords ≡ chords_of rule (map (moved by.dx by.dy) points.now) ends.now) }
{
    let mut from = 0;
    for end in ends {
        let to = *end as usize;
        push_one(made, &points[from..to], by, rule, with_ends)?;
        from = to;
    }
    Ok(())
}

/// A guess at the number of edges: one for each point on the curve, and eight for any other point.
fn most_edges(points: &[(i32, i32, bool)]) -> usize {
    let mut most = 0;
    for point in points {
        most += if point.2 { 1 } else { 8 };
    }
    most
}

/// The edges of an outline moved by `dx` and `dy` (in 26.6). They are the straight lines of its closed contours, and
/// chords for each curve, as many as the rule says (profile). A contour of one point has none. Apple TrueType Reference
/// Manual, "Digitizing Letterform Designs". Error: memory ran out.
pub fn edges(
    alloc: Global,
    outline: &Outline,
    rule: ChordRule,
    dx: i64,
    dy: i64,
    with_ends: bool,
) -> Result<OutlineEdges, AllocError>
    requires ends { AreEnds (length outline.now.points.items) outline.now.ends.items }
    requires near { All (IsNear dx dy) outline.now.points.items }
    ensures exact { IfOk result (λ e. e.list.edges ≡ chord_edges rule outline.now.points.items outline.now.ends.items dx dy) }
    ensures contours { IfOk result (λ e. with_ends ≡ true → contours_at e.list.edges e.ends.items
        ≡ chord_contours rule outline.now.points.items outline.now.ends.items dx dy) }
    ensures ends { IfOk result (λ e. with_ends ≡ true → AreEdgeEnds (length e.list.edges) e.ends.items) }
    ensures chords { IfOk result (λ e. e.chords ≡ chords_counted rule outline.now.points.items outline.now.ends.items dx dy) }
    ensures few { IfOk result (λ e. length e.list.edges ≤ e.chords) }
    ensures bound { IfOk result (λ e. e.chords ≤ 32 * length outline.now.points.items) }
{
    let mut list = EdgeList::new(alloc);
    // The list mostly allocates once.
    list.reserve(most_edges(&outline.points))?;
    let ends = Vec::with_capacity(alloc, if with_ends { outline.ends.len() } else { 0 })?;
    let mut made = OutlineEdges {
        list,
        ends,
        chords: 0,
    };
    push_contours(
        &mut made,
        &outline.points,
        &outline.ends,
        Offset { dx, dy },
        rule,
        with_ends,
    )?;
    Ok(made)
}

/// The edges of a moved outline, on the tape of a frame. Error: memory ran out.
pub fn chords(
    alloc: Global,
    outline: &Outline,
    rule: ChordRule,
    dx: i64,
    dy: i64,
    frame: Frame,
) -> Result<Tape, AllocError>
    requires frame { FrameFits frame }
    requires ends { AreEnds (length outline.now.points.items) outline.now.ends.items }
    requires near { All (IsNear dx dy) outline.now.points.items }
    ensures exact { IfOk result (λ t. t ≡ record { frame = frame; edges = chord_edges rule outline.now.points.items outline.now.ends.items dx dy; crosses = 0 }) }
    ensures few { IfOk result (λ t. length t.edges ≤ 32 * length outline.now.points.items) }
{
    let OutlineEdges { list, .. } = edges(alloc, outline, rule, dx, dy, false)?;
    let tape = Tape::of(alloc, frame, list)?;
    Ok(tape)
}
