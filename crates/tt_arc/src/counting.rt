//! Counts the chords of an outline before its edges are made, so that an outline with too many takes no memory.

ghost use Rattle.std.specs.Prelude.{◌≡◌, ◌*◌, ◌^◌, ◌<◌, ◌≤◌, nat_le, length, map, All};
ghost use Rattle.tt_fit_outline.specs.Outline.{AreEnds};
ghost use Rattle.tt_arc.specs.Chords.{IsNear, chords_counted, chords_of, contour_chords, edges_of, moved, number_before, number_after, point_at};

use crate::contour::number_after;
use crate::point::{Corner, Offset, moved};
use crate::quadratic::{chord_count, quadratic_of};
use crate::rule::ChordRule;
use tt_fit_outline::Outline;

/// The most chords of a point. A straight edge counts as one.
const POINT_CHORDS: usize = 32;

/// The number of the point before point `i`, in a closed contour of `n` points.
fn number_before(n: usize, i: usize) -> usize
    requires { i < n }
    ensures exact { result ≡ number_before n i }
    ensures within { result < n }
{
    if i == 0 { n - 1 } else { i - 1 }
}

/// Point `i` of a closed contour, between its neighbours.
fn corner_at(points: &[(i32, i32, bool)], by: Offset, i: usize) -> Corner
    requires near { All (IsNear by.dx by.dy) points.now }
    requires within { i < length points.now }
    ensures before { result.before ≡ point_at (map (moved by.dx by.dy) points.now) (number_before (length points.now) i) }
    ensures point { result.point ≡ point_at (map (moved by.dx by.dy) points.now) i }
    ensures after { result.after ≡ point_at (map (moved by.dx by.dy) points.now) (number_after (length points.now) i) }
{
    let before = moved(points[number_before(points.len(), i)], by);
    let point = moved(points[i], by);
    let after = moved(points[number_after(points.len(), i)], by);
    Corner {
        before,
        point,
        after,
    }
}

/// How many chords and straight edges a point of a contour has.
#[tactic(auto, unfolding(crate::specs::Chords::edges_of))]
fn corner_chords(corner: Corner, rule: ChordRule) -> usize
    ensures exact { result ≡ length (edges_of rule corner.before corner.point corner.after) }
    ensures few { result ≤ 32 }
{
    if !corner.point.on {
        return chord_count(quadratic_of(corner), rule) as usize;
    }
    usize::from(corner.after.on)
}

/// How many chords and straight edges a contour has, before any are joined. A contour of one point has none.
fn contour_chords(points: &[(i32, i32, bool)], by: Offset, rule: ChordRule) -> usize
    requires near { All (IsNear by.dx by.dy) points.now }
    requires few { length points.now < 2 ^ 32 }
    ensures exact { result ≡ length (contour_chords rule (map (moved by.dx by.dy) points.now)) }
    ensures few { result ≤ 32 * length points.now }
{
    if points.len() < 2 {
        return 0;
    }
    let mut count = 0;
    for i in 0..points.len() {
        count += corner_chords(corner_at(points, by, i), rule);
    }
    count
}

/// How many chords and straight edges all contours have, before any are joined. An entry of `ends` is one past its
/// contour's last point.
#[tactic(auto, using(crate::proofs::Few::none_counted))]
fn outline_chords(points: &[(i32, i32, bool)], ends: &[u32], by: Offset, rule: ChordRule) -> usize
    requires ends { AreEnds (length points.now) ends.now }
    requires near { All (IsNear by.dx by.dy) points.now }
    ensures { result ≡ chords_of rule (map (moved by.dx by.dy) points.now) ends.now }
{
    let mut count = 0;
    let mut from = 0;
    for end in ends {
        let to = *end as usize;
        count += contour_chords(&points[from..to], by, rule);
        from = to;
    }
    count
}

/// Whether an outline moved by `dx` and `dy` (in 26.6) has at most so many chords and straight edges, before any are
/// joined. An outline with few points is not walked.
pub fn has_chords_within(outline: &Outline, rule: ChordRule, dx: i64, dy: i64, most: usize) -> bool
    requires ends { AreEnds (length outline.now.points.items) outline.now.ends.items }
    requires near { All (IsNear dx dy) outline.now.points.items }
    ensures { result ≡ nat_le (chords_counted rule outline.now.points.items outline.now.ends.items dx dy) most }
{
    if outline.points.len() <= most / POINT_CHORDS {
        return true;
    }
    outline_chords(&outline.points, &outline.ends, Offset { dx, dy }, rule) <= most
}
