//! The chords of a quadratic whose ends are whole in 1/8192 pixel: up to eight of them.

ghost use Rattle.std.specs.Prelude.{◌≡◌, true, ◌+◌, ◌*◌, ◌^◌, ◌<◌, ◌≤◌, length, pos, ◌-ℤ◌, ◌*ℤ◌, unsigned_abs, OnOk};
ghost use Rattle.tt_arc.specs.Chords.{QuadraticFits, CoordinatesFit, AreDifferences, EdgeEndFits, is_part, sixteenfold, chord_count, chords_by};
ghost use Rattle.tt_arc.specs.Added.{AreAdded};

use crate::joining::{SoFar, push_edge};
use crate::quadratic::{
    Coordinates, Differences, EdgeEnd, Quadratic, along_x, along_y, chord_count, edge_between,
    next, push_rounded, signed_bend, times,
};
use crate::rule::ChordRule;
use std::alloc::AllocError;
use tt_scan::{EdgeList, Last};

/// The rise of a quadratic at its start, by an eighth of it, without its bend.
#[inline(always)]
fn slope(coordinates: Coordinates) -> i64
    requires { CoordinatesFit coordinates }
    ensures exact { result ≡ pos 16 *ℤ (pos 2 *ℤ coordinates.control -ℤ coordinates.from) }
    ensures bound { unsigned_abs result ≤ 2 ^ 29 }
{
    16 * (2 * coordinates.control - coordinates.from)
}

/// The coordinate and the differences at the start of a quadratic, for chords of `part` eighths of it.
#[inline(always)]
fn differences_at_start(coordinates: Coordinates, part: u32) -> Differences
    requires coordinates { CoordinatesFit coordinates }
    requires part { is_part part ≡ true }
    ensures { AreDifferences coordinates (4 * part) 0 (sixteenfold result) }
{
    let bend = times(part, signed_bend(coordinates));
    Differences {
        value: 64 * coordinates.from,
        first: times(part, slope(coordinates) + bend),
        second: 2 * times(part, bend),
    }
}

/// The end of a chord.
#[inline(always)]
fn edge_end(x: Differences, y: Differences) -> EdgeEnd
    requires x { unsigned_abs x.value < 2 ^ 30 }
    requires y { unsigned_abs y.value < 2 ^ 30 }
    ensures exact { result ≡ record { x = x.value; y = y.value } }
    ensures valid { EdgeEndFits result }
{
    EdgeEnd {
        x: x.value as i32,
        y: y.value as i32,
    }
}

/// Adds the chords of a quadratic, up to eight, behind the last edge of a contour. Error: memory ran out.
#[inline(always)]
fn push_exact(
    list: &mut EdgeList,
    last: &mut Option<Last>,
    curve: Quadratic,
    rule: ChordRule,
    n: u32,
) -> Result<(), AllocError>
    requires curve { QuadraticFits curve }
    requires count { n ≡ chord_count rule curve }
    requires few { is_part n ≡ true }
    ensures added { OnOk result (AreAdded rule list.old.edges last.old (chords_by rule curve) list.new.edges last.new) }
{
    let part = 8 / n;
    list.reserve(n as usize)?;
    let mut x = differences_at_start(along_x(curve), part);
    let mut y = differences_at_start(along_y(curve), part);
    let mut from = edge_end(x, y);
    for k in 0..n {
        x = next(x);
        y = next(y);
        let to = edge_end(x, y);
        push_edge(list, last, edge_between(from, to), rule);
        from = to;
    }
    Ok(())
}

/// Adds the chords of a quadratic behind the edges so far. Up to eight have exact ends, and the places of 16 and of 32
/// are rounded. Error: memory ran out.
#[inline(always)]
#[tactic(auto, using(crate::proofs::Few::chords_counted_by))]
pub(crate) fn push_chords(
    list: &mut EdgeList,
    so_far: &mut SoFar,
    curve: Quadratic,
    rule: ChordRule,
) -> Result<(), AllocError>
    requires curve { QuadraticFits curve }
    requires few { so_far.old.chords < 2 ^ 63 }
    ensures added { OnOk result (AreAdded rule list.old.edges so_far.old.last (chords_by rule curve) list.new.edges so_far.new.last) }
    ensures chords { OnOk result (so_far.new.chords ≡ so_far.old.chords + length (chords_by rule curve)) }
{
    let count = chord_count(curve, rule);
    so_far.chords += count as usize;
    let last = &mut so_far.last;
    // The counts are constants here, so that the compiler writes out each loop.
    match count {
        8 => push_exact(list, last, curve, rule, 8),
        4 => push_exact(list, last, curve, rule, 4),
        2 => push_exact(list, last, curve, rule, 2),
        1 => push_exact(list, last, curve, rule, 1),
        n => push_rounded(list, last, curve, rule, n),
    }
}
