//! The delta of a point between two named points of its contour, along one axis.

ghost use Rattle.std.specs.Prelude.{◌≡◌, ◌<◌, ◌≤◌, ◌^◌, ◌+ℤ◌, ◌-ℤ◌, ◌*ℤ◌, ◌<ℤ◌, pos, unsigned_abs};
ghost use Rattle.tt_deltas_inference.specs.Inference as is;
ghost use Rattle.tt_deltas_inference.specs.declared.point.AxisPoint.{AxisPoint as Point};
ghost use Rattle.tt_deltas_inference.specs.Bounds.{AreInOrder, IsGiven};

use tt_core::{Halves, quotient};

/// A point of a glyph along one axis.
#[derive(Clone, Copy)]
pub struct AxisPoint {
    /// Whether the tuple names the point.
    pub named: bool,
    /// The coordinate, in font units.
    pub at: i16,
    /// How far the point moves, in 1/65536 of a font unit.
    pub delta: i64,
}

/// A way along an axis, in font units or in 1/65536 of them.
#[derive(Clone, Copy)]
struct AxisWay(i64);

/// Two named points, the one with the lower coordinate first.
#[derive(Clone, Copy)]
pub(crate) struct NamedNeighbours {
    lo: AxisPoint,
    hi: AxisPoint,
    /// The growth of a point's delta for each font unit from the lower point on.
    growth: AxisWay,
    ghost are: { AreInOrder lo hi growth.0 },
}

/// The way from a point to another, in font units.
fn range(lo: AxisPoint, hi: AxisPoint) -> AxisWay
    requires low { IsGiven lo }
    requires high { IsGiven hi }
    ensures exact { result.0 ≡ hi.at -ℤ lo.at }
    ensures few { unsigned_abs result.0 < 2 ^ 16 }
{
    AxisWay(i64::from(hi.at) - i64::from(lo.at))
}

/// The way from a moved point to another, in 1/65536 of a font unit.
fn moved_range(lo: AxisPoint, hi: AxisPoint) -> AxisWay
    requires low { IsGiven lo }
    requires high { IsGiven hi }
    ensures exact { result.0 ≡ is.moved hi -ℤ is.moved lo }
    ensures few { unsigned_abs result.0 < 2 ^ 34 }
{
    AxisWay(65536 * range(lo, hi).0 + (hi.delta - lo.delta))
}

/// The rate of moved to original ways less one, in 1/65536. It is 0 where the two coordinates are equal.
fn growth(lo: AxisPoint, hi: AxisPoint) -> AxisWay
    requires low { IsGiven lo }
    requires high { IsGiven hi }
    ensures exact { lo.at <ℤ hi.at → result.0 ≡ is.rate lo hi -ℤ pos 65536 }
    ensures few { unsigned_abs result.0 < 2 ^ 35 }
{
    if lo.at == hi.at {
        return AxisWay(0);
    }
    let rate = quotient(Halves::AwayFromZero, moved_range(lo, hi).0, range(lo, hi).0);
    AxisWay(rate - 65536)
}

impl NamedNeighbours {
    fn ordered(lo: AxisPoint, hi: AxisPoint) -> NamedNeighbours
        requires low { IsGiven lo }
        requires high { IsGiven hi }
        ensures low { result.lo ≡ lo }
        ensures high { result.hi ≡ hi }
    {
        NamedNeighbours {
            lo,
            hi,
            growth: growth(lo, hi),
        }
    }

    /// The named points before and after a run of unnamed ones.
    pub(crate) fn of(before: AxisPoint, after: AxisPoint) -> NamedNeighbours
        requires before { IsGiven before }
        requires after { IsGiven after }
        ensures { (p : Point) → is.placed result.lo result.hi p ≡ is.inferred before after p }
    {
        if after.at < before.at {
            NamedNeighbours::ordered(after, before)
        } else {
            NamedNeighbours::ordered(before, after)
        }
    }
}

fn product(part: AxisWay, growth: AxisWay) -> AxisWay
    requires part { unsigned_abs part.0 < 2 ^ 16 }
    requires growth { unsigned_abs growth.0 < 2 ^ 35 }
    ensures exact { result.0 ≡ part.0 *ℤ growth.0 }
    ensures few { unsigned_abs result.0 < 2 ^ 51 }
{
    AxisWay(part.0 * growth.0)
}

/// The delta of a point whose coordinate is between two others, in proportion.
fn in_proportion(p: AxisPoint, between: NamedNeighbours) -> AxisWay
    requires point { IsGiven p }
    requires order { between.lo.at <ℤ between.hi.at }
    ensures { result.0 ≡ is.in_proportion p between.lo between.hi }
{
    let more = product(range(between.lo, p), between.growth);
    AxisWay(between.lo.delta + more.0)
}

/// The delta of a point between two named ones.
fn delta_between(p: AxisPoint, between: NamedNeighbours) -> AxisWay
    requires { IsGiven p }
    ensures { result.0 ≡ is.delta_between p between.lo between.hi }
{
    let lo = between.lo;
    let hi = between.hi;
    if lo.at == hi.at {
        AxisWay(if lo.delta == hi.delta { lo.delta } else { 0 })
    } else if p.at <= lo.at {
        AxisWay(lo.delta)
    } else if p.at >= hi.at {
        AxisWay(hi.delta)
    } else {
        in_proportion(p, between)
    }
}

/// An unnamed point with its delta between two named ones.
pub(crate) fn placed(p: AxisPoint, between: NamedNeighbours) -> AxisPoint
    requires { IsGiven p }
    ensures { result ≡ is.placed between.lo between.hi p }
{
    AxisPoint {
        delta: delta_between(p, between).0,
        ..p
    }
}
