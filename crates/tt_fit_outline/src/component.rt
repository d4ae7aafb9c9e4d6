//! The places of a component's points. OpenType, "The 'glyf' table", "Composite Glyph Description".

ghost use Rattle.std.specs.Prelude.{◌≡◌, ◌<◌, ◌≤◌, ◌^◌, ◌+ℤ◌, ◌*ℤ◌, unsigned_abs};
ghost use Rattle.tt_core.specs.Numbers.{rounded_quotient};
ghost use Rattle.tt_core.specs.Outcomes.{Gives};
ghost use Rattle.tt_core.specs.Scales.{away_quotient};
ghost use Rattle.tt_glyf.specs.Composite.{one};
ghost use Rattle.tt_glyf.specs.Meaning.{HasArguments};
ghost use Rattle.tt_fit_outline.specs.Component.{blended, transformed, offset_along, offset_of, point_of, onto, shift_of, landed};
ghost use Rattle.tt_fit_outline.specs.Views.{size_view, landing_view, component_point_view, shift_view};

use crate::grid::Grid;
use crate::scaling::{Landing, glyf_fault};
use crate::shift::{ComponentPoint, Shift};
use crate::size::FontSize;
use tt_core::{Fault, Halves, Why, quotient, rq};
use tt_glyf::{ComponentFlags, Record};

/// The number one in 2.14.
const ONE: i64 = 16384;

/// One row of a transform: the factors of x and of y.
#[derive(Clone, Copy)]
struct Row {
    x: i16,
    y: i16,
}

fn times(factor: i16, v: i32) -> i64
    ensures exact { result ≡ factor *ℤ v }
    ensures bound { unsigned_abs result ≤ 2 ^ 46 }
{
    i64::from(factor) * i64::from(v)
}

/// The rounded sum of two products, a half up.
fn sum_rounded(row: Row, point: (i32, i32, bool)) -> i64
    ensures exact { result ≡ rounded_quotient (row.x *ℤ point.0 +ℤ row.y *ℤ point.1) one }
    ensures bound { unsigned_abs result ≤ 2 ^ 47 }
{
    rq(times(row.x, point.0) + times(row.y, point.1), ONE)
}

/// A rounded product, a half away from zero.
fn product_rounded(factor: i16, v: i32) -> i64
    ensures exact { result ≡ away_quotient (factor *ℤ v) one }
    ensures bound { unsigned_abs result ≤ 2 ^ 46 }
{
    quotient(Halves::AwayFromZero, times(factor, v), ONE)
}

/// The sum of two rounded products.
fn products_rounded(row: Row, point: (i32, i32, bool)) -> i64
    ensures exact { result ≡ away_quotient (row.x *ℤ point.0) one +ℤ away_quotient (row.y *ℤ point.1) one }
    ensures bound { unsigned_abs result ≤ 2 ^ 47 }
{
    product_rounded(row.x, point.0) + product_rounded(row.y, point.1)
}

/// One coordinate under a transform. Where halves go away from zero, each product is rounded before the sum.
fn blended(halves: Halves, row: Row, point: (i32, i32, bool)) -> i64
    ensures exact { result ≡ blended halves row.x row.y point }
    ensures bound { unsigned_abs result ≤ 2 ^ 47 }
{
    match halves {
        Halves::Up => sum_rounded(row, point),
        Halves::AwayFromZero => products_rounded(row, point),
    }
}

/// A component's point under the transform.
fn transformed(halves: Halves, part: Record, point: (i32, i32, bool)) -> ComponentPoint
    ensures { component_point_view result ≡ transformed halves part point }
{
    let row_x = Row {
        x: part.xx,
        y: part.xy,
    };
    let row_y = Row {
        x: part.yx,
        y: part.yy,
    };
    ComponentPoint {
        x: blended(halves, row_x, point),
        y: blended(halves, row_y, point),
    }
}

/// An argument of a component as an offset.
fn offset_along(grid: Grid, size: FontSize, part: Record, v: i32) -> i64
    requires { unsigned_abs v ≤ 2 ^ 15 }
    ensures exact { result ≡ offset_along grid (size_view size) part v }
    ensures bound { unsigned_abs result < 2 ^ 47 }
{
    let offset = size.scale.scaled(v);
    if part.has(ComponentFlags::ROUND_XY_TO_GRID) {
        grid.rounded(offset)
    } else {
        offset
    }
}

fn offset_of(grid: Grid, size: FontSize, part: Record) -> Shift
    requires x { unsigned_abs part.arg1 ≤ 2 ^ 15 }
    requires y { unsigned_abs part.arg2 ≤ 2 ^ 15 }
    ensures { shift_view result ≡ offset_of grid (size_view size) part }
{
    Shift {
        x: offset_along(grid, size, part, part.arg1),
        y: offset_along(grid, size, part, part.arg2),
    }
}

fn point_of(points: &[(i32, i32, bool)], number: i32) -> Option<(i32, i32, bool)>
    ensures { result ≡ point_of points.now number }
{
    match usize::try_from(number) {
        Ok(i) => points.get(i).copied(),
        Err(_) => None,
    }
}

/// The shift that takes a component's point onto another point.
fn onto(halves: Halves, part: Record, point: (i32, i32, bool), target: (i32, i32, bool)) -> Shift
    ensures { shift_view result ≡ onto halves part point target }
{
    let from = transformed(halves, part, point);
    Shift {
        x: i64::from(target.0) - from.x,
        y: i64::from(target.1) - from.y,
    }
}

/// How far a component is moved, given the points assembled so far. Error: MatchPoint.
#[tactic(auto, unfolding(crate::specs::Component::shift_of))]
pub(crate) fn shift_of(
    grid: Grid,
    size: FontSize,
    part: Record,
    component: &[(i32, i32, bool)],
    points: &[(i32, i32, bool)],
) -> Result<Shift, Fault>
    requires { HasArguments part }
    ensures exact { Gives shift_view result (shift_of grid (size_view size) part component.now points.now) }
{
    if part.has(ComponentFlags::ARGS_ARE_XY_VALUES) {
        return Ok(offset_of(grid, size, part));
    }
    match (point_of(component, part.arg2), point_of(points, part.arg1)) {
        (Some(point), Some(target)) => Ok(onto(size.scale.halves, part, point, target)),
        _ => Err(glyf_fault(part.at, Why::MatchPoint)),
    }
}

/// A point of a component in its place, not yet tested against the limit.
pub(crate) fn landed(halves: Halves, part: Record, by: Shift, point: (i32, i32, bool)) -> Landing
    ensures { landing_view result ≡ landed halves part (shift_view by) point }
{
    let to = transformed(halves, part, point);
    Landing {
        x: to.x + by.x,
        y: to.y + by.y,
        on: point.2,
    }
}
