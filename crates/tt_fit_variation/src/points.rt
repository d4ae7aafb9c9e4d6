//! The points of a simple glyph at an instance. OpenType, "gvar".

ghost use Rattle.std.specs.Prelude.{◌≡◌, ◌^◌, ◌≤◌, length, All, IfOk};
ghost use Rattle.tt_core.specs.Outcomes.{FontGives, Gives};
ghost use Rattle.tt_deltas.specs.Along.{IsWithin};
ghost use Rattle.tt_fit_outline.specs.Outline.{IsPoint};
ghost use Rattle.tt_fit_outline.specs.Views.{size_view};
ghost use Rattle.tt_fit_variation.specs.Moved.{instance_places, instance_point, instance_points, instance_units};
ghost use Rattle.tt_fit_variation.specs.Views.{point_view, points_view};

use crate::coordinate::moved_coordinate;
use crate::moved_point::InstancePoint;
use std::alloc::{AllocError, Global};
use tt_core::{Fault, FontFault};
use tt_deltas::Varied;
use tt_fit_outline::FontSize;
use tt_glyf::RawPoint;

/// A point at an instance. Error: CoordRange, at this offset in glyf.
#[tactic(auto, unfolding(crate::specs::Moved::instance_point))]
fn instance_point(
    size: FontSize,
    at: u32,
    on: bool,
    x: Varied,
    y: Varied,
) -> Result<InstancePoint, Fault>
    requires x { IsWithin (2 ^ 46) x }
    requires y { IsWithin (2 ^ 46) y }
    ensures exact { Gives point_view result (instance_point (size_view size) at on x y) }
{
    let x = moved_coordinate(size, at, x)?;
    let y = moved_coordinate(size, at, y)?;
    Ok(InstancePoint {
        unit: RawPoint {
            x: x.unit,
            y: y.unit,
            on,
        },
        place: (x.place, y.place, on),
    })
}

/// The points of a simple glyph that begins at this offset in glyf. Deltas follow for phantom points. Errors: CoordRange,
/// Memory.
pub fn instance_points(
    alloc: Global,
    size: FontSize,
    at: u32,
    points: &[RawPoint],
    xs: &[Varied],
    ys: &[Varied],
) -> Result<Vec<InstancePoint>, FontFault>
    requires xs { length points.now ≤ length xs.now }
    requires ys { length points.now ≤ length ys.now }
    requires x_near { All (IsWithin (2 ^ 46)) xs.now }
    requires y_near { All (IsWithin (2 ^ 46)) ys.now }
    ensures exact { FontGives (λ v. points_view v.items) result (instance_points (size_view size) at points.now xs.now ys.now) }
    ensures count { IfOk result (λ v. length v.items ≡ length points.now) }
{
    let mut moved = Vec::with_capacity(alloc, points.len())?;
    for i in 0..points.len() {
        moved.push(instance_point(size, at, points[i].on, xs[i], ys[i])?)?;
    }
    Ok(moved)
}

/// The points in 26.6 pixels.
pub fn instance_places(
    alloc: Global,
    points: &[InstancePoint],
) -> Result<Vec<(i32, i32, bool)>, AllocError>
    ensures exact { IfOk result (λ v. v.items ≡ instance_places (points_view points.now)) }
    ensures count { IfOk result (λ v. length v.items ≡ length points.now) }
    ensures within { IfOk result (λ v. All IsPoint v.items) }
{
    let mut places = Vec::with_capacity(alloc, points.len())?;
    for point in points {
        places.push(point.place)?;
    }
    Ok(places)
}

/// The points in whole font units.
pub fn instance_units(alloc: Global, points: &[InstancePoint]) -> Result<Vec<RawPoint>, AllocError>
    ensures exact { IfOk result (λ v. v.items ≡ instance_units (points_view points.now)) }
    ensures count { IfOk result (λ v. length v.items ≡ length points.now) }
{
    let mut units = Vec::with_capacity(alloc, points.len())?;
    for point in points {
        units.push(point.unit)?;
    }
    Ok(units)
}
