//! The named points of a contour.

ghost use Rattle.std.specs.Prelude.{◌≡◌, ◌<◌, ◌≤◌, length, get_or, take, true, None, All, IfSome};
ghost use Rattle.tt_deltas_inference.specs.Inference as is;
ghost use Rattle.tt_deltas_inference.specs.declared.point.AxisPoint.{AxisPoint as Point};
ghost use Rattle.tt_deltas_inference.specs.Bounds.{IsGiven};

use crate::point::AxisPoint;

pub(crate) fn first_named(points: &[AxisPoint]) -> Option<AxisPoint>
    requires { All IsGiven points.now }
    ensures exact { result ≡ is.first_named points.now }
    ensures given { IfSome result IsGiven }
{
    for p in points {
        if p.named {
            return Some(*p);
        }
    }
    None
}

pub(crate) fn last_named(points: &[AxisPoint]) -> Option<AxisPoint>
    requires { All IsGiven points.now }
    ensures exact { result ≡ is.last_named None points.now }
    ensures given { IfSome result IsGiven }
{
    let mut last = None;
    for p in points {
        if p.named {
            last = Some(*p);
        }
    }
    last
}

/// The count of unnamed points up to the next named one or the end.
pub(crate) fn unnamed(points: &[AxisPoint]) -> usize
    ensures bound { result ≤ length points.now }
    ensures none { is.first_named (take result points.now) ≡ None }
    ensures end { (d : Point) → result < length points.now → (get_or points.now result d).named ≡ true }
{
    for i in 0..points.len() {
        if points[i].named {
            return i;
        }
    }
    points.len()
}
