//! One pass round a contour, from each named point to the next one.

ghost use Rattle.std.specs.Prelude.{◌≡◌, ◌<◌, length, map, All};
ghost use Rattle.tt_deltas_inference.specs.Inference as is;
ghost use Rattle.tt_deltas_inference.specs.Bounds.{IsGiven};
ghost use Rattle.tt_deltas_inference.specs.Sweeps.{swept, IsRun};

use crate::point::{AxisPoint, NamedNeighbours, placed};
use crate::search::{first_named, last_named, unnamed};

/// A run of points: its length, and the last named point in it or before it.
#[derive(Clone, Copy)]
struct InferredRun {
    len: usize,
    last: AxisPoint,
}

/// Infers the deltas of points between two named ones.
fn fill(points: &mut [AxisPoint], before: AxisPoint, after: AxisPoint)
    requires points { All IsGiven points.old }
    requires before { IsGiven before }
    requires after { IsGiven after }
    ensures { points.new ≡ map (is.inferred before after) points.old }
{
    let between = NamedNeighbours::of(before, after);
    for p in points.iter_mut() {
        *p = placed(*p, between);
    }
}

/// Infers the deltas up to the next named point or the end. The run includes that named point. `before` is the named
/// point before these, `first` the first one of the contour.
fn next_run(points: &mut [AxisPoint], before: AxisPoint, first: AxisPoint) -> InferredRun
    requires some { 0 < length points.old }
    requires points { All IsGiven points.old }
    requires before { IsGiven before }
    requires first { IsGiven first }
    ensures { IsRun before first points.old points.new result.len result.last }
{
    let len = unnamed(points);
    if len == points.len() {
        fill(points, before, first);
        return InferredRun { len, last: before };
    }
    let last = points[len];
    fill(&mut points[..len], before, last);
    InferredRun { len: len + 1, last }
}

/// Infers the deltas from a contour's first point to its end. `last` and `first` are its last and first named point.
fn sweep(points: &mut [AxisPoint], last: AxisPoint, first: AxisPoint)
    requires points { All IsGiven points.old }
    requires last { IsGiven last }
    requires first { IsGiven first }
    ensures { points.new ≡ swept last first points.old }
{
    let mut start = 0;
    let mut before = last;
    while start < points.len() {
        let run = next_run(&mut points[start..], before, first);
        start += run.len;
        before = run.last;
    }
}

/// Infers the deltas of a contour's unnamed points. Without a named point they stay.
pub(crate) fn infer_contour(points: &mut [AxisPoint])
    requires { All IsGiven points.old }
    ensures { points.new ≡ is.contour points.old }
{
    let Some(first) = first_named(points) else {
        return;
    };
    let Some(last) = last_named(points) else {
        return;
    };
    sweep(points, last, first);
}
