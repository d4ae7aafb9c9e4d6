//! The deltas of a whole glyph along one axis.

ghost use Rattle.std.specs.Prelude.{◌≡◌, length, All};
ghost use Rattle.tt_deltas_inference.specs.Inference as is;
ghost use Rattle.tt_deltas_inference.specs.Bounds.{AreContourEnds, IsGiven, IsInferred};

use crate::contour::infer_contour;
use crate::point::AxisPoint;

/// Infers the deltas of each contour by itself. `ends` has the last point of each contour. Named points, and those after
/// the last contour, keep their deltas.
pub fn infer(points: &mut [AxisPoint], ends: &[u16])
    requires contours { AreContourEnds 0 ends.now (length points.old) }
    requires points { All IsGiven points.old }
    ensures exact { points.new ≡ is.contours 0 ends.now points.old }
    ensures bound { All IsInferred points.new }
{
    let mut start = 0;
    for end in ends {
        let past = usize::from(*end) + 1;
        infer_contour(&mut points[start..past]);
        start = past;
    }
}
