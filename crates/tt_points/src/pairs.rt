//! Instructions on two points that may be the same point.

ghost use Rattle.std.specs.Prelude.{◌≡◌};
ghost use Rattle.tt_points_zones.specs.Zones.{IsPoint};
ghost use Rattle.tt_points.specs.Pairs as is;

use tt_state::{GraphicsState, Point};

/// Whether point `n` of zone pointer 0 is point `p` of zone pointer 1.
fn is_one(state: &GraphicsState, n: i32, p: i32) -> bool
    ensures { result ≡ is.is_one state.now.zp0 n state.now.zp1 p }
{
    state.zp0 == state.zp1 && n == p
}

/// Point number `n` of zone pointer 0, after point number `p` of zone pointer 1 has become `q`. `r` is the point
/// before.
pub(crate) fn seen(state: &GraphicsState, n: i32, r: Point, p: i32, q: Point) -> Point
    requires r { IsPoint r }
    requires q { IsPoint q }
    ensures exact { result ≡ is.seen state.now.zp0 n r state.now.zp1 p q }
    ensures valid { IsPoint result }
{
    if is_one(state, n, p) { q } else { r }
}
