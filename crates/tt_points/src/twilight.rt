//! The points of the twilight zone. Apple TrueType Reference Manual, "Instructing TrueType Glyphs" (zones).

ghost use Rattle.std.specs.Prelude.{◌≡◌, IfOk};
ghost use Rattle.tt_core.specs.Outcomes.{Gives};
ghost use Rattle.tt_points_zones.specs.Zones.{IsPoint};
ghost use Rattle.tt_points.specs.Twilight as is;

use crate::unrounded::Unrounded;
use tt_core::Why;
use tt_points_zones::Motion;
use tt_state::{Point, Zone};

/// The vector that measures how far away a twilight point is placed.
#[derive(Clone, Copy)]
pub(crate) enum AlongVector {
    /// The projection vector measures the distance.
    Projection,
    /// The distance goes along the freedom vector itself.
    Freedom,
}

/// A point whose original place is its current place.
fn settled(p: Point) -> Point
    requires { IsPoint p }
    ensures exact { result ≡ is.settled p }
    ensures valid { IsPoint result }
{
    Point {
        org_x: p.x,
        org_y: p.y,
        ..p
    }
}

/// A twilight point whose original place is its current place. A glyph point is unchanged.
pub(crate) fn settled_in(zone: Zone, p: Point) -> Point
    requires { IsPoint p }
    ensures exact { result ≡ is.settled_in zone p }
    ensures valid { IsPoint result }
{
    match zone {
        Zone::Twilight => settled(p),
        Zone::Glyph => p,
    }
}

/// A point moved by the distance `d` along a vector, without a touch. Error: ValueRange.
fn further(p: Point, m: &Motion, along: AlongVector, d: Unrounded) -> Result<Point, Why>
    requires { IsPoint p }
    ensures exact { Gives (λ q. q) result (is.further along m.now d.distance p) }
    ensures valid { IfOk result IsPoint }
{
    match along {
        AlongVector::Projection => m.shifted(p, d.distance),
        AlongVector::Freedom => m.shifted_along(p, d.distance),
    }
}

/// A twilight point placed at the distance `d` from the original place of `r`. The new place becomes its original place
/// too. A glyph point is unchanged. Error: ValueRange.
#[inline(always)]
#[tactic(auto, unfolding(crate::specs::Twilight::placed, crate::specs::Twilight::placed_in))]
pub(crate) fn placed_in(
    zone: Zone,
    p: Point,
    m: &Motion,
    along: AlongVector,
    d: Unrounded,
    r: Point,
) -> Result<Point, Why>
    requires p { IsPoint p }
    requires r { IsPoint r }
    ensures exact { Gives (λ q. q) result (is.placed_in zone along m.now d.distance r p) }
    ensures valid { IfOk result IsPoint }
{
    match zone {
        Zone::Twilight => {
            let p = Point {
                x: r.org_x,
                y: r.org_y,
                ..p
            };
            Ok(settled(further(p, m, along, d)?))
        }
        Zone::Glyph => Ok(p),
    }
}
