//! Points on the curve and off it: FLIPPT, FLIPRGON, FLIPRGOFF. Apple TrueType Reference Manual, "Instruction set":
//! managing outlines. They use the glyph zone, whatever the zone pointers (profile).

ghost use Rattle.std.specs.Prelude.{◌≡◌, ◌≤◌, Ok, All, IfErr, length};
ghost use Rattle.tt_core.specs.Outcomes.{Gives};
ghost use Rattle.tt_points_loops.specs.Flipping as is;
ghost use Rattle.tt_points_loops.specs.Series.{each_from_to};
ghost use Rattle.tt_points_zones.specs.Views.{zones_view};
ghost use Rattle.tt_points_zones.specs.Zones.{IsPoint};

use crate::in_turn::{Change, in_turn};
use tt_core::Why;
use tt_points_zones::Zones;
use tt_state::{GraphicsState, Point, Tolerance, Zone};

/// Flips a point of the glyph between on and off the curve. Error: PointRange.
pub(crate) fn flip(zones: &mut Zones, n: i32) -> Result<(), Why>
    ensures exact { Gives (λ u. zones_view zones.new) result (is.flip n (zones_view zones.old)) }
    ensures kept { IfErr result (λ why. zones_view zones.new ≡ zones_view zones.old) }
{
    let p = zones.point(Zone::Glyph, n)?;
    zones.set(Zone::Glyph, n, Point { on: !p.on, ..p });
    Ok(())
}

/// FLIPPT[], 0x80: loop points -> flips each point between on and off the curve. A tolerant machine passes over each
/// missing point. Error: PointRange.
pub fn flippt(
    zones: &mut Zones,
    state: &mut GraphicsState,
    tolerance: Tolerance,
    numbers: &[i32],
) -> Result<(), Why>
    ensures exact { Gives (λ u. (zones_view zones.new, state.new)) result
        (is.flippt tolerance numbers.now (zones_view zones.old) state.old) }
{
    in_turn(zones, state, tolerance, Change::Flip, numbers)
}

fn put_on(p: Point, on: bool) -> Point
    requires { IsPoint p }
    ensures exact { result ≡ is.put_on on p }
    ensures valid { IsPoint result }
{
    Point { on, ..p }
}

fn put_all_on(points: &mut [Point], low: usize, past: usize, on: bool)
    requires points { All IsPoint points.old }
    requires past { past ≤ length points.old }
    ensures exact { each_from_to low past (λ i p. Ok (is.put_on on p)) 0 points.old ≡ Ok points.new }
    ensures valid { All IsPoint points.new }
    ensures count { length points.new ≡ length points.old }
{
    for i in low..past {
        points[i] = put_on(points[i], on);
    }
}

/// FLIPRGON[], 0x81, and FLIPRGOFF[], 0x82: low, high -> puts the points of the range on the curve or off it. Both ends
/// have to exist, in either order. Error: PointRange.
pub fn flip_range(zones: &mut Zones, low: i32, high: i32, on: bool) -> Result<(), Why>
    ensures exact { Gives (λ u. zones_view zones.new) result (is.flip_range on low high (zones_view zones.old)) }
    ensures kept { IfErr result (λ why. zones_view zones.new ≡ zones_view zones.old) }
{
    zones.point(Zone::Glyph, high)?;
    zones.point(Zone::Glyph, low)?;
    put_all_on(&mut zones.glyph, low as usize, high as usize + 1, on);
    Ok(())
}
