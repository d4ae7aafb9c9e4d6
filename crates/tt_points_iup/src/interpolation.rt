//! IUP over a whole glyph.

ghost use Rattle.std.specs.Prelude.{◌≡◌, ◌*◌, ◌≤◌, length, IfOk};
ghost use Rattle.tt_core.specs.Outcomes.{Gives};
ghost use Rattle.tt_points_zones.specs.Views.{zones_view};
ghost use Rattle.tt_points_iup.specs.Interpolation as is;
ghost use Rattle.tt_points_iup.specs.Readings.{of_contours};

use crate::counted::each_contour;
use crate::place::Along;
use tt_core::Why;
use tt_points_zones::Zones;
use tt_state::Axis;

/// Does IUP as `iup` does. Returns the count of touches read, at most three for each point. Error: ValueRange.
pub fn interpolate(zones: &mut Zones, axis: Axis) -> Result<u64, Why>
    ensures exact { Gives (λ n. zones_view zones.new) result (is.iup axis (zones_view zones.old)) }
    ensures count { IfOk result (λ n. n ≡ of_contours axis zones.old.contours.items zones.old.glyph.items) }
    ensures few { IfOk result (λ n. n ≤ 3 * length zones.old.glyph.items) }
{
    let along = Along {
        axis,
        originals: zones.originals,
    };
    each_contour(&mut zones.glyph, &zones.contours, along)
}

/// IUP[a], 0x30 along y, 0x31 along x: -> moves each untouched point of a contour of the glyph zone with the nearest
/// touched points on both sides. Phantom points and touches are unchanged. Error: ValueRange for a point that would go
/// past the limit of coordinates. Apart from `interpolate` (for the prover): its callers have no facts of the count.
pub fn iup(zones: &mut Zones, axis: Axis) -> Result<(), Why>
    ensures exact { Gives (λ u. zones_view zones.new) result (is.iup axis (zones_view zones.old)) }
{
    interpolate(zones, axis)?;
    Ok(())
}
