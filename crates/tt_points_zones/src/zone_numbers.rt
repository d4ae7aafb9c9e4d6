//! A zone by its number. Apple TrueType Reference Manual, "Graphics State" (zone pointers).

ghost use Rattle.tt_core.specs.Outcomes.{Gives};
ghost use Rattle.tt_points_zones.specs.ZoneNumbers as is;

use tt_core::Why;
use tt_state::Zone;

/// The zone with number `n`: 0 is the twilight zone, 1 the glyph zone. Error: ZoneRange.
pub fn zone_of(n: i32) -> Result<Zone, Why>
    ensures { Gives (λ zone. zone) result (is.zone_of n) }
{
    match n {
        0 => Ok(Zone::Twilight),
        1 => Ok(Zone::Glyph),
        _ => Err(Why::ZoneRange),
    }
}
