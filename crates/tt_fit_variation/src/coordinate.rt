//! A coordinate at an instance.

ghost use Rattle.std.specs.Prelude.{◌≡◌, ◌^◌, ◌≤◌, false, true, unsigned_abs, IfErr, IfOk};
ghost use Rattle.tt_core.specs.Outcomes.{Gives};
ghost use Rattle.tt_fit_outline.specs.Outline.{IsCoordinate};
ghost use Rattle.tt_fit_outline.specs.Scaling.{coordinate_fault};
ghost use Rattle.tt_fit_outline.specs.Views.{size_view};
ghost use Rattle.tt_fit_variation.specs.Moved.{is_unit, moved_coordinate};

use crate::fine::fine_scaled;
use tt_core::{Fault, Why};
use tt_deltas::Varied;
use tt_fit_outline::{FontSize, coordinate, glyf_fault};

/// A coordinate at an instance, in whole font units and in 26.6 pixels.
#[derive(Clone, Copy)]
pub(crate) struct MovedCoordinate {
    pub(crate) unit: i16,
    pub(crate) place: i32,
    pub(crate) ghost within: { IsCoordinate place },
}

/// A coordinate in font units as 16 bits. Error: CoordRange, at this offset in glyf.
pub(crate) fn unit(at: u32, v: i64) -> Result<i16, Fault>
    ensures ok { IfOk result (λ w. (w ≡ v) × (is_unit v ≡ true)) }
    ensures err { IfErr result (λ f. (f ≡ coordinate_fault at) × (is_unit v ≡ false)) }
{
    if v < -32768 || 32767 < v {
        return Err(glyf_fault(at, Why::CoordRange));
    }
    Ok(v as i16)
}

/// A coordinate in whole units and scaled. Error: CoordRange, at this offset in glyf.
#[tactic(auto, using(crate::proofs::Near::unit_near), unfolding(crate::specs::Moved::moved_coordinate))]
pub(crate) fn moved_coordinate(size: FontSize, at: u32, v: Varied) -> Result<MovedCoordinate, Fault>
    requires { unsigned_abs v.delta ≤ 2 ^ 46 }
    ensures exact { Gives (λ c. (c.unit, c.place)) result (moved_coordinate (size_view size) at v) }
{
    let unit = unit(at, v.units())?;
    let place = coordinate(at, fine_scaled(size.scale, v.sixty_fourths()))?;
    Ok(MovedCoordinate { unit, place })
}
