//! The two points that a vector goes along. Apple TrueType Reference Manual, "Instruction Set" (SPVTL, SFVTL, SDPVTL).

ghost use Rattle.tt_points_zones.specs.Zones.{IsPoint};

use crate::lines::Ends;
use tt_core::Why;
use tt_points_zones::Zones;
use tt_state::{GraphicsState, Point, Vector};

/// The two points of a line.
#[derive(Clone, Copy)]
pub(crate) struct LinePoints {
    from: Point,
    to: Point,
    ghost starts: { IsPoint from },
    ghost ends: { IsPoint to },
}

impl LinePoints {
    ghost use Rattle.std.specs.Prelude.{◌≡◌};
    ghost use Rattle.tt_core.specs.Outcomes.{Gives};
    ghost use Rattle.tt_points_zones.specs.Views.{zones_view};
    ghost use Rattle.tt_points.specs.Lines as is;

    /// The points at the ends of a line: from a point of zone pointer 2 to one of zone pointer 1. Error: PointRange.
    pub(crate) fn of(zones: &Zones, state: &GraphicsState, line: Ends) -> Result<LinePoints, Why>
        ensures { Gives (λ t. (t.from, t.to)) result
            (is.two_points line.from line.to (zones_view zones.now) state.now) }
    {
        let from = zones.point(state.zp2, line.from)?;
        let to = zones.point(state.zp1, line.to)?;
        Ok(LinePoints { from, to })
    }

    /// The unit vector of the line, by the current places. With `turned`, a quarter turn to the left.
    pub(crate) fn current(self, turned: bool) -> Vector
        ensures { result ≡ is.current_line turned self.from self.to }
    {
        let (from, to) = (self.from, self.to);
        Vector::line((from.x, from.y), (to.x, to.y), turned)
    }

    /// The unit vector of the line, by the original places. With `turned`, a quarter turn to the left.
    pub(crate) fn original(self, turned: bool) -> Vector
        ensures { result ≡ is.original_line turned self.from self.to }
    {
        let (from, to) = (self.from, self.to);
        Vector::line((from.org_x, from.org_y), (to.org_x, to.org_y), turned)
    }
}
