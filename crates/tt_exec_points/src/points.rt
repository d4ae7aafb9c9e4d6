//! The zones of a machine. Apple TrueType Reference Manual, "Instructing TrueType Glyphs" (zones).

ghost use Rattle.std.specs.Prelude.{◌≡◌, ◌^◌, ◌<◌, length, All};
ghost use Rattle.tt_exec_points.specs.Zones.{no_zones};
ghost use Rattle.tt_points.specs.zones.Views.{zones_view};
ghost use Rattle.tt_points.specs.zones.Zones.{IsPoint, IsZones};

use std::alloc::Global;
use std::marker::Model;
use tt_core::Halves;
use tt_points::{Originals, Zones};
use tt_state::Point;

/// The zones, after each instruction. A clause sees them as their lists.
#[derive(Drop)]
pub struct Points {
    pub(crate) zones: Zones,
}

impl Model for Points {
    ghost use Rattle.tt_points.specs.zones.Views.{zones_view};
    ghost use Rattle.tt_points.specs.zones.Zones.{ZoneLists, IsZones};

    ghost Value = { ZoneLists };

    ghost view = { λ p. zones_view p.zones };

    ghost invariant = { λ p. IsZones (zones_view p.zones) };
}

impl Points {
    /// No point and no contour.
    pub fn none(alloc: Global) -> Points
        ensures { result ≡ no_zones }
    {
        Points {
            zones: Zones {
                twilight: Vec::new(alloc),
                glyph: Vec::new(alloc),
                contours: Vec::new(alloc),
                originals: Originals::in_pixels(Halves::Up),
            },
        }
    }

    pub fn new(zones: Zones) -> Points
        requires { IsZones (zones_view zones) }
        ensures { result ≡ zones_view zones }
    {
        Points { zones }
    }

    /// Does nothing: its clause gives a property of all points of a machine.
    #[inline(always)]
    pub fn are_valid(&self)
        ensures { IsZones self.now }
    {
        let _ = &self.zones;
    }

    /// The count of points in the twilight zone.
    pub fn twilight_count(&self) -> usize
        ensures exact { result ≡ length self.now.twilight }
        ensures few { result < 2 ^ 59 }
    {
        self.zones.twilight.as_slice().len()
    }

    /// The count of points in the glyph zone.
    pub fn glyph_count(&self) -> usize
        ensures exact { result ≡ length self.now.glyph }
        ensures few { result < 2 ^ 59 }
    {
        self.zones.glyph.as_slice().len()
    }

    /// The points of the glyph.
    pub fn glyph(&self) -> &[Point]
        ensures exact { result.now ≡ self.now.glyph }
        ensures valid { All IsPoint result.now }
    {
        &self.zones.glyph
    }

    pub fn into_zones(self) -> Zones
        ensures exact { zones_view result ≡ self }
        ensures valid { IsZones (zones_view result) }
    {
        self.zones
    }
}
