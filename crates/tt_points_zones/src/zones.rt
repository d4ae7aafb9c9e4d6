//! The zones. Apple TrueType Reference Manual, "Instructing TrueType Glyphs" (zones) and "Graphics State" (zone
//! pointers).

ghost use Rattle.std.specs.Prelude.{◌≡◌, length, All, IfOk, IfSome};
ghost use Rattle.std.proofs.Props.{props};
ghost use Rattle.tt_core.specs.Outcomes.{Gives};
ghost use Rattle.tt_core.specs.Scales.{IsScale};
ghost use Rattle.tt_points_zones.specs.Zones.{AreContours, AreContours-prop, IsPoint, in_pixels};

use std::alloc::AllocError;
use tt_core::{Halves, Scale, Why};
use tt_state::{Point, Zone};

/// The unit of the glyph points' original places, and the rounding of halves.
#[derive(Clone, Copy, Debug, PartialEq, Eq)]
pub struct Originals {
    /// The scale, for a glyph zone in font units. None for one in 26.6.
    pub units: Option<Scale>,
    /// The rounding of halves in interpolation.
    pub halves: Halves,
}

impl Originals {
    /// In 26.6, as always in the twilight zone.
    pub fn in_pixels(halves: Halves) -> Originals
        ensures { result ≡ in_pixels halves }
    {
        Originals {
            units: None,
            halves,
        }
    }
}

/// Both zones. A contour is a range of glyph points: the first, and one past the last. The first contour begins at 0,
/// and each next one at the end of the one before it. The glyph points after the last contour are its phantom points.
#[derive(Debug, Drop)]
pub struct Zones {
    pub twilight: Vec<Point>,
    pub glyph: Vec<Point>,
    pub contours: Vec<(u32, u32)>,
    pub originals: Originals,
    pub ghost twilight_points: { All IsPoint twilight.items },
    pub ghost glyph_points: { All IsPoint glyph.items },
    pub ghost ranges: { AreContours 0 contours.items (length glyph.items) } by { AreContours-prop 0 contours.items (length glyph.items) },
    pub ghost scale: { IfSome originals.units IsScale } by { Prim.hlevel props },
}

impl Zones {
    ghost use Rattle.tt_points_zones.specs.Originals.{scale_between};
    ghost use Rattle.tt_points_zones.specs.Points.{HasPoint, has_point, points_in, point_in, with_point};
    ghost use Rattle.tt_points_zones.specs.Views.{zones_view};

    /// A copy in memory of its own.
    pub fn copy(&self) -> Result<Zones, AllocError>
        ensures { IfOk result (λ z. zones_view z ≡ zones_view self.now) }
    {
        Ok(Zones {
            twilight: self.twilight.clone()?,
            glyph: self.glyph.clone()?,
            contours: self.contours.clone()?,
            originals: self.originals,
        })
    }

    fn points(&self, zone: Zone) -> &[Point]
        ensures exact { result.now ≡ points_in zone (zones_view self.now) }
        ensures valid { All IsPoint result.now }
    {
        match zone {
            Zone::Twilight => &self.twilight,
            Zone::Glyph => &self.glyph,
        }
    }

    /// The point with number `n` in a zone. Error: PointRange.
    pub fn point(&self, zone: Zone, n: i32) -> Result<Point, Why>
        ensures exact { Gives (λ p. p) result (point_in zone n (zones_view self.now)) }
        ensures valid { IfOk result IsPoint }
        ensures there { IfOk result (λ p. HasPoint zone n (zones_view self.now)) }
    {
        let points = self.points(zone);
        if n < 0 || n as usize >= points.len() {
            return Err(Why::PointRange);
        }
        Ok(points[n as usize])
    }

    /// Whether a zone has a point with number `n`.
    pub fn has(&self, zone: Zone, n: i32) -> bool
        ensures { result ≡ has_point zone n (zones_view self.now) }
    {
        self.point(zone, n).is_ok()
    }

    /// The scale of the distance between two original places: that of the font units, if both zones are the glyph zone
    /// and the glyph zone is in font units. Otherwise None: the distance is measured in 26.6.
    pub fn scale_between(&self, from: Zone, to: Zone) -> Option<Scale>
        ensures exact { result ≡ scale_between from to (zones_view self.now) }
        ensures valid { IfSome result IsScale }
    {
        match (from, to) {
            (Zone::Glyph, Zone::Glyph) => self.originals.units,
            _ => None,
        }
    }

    /// Replaces the point with number `n` in a zone by `p`.
    pub fn set(&mut self, zone: Zone, n: i32, p: Point)
        requires there { HasPoint zone n (zones_view self.old) }
        requires point { IsPoint p }
        ensures exact { zones_view self.new ≡ with_point zone n p (zones_view self.old) }
    {
        match zone {
            Zone::Twilight => self.twilight[n as usize] = p,
            Zone::Glyph => self.glyph[n as usize] = p,
        }
    }
}
