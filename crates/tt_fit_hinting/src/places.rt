//! A glyph's points with their places in font units. Apple TrueType Reference Manual, "Instructing TrueType Glyphs"
//! (zones, phantom points).

ghost use Rattle.std.specs.Prelude.{◌≡◌, option_map, All};
ghost use Rattle.tt_fit_outline.specs.Units.{IsNear, in_units, phantom_places, places_of, with_units};
ghost use Rattle.tt_fit_outline.specs.Views.{phantom_units_view, units_view};
ghost use Rattle.tt_exec.specs.zones.Zones.{IsPoint as IsZonePoint};

use tt_fit_outline::{PhantomUnits, Units};
use tt_glyf::RawPoint;
use tt_state::Point;

/// The places of a glyph's own points; none where originals are measured in 26.6.
pub(crate) fn places_of<'a>(units: Option<Units<'a>>) -> &'a [RawPoint]
    ensures { result.now ≡ places_of (option_map units_view units.entry) }
{
    match units {
        Some(units) => units.points,
        None => &[],
    }
}

/// The places of its phantom points; the origin where originals are measured in 26.6.
pub(crate) fn phantom_places(units: Option<Units>) -> PhantomUnits
    ensures { phantom_units_view result ≡ phantom_places (option_map units_view units.entry) }
{
    match units {
        Some(units) => units.phantom,
        None => PhantomUnits {
            left: 0,
            right: 0,
            ascent: 0,
            descent: 0,
        },
    }
}

/// A point with its place in font units.
pub(crate) fn with_units(place: (i32, i32), point: Point) -> Point
    requires point { IsZonePoint point }
    requires place { IsNear place }
    ensures exact { result ≡ with_units place point }
    ensures valid { IsZonePoint result }
{
    Point {
        units_x: place.0,
        units_y: place.1,
        ..point
    }
}

/// Gives each point its place in font units.
pub(crate) fn put_units(zone: &mut Vec<Point>, places: &[RawPoint])
    requires { All IsZonePoint zone.old.items }
    ensures exact { zone.new.items ≡ in_units places.now zone.old.items }
    ensures valid { All IsZonePoint zone.new.items }
{
    let count = places.len().min(zone.len());
    for i in 0..count {
        let place = places[i];
        zone[i] = with_units((i32::from(place.x), i32::from(place.y)), zone[i]);
    }
}
