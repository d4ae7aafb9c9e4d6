//! The points that a glyph's program works on. Apple TrueType Reference Manual, "Instructing TrueType Glyphs" (zones,
//! phantom points).

ghost use Rattle.std.specs.Prelude.{◌≡◌, ◌+◌, true, false, length, map, option_map, All, IfOk, IfErr};
ghost use Rattle.tt_core.specs.Outcomes.{Gives};
ghost use Rattle.tt_exec.specs.zones.Zones.{IsPoint as IsZonePoint};
ghost use Rattle.tt_fit_outline.specs.Grid.{rounded_to};
ghost use Rattle.tt_fit_hinting.specs.GlyphZone.{on_grid_at, ends_on_grid, untouched, outline_point, glyph_zone, contours_from, place_of, seen, left_outline};
ghost use Rattle.tt_fit_outline.specs.Outline.{phantom_of, IsCoordinate, IsPoint, IsPosition, ArePhantom};
ghost use Rattle.tt_fit_outline.specs.Scaling.{coordinate_fault, is_coordinate};
ghost use Rattle.tt_fit_outline.specs.Units.{IsNear, with_units};
ghost use Rattle.tt_fit_outline.specs.Views.{outline_of, units_view};

use crate::places::{phantom_places, places_of, put_units, with_units};
use crate::ready_glyph::ReadyGlyph;
use std::alloc::AllocError;
use tt_core::Fault;
use tt_fit_outline::{Grid, Outline, coordinate};
use tt_state::{Point, ScanControl};

/// A coordinate rounded to a grid. Error: CoordRange, at this offset in glyf.
fn to_grid(grid: Grid, at: u32, v: i32) -> Result<i32, Fault>
    requires { IsCoordinate v }
    ensures ok { IfOk result (λ w. (w ≡ rounded_to grid v) × (is_coordinate (rounded_to grid v) ≡ true)) }
    ensures within { IfOk result IsCoordinate }
    ensures err { IfErr result (λ f. (f ≡ coordinate_fault at) × (is_coordinate (rounded_to grid v) ≡ false)) }
{
    coordinate(at, grid.rounded(i64::from(v)))
}

/// A position with x rounded to a grid. Error: CoordRange.
fn along_x(grid: Grid, at: u32, p: (i32, i32)) -> Result<(i32, i32), Fault>
    requires { IsPosition p }
    ensures ok { IfOk result (λ q. (q ≡ (rounded_to grid p.0, p.1)) × (is_coordinate (rounded_to grid p.0) ≡ true)) }
    ensures within { IfOk result IsPosition }
    ensures err { IfErr result (λ f. (f ≡ coordinate_fault at) × (is_coordinate (rounded_to grid p.0) ≡ false)) }
{
    Ok((to_grid(grid, at, p.0)?, p.1))
}

/// A position with y rounded to a grid. Error: CoordRange.
fn along_y(grid: Grid, at: u32, p: (i32, i32)) -> Result<(i32, i32), Fault>
    requires { IsPosition p }
    ensures ok { IfOk result (λ q. (q ≡ (p.0, rounded_to grid p.1)) × (is_coordinate (rounded_to grid p.1) ≡ true)) }
    ensures within { IfOk result IsPosition }
    ensures err { IfErr result (λ f. (f ≡ coordinate_fault at) × (is_coordinate (rounded_to grid p.1) ≡ false)) }
{
    Ok((p.0, to_grid(grid, at, p.1)?))
}

/// The phantom points on a grid: the ends of the advance along x, the ascent and the descent along y. Error:
/// CoordRange, at this offset in glyf.
#[tactic(auto, unfolding(crate::specs::GlyphZone::on_grid_at))]
pub(crate) fn on_grid(grid: Grid, at: u32, outline: &Outline) -> Result<[(i32, i32); 4], Fault>
    ensures exact { Gives phantom_of result (on_grid_at grid at (phantom_of outline.now.phantom)) }
    ensures valid { IfOk result (λ p. ArePhantom (phantom_of p)) }
{
    let phantom = &outline.phantom;
    let left = along_x(grid, at, phantom[0])?;
    let right = along_x(grid, at, phantom[1])?;
    let ascent = along_y(grid, at, phantom[2])?;
    let descent = along_y(grid, at, phantom[3])?;
    Ok([left, right, ascent, descent])
}

/// The outline of a simple glyph without a program, which begins at this offset in glyf. Where halves go up, its
/// phantom points are put on the grid. Error: CoordRange.
pub fn ends_on_grid(grid: Grid, at: u32, outline: Outline) -> Result<Outline, Fault>
    ensures exact { Gives outline_of result (ends_on_grid grid at (outline_of outline)) }
{
    match grid {
        Grid::Away | Grid::Unrounded => Ok(outline),
        Grid::Up => {
            let phantom = on_grid(grid, at, &outline)?;
            Ok(Outline {
                points: outline.points,
                ends: outline.ends,
                phantom,
                unfitted: outline.unfitted,
                scan: outline.scan,
            })
        }
    }
}

/// A point not yet touched.
pub(crate) fn untouched(org: (i32, i32), now: (i32, i32), on: bool) -> Point
    ensures { result ≡ untouched org now on }
{
    Point {
        units_x: 0,
        units_y: 0,
        org_x: org.0,
        org_y: org.1,
        x: now.0,
        y: now.1,
        touched_x: false,
        touched_y: false,
        on,
    }
}

fn outline_point(point: (i32, i32, bool)) -> Point
    requires { IsPoint point }
    ensures exact { result ≡ outline_point point }
    ensures valid { IsZonePoint result }
{
    untouched((point.0, point.1), (point.0, point.1), point.2)
}

/// The points of an outline, with room for the phantom points, in the given memory.
fn outline_points(room: Vec<Point>, points: &[(i32, i32, bool)]) -> Result<Vec<Point>, AllocError>
    requires { All IsPoint points.now }
    ensures exact { IfOk result (λ v. v.items ≡ map outline_point points.now) }
    ensures valid { IfOk result (λ v. All IsZonePoint v.items) }
{
    let mut zone = room;
    zone.clear();
    zone.reserve(points.len().saturating_add(4))?;
    for point in points {
        zone.push(outline_point(*point))?;
    }
    Ok(zone)
}

/// A phantom point: in font units, its original place, and its current place.
fn phantom_point(units: (i32, i32), was: (i32, i32), now: (i32, i32)) -> Point
    requires units { IsNear units }
    requires was { IsPosition was }
    requires now { IsPosition now }
    ensures exact { result ≡ with_units units (untouched was now true) }
    ensures valid { IsZonePoint result }
{
    with_units(units, untouched(was, now, true))
}

/// The points of an outline, followed by its phantom points on the grid, in the given memory.
pub(crate) fn glyph_zone(room: Vec<Point>, glyph: &ReadyGlyph) -> Result<Vec<Point>, AllocError>
    ensures exact { IfOk result (λ v. v.items ≡ glyph_zone (option_map units_view glyph.now.units) (outline_of glyph.now.outline.now) (phantom_of glyph.now.grid)) }
    ensures valid { IfOk result (λ v. All IsZonePoint v.items) }
{
    let mut zone = outline_points(room, &glyph.outline.points)?;
    put_units(&mut zone, places_of(glyph.units));
    let places = phantom_places(glyph.units);
    let was = &glyph.outline.phantom;
    let grid = &glyph.grid;
    let ascent = (0, places.ascent);
    let descent = (0, places.descent);
    zone.push(phantom_point((places.left, 0), was[0], grid[0]))?;
    zone.push(phantom_point((places.right, 0), was[1], grid[1]))?;
    zone.push(phantom_point(ascent, was[2], grid[2]))?;
    zone.push(phantom_point(descent, was[3], grid[3]))?;
    Ok(zone)
}

/// Each contour's first point and the number one past its last, in the given memory.
pub(crate) fn contours(room: Vec<(u32, u32)>, ends: &[u32]) -> Result<Vec<(u32, u32)>, AllocError>
    ensures { IfOk result (λ v. v.items ≡ contours_from 0 ends.now) }
{
    let mut contours = room;
    contours.clear();
    contours.reserve(ends.len())?;
    let mut first = 0;
    for end in ends {
        contours.push((first, *end))?;
        first = *end;
    }
    Ok(contours)
}

fn seen(point: Point) -> (i32, i32, bool)
    requires { IsZonePoint point }
    ensures exact { result ≡ seen point }
    ensures valid { IsPoint result }
{
    (point.x, point.y, point.on)
}

fn place_of(point: Point) -> (i32, i32)
    requires { IsZonePoint point }
    ensures exact { result ≡ place_of point }
    ensures valid { IsPosition result }
{
    (point.x, point.y)
}

/// The places of an outline's points after a program, in the given memory.
fn seen_points(
    room: Vec<(i32, i32, bool)>,
    zone: &[Point],
) -> Result<Vec<(i32, i32, bool)>, AllocError>
    requires { All IsZonePoint zone.now }
    ensures exact { IfOk result (λ v. v.items ≡ map seen zone.now) }
    ensures valid { IfOk result (λ v. All IsPoint v.items) }
{
    let mut points = room;
    points.clear();
    points.reserve(zone.len())?;
    for point in zone {
        points.push(seen(*point))?;
    }
    Ok(points)
}

/// The places of the phantom points after a program.
fn seen_phantom(zone: &[Point]) -> [(i32, i32); 4]
    requires count { length zone.now ≡ 4 }
    requires zone { All IsZonePoint zone.now }
    ensures exact { phantom_of result ≡ phantom_of (map place_of zone.now) }
    ensures valid { ArePhantom (phantom_of result) }
{
    [
        place_of(zone[0]),
        place_of(zone[1]),
        place_of(zone[2]),
        place_of(zone[3]),
    ]
}

/// The outline with the points of the glyph zone, phantom points last, and the program's scan control.
pub(crate) fn left_outline(
    outline: Outline,
    zone: &[Point],
    scan: ScanControl,
) -> Result<Outline, AllocError>
    requires count { length zone.now ≡ length outline.points.items + 4 }
    requires zone { All IsZonePoint zone.now }
    ensures exact { IfOk result (λ o. outline_of o ≡ left_outline (outline_of outline) zone.now scan) }
{
    let (own, phantom) = zone.split_at(outline.points.len());
    let points = seen_points(outline.points, own)?;
    Ok(Outline {
        points,
        ends: outline.ends,
        phantom: seen_phantom(phantom),
        unfitted: None,
        scan: Some(scan),
    })
}
