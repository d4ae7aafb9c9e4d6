//! Scales font units to 26.6 pixels, and makes the phantom points. Apple TrueType Reference Manual, "Digitizing
//! Letterform Designs" and "Instructing TrueType Glyphs".

ghost use Rattle.std.specs.Prelude.{◌≡◌, ◌+◌, ◌<◌, ◌≤◌, false, true, length, map, All, IfOk, IfErr};
ghost use Rattle.tt_core.specs.Limits.{point_limit};
ghost use Rattle.tt_core.specs.Outcomes.{each, FontGives, Gives};
ghost use Rattle.tt_metrics.specs.Metrics.{glyphs_of};
ghost use Rattle.tt_glyf.specs.Meaning.{AreEnds as EndContours};
ghost use Rattle.tt_fit_outline.specs.Outline.{Outline, IsCoordinate, IsPoint};
ghost use Rattle.tt_fit_outline.specs.Scaling.{is_coordinate, glyf_fault, coordinate_fault, settled, scaled_position, scaled_by_scale, scaled_point, scaled_phantom, phantom_points, phantom_units, blank, outline_in_place, scaled_outline};
ghost use Rattle.tt_fit_outline.specs.Views.{size_view, landing_view, outline_of, phantom_view, phantom_units_view};

use crate::outline::Outline;
use crate::size::{FontSize, PowerScale};
use crate::units::PhantomUnits;
use std::alloc::{AllocError, Global};
use tt_core::{COORDINATE_LIMIT, Fault, FontFault, Why};
use tt_glyf::RawPoint;
use tt_metrics::Metrics;

const GLYF: [u8; 4] = *b"glyf";

/// A fault at an offset in glyf.
pub fn glyf_fault(at: u32, why: Why) -> Fault
    ensures exact { result ≡ glyf_fault at why }
{
    Fault::new(GLYF, at, why)
}

/// A coordinate in 26.6 pixels. Error: CoordRange, at this offset in glyf.
pub fn coordinate(at: u32, v: i64) -> Result<i32, Fault>
    ensures ok { IfOk result (λ w. (w ≡ v) × (is_coordinate v ≡ true)) }
    ensures within { IfOk result IsCoordinate }
    ensures err { IfErr result (λ f. (f ≡ coordinate_fault at) × (is_coordinate v ≡ false)) }
{
    let limit = i64::from(COORDINATE_LIMIT);
    if v < -limit || limit < v {
        return Err(glyf_fault(at, Why::CoordRange));
    }
    Ok(v as i32)
}

/// A point's new place in 26.6 pixels, not yet tested against the limit.
#[derive(Clone, Copy)]
pub(crate) struct Landing {
    pub(crate) x: i64,
    pub(crate) y: i64,
    pub(crate) on: bool,
}

/// Tests a place against the limit. Error: CoordRange, at this offset in glyf.
#[tactic(auto, unfolding(crate::specs::Scaling::settled))]
pub(crate) fn settled(at: u32, landing: Landing) -> Result<(i32, i32, bool), Fault>
    ensures exact { Gives (λ p. p) result (settled at (landing_view landing)) }
    ensures within { IfOk result IsPoint }
{
    let x = coordinate(at, landing.x)?;
    let y = coordinate(at, landing.y)?;
    Ok((x, y, landing.on))
}

/// A point scaled, not yet tested against the limit.
fn scaled_position(size: FontSize, point: RawPoint) -> Landing
    ensures { landing_view result ≡ scaled_position (size_view size) point }
{
    Landing {
        x: size.scale.scaled(i32::from(point.x)),
        y: size.scale.scaled(i32::from(point.y)),
        on: point.on,
    }
}

/// Scales one point. Error: CoordRange.
fn scaled_point(size: FontSize, at: u32, point: RawPoint) -> Result<(i32, i32, bool), Fault>
    ensures exact { Gives (λ p. p) result (scaled_point (size_view size) at point) }
    ensures within { IfOk result IsPoint }
{
    settled(at, scaled_position(size, point))
}

/// Scales points by a shift, where no coordinate can exceed the limit.
#[inline(never)]
fn shifted_points(
    alloc: Global,
    shift: PowerScale,
    points: &[RawPoint],
) -> Result<Vec<(i32, i32, bool)>, AllocError>
    ensures exact { IfOk result (λ v. v.items ≡ map (scaled_by_scale shift.scale) points.now) }
    ensures coordinates { IfOk result (λ v. All IsPoint v.items) }
{
    let mut scaled = Vec::with_capacity(alloc, points.len())?;
    for point in points {
        scaled.push_reserved((shift.scaled(point.x), shift.scaled(point.y), point.on));
    }
    Ok(scaled)
}

/// Scales points, by a shift where possible. Otherwise each is tested. Errors: CoordRange, Memory.
#[tactic(auto, using(crate::proofs::Lists::points, crate::proofs::Lists::from_nothing))]
fn scaled_points(
    alloc: Global,
    size: FontSize,
    at: u32,
    points: &[RawPoint],
) -> Result<Vec<(i32, i32, bool)>, FontFault>
    ensures exact { FontGives (λ v. v.items) result (each (scaled_point (size_view size) at) points.now) }
    ensures count { IfOk result (λ v. length v.items ≡ length points.now) }
    ensures coordinates { IfOk result (λ v. All IsPoint v.items) }
{
    if let Some(shift) = size.shift() {
        return Ok(shifted_points(alloc, shift, points)?);
    }
    let mut scaled = Vec::with_capacity(alloc, points.len())?;
    for point in points {
        scaled.push(scaled_point(size, at, *point)?)?;
    }
    Ok(scaled)
}

/// For each contour the number one past its last point.
fn contour_ends(alloc: Global, last_points: &[u16]) -> Result<Vec<u32>, AllocError>
    ensures { IfOk result (λ v. v.items ≡ map (λ e. e + 1) last_points.now) }
{
    last_points.iter().map(|e| u32::from(*e) + 1).collect(alloc)
}

/// The phantom points' coordinates that are not 0, in 26.6 pixels.
#[derive(Clone, Copy)]
pub struct Phantom {
    pub left: i64,
    pub right: i64,
    pub ascent: i64,
    pub descent: i64,
}

/// The phantom points of glyph `g`, in font units.
pub fn phantom_units(metrics: &Metrics, x_min: i16, g: u16) -> PhantomUnits
    requires { g < glyphs_of metrics.now }
    ensures { phantom_units_view result ≡ phantom_units metrics.now x_min g }
{
    let left = i32::from(x_min) - i32::from(metrics.lsb(g));
    PhantomUnits {
        left,
        right: left + i32::from(metrics.advance(g)),
        ascent: i32::from(metrics.ascent()),
        descent: i32::from(metrics.descent()),
    }
}

/// Phantom points scaled.
pub fn scaled_phantom(size: FontSize, units: PhantomUnits) -> Phantom
    ensures { phantom_view result ≡ scaled_phantom (size_view size) (phantom_units_view units) }
{
    Phantom {
        left: size.scale.scaled(units.left),
        right: size.scale.scaled(units.right),
        ascent: size.scale.scaled(units.ascent),
        descent: size.scale.scaled(units.descent),
    }
}

/// The phantom points of glyph `g`.
pub fn phantom_points(size: FontSize, metrics: &Metrics, x_min: i16, g: u16) -> Phantom
    requires { g < glyphs_of metrics.now }
    ensures { phantom_view result ≡ phantom_points (size_view size) metrics.now x_min g }
{
    scaled_phantom(size, phantom_units(metrics, x_min, g))
}

/// An outline without points. Error: CoordRange, at this offset in glyf.
#[tactic(auto, unfolding(crate::specs::Scaling::blank))]
pub fn blank(alloc: Global, at: u32, phantom: Phantom) -> Result<Outline, Fault>
    ensures exact { Gives outline_of result (blank at (phantom_view phantom)) }
{
    let left = coordinate(at, phantom.left)?;
    let right = coordinate(at, phantom.right)?;
    let ascent = coordinate(at, phantom.ascent)?;
    let descent = coordinate(at, phantom.descent)?;
    Ok(Outline {
        points: Vec::new(alloc),
        ends: Vec::new(alloc),
        phantom: [(left, 0), (right, 0), (0, ascent), (0, descent)],
        unfitted: None,
        scan: None,
    })
}

/// The points of a simple glyph that begins at this offset in glyf. Errors: CoordRange, Memory.
#[tactic(auto, unfolding(crate::specs::Scaling::scaled_outline))]
pub fn scaled_outline(
    alloc: Global,
    size: FontSize,
    at: u32,
    points: &[RawPoint],
    last_points: &[u16],
    start: Outline,
) -> Result<Outline, FontFault>
    requires few { length points.now ≤ point_limit }
    requires ends { EndContours (length points.now) last_points.now }
    ensures exact { FontGives outline_of result (scaled_outline (size_view size) at points.now last_points.now (outline_of start)) }
{
    let points = scaled_points(alloc, size, at, points)?;
    let ends = contour_ends(alloc, last_points)?;
    let phantom = start.phantom;
    Ok(Outline {
        points,
        ends,
        phantom,
        unfitted: None,
        scan: None,
    })
}

/// The points of a simple glyph in their places. Error: Memory.
pub fn outline_in_place(
    alloc: Global,
    points: Vec<(i32, i32, bool)>,
    last_points: &[u16],
    start: Outline,
) -> Result<Outline, AllocError>
    requires few { length points.items ≤ point_limit }
    requires coordinates { All IsPoint points.items }
    requires ends { EndContours (length points.items) last_points.now }
    ensures exact { IfOk result (λ o. outline_of o ≡ outline_in_place points.items last_points.now (outline_of start)) }
{
    let ends = contour_ends(alloc, last_points)?;
    let kept = start.phantom;
    Ok(Outline {
        points,
        ends,
        phantom: kept,
        unfitted: None,
        scan: None,
    })
}
