//! Points that follow a reference point: SHP, SHC, SHZ. Apple TrueType Reference Manual, "Instruction set": managing
//! outlines. Distances are in 26.6 pixels.

ghost use Rattle.std.specs.Prelude.{◌≡◌, ℕ, ◌≤◌, ◌≤ℤ◌, pos, true, false, All, IfErr, IfOk, length};
ghost use Rattle.tt_core.specs.Outcomes.{Gives};
ghost use Rattle.tt_points_loops.specs.Series.{each_from_to};
ghost use Rattle.tt_points_loops.specs.Shifting as is;
ghost use Rattle.tt_points_zones.specs.Points.{points_in};
ghost use Rattle.tt_points_zones.specs.Views.{zones_view};
ghost use Rattle.tt_points_zones.specs.Zones.{AreContours, IsPoint};
ghost use Rattle.tt_state.specs.Tolerance.{is_missing};
ghost use Rattle.tt_state.specs.declared.graphics_state.Zone.TheVariants as zone;

use crate::in_turn::{Change, in_turn};
use tt_core::Why;
use tt_points_zones::{Motion, Zones, may_move, zone_of};
use tt_state::{GraphicsState, Point, Tolerance, Zone};

/// The reference point that others follow.
#[derive(Clone, Copy)]
pub enum ReferencePoint {
    /// Reference point 1, in zone pointer 0.
    Rp1,
    /// Reference point 2, in zone pointer 1.
    Rp2,
}

/// The zone that a reference point is in.
pub fn reference_zone(state: &GraphicsState, which: ReferencePoint) -> Zone
    ensures { result ≡ is.reference_zone which state.now }
{
    match which {
        ReferencePoint::Rp1 => state.zp0,
        ReferencePoint::Rp2 => state.zp1,
    }
}

/// The number of a reference point.
pub fn reference_number(state: &GraphicsState, which: ReferencePoint) -> i32
    ensures { result ≡ is.reference_number which state.now }
{
    match which {
        ReferencePoint::Rp1 => state.rp1,
        ReferencePoint::Rp2 => state.rp2,
    }
}

/// The reference point itself. Error: PointRange.
fn reference(zones: &Zones, state: &GraphicsState, which: ReferencePoint) -> Result<Point, Why>
    ensures exact { Gives (λ p. p) result (is.reference which state.now (zones_view zones.now)) }
    ensures valid { IfOk result IsPoint }
    ensures sign { IfOk result (λ p. pos 0 ≤ℤ is.reference_number which state.now) }
{
    zones.point(reference_zone(state, which), reference_number(state, which))
}

/// The point moved as far as its reference point `r` has moved. `touch` says whether the move touches the point.
/// Errors: Perpendicular, ValueRange.
fn follow(p: Point, r: Point, touch: bool, state: &GraphicsState) -> Result<Point, Why>
    requires p { IsPoint p }
    requires r { IsPoint r }
    ensures exact { Gives (λ q. q) result (is.follow touch state.now r p) }
    ensures valid { IfOk result IsPoint }
{
    may_move(state)?;
    let motion = Motion::of(state);
    if touch {
        motion.moved(p, motion.offset(r))
    } else {
        motion.shifted(p, motion.offset(r))
    }
}

/// Moves a point of zp2 as far as its reference point has moved. `before` is the reference point before the first move.
/// Errors: PointRange, Perpendicular, ValueRange.
pub(crate) fn shift(
    zones: &mut Zones,
    state: &GraphicsState,
    before: Result<Point, Why>,
    n: i32,
) -> Result<(), Why>
    requires before { IfOk before IsPoint }
    ensures exact { Gives (λ u. zones_view zones.new) result (is.shift state.now before n (zones_view zones.old)) }
    ensures kept { IfErr result (λ why. zones_view zones.new ≡ zones_view zones.old) }
{
    let p = zones.point(state.zp2, n)?;
    let q = follow(p, before?, true, state)?;
    zones.set(state.zp2, n, q);
    Ok(())
}

/// SHP[a], 0x32 and 0x33: loop points of zp2 -> moves each point by the distance of the reference point from its
/// original place. A tolerant machine passes over each missing point, and over all points if the reference point is
/// missing. Errors: PointRange, Perpendicular, ValueRange.
pub fn shp(
    zones: &mut Zones,
    state: &mut GraphicsState,
    tolerance: Tolerance,
    which: ReferencePoint,
    numbers: &[i32],
) -> Result<(), Why>
    ensures exact { Gives (λ u. (zones_view zones.new, state.new)) result
        (is.shp tolerance which numbers.now (zones_view zones.old) state.old) }
{
    let before = reference(zones, state, which);
    in_turn(zones, state, tolerance, Change::Follow(before), numbers)
}

/// The number `n` of a point of the zone `of`, if that zone is `zone`.
fn number_in(zone: Zone, of: Zone, n: i32) -> Option<usize>
    requires { pos 0 ≤ℤ n }
    ensures { result ≡ is.number_in zone of n }
{
    match (zone, of) {
        (Zone::Twilight, Zone::Twilight) | (Zone::Glyph, Zone::Glyph) => Some(n as usize),
        _ => None,
    }
}

/// A reference point, and how others follow it.
#[derive(Clone, Copy)]
struct Leader {
    reference: Point,
    /// The number of the reference point, if it is in the zone of the points that follow. It doesn't follow itself.
    but: Option<usize>,
    touch: bool,
    ghost valid: { IsPoint reference },
}

/// Point `i` after it follows the reference point. That point itself is unchanged. Errors: Perpendicular, ValueRange.
fn follow_but(p: Point, i: usize, by: Leader, state: &GraphicsState) -> Result<Point, Why>
    requires p { IsPoint p }
    ensures exact { Gives (λ q. q) result (is.follow_but by.but by.touch state.now by.reference i p) }
    ensures valid { IfOk result IsPoint }
{
    if by.but == Some(i) {
        return Ok(p);
    }
    follow(p, by.reference, by.touch, state)
}

/// A range of points of a zone.
#[derive(Clone, Copy)]
struct Range {
    zone: Zone,
    first: usize,
    past: usize,
}

/// Makes the points of a range follow the reference point, except that point itself. Errors: Perpendicular, ValueRange.
fn lead(points: &mut [Point], range: Range, by: Leader, state: &GraphicsState) -> Result<(), Why>
    requires points { All IsPoint points.old }
    requires past { range.past ≤ length points.old }
    ensures exact { Gives (λ u. points.new) result
        (each_from_to range.first range.past (is.follow_but by.but by.touch state.now by.reference) 0 points.old) }
    ensures valid { All IsPoint points.new }
    ensures count { length points.new ≡ length points.old }
    ensures other { IfErr result (λ why. is_missing why ≡ false) }
{
    for i in range.first..range.past {
        points[i] = follow_but(points[i], i, by, state)?;
    }
    Ok(())
}

/// Moves the points of a range of a zone, except the reference point. Errors: PointRange, Perpendicular, ValueRange.
fn shift_range(
    zones: &mut Zones,
    state: &GraphicsState,
    which: ReferencePoint,
    range: Range,
    touch: bool,
) -> Result<(), Why>
    requires past { range.past ≤ length (points_in range.zone (zones_view zones.old)) }
    ensures exact { Gives (λ u. zones_view zones.new) result
        (is.shift_range touch which range.zone (range.first, range.past) (zones_view zones.old) state.now) }
    ensures kept { IfErr result (λ why. is_missing why ≡ true → zones_view zones.new ≡ zones_view zones.old) }
{
    let reference = reference(zones, state, which)?;
    let but = number_in(
        range.zone,
        reference_zone(state, which),
        reference_number(state, which),
    );
    let by = Leader {
        reference,
        but,
        touch,
    };
    match range.zone {
        Zone::Twilight => lead(&mut zones.twilight, range, by, state),
        Zone::Glyph => lead(&mut zones.glyph, range, by, state),
    }
}

/// The range of points of a contour of the glyph. Error: ContourRange.
fn contour_at(contours: &[(u32, u32)], c: i32) -> Result<(usize, usize), Why>
    ensures exact { Gives (λ r. r) result (is.contour_at c contours.now) }
    ensures past { (n : ℕ) → AreContours 0 contours.now n → IfOk result (λ r. r.1 ≤ n) }
{
    if c < 0 || c as usize >= contours.len() {
        return Err(Why::ContourRange);
    }
    let (first, past) = contours[c as usize];
    Ok((first as usize, past as usize))
}

/// The range of points of a contour of a zone. The twilight zone is contour 0 (profile). Error: ContourRange.
fn contour_in(zones: &Zones, zone: Zone, c: i32) -> Result<Range, Why>
    ensures exact { Gives (λ r. (r.first, r.past)) result (is.contour_in zone c (zones_view zones.now)) }
    ensures zone { IfOk result (λ r. r.zone ≡ zone) }
    ensures past { IfOk result (λ r. r.past ≤ length (points_in zone (zones_view zones.now))) }
{
    match zone {
        Zone::Glyph => {
            let (first, past) = contour_at(&zones.contours, c)?;
            Ok(Range { zone, first, past })
        }
        Zone::Twilight if c == 0 => Ok(Range {
            zone,
            first: 0,
            past: zones.twilight.len(),
        }),
        Zone::Twilight => Err(Why::ContourRange),
    }
}

/// SHC[a], 0x34 and 0x35: contour of zp2 -> moves its points by the distance of the reference point from its original
/// place. The reference point itself is unchanged. Errors: ContourRange, PointRange, Perpendicular, ValueRange.
pub fn shc(
    zones: &mut Zones,
    state: &GraphicsState,
    which: ReferencePoint,
    contour: i32,
) -> Result<(), Why>
    ensures exact { Gives (λ u. zones_view zones.new) result (is.shc which contour (zones_view zones.old) state.now) }
    ensures kept { IfErr result (λ why. is_missing why ≡ true → zones_view zones.new ≡ zones_view zones.old) }
{
    let range = contour_in(zones, state.zp2, contour)?;
    shift_range(zones, state, which, range, true)
}

/// The end of the last contour, where phantom points begin.
fn contours_end(contours: &[(u32, u32)]) -> usize
    ensures exact { result ≡ is.contours_end contours.now }
    ensures past { (n : ℕ) → AreContours 0 contours.now n → result ≤ n }
{
    match contours.last() {
        Some(contour) => contour.1 as usize,
        None => 0,
    }
}

/// The points of a zone without its phantom points.
fn outline_in(zones: &Zones, zone: Zone) -> Range
    ensures exact { (result.first, result.past) ≡ is.outline_in zone (zones_view zones.now) }
    ensures zone { result.zone ≡ zone }
    ensures past { result.past ≤ length (points_in zone (zones_view zones.now)) }
{
    let past = match zone {
        Zone::Twilight => zones.twilight.len(),
        Zone::Glyph => contours_end(&zones.contours),
    };
    Range {
        zone,
        first: 0,
        past,
    }
}

/// SHZ[a], 0x36 and 0x37: zone -> moves its points by the distance of the reference point from its original place, and
/// touches none. Phantom points and the reference point are unchanged. Errors: ZoneRange, PointRange, Perpendicular,
/// ValueRange.
#[tactic(auto, unfolding(crate::specs::Shifting::shz))]
pub fn shz(
    zones: &mut Zones,
    state: &GraphicsState,
    which: ReferencePoint,
    zone: i32,
) -> Result<(), Why>
    ensures exact { Gives (λ u. zones_view zones.new) result (is.shz which zone (zones_view zones.old) state.now) }
    ensures kept { IfErr result (λ why. is_missing why ≡ true → zones_view zones.new ≡ zones_view zones.old) }
{
    let zone = zone_of(zone)?;
    let outline = outline_in(zones, zone);
    shift_range(zones, state, which, outline, false)
}
