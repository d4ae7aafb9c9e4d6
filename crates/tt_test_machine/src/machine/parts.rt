//! The parts that a question gives.

ghost use Rattle.std.specs.Prelude.{◌<◌, ◌≤◌, ◌^◌, All, length, unsigned_abs, IfSome};
ghost use Rattle.tt_core.specs.Limits.{coordinate_limit};
ghost use Rattle.tt_points_zones.specs.Zones.{AreContours, IsPoint};

use std::alloc::Global;
use tt_core::{COORDINATE_LIMIT, Halves, SIZE_LIMIT, Scale};
use tt_exec::{Functions, Instance, Parts};
use tt_points_zones::{Originals, Zones};
use tt_state::{GraphicsState, Point, Tolerance};
use tt_test_words::{Line, MOST};

const REACH: i64 = COORDINATE_LIMIT as i64;

fn numbers_in(alloc: Global, line: &mut Line) -> Vec<i32> {
    let mut numbers = Vec::new(alloc);
    for _ in 0..line.count() {
        let number = line.number(i64::from(i32::MIN), i64::from(i32::MAX)) as i32;
        if numbers.push(number).is_err() {
            line.refuse("out of memory");
        }
    }
    numbers
}

/// A coordinate of a point.
fn coordinate_in(line: &mut Line) -> i32
    ensures { unsigned_abs result ≤ coordinate_limit }
{
    line.number(-REACH, REACH) as i32
}

fn point_in(line: &mut Line) -> Point
    ensures { IsPoint result }
{
    let org_x = coordinate_in(line);
    let org_y = coordinate_in(line);
    let x = coordinate_in(line);
    let y = coordinate_in(line);
    let flags = line.number(0, 7) as u8;
    Point {
        units_x: 0,
        units_y: 0,
        org_x,
        org_y,
        x,
        y,
        touched_x: flags & 1 != 0,
        touched_y: flags & 2 != 0,
        on: flags & 4 != 0,
    }
}

fn points_in(alloc: Global, line: &mut Line) -> Vec<Point>
    ensures { All IsPoint result.items }
{
    let mut points = Vec::new(alloc);
    for _ in 0..line.count() {
        if points.push(point_in(line)).is_err() {
            line.refuse("out of memory");
        }
    }
    points
}

/// The contours of these points; None where memory runs out.
fn contours_in(alloc: Global, line: &mut Line, points: u32) -> Option<Vec<(u32, u32)>>
    ensures { IfSome result (λ v. AreContours 0 v.items points) }
{
    let mut contours = Vec::new(alloc);
    let mut from = 0;
    'contours: for _ in 0..line.count() {
        let end = line.number(i64::from(from), i64::from(points)) as u32;
        if contours.push((from, end)).is_err() {
            return None;
        }
        from = end;
    }
    Some(contours)
}

/// The points of both zones, and the contours; none of them where memory runs out.
fn zones_in(alloc: Global, line: &mut Line) -> Zones {
    let twilight = points_in(alloc, line);
    let glyph = points_in(alloc, line);
    if glyph.len() <= MOST {
        if let Some(contours) = contours_in(alloc, line, glyph.len() as u32) {
            return Zones {
                twilight,
                glyph,
                contours,
                originals: Originals::in_pixels(Halves::Up),
            };
        }
    }
    line.refuse("too many points, or out of memory");
    Zones {
        twilight: Vec::new(alloc),
        glyph: Vec::new(alloc),
        contours: Vec::new(alloc),
        originals: Originals::in_pixels(Halves::Up),
    }
}

/// By which rules a machine runs its programs.
#[derive(Clone, Copy)]
pub(crate) enum Rules {
    /// It has the instructions of the profile.
    Profile,
    /// It has the whole instruction set.
    Whole,
    /// It has the whole instruction set, and goes on where too few values are there, or where the thing that an
    /// instruction names does not exist.
    Tolerant,
}

impl Rules {
    fn are_whole(self) -> bool {
        match self {
            Rules::Profile => false,
            Rules::Whole | Rules::Tolerant => true,
        }
    }

    fn tolerance(self) -> Tolerance {
        match self {
            Rules::Profile | Rules::Whole => Tolerance::Strict,
            Rules::Tolerant => Tolerance::Tolerant,
        }
    }
}

/// The place on an axis that the next word is, in 1/65536.
fn place_in(line: &mut Line) -> i32
    ensures { unsigned_abs result ≤ 65536 }
{
    line.number(-65_536, 65_536) as i32
}

/// The instance that the next words are: the count of axes, and the place on each.
pub(crate) fn instance_in(line: &mut Line) -> Instance {
    let mut instance = Instance::none();
    for _ in 0..line.natural(1, 64) {
        let place = place_in(line);
        if instance.coordinates().len() < 64 {
            instance.push(place);
        }
    }
    instance
}

/// The parts that the next words are, of a machine by these rules.
pub(crate) fn parts_in<'a>(
    alloc: Global,
    line: &mut Line,
    rules: Rules,
    instance: Instance,
) -> Parts<'a> {
    let em = line.natural(16, 16384) as u16;
    let ppem = line.natural(1, SIZE_LIMIT);
    let cvt = numbers_in(alloc, line);
    let storage = numbers_in(alloc, line);
    let zones = zones_in(alloc, line);
    Parts {
        scale: Scale::exact(ppem, em),
        ppem,
        cvt,
        storage,
        zones,
        functions: Functions::new(alloc),
        instructions: Functions::new(alloc),
        state: GraphicsState::new(rules.are_whole()),
        instance,
        tolerance: rules.tolerance(),
        skip_glyphs: false,
        default_state: false,
    }
}
