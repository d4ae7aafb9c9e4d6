//! The coordinates of the points along one axis. OpenType, "The 'glyf' table", "Simple Glyph Description".

ghost use Rattle.std.specs.Prelude.{◌≡◌, ◌+◌, ◌<◌, ◌≤◌, length, unsigned_abs, ◌+ℤ◌, All, IsTrue, IfOk, IfErr, OnOk};
ghost use Rattle.tt_core.specs.Outcomes.{Gives};
ghost use Rattle.tt_glyf.specs.Coordinates.{delta_at, coordinate_at};
ghost use Rattle.tt_glyf.specs.declared.coordinates.DeltaAxis.TheVariants.{X};
ghost use Rattle.tt_glyf.specs.Views.{axis_of, delta_of, coordinate_of, held_listing};
ghost use Rattle.tt_glyf.specs.InPlace.{HoldsFlag, along, flags_along, put_along};

use crate::bytes::GlyphBytes;
use crate::flags::{FlagList, PointFlags, has_flag, held_flag};
use crate::format::WORD_SIZE;
use crate::raw::RawPoint;
use tt_core::{Fault, Why};

/// The two flags that say how a delta along an axis is encoded.
#[derive(Clone, Copy)]
pub(crate) struct AxisFlags {
    pub(crate) short: PointFlags,
    pub(crate) same: PointFlags,
}

const X_AXIS: AxisFlags = AxisFlags {
    short: PointFlags::X_SHORT_VECTOR,
    same: PointFlags::X_IS_SAME_OR_POSITIVE,
};

const Y_AXIS: AxisFlags = AxisFlags {
    short: PointFlags::Y_SHORT_VECTOR,
    same: PointFlags::Y_IS_SAME_OR_POSITIVE,
};

/// The axis of a coordinate.
#[derive(Clone, Copy)]
pub(crate) enum DeltaAxis {
    X,
    Y,
}

impl DeltaAxis {
    #[inline(always)]
    fn flags(self) -> AxisFlags
        ensures { axis_of result ≡ flags_along self }
    {
        match self {
            DeltaAxis::X => X_AXIS,
            DeltaAxis::Y => Y_AXIS,
        }
    }

    /// A point with this coordinate along the axis.
    #[inline(always)]
    fn put(self, point: RawPoint, value: i16) -> RawPoint
        ensures { result ≡ put_along self point value }
    {
        match self {
            DeltaAxis::X => RawPoint { x: value, ..point },
            DeltaAxis::Y => RawPoint { y: value, ..point },
        }
    }
}

/// A delta, and the offset after it.
#[derive(Clone, Copy)]
struct Delta {
    by: i32,
    next: usize,
}

/// The delta of a point with this flag. Error: GlyphShort.
#[inline(always)]
#[tactic(auto, unfolding(crate::specs::Coordinates::delta_at))]
fn delta_at(glyph: &GlyphBytes, axis: AxisFlags, flag: u8, at: usize) -> Result<Delta, Fault>
    requires { at ≤ length glyph.now.bytes }
    ensures exact { Gives delta_of result (delta_at glyph.now (axis_of axis) flag at) }
    ensures bound { IfOk result (λ d. unsigned_abs d.by ≤ 32768) }
    ensures room { IfOk result (λ d. d.next ≤ length glyph.now.bytes) }
{
    let same = has_flag(flag, axis.same);
    if has_flag(flag, axis.short) {
        let byte = i32::from(glyph.byte(at)?);
        let by = if same { byte } else { -byte };
        return Ok(Delta { by, next: at + 1 });
    }
    if same {
        return Ok(Delta { by: 0, next: at });
    }
    let word = glyph.signed(at)?;
    Ok(Delta {
        by: i32::from(word),
        next: at + WORD_SIZE,
    })
}

/// A coordinate, and the offset after its delta.
#[derive(Clone, Copy)]
struct Coordinate {
    value: i16,
    next: usize,
}

impl Coordinate {
    /// The coordinate after this one. Errors: GlyphShort; CoordRange, at the glyph's first byte.
    #[inline(always)]
    #[tactic(auto, unfolding(crate::specs::Coordinates::coordinate_at, crate::specs::Coordinates::within_words))]
    fn after(self, glyph: &GlyphBytes, axis: AxisFlags, flag: u8) -> Result<Coordinate, Fault>
        requires { self.next ≤ length glyph.now.bytes }
        ensures exact { Gives coordinate_of result (coordinate_at glyph.now (axis_of axis) flag (coordinate_of self)) }
        ensures room { IfOk result (λ c. c.next ≤ length glyph.now.bytes) }
    {
        let delta = delta_at(glyph, axis, flag, self.next)?;
        match i16::try_from(i32::from(self.value) + delta.by) {
            Ok(value) => Ok(Coordinate {
                value,
                next: delta.next,
            }),
            Err(_) => Err(glyph.fault(0, Why::CoordRange)),
        }
    }
}

impl FlagList {
    /// Reads the coordinates along an axis into the points. A y takes the place of its point's flag. Errors: GlyphShort,
    /// CoordRange.
    #[inline(always)]
    #[tactic(auto, using(crate::proofs::InPlace::turn, crate::proofs::InPlace::breaks, crate::proofs::InPlace::done))]
    pub(crate) fn read_along(&mut self, glyph: &GlyphBytes, axis: DeltaAxis) -> Result<(), Fault>
        requires place { self.old.next ≤ length glyph.now.bytes }
        requires held { All HoldsFlag self.old.points.items }
        ensures exact { Gives (λ _. held_listing self.new) result (along glyph.now axis (held_listing self.old)) }
        ensures held { OnOk result (axis ≡ X → All HoldsFlag self.new.points.items) }
        ensures room { OnOk result (self.new.next ≤ length glyph.now.bytes) }
    {
        let flags = axis.flags();
        let mut last = Coordinate {
            value: 0,
            next: self.next,
        };
        for i in 0..self.points.len() {
            let point = self.points[i];
            last = last.after(glyph, flags, held_flag(point))?;
            self.points[i] = axis.put(point, last.value);
        }
        self.next = last.next;
        Ok(())
    }
}
