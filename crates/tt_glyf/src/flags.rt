//! The flags of the points of a simple glyph. OpenType, "The 'glyf' table", "Simple Glyph Flags".

ghost use Rattle.std.specs.Prelude.{◌≡◌, ◌+◌, ◌^◌, ◌<◌, ◌≤◌, ◌++◌, length, replicate, vec_len, vec_capacity, All, IsTrue, IfOk, IfErr};
ghost use Rattle.tt_core.specs.Outcomes.{Gives};
ghost use Rattle.tt_glyf.specs.Flags.{run_at};
ghost use Rattle.tt_glyf.specs.Format.{has};
ghost use Rattle.tt_glyf.specs.InPlace.{held, held_flag, held_of, HoldsFlag};
ghost use Rattle.tt_core.specs.Outcomes.{FontGives};
ghost use Rattle.tt_glyf.specs.Views.{run_of, held_listing};

use crate::bytes::GlyphBytes;
use crate::raw::RawPoint;
use bitflags::{Flag, Flags, bitflag_items};
use tt_core::{Fault, FontFault, Why};

/// The flags of a point.
#[derive(Clone, Copy, Debug, PartialEq, Eq)]
pub struct PointFlags(u8);

bitflag_items! {
    impl PointFlags: u8 {
        const ON_CURVE_POINT = 1;
        const X_SHORT_VECTOR = 2;
        const Y_SHORT_VECTOR = 4;
        const REPEAT_FLAG = 8;
        const X_IS_SAME_OR_POSITIVE = 16;
        const Y_IS_SAME_OR_POSITIVE = 32;
    }
}

impl Flags for PointFlags {
    ghost use Rattle.std.specs.Prelude.{⊤};
    ghost use Rattle.tt_glyf.specs.Format.{point_flags};

    type Bits = u8;

    ghost exact = { ⊤ };

    ghost table = { point_flags };

    ghost set_of = { λ f. f.0 };

    fn flags<'a>() -> &'a [Flag<PointFlags>] {
        PointFlags::FLAGS
    }

    fn bits(&self) -> u8 {
        self.0
    }

    fn from_bits_retain(bits: u8) -> PointFlags {
        PointFlags(bits)
    }
}

/// Whether a flag byte includes a point flag.
#[inline(always)]
pub(crate) fn has_flag(flags: u8, flag: PointFlags) -> bool
    ensures { result ≡ has flags flag.0 }
{
    PointFlags::from_bits_retain(flags).contains(flag)
}

/// A point whose y holds its flag until the y is read.
#[inline(always)]
fn held(flag: u8) -> RawPoint
    ensures exact { result ≡ held flag }
    ensures holds { HoldsFlag result }
{
    RawPoint {
        x: 0,
        y: i16::from(flag),
        on: has_flag(flag, PointFlags::ON_CURVE_POINT),
    }
}

/// The flag that a point holds.
#[inline(always)]
pub(crate) fn held_flag(point: RawPoint) -> u8
    requires { HoldsFlag point }
    ensures { result ≡ held_flag point }
{
    point.y as u8
}

/// Points that are read, each with its flag until its y is there, and the offset after what is read.
#[derive(Drop)]
pub(crate) struct FlagList {
    /// A repeated flag occurs here once for each of its points.
    pub(crate) points: Vec<RawPoint>,
    pub(crate) next: usize,
}

/// A flag byte, the number of its further points, and the offset after it.
#[derive(Clone, Copy)]
struct Run {
    flag: u8,
    copies: usize,
    next: usize,
}

/// The run at an offset, for the remaining points. Errors: GlyphShort, FlagRun.
#[inline(always)]
#[tactic(auto, unfolding(crate::specs::Flags::run_at))]
fn run_at(glyph: &GlyphBytes, at: usize, left: usize) -> Result<Run, Fault>
    requires { 0 < left }
    ensures exact { Gives run_of result (run_at glyph.now at left) }
    ensures within { IfOk result (λ r. r.copies < left) }
    ensures room { IfOk result (λ r. r.next ≤ length glyph.now.bytes) }
{
    let flag = glyph.byte(at)?;
    if !has_flag(flag, PointFlags::REPEAT_FLAG) {
        return Ok(Run {
            flag,
            copies: 0,
            next: at + 1,
        });
    }
    let copies = usize::from(glyph.byte(at + 1)?);
    if copies >= left {
        return Err(glyph.fault(at, Why::FlagRun));
    }
    Ok(Run {
        flag,
        copies,
        next: at + 2,
    })
}

#[inline(always)]
fn push_copies(points: &mut Vec<RawPoint>, point: RawPoint, n: usize)
    requires { vec_len points.old + n ≤ vec_capacity points.old }
    ensures pushed { points.new.items ≡ points.old.items ++ replicate n point }
    ensures grown { vec_len points.new ≡ vec_len points.old + n }
    ensures capacity { vec_capacity points.new ≡ vec_capacity points.old }
{
    for _ in 0..n {
        points.push_reserved(point);
    }
}

/// The flags of `count` points. Errors: GlyphShort, FlagRun, Memory.
#[inline(never)]
pub(crate) fn read_flags(glyph: &GlyphBytes, at: usize, count: usize) -> Result<FlagList, FontFault>
    requires place { at ≤ length glyph.now.bytes }
    requires size { count < 2 ^ 32 }
    ensures exact { FontGives held_listing result (held_of glyph.now at count) }
    ensures held { IfOk result (λ l. All HoldsFlag l.points.items) }
    ensures room { IfOk result (λ l. l.next ≤ length glyph.now.bytes) }
{
    let mut points = Vec::with_capacity(glyph.alloc(), count)?;
    let mut next = at;
    let mut left = count;
    while left > 0 {
        let run = run_at(glyph, next, left)?;
        push_copies(&mut points, held(run.flag), run.copies + 1);
        next = run.next;
        left -= run.copies + 1;
    }
    Ok(FlagList { points, next })
}
