//! Unit vectors in any direction. Apple TrueType Reference Manual, "Instruction Set" (SPVTL, SFVTL, SDPVTL, SPVFS,
//! SFVFS).

ghost use Rattle.std.specs.Prelude.{◌≡◌, ◌+◌, ◌*◌, ◌/◌, ◌^◌, ◌<◌, ◌≤◌, ◌-ℤ◌, neg_ℤ, unsigned_abs};
ghost use Rattle.tt_core.specs.Limits.{coordinate_limit};
ghost use Rattle.tt_state.specs.Vectors as is;
ghost use Rattle.tt_state.specs.Axes.{vector_of};

use crate::reach::Reach;
use crate::vector::{Vector, VectorPart};

/// The magnitude of a part of a unit vector, in 2.14: `s` is the part's square before scaling, and `l` the vector's
/// squared length.
fn magnitude(s: u64, l: u64) -> u64
    requires some { 0 < l }
    requires within { s ≤ l }
    requires small { l < 2 ^ 45 }
    ensures exact { result ≡ is.magnitude s l }
    ensures bound { result ≤ 16384 }
{
    let n = 16384 * s;
    // This is 2^28 s / l, cut. With two divisions no product exceeds 2^59.
    (n / l * 16384 + n % l * 16384 / l).isqrt()
}

fn square(reach: Reach) -> u64
    ensures exact { result ≡ is.square reach.length }
    ensures bound { result < 2 ^ 44 }
{
    let m = reach.length.unsigned_abs();
    m * m
}

/// A part of a unit vector, in a direction with the squared length `l`.
fn part_of(reach: Reach, l: u64) -> VectorPart
    requires some { 0 < l }
    requires within { is.square reach.length ≤ l }
    requires few { l < 2 ^ 45 }
    ensures { result.0 ≡ is.part reach.length l }
{
    let m = magnitude(square(reach), l) as i16;
    if reach.length < 0 {
        VectorPart(-m)
    } else {
        VectorPart(m)
    }
}

fn unit_of(x: Reach, y: Reach) -> Vector
    ensures { result ≡ vector_of (is.unit x.length y.length) }
{
    let l = square(x) + square(y);
    if l == 0 {
        return Vector::X;
    }
    Vector::of(part_of(x, l), part_of(y, l))
}

fn difference(from: i32, to: i32) -> Reach
    requires from { unsigned_abs from ≤ coordinate_limit }
    requires to { unsigned_abs to ≤ coordinate_limit }
    ensures { result.length ≡ to -ℤ from }
{
    Reach {
        length: i64::from(to) - i64::from(from),
    }
}

fn negated(reach: Reach) -> Reach
    ensures { result.length ≡ neg_ℤ reach.length }
{
    Reach {
        length: -reach.length,
    }
}

impl Vector {
    /// The unit vector of a direction, with parts in 2.14, cut. It is the x axis if `x` and `y` are 0 (profile).
    pub fn unit(x: i32, y: i32) -> Vector
        requires x { unsigned_abs x ≤ 2 * coordinate_limit }
        requires y { unsigned_abs y ≤ 2 * coordinate_limit }
        ensures { result ≡ vector_of (is.unit x y) }
    {
        let x = Reach {
            length: i64::from(x),
        };
        let y = Reach {
            length: i64::from(y),
        };
        unit_of(x, y)
    }

    /// The unit vector of a line, or that vector turned counterclockwise by a quarter turn. It is the x axis if the
    /// line has no length (profile).
    pub fn line(from: (i32, i32), to: (i32, i32), turned: bool) -> Vector
        requires from_x { unsigned_abs from.0 ≤ coordinate_limit }
        requires from_y { unsigned_abs from.1 ≤ coordinate_limit }
        requires to_x { unsigned_abs to.0 ≤ coordinate_limit }
        requires to_y { unsigned_abs to.1 ≤ coordinate_limit }
        ensures { result ≡ vector_of (is.line (is.pair from.0 from.1) (is.pair to.0 to.1) turned) }
    {
        let dx = difference(from.0, to.0);
        let dy = difference(from.1, to.1);
        if turned {
            unit_of(negated(dy), dx)
        } else {
            unit_of(dx, dy)
        }
    }
}
