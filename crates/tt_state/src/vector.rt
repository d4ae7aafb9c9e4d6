//! Unit vectors, and distances along them. Apple TrueType Reference Manual, "Graphics State" (projection vector,
//! freedom vector, dual projection vector).

ghost use Rattle.std.specs.Prelude.{◌≡◌, ◌+◌, ◌*◌, ◌^◌, ◌<◌, ◌≤◌, pos, ◌+ℤ◌, ◌*ℤ◌, unsigned_abs};
ghost use Rattle.tt_core.specs.Limits.{coordinate_limit};
ghost use Rattle.tt_core.specs.Numbers.{rounded_quotient};
ghost use Rattle.tt_state.specs.Vectors as is;
ghost use Rattle.tt_state.specs.Axes.{pair_of, vector_of};

use crate::steps::Steps;
use std::marker::Model;
use tt_core::rq;

/// The parts of a unit vector off the axes, in 2.14. Only `Vector::unit` and `Vector::line` make one, so its length
/// is 1 but for cut bits.
#[derive(Clone, Copy, Debug, PartialEq, Eq)]
pub struct Slope {
    x: i16,
    y: i16,
}

impl Model for Slope {
    ghost use Rattle.tt_state.specs.Vectors as vectors;

    ghost Value = { vectors.Pair };

    ghost view = { λ s. record { x = s.x; y = s.y } };

    ghost invariant = { λ s. vectors.IsUnit s.x s.y };

    ghost inverse = { λ p. record { x = p.x; y = p.y } };
}

/// A unit vector: a direction for measuring distances or for moving points.
#[derive(Clone, Copy, Debug, PartialEq, Eq)]
pub enum Vector {
    X,
    Y,
    Off(Slope),
}

/// A number with room for products.
#[derive(Clone, Copy)]
struct Wide(i64);

/// A part of a unit vector, in 2.14.
#[derive(Clone, Copy)]
pub(crate) struct VectorPart(pub(crate) i16);

fn widened(v: i32) -> Wide
    ensures exact { result.0 ≡ v }
    ensures bound { unsigned_abs result.0 ≤ 2 ^ 31 }
{
    Wide(i64::from(v))
}

/// `a * b`, where `b` is a part of a unit vector.
fn product(a: Wide, b: Wide) -> i64
    requires a { unsigned_abs a.0 ≤ 2 ^ 32 }
    requires b { unsigned_abs b.0 ≤ 16384 }
    ensures exact { result ≡ a.0 *ℤ b.0 }
    ensures bound { unsigned_abs result ≤ 16384 * unsigned_abs a.0 }
{
    a.0 * b.0
}

/// A product with parts of a unit vector, rounded from 14 fractional bits to a whole number.
fn rounded(n: i64) -> i64
    requires { unsigned_abs n ≤ 2 ^ 46 }
    ensures exact { result ≡ rounded_quotient n (pos 16384) }
    ensures bound { 16384 * unsigned_abs result ≤ unsigned_abs n + 8192 }
{
    rq(n, 16384)
}

impl Slope {
    fn x(&self) -> Wide
        ensures exact { result.0 ≡ self.now.x }
        ensures bound { unsigned_abs result.0 ≤ 16384 }
    {
        Wide(i64::from(self.x))
    }

    fn y(&self) -> Wide
        ensures exact { result.0 ≡ self.now.y }
        ensures bound { unsigned_abs result.0 ≤ 16384 }
    {
        Wide(i64::from(self.y))
    }

    /// The distance of a place along the vector, in 1/16384 of its unit.
    fn sum(&self, x: Wide, y: Wide) -> i64
        requires x { unsigned_abs x.0 ≤ 2 ^ 31 }
        requires y { unsigned_abs y.0 ≤ 2 ^ 31 }
        ensures exact { result ≡ (x.0 *ℤ self.now.x) +ℤ (y.0 *ℤ self.now.y) }
        ensures bound { unsigned_abs result ≤ 16384 * (unsigned_abs x.0 + unsigned_abs y.0) }
    {
        product(x, self.x()) + product(y, self.y())
    }
}

impl Vector {
    /// The vector with these parts.
    pub(crate) fn of(x: VectorPart, y: VectorPart) -> Vector
        requires { is.IsUnit x.0 y.0 }
        ensures { result ≡ vector_of (is.pair x.0 y.0) }
    {
        if x.0 == 16384 && y.0 == 0 {
            Vector::X
        } else if x.0 == 0 && y.0 == 16384 {
            Vector::Y
        } else {
            Vector::Off(Slope { x: x.0, y: y.0 })
        }
    }

    /// The part along x, in 2.14.
    pub fn x(&self) -> i32
        ensures exact { result ≡ (pair_of self.now).x }
        ensures bound { unsigned_abs result ≤ 16384 }
    {
        match self {
            Vector::X => 16384,
            Vector::Y => 0,
            Vector::Off(s) => s.x().0 as i32,
        }
    }

    /// The part along y, in 2.14.
    pub fn y(&self) -> i32
        ensures exact { result ≡ (pair_of self.now).y }
        ensures bound { unsigned_abs result ≤ 16384 }
    {
        match self {
            Vector::X => 0,
            Vector::Y => 16384,
            Vector::Off(s) => s.y().0 as i32,
        }
    }

    /// The distance along the vector of a place, or of the way from one place to another, in 26.6 pixels.
    #[tactic(auto, unfolding(crate::specs::Vectors::project), using(crate::proofs::OnAxes::along_x, crate::proofs::OnAxes::along_y))]
    pub fn project(&self, x: i32, y: i32) -> i64
        requires x { unsigned_abs x ≤ 2 * coordinate_limit }
        requires y { unsigned_abs y ≤ 2 * coordinate_limit }
        ensures exact { result ≡ is.project (pair_of self.now) x y }
        ensures bound { unsigned_abs result ≤ unsigned_abs x + unsigned_abs y }
    {
        match self {
            Vector::X => i64::from(x),
            Vector::Y => i64::from(y),
            Vector::Off(s) => rounded(s.sum(widened(x), widened(y))),
        }
    }

    /// The move along x and along y, for a distance `d` along the vector.
    #[tactic(auto, unfolding(crate::specs::Vectors::along), using(crate::proofs::OnAxes::whole, crate::proofs::OnAxes::nothing))]
    pub fn along(&self, d: i64) -> Steps
        requires { unsigned_abs d ≤ 2 ^ 32 }
        ensures { is.pair result.x result.y ≡ is.along (pair_of self.now) d }
    {
        match self {
            Vector::X => Steps { x: d, y: 0 },
            Vector::Y => Steps { x: 0, y: d },
            Vector::Off(s) => Steps {
                x: rounded(product(Wide(d), s.x())),
                y: rounded(product(Wide(d), s.y())),
            },
        }
    }
}

/// The length of the freedom vector along the projection vector, in 2.14. It is 1 if its magnitude is below a
/// sixteenth, so that points do not fly off (profile).
pub fn dot(projection: Vector, freedom: Vector) -> i32
    ensures exact { result ≡ is.dot (pair_of projection) (pair_of freedom) }
    ensures low { 1024 ≤ unsigned_abs result }
    ensures high { unsigned_abs result ≤ 32768 }
{
    let whole = projection.project(freedom.x(), freedom.y());
    if whole.unsigned_abs() < 1024 {
        16384
    } else {
        whole as i32
    }
}
