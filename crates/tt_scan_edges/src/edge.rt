//! An edge, the frame of a picture, and the crossing of an edge with a row's centre line.

ghost use Rattle.std.specs.Prelude.{◌≡◌, ◌^◌, ◌≤◌, ◌-ℤ◌, unsigned_abs};

/// A straight edge from a to b, in 1/8192 pixel.
#[derive(Clone, Copy, Debug, PartialEq, Eq)]
pub struct Edge {
    pub ax: i32,
    pub ay: i32,
    pub bx: i32,
    pub by: i32,
}

impl Edge {
    /// How far the edge goes to the right, in 1/8192 pixel.
    #[inline(always)]
    pub fn run(self) -> i64
        ensures exact { result ≡ self.bx -ℤ self.ax }
        ensures bound { unsigned_abs result ≤ 2 ^ 32 }
    {
        i64::from(self.bx) - i64::from(self.ax)
    }

    /// How far the edge rises, in 1/8192 pixel.
    #[inline(always)]
    pub fn rise(self) -> i64
        ensures exact { result ≡ self.by -ℤ self.ay }
        ensures bound { unsigned_abs result ≤ 2 ^ 32 }
    {
        i64::from(self.by) - i64::from(self.ay)
    }
}

/// A picture of `width` times `height` pixels, with `margin` pixels round the line. The base line runs `rise` pixels
/// below the margin's lower border at the top.
#[derive(Clone, Copy, Debug, PartialEq, Eq)]
pub struct Frame {
    pub width: u32,
    pub height: u32,
    pub margin: u32,
    pub rise: i32,
}

/// An edge at the height of a row's centres. Columns may be negative.
#[derive(Clone, Copy, Debug, PartialEq, Eq)]
pub struct Cross {
    /// The first and the last column whose centre lies on the edge.
    pub touch: Option<(i64, i64)>,
    /// +1 where the edge rises through the height, -1 where it falls, else 0. Its lower end counts, its
    /// upper end does not.
    pub turn: i8,
    /// The least column whose centre lies strictly right of the edge; 0 where `turn` is 0.
    pub first: i64,
    pub ghost bound: { unsigned_abs turn ≤ 1 },
    pub ghost near: { unsigned_abs first ≤ 2 ^ 20 },
}
