//! The places of a simple glyph's points in font units. Apple TrueType Reference Manual, "Instructing TrueType Glyphs"
//! (zones, phantom points).

ghost use Rattle.std.specs.Prelude.{◌^◌, ◌≤◌, unsigned_abs};

use tt_glyf::RawPoint;

/// The coordinates of phantom points that are not 0, in font units.
#[derive(Clone, Copy)]
pub struct PhantomUnits {
    pub left: i32,
    pub right: i32,
    pub ascent: i32,
    pub descent: i32,
    pub ghost left_is_near: { unsigned_abs left ≤ 2 ^ 17 },
    pub ghost right_is_near: { unsigned_abs right ≤ 2 ^ 17 },
    pub ghost ascent_is_near: { unsigned_abs ascent ≤ 2 ^ 17 },
    pub ghost descent_is_near: { unsigned_abs descent ≤ 2 ^ 17 },
}

/// A glyph's points as the table has them, and its phantom points.
#[derive(Clone, Copy)]
pub struct Units<'a> {
    pub points: &'a [RawPoint],
    pub phantom: PhantomUnits,
}
