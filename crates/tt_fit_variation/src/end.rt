//! The deltas of phantom points.

ghost use Rattle.std.specs.Prelude.{◌^◌, ◌≤◌, unsigned_abs};

/// The deltas of the phantom points that count, in 1/65536 of a font unit: those along x of the advance's two ends, and
/// those along y of the ascent and the descent.
#[derive(Clone, Copy)]
pub struct EndDeltas {
    pub left: i64,
    pub right: i64,
    pub ascent: i64,
    pub descent: i64,
    pub ghost left_is_near: { unsigned_abs left ≤ 2 ^ 46 },
    pub ghost right_is_near: { unsigned_abs right ≤ 2 ^ 46 },
    pub ghost ascent_is_near: { unsigned_abs ascent ≤ 2 ^ 46 },
    pub ghost descent_is_near: { unsigned_abs descent ≤ 2 ^ 46 },
}
