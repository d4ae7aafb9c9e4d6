//! How far directions reach.

ghost use Rattle.std.specs.Prelude.{◌*◌, ◌≤◌, unsigned_abs};
ghost use Rattle.tt_core.specs.Limits.{coordinate_limit};

/// How far a direction reaches along one axis, before it is scaled to a unit vector.
#[derive(Clone, Copy)]
pub(crate) struct Reach {
    pub(crate) length: i64,
    ghost near: { unsigned_abs length ≤ 2 * coordinate_limit },
}
