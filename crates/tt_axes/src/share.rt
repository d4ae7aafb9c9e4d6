//! How much of a variation holds.

ghost use Rattle.std.specs.Prelude.{◌≤◌};

/// How much of a variation holds, in 1/65536: from nothing to the whole.
#[derive(Clone, Copy)]
pub struct Share {
    pub parts: u32,
    pub ghost most: { parts ≤ 65536 },
}
