//! A coordinate or a control value with its delta.

ghost use Rattle.std.specs.Prelude.{◌≡◌, ◌^◌, ◌≤◌, ◌*◌, unsigned_abs};
ghost use Rattle.tt_deltas.specs.Units.{moved_sixty_fourths, moved_units};

use tt_axes::{sixty_fourths, whole_units};

/// A coordinate or a control value, and how far it has moved so far.
#[derive(Clone, Copy)]
pub struct Varied {
    /// In font units.
    pub at: i16,
    /// In 1/65536 of a font unit.
    pub delta: i64,
}

impl Varied {
    /// The moved coordinate in whole font units.
    pub fn units(self) -> i64
        requires { unsigned_abs self.delta ≤ 2 ^ 46 }
        ensures exact { result ≡ moved_units self }
        ensures bound { unsigned_abs result ≤ 2 ^ 31 }
    {
        i64::from(self.at) + whole_units(self.delta)
    }

    /// The moved coordinate in 1/64 of a font unit.
    pub fn sixty_fourths(self) -> i64
        requires { unsigned_abs self.delta ≤ 2 ^ 46 }
        ensures exact { result ≡ moved_sixty_fourths self }
        ensures bound { unsigned_abs result ≤ 2 ^ 37 }
    {
        64 * i64::from(self.at) + sixty_fourths(self.delta)
    }
}
