//! A count of the numbers that are read from GPOS and kern.

ghost use Rattle.std.specs.Prelude.{◌≡◌, ◌+◌, ◌<◌, ◌^◌};

use std::marker::Model;

/// The number of reads. `Words` adds 1 for each number that it reads. Only `kerning` starts a count. Clauses see the
/// number.
#[derive(Drop)]
pub(crate) struct Tally {
    count: u32,
}

impl Model for Tally {
    ghost use Rattle.std.specs.Prelude.{ℕ};

    ghost Value = { ℕ };

    ghost view = { λ r. r.count };
}

impl Tally {
    /// A count of 0.
    pub(super) fn none() -> Tally
        ensures exact { result ≡ 0 }
    {
        Tally { count: 0 }
    }

    pub(crate) fn one_more(&mut self)
        requires { self.old + 1 < 2 ^ 32 }
        ensures exact { self.new ≡ self.old + 1 }
    {
        self.count += 1;
    }

    pub(super) fn count(&self) -> u32
        ensures exact { result ≡ self.now }
    {
        self.count
    }
}
