//! A count of the numbers that are read from a subtable.

ghost use Rattle.std.specs.Prelude.{◌≡◌, ◌+◌, ◌<◌, ◌^◌};

use std::marker::Model;

/// The number of reads. `Table` adds 1 for each number that it reads. Only `lookup` starts a count. Clauses see the
/// number.
#[derive(Drop)]
pub(crate) struct Reads {
    count: u32,
}

impl Model for Reads {
    ghost use Rattle.std.specs.Prelude.{ℕ};

    ghost Value = { ℕ };

    ghost view = { λ r. r.count };
}

impl Reads {
    /// A count of 0.
    pub(super) fn none() -> Reads
        ensures exact { result ≡ 0 }
    {
        Reads { count: 0 }
    }

    pub(crate) fn one_more(&mut self)
        requires { self.old + 1 < 2 ^ 32 }
        ensures exact { self.new ≡ self.old + 1 }
    {
        self.count += 1;
    }

    pub(super) fn count(&self) -> u32
        ensures exact { result ≡ self.now }
    {
        self.count
    }
}
