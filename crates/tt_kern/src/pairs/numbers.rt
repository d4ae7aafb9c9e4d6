//! A list of at most 256 numbers of lookups.

ghost use Rattle.std.specs.Prelude.{◌≡◌, ◌∷◌, ◌++◌, [], ◌<◌, ◌≤◌, length, slice_index};
ghost use Rattle.tt_kern.specs.Pairs.{IsNext};

use std::marker::Model;

/// Numbers, in the order of a feature. Clauses see a list.
#[derive(Drop)]
pub(super) struct Numbers {
    numbers: [usize; 256],
    count: usize,
}

impl Model for Numbers {
    ghost use Rattle.std.specs.Prelude.{◌≤◌, ℕ, List, take};

    ghost Value = { List ℕ };

    ghost view = { λ n. take n.count n.numbers };

    ghost invariant = { λ n. n.count ≤ 256 };
}

impl Numbers {
    pub(super) fn new() -> Numbers
        ensures { result ≡ [] }
    {
        Numbers {
            numbers: [0; 256],
            count: 0,
        }
    }

    pub(super) fn push(&mut self, number: usize)
        requires { length self.old < 256 }
        ensures { self.new ≡ self.old ++ number ∷ [] }
    {
        self.numbers[self.count] = number;
        self.count += 1;
    }

    fn get(&self, i: usize) -> usize
        requires { i < length self.now }
        ensures { result ≡ slice_index self.now i }
    {
        let numbers = &self.numbers;
        numbers[i]
    }

    fn count(&self) -> usize
        ensures { result ≡ length self.now }
    {
        self.count
    }

    /// The least listed number from `low` on, below `high`; or `high`.
    pub(super) fn next(&self, low: usize, high: usize) -> usize
        ensures { IsNext self.now low high result }
    {
        let mut next = high;
        for i in 0..self.count() {
            let number = self.get(i);
            if low <= number && number < next {
                next = number;
            }
        }
        next
    }
}
