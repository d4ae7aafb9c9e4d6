//! Packed point numbers. OpenType, "OpenType Font Variations Common Table Formats".

ghost use Rattle.std.specs.Prelude.{◌≡◌, ◌+◌, ◌<◌, ◌≤◌, ◌^◌, IsTrue, length, vec_len, vec_capacity, [], IfOk, OnOk, if◌then◌else◌};
ghost use Rattle.tt_core.specs.Outcomes.{Gives};
ghost use Rattle.tt_tuples.specs.PointNumbers.{number_run_at, number_run, difference_in, number_in, next_number, numbers_at, count_at, listed, points_at};
ghost use Rattle.tt_tuples.specs.PointNumbers.{TuplePoints as points};
ghost use Rattle.tt_tuples.specs.Sources.{AreNumbers, delta_count};
ghost use Rattle.tt_tuples.specs.Tuples.{tuple_points};
ghost use Rattle.tt_tuples.specs.Views.{count_of, store_of, named_points, number_of, number_run_of, points_of, read_into, source_of};

use crate::source::TupleSource;
use crate::tuple_store::TupleStore;
use std::alloc::{AllocError, Global};
use tt_core::Fault;

/// A run of differences between point numbers.
#[derive(Clone, Copy)]
struct NumberRun {
    /// The place of the next difference.
    at: usize,
    /// How many differences remain.
    left: usize,
    /// Whether each has two bytes.
    words: bool,
}

/// A point's number, and the run after it.
#[derive(Clone, Copy)]
struct Number {
    number: u16,
    run: NumberRun,
}

impl NumberRun {
    /// The run that begins at a place.
    #[tactic(auto, unfolding(crate::specs::PointNumbers::number_run_at))]
    fn begin(store: &TupleStore, at: usize) -> Result<NumberRun, Fault>
        ensures exact { Gives number_run_of result (number_run_at (store_of store.now) at) }
        ensures some { IfOk result (λ r. 0 < r.left) }
        ensures room { IfOk result (λ r. r.at ≤ length store.now.bytes.now) }
    {
        let control = store.byte(at)?;
        Ok(NumberRun {
            at: at + 1,
            left: usize::from(control % 128) + 1,
            words: control >= 128,
        })
    }

    /// This run, or the one after it if it has ended.
    #[inline(always)]
    fn going_on(self, store: &TupleStore) -> Result<NumberRun, Fault>
        requires place { self.at ≤ length store.now.bytes.now }
        ensures exact { Gives number_run_of result (number_run (store_of store.now) (number_run_of self)) }
        ensures some { IfOk result (λ r. 0 < r.left) }
        ensures room { IfOk result (λ r. r.at ≤ length store.now.bytes.now) }
    {
        if self.left == 0 {
            NumberRun::begin(store, self.at)
        } else {
            Ok(self)
        }
    }

    /// The bytes of a difference.
    #[inline(always)]
    fn size(self) -> usize
        ensures { result ≡ (if self.words then 2 else 1) }
    {
        if self.words { 2 } else { 1 }
    }

    /// The next difference.
    #[inline(always)]
    fn difference(self, store: &TupleStore) -> Result<u16, Fault>
        ensures exact { Gives (λ n. n) result (difference_in (store_of store.now) (number_run_of self)) }
        ensures room { IfOk result (λ n. self.at + (if self.words then 2 else 1) ≤ length store.now.bytes.now) }
    {
        if self.words {
            store.word(self.at)
        } else {
            Ok(u16::from(store.byte(self.at)?))
        }
    }

    /// The next number, above the one before it.
    #[inline(always)]
    fn number(self, store: &TupleStore, before: Option<u16>) -> Result<u16, Fault>
        ensures exact { Gives (λ n. n) result (number_in (store_of store.now) (number_run_of self) before) }
        ensures room { IfOk result (λ n. self.at + (if self.words then 2 else 1) ≤ length store.now.bytes.now) }
    {
        let by = self.difference(store)?;
        match before {
            None => Ok(by),
            Some(before) => match before.checked_add(by) {
                Some(number) if number > before => Ok(number),
                _ => Err(store.broken(self.at)),
            },
        }
    }

    /// The next number, and the run after it.
    #[inline(always)]
    #[tactic(auto, unfolding(crate::specs::PointNumbers::next_number))]
    fn next(self, store: &TupleStore, before: Option<u16>) -> Result<Number, Fault>
        requires place { self.at ≤ length store.now.bytes.now }
        ensures exact { Gives number_of result (next_number (store_of store.now) (number_run_of self) before) }
        ensures room { IfOk result (λ n. n.run.at ≤ length store.now.bytes.now) }
    {
        let run = self.going_on(store)?;
        let number = run.number(store, before)?;
        let run = NumberRun {
            at: run.at + run.size(),
            left: run.left - 1,
            words: run.words,
        };
        Ok(Number { number, run })
    }
}

/// Reads `count` numbers from a place into a list. Returns the place after them.
#[tactic(auto, using(crate::proofs::NumberRuns::turn, crate::proofs::NumberRuns::breaks, crate::proofs::NumberRuns::done))]
fn read_numbers(
    store: &TupleStore,
    at: usize,
    count: usize,
    numbers: &mut Vec<u16>,
) -> Result<usize, Fault>
    requires place { at ≤ length store.now.bytes.now }
    requires room { count ≤ vec_capacity numbers.old }
    ensures exact { Gives (read_into numbers.new.items) result (numbers_at (store_of store.now) at count) }
    ensures count { OnOk result (vec_len numbers.new ≡ count) }
    ensures next { IfOk result (λ next. next ≤ length store.now.bytes.now) }
    ensures capacity { vec_capacity numbers.new ≡ vec_capacity numbers.old }
{
    numbers.clear();
    let mut run = NumberRun {
        at,
        left: 0,
        words: false,
    };
    let mut before = None;
    for _ in 0..count {
        let number = run.next(store, before)?;
        numbers.push_reserved(number.number);
        before = Some(number.number);
        run = number.run;
    }
    Ok(run.at)
}

/// How many points are listed, and the place after that number.
#[derive(Clone, Copy)]
struct Count {
    count: usize,
    next: usize,
}

/// The number of listed points at a place.
#[tactic(auto, unfolding(crate::specs::PointNumbers::count_at))]
fn count_at(store: &TupleStore, at: usize) -> Result<Count, Fault>
    ensures exact { Gives count_of result (count_at (store_of store.now) at) }
    ensures room { IfOk result (λ c. c.next ≤ length store.now.bytes.now) }
    ensures first { IfOk result (λ c. at < length store.now.bytes.now) }
{
    let first = store.byte(at)?;
    if first < 128 {
        return Ok(Count {
            count: usize::from(first),
            next: at + 1,
        });
    }
    let low = store.byte(at + 1)?;
    Ok(Count {
        count: 256 * usize::from(first - 128) + usize::from(low),
        next: at + 2,
    })
}

/// The points that a tuple names. Their numbers rise, and may be above those of the glyph.
#[derive(Clone, Copy)]
pub enum TuplePoints<'a> {
    All,
    Listed(&'a [u16]),
}

impl<'a> TuplePoints<'a> {
    /// How many points are named, where there are `points`.
    pub fn count(self, points: usize) -> usize
        ensures { result ≡ delta_count (named_points self.entry) points }
    {
        match self {
            TuplePoints::All => points,
            TuplePoints::Listed(numbers) => numbers.len(),
        }
    }
}

/// The points that a tuple names, in memory that serves again.
#[derive(Drop)]
pub(crate) struct NumberList {
    /// Whether all points are named. The list then means nothing.
    pub(crate) all: bool,
    pub(crate) numbers: Vec<u16>,
}

impl NumberList {
    /// A list of no points, with room for so many.
    pub(crate) fn new(alloc: Global, points: usize) -> Result<NumberList, AllocError>
        ensures none { IfOk result (λ l. points_of l ≡ listed []) }
        ensures room { IfOk result (λ l. points ≤ vec_capacity l.numbers) }
    {
        Ok(NumberList {
            all: false,
            numbers: Vec::with_capacity(alloc, points)?,
        })
    }

    pub(crate) fn points(&self) -> TuplePoints<'_>
        ensures { named_points result ≡ points_of self.now }
    {
        if self.all {
            TuplePoints::All
        } else {
            TuplePoints::Listed(&self.numbers)
        }
    }

    /// Reads the point numbers at a place. Returns the place after them.
    #[tactic(auto, unfolding(crate::specs::PointNumbers::points_at, crate::specs::PointNumbers::listed_at))]
    pub(crate) fn read(
        &mut self,
        store: &TupleStore,
        at: usize,
        points: usize,
    ) -> Result<usize, Fault>
        requires room { points ≤ vec_capacity self.old.numbers }
        ensures exact { Gives (read_into (points_of self.new)) result (points_at (store_of store.now) at points) }
        ensures numbers { OnOk result (AreNumbers points (points_of self.new)) }
        ensures next { IfOk result (λ next. next ≤ length store.now.bytes.now) }
        ensures capacity { vec_capacity self.new.numbers ≡ vec_capacity self.old.numbers }
    {
        self.all = store.byte(at)? == 0;
        if self.all {
            return Ok(at + 1);
        }
        let count = count_at(store, at)?;
        if count.count > points {
            return Err(store.broken(at));
        }
        read_numbers(store, count.next, count.count, &mut self.numbers)
    }

    /// Reads the point numbers at the place of a tuple's data, if the tuple has its own. Returns the place of the deltas.
    pub(crate) fn read_own(
        &mut self,
        source: &TupleSource,
        own: bool,
        at: usize,
    ) -> Result<usize, Fault>
        requires room { source.now.points ≤ vec_capacity self.old.numbers }
        requires place { at < 2 ^ 32 }
        ensures exact { (shared : points) → Gives (read_into (if own then points_of self.new else shared)) result
            (tuple_points (source_of source.now) shared own at) }
        ensures numbers { OnOk result (IsTrue own → AreNumbers source.now.points (points_of self.new)) }
        ensures next { IfOk result (λ next. next < 2 ^ 32) }
        ensures capacity { vec_capacity self.new.numbers ≡ vec_capacity self.old.numbers }
    {
        if own {
            self.read(&source.store, at, source.points)
        } else {
            Ok(at)
        }
    }
}
