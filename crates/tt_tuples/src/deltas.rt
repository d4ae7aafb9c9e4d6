//! Packed deltas. OpenType, "OpenType Font Variations Common Table Formats".

ghost use Rattle.std.specs.Prelude.{◌≡◌, ◌+◌, ◌<◌, ◌≤◌, ◌^◌, vec_len, vec_capacity, IfOk, OnOk};
ghost use Rattle.tt_core.specs.Outcomes.{Gives};
ghost use Rattle.tt_tuples.specs.Bytes.{signed8};
ghost use Rattle.tt_tuples.specs.Deltas.{size_in, delta_run_at, delta_run, sized_delta, bytes_of, delta_passed, next_delta, deltas_at};
ghost use Rattle.tt_tuples.specs.Views.{store_of, delta_of, delta_run_of, read_into};

use crate::tuple_store::TupleStore;
use tt_core::Fault;

/// A byte read as a signed number.
#[inline(always)]
fn signed(byte: u8) -> i16
    ensures { result ≡ signed8 byte }
{
    if byte < 128 {
        i16::from(byte)
    } else {
        i16::from(byte) - 256
    }
}

/// How the deltas of a run are stored.
#[derive(Clone, Copy)]
enum DeltaSize {
    Zeros,
    Bytes,
    Words,
}

impl DeltaSize {
    /// The size in a run's first byte.
    #[inline(always)]
    fn of(control: u8) -> DeltaSize
        ensures { result ≡ size_in control }
    {
        if control >= 128 {
            DeltaSize::Zeros
        } else if control >= 64 {
            DeltaSize::Words
        } else {
            DeltaSize::Bytes
        }
    }

    /// The bytes of a delta.
    #[inline(always)]
    fn bytes(self) -> usize
        ensures { result ≡ bytes_of self }
    {
        match self {
            DeltaSize::Zeros => 0,
            DeltaSize::Bytes => 1,
            DeltaSize::Words => 2,
        }
    }

    /// The delta at a place.
    #[inline(always)]
    fn delta(self, store: &TupleStore, at: usize) -> Result<i16, Fault>
        requires place { at < 2 ^ 32 }
        ensures exact { Gives (λ d. d) result (sized_delta self (store_of store.now) at) }
        ensures room { IfOk result (λ d. at + bytes_of self < 2 ^ 32) }
    {
        match self {
            DeltaSize::Zeros => Ok(0),
            DeltaSize::Bytes => Ok(signed(store.byte(at)?)),
            DeltaSize::Words => store.signed(at),
        }
    }
}

/// A run of deltas.
#[derive(Clone, Copy)]
struct DeltaRun {
    /// The place of the next delta.
    at: usize,
    /// How many deltas remain.
    left: usize,
    size: DeltaSize,
}

/// A delta, and the run after it.
#[derive(Clone, Copy)]
struct PackedDelta {
    delta: i16,
    run: DeltaRun,
}

impl DeltaRun {
    /// The run that begins at a place, where `count` deltas are still to be read.
    #[tactic(auto, unfolding(crate::specs::Deltas::delta_run_at))]
    fn begin(store: &TupleStore, at: usize, count: usize) -> Result<DeltaRun, Fault>
        ensures exact { Gives delta_run_of result (delta_run_at (store_of store.now) at count) }
        ensures some { IfOk result (λ r. 0 < r.left) }
        ensures room { IfOk result (λ r. r.at < 2 ^ 32) }
    {
        let control = store.byte(at)?;
        let left = usize::from(control % 64) + 1;
        if left > count {
            return Err(store.broken(at));
        }
        Ok(DeltaRun {
            at: at + 1,
            left,
            size: DeltaSize::of(control),
        })
    }

    /// This run, or the one after it if it has ended.
    #[inline(always)]
    fn going_on(self, store: &TupleStore, count: usize) -> Result<DeltaRun, Fault>
        requires place { self.at < 2 ^ 32 }
        ensures exact { Gives delta_run_of result (delta_run (store_of store.now) (delta_run_of self) count) }
        ensures some { IfOk result (λ r. 0 < r.left) }
        ensures room { IfOk result (λ r. r.at < 2 ^ 32) }
    {
        if self.left == 0 {
            DeltaRun::begin(store, self.at, count)
        } else {
            Ok(self)
        }
    }

    /// The next delta, where `count` deltas are still to be read.
    #[inline(always)]
    #[tactic(auto, unfolding(crate::specs::Deltas::next_delta))]
    fn next(self, store: &TupleStore, count: usize) -> Result<PackedDelta, Fault>
        requires place { self.at < 2 ^ 32 }
        ensures exact { Gives delta_of result (next_delta (store_of store.now) (delta_run_of self) count) }
        ensures room { IfOk result (λ d. d.run.at < 2 ^ 32) }
    {
        let run = self.going_on(store, count)?;
        let delta = run.size.delta(store, run.at)?;
        let run = DeltaRun {
            at: run.at + run.size.bytes(),
            left: run.left - 1,
            size: run.size,
        };
        Ok(PackedDelta { delta, run })
    }
}

/// Reads the `count` deltas from a place into a list. Returns the place after them.
#[tactic(auto, using(crate::proofs::DeltaRuns::turn, crate::proofs::DeltaRuns::breaks, crate::proofs::DeltaRuns::done))]
pub(crate) fn read_deltas(
    store: &TupleStore,
    at: usize,
    count: usize,
    deltas: &mut Vec<i16>,
) -> Result<usize, Fault>
    requires place { at < 2 ^ 32 }
    requires room { count ≤ vec_capacity deltas.old }
    ensures exact { Gives (read_into deltas.new.items) result (deltas_at (store_of store.now) at count) }
    ensures count { OnOk result (vec_len deltas.new ≡ count) }
    ensures next { IfOk result (λ next. next < 2 ^ 32) }
    ensures capacity { vec_capacity deltas.new ≡ vec_capacity deltas.old }
{
    deltas.clear();
    let mut run = DeltaRun {
        at,
        left: 0,
        size: DeltaSize::Zeros,
    };
    for i in 0..count {
        let delta = run.next(store, count - i)?;
        deltas.push_reserved(delta.delta);
        run = delta.run;
    }
    Ok(run.at)
}
