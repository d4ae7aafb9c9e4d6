//! The components of a composite glyph at an instance. OpenType, "gvar".

ghost use Rattle.std.specs.Prelude.{◌≡◌, ◌^◌, ◌<◌, ◌≤◌, ◌+ℤ◌, ℕ, length, unsigned_abs, All, IfOk};
ghost use Rattle.tt_core.specs.Outcomes.{FontGives, Gives};
ghost use Rattle.tt_axes.specs.Rounding.{whole_units};
ghost use Rattle.tt_deltas.specs.Along.{IsWithin};
ghost use Rattle.tt_glyf.specs.Meaning.{HasArguments};
ghost use Rattle.tt_fit_variation.specs.Records.{moved_record, moved_records};

use crate::coordinate::unit;
use std::alloc::Global;
use tt_axes::whole_units;
use tt_core::{Fault, FontFault};
use tt_deltas::Varied;
use tt_glyf::{ComponentFlags, Record};

/// An argument moved by whole font units.
fn moved_argument(v: i32, delta: i64) -> i64
    requires { unsigned_abs delta ≤ 2 ^ 46 }
    ensures exact { result ≡ v +ℤ whole_units delta }
{
    i64::from(v) + whole_units(delta)
}

/// A record at an instance. Error: CoordRange, at the record.
#[tactic(auto, unfolding(crate::specs::Records::moved_record))]
fn moved_record(part: Record, x: Varied, y: Varied) -> Result<Record, Fault>
    requires x { IsWithin (2 ^ 46) x }
    requires y { IsWithin (2 ^ 46) y }
    requires arguments { HasArguments part }
    ensures exact { Gives (λ r. r) result (moved_record part x y) }
    ensures arguments { IfOk result HasArguments }
    ensures glyph { IfOk result (λ r. r.glyph ≡ part.glyph) }
{
    if !part.has(ComponentFlags::ARGS_ARE_XY_VALUES) {
        return Ok(part);
    }
    let arg1 = unit(part.at, moved_argument(part.arg1, x.delta))?;
    let arg2 = unit(part.at, moved_argument(part.arg2, y.delta))?;
    Ok(Record {
        arg1: i32::from(arg1),
        arg2: i32::from(arg2),
        ..part
    })
}

/// The records of a composite glyph at an instance. Deltas follow for phantom points. Errors: CoordRange, Memory.
pub fn moved_records(
    alloc: Global,
    records: &[Record],
    xs: &[Varied],
    ys: &[Varied],
) -> Result<Vec<Record>, FontFault>
    requires xs { length records.now ≤ length xs.now }
    requires ys { length records.now ≤ length ys.now }
    requires x_near { All (IsWithin (2 ^ 46)) xs.now }
    requires y_near { All (IsWithin (2 ^ 46)) ys.now }
    requires arguments { All HasArguments records.now }
    ensures exact { FontGives (λ v. v.items) result (moved_records records.now xs.now ys.now) }
    ensures arguments { IfOk result (λ v. All HasArguments v.items) }
    ensures known { (glyphs : ℕ) → All (λ r. r.glyph < glyphs) records.now → IfOk result (λ v. All (λ r. r.glyph < glyphs) v.items) }
{
    let mut moved = Vec::with_capacity(alloc, records.len())?;
    for i in 0..records.len() {
        moved.push(moved_record(records[i], xs[i], ys[i])?)?;
    }
    Ok(moved)
}
