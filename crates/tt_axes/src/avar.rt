//! The mapping of coordinates. OpenType, "avar: Axis Variations Table".

ghost use Rattle.std.specs.Prelude.{◌≡◌, ◌+◌, ◌^◌, ◌<◌, ◌≤◌, ◌+ℤ◌, ◌-ℤ◌, true, length, nat_le, IfSome, unsigned_abs};
ghost use Rattle.tt_core.specs.Limits.{font_limit};
ghost use Rattle.tt_axes.specs.Avar.{all_mapped, avar_axes, avar_of, between_pairs, f2dot14, from_of, is_avar, kept, list_end, list_place, mapped, pair_count, to_of};

use crate::coordinates::InstanceCoordinates;
use crate::rounding::product_quotient;
use crate::words::{long, word};
use std::marker::Model;
use tt_core::{Dir, i16_at};

/// A pair of a list, in 1/65536.
#[derive(Clone, Copy)]
struct MapPair {
    from: i32,
    to: i32,
    ghost from_near: { unsigned_abs from ≤ 131072 },
    ghost to_near: { unsigned_abs to ≤ 131072 },
}

/// A table avar whose lists fit. Clauses see its bytes.
#[derive(Drop)]
pub struct Avar<'a> {
    table: &'a [u8],
}

impl<'a> Model for Avar<'a> {
    ghost use Rattle.std.specs.Prelude.{ℕ, ◌≤◌, List, length};
    ghost use Rattle.tt_axes.specs.Avar.{avar_axes, list_place};
    ghost use Rattle.tt_core.specs.Limits.{font_limit};

    ghost Value = { List ℕ };

    ghost view = { λ a. a.table.now };

    ghost invariant = { λ a. (list_place a.table.now (avar_axes a.table.now) ≤ length a.table.now) × (length a.table.now ≤ font_limit) };
}

/// The offset of the end of a list.
fn list_end(table: &[u8], at: usize) -> usize
    requires room { at + 2 ≤ length table.now }
    requires size { length table.now ≤ font_limit }
    ensures exact { result ≡ list_end table.now at }
    ensures near { result ≤ at + 262142 }
{
    at + 2 + 4 * usize::from(word(table, at))
}

/// Whether the lists of so many axes fit.
fn lists_fit(table: &[u8], axes: usize) -> bool
    requires { length table.now ≤ font_limit }
    ensures { result ≡ nat_le (list_place table.now axes) (length table.now) }
{
    let mut at = 8;
    for _i in 0..axes {
        if table.len() < at + 2 {
            return false;
        }
        at = list_end(table, at);
    }
    at <= table.len()
}

/// Whether a table avar is one of a font with so many axes.
#[tactic(auto, unfolding(crate::specs::Avar::is_avar))]
fn is_avar(table: &[u8], axes: usize) -> bool
    requires { length table.now ≤ font_limit }
    ensures exact { result ≡ is_avar axes table.now }
    ensures axes { result ≡ true → avar_axes table.now ≡ axes }
    ensures fits { result ≡ true → list_place table.now axes ≤ length table.now }
{
    if table.len() < 8 {
        return false;
    }
    long(table, 0) == 0x0001_0000 && usize::from(word(table, 6)) == axes && lists_fit(table, axes)
}

/// A number of 2.14, in 1/65536.
fn f2dot14(table: &[u8], at: usize) -> i32
    requires { at + 2 ≤ length table.now }
    ensures exact { result ≡ f2dot14 table.now at }
    ensures within { unsigned_abs result ≤ 131072 }
{
    4 * i32::from(i16_at(table, at).unwrap())
}

/// From -1 to 1.
fn kept(value: i64) -> i32
    ensures exact { result ≡ kept value }
    ensures within { unsigned_abs result ≤ 65536 }
{
    value.min(65536).max(-65536) as i32
}

fn difference(a: i32, b: i32) -> i64
    ensures exact { result ≡ a -ℤ b }
    ensures bound { unsigned_abs result ≤ unsigned_abs a + unsigned_abs b }
{
    i64::from(a) - i64::from(b)
}

fn sum(a: i64, b: i32) -> i64
    requires { unsigned_abs a < 2 ^ 61 }
    ensures { result ≡ a +ℤ b }
{
    a + i64::from(b)
}

/// A coordinate between two pairs.
fn between(coordinate: i32, low: MapPair, high: MapPair) -> i64
    requires { unsigned_abs coordinate ≤ 65536 }
    ensures { result ≡ between_pairs coordinate low.from high.from low.to high.to }
{
    if high.from == low.from {
        return i64::from(low.to);
    }
    let part = difference(coordinate, low.from);
    let rise = difference(high.to, low.to);
    let whole = difference(high.from, low.from);
    sum(product_quotient(part, rise, whole), low.to)
}

impl<'a> Avar<'a> {
    /// The table of a font with so many axes. None where it has another version or another count of axes, or where its
    /// lists do not fit.
    #[tactic(auto, unfolding(crate::specs::Avar::avar_of))]
    pub fn open(dir: &Dir<'a>, axes: usize) -> Option<Avar<'a>>
        ensures exact { result ≡ avar_of dir.now axes }
        ensures axes { IfSome result (λ a. avar_axes a ≡ axes) }
    {
        match dir.table(*b"avar") {
            Ok(Some(table)) => {
                if is_avar(table, axes) {
                    Some(Avar { table })
                } else {
                    None
                }
            }
            _ => None,
        }
    }

    /// Pair j of the list at an offset.
    fn pair(&self, at: usize, j: usize) -> MapPair
        requires fits { list_end self.now at ≤ length self.now }
        requires there { j < pair_count self.now at }
        ensures from { result.from ≡ from_of self.now at j }
        ensures to { result.to ≡ to_of self.now at j }
    {
        MapPair {
            from: f2dot14(self.table, at + 2 + 4 * j),
            to: f2dot14(self.table, at + 4 + 4 * j),
        }
    }

    /// A coordinate by the list at an offset.
    #[tactic(auto, unfolding(crate::specs::Avar::mapped), using(tt_core::specs::Search::first_from_next, tt_core::specs::Search::first_from_here))]
    fn mapped_at(&self, at: usize, coordinate: i32) -> i32
        requires fits { list_end self.now at ≤ length self.now }
        requires within { unsigned_abs coordinate ≤ 65536 }
        ensures exact { result ≡ mapped self.now at coordinate }
        ensures within { unsigned_abs result ≤ 65536 }
    {
        let count = usize::from(word(self.table, at));
        for j in 1..count {
            let high = self.pair(at, j);
            if coordinate < high.from {
                return kept(between(coordinate, self.pair(at, j - 1), high));
            }
        }
        coordinate
    }

    /// The coordinates of all axes, each by its axis' list.
    #[tactic(auto, unfolding(crate::specs::Avar::all_mapped))]
    pub fn mapped(&self, coordinates: &InstanceCoordinates) -> InstanceCoordinates
        requires { length coordinates.now ≤ avar_axes self.now }
        ensures { result ≡ all_mapped self.now coordinates.now }
    {
        let mut all = InstanceCoordinates::new();
        let mut at = 8;
        for i in 0..coordinates.count() {
            all.push(self.mapped_at(at, coordinates.at(i)));
            at = list_end(self.table, at);
        }
        all
    }
}
