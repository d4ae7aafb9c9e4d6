//! Where those columns of a word go that a row of bytes has.

ghost use Rattle.std.specs.Prelude.{◌≡◌, ℕ, true, pos, ◌+ℤ◌, ◌≤ℤ◌, ◌+◌, ◌*◌, ◌^◌, ◌<◌, ◌≤◌, ◌&&◌, min, nat_lt, unsigned_abs};
ghost use Rattle.tt_bitmap.specs.Words.{in_strip, is_whole, stamped};

use crate::place::WordPlace;
use crate::run::ones;
use crate::shared::distance;

/// The column of a row where column `from` of a word is, if the word begins at column `at`.
#[inline(always)]
fn column_of(at: i64, from: u32) -> usize
    requires at { unsigned_abs at < 2 ^ 41 }
    requires low { pos 0 ≤ℤ (at +ℤ pos from) }
    ensures exact { pos result ≡ at +ℤ pos from }
    ensures small { result < 2 ^ 42 }
{
    (at + i64::from(from)) as usize
}

/// The place of a word in a row of `width` pixels and `bytes` bytes that has all of the word's `columns` columns. The word
/// begins at column `at`.
#[inline(always)]
pub(crate) fn whole_place(at: i64, columns: u32, width: u32, bytes: usize) -> WordPlace
    requires at { unsigned_abs at < 2 ^ 41 }
    requires whole { is_whole at columns width bytes ≡ true }
    requires few { columns ≤ 56 }
    requires width { width ≤ 8 * bytes }
    ensures shown { (word k : ℕ) → word < 2 ^ 64 → stamped result word k ≡ (nat_lt k width && in_strip at columns word k) }
    ensures fits { result.start + min 8 bytes ≤ bytes }
{
    let first = column_of(at, 0);
    // Near the row's end the last eight bytes hold the word.
    let start = bytes.saturating_sub(8).min(first / 8);
    WordPlace {
        start,
        mask: ones(0, columns),
        turn: ((first - 8 * start) % 64) as u32,
    }
}

/// The place of a word's first `room` columns in a row of `width` pixels and `bytes` bytes. The word begins at column
/// `at`. The mask is 0 where the row has none of these columns.
#[inline(always)]
pub(crate) fn place_of(at: i64, room: u32, width: u32, bytes: usize) -> WordPlace
    requires at { unsigned_abs at < 2 ^ 41 }
    requires room { room ≤ 56 }
    requires width { width ≤ 8 * bytes }
    requires bytes { bytes < 2 ^ 32 }
    ensures shown { (word k : ℕ) → word < 2 ^ 64 → stamped result word k ≡ (nat_lt k width && in_strip at room word k) }
    ensures fits { result.start + min 8 bytes ≤ bytes }
{
    let to = distance(at, i64::from(width), room);
    let from = distance(at, 0, room);
    if to <= from {
        return WordPlace {
            start: 0,
            mask: 0,
            turn: 0,
        };
    }
    let first = column_of(at, from);
    // Near the row's end the last eight bytes hold the word.
    let start = (first / 8).min(bytes.saturating_sub(8));
    WordPlace {
        start,
        mask: ones(from, to),
        turn: (64 + (first - 8 * start) as u32 - from) % 64,
    }
}
