//! The rows that a bitmap and a band have in common.

ghost use Rattle.std.specs.Prelude.{◌≡◌, ℕ, ◌+◌, ◌-◌, ◌^◌, ◌<◌, ◌≤◌, ◌&&◌, ◌+ℤ◌, ◌-ℤ◌, ◌<ℤ◌, ◌≤ℤ◌, nat_le, nat_lt, pos, unsigned_abs};
ghost use Rattle.tt_bitmap.specs.Bitmaps.{is_line};

/// `count` rows: row `first` of a band and row `own` of a bitmap, and those below them.
#[derive(Clone, Copy)]
pub(crate) struct SharedRows {
    pub(crate) first: u32,
    pub(crate) own: u32,
    pub(crate) count: u32,
}

/// How far `to` is above `from`: 0 where `to` is below, and at most `most`.
#[inline(always)]
pub(crate) fn distance(from: i64, to: i64, most: u32) -> u32
    requires from { unsigned_abs from < 2 ^ 41 }
    requires to { unsigned_abs to < 2 ^ 41 }
    ensures most { result ≤ most }
    ensures before { (i : ℕ) → i < result → (from +ℤ pos i) <ℤ to }
    ensures past { (i : ℕ) → result ≤ i → i < most → to ≤ℤ (from +ℤ pos i) }
{
    (to - from).clamp(0, i64::from(most)) as u32
}

/// The rows that a bitmap of `height` lines from `top` down and a band of `rows` lines from `line` down have in common.
#[inline(always)]
pub(crate) fn rows_shared(top: i64, height: u32, line: i64, rows: u32) -> SharedRows
    requires top { unsigned_abs top < 2 ^ 40 }
    requires line { unsigned_abs line < 2 ^ 40 }
    ensures within { result.first + result.count ≤ rows }
    ensures own { result.own + result.count ≤ height }
    ensures lies { (i : ℕ) → i < rows → (nat_le result.first i && nat_lt i (result.first + result.count))
        ≡ is_line top height (line -ℤ pos i) }
    ensures row { (i : ℕ) → result.first ≤ i → i < result.first + result.count
        → unsigned_abs (top -ℤ (line -ℤ pos i)) ≡ result.own + (i - result.first) }
{
    let first = distance(top, line, rows);
    let own = distance(line, top, height);
    SharedRows {
        first,
        own,
        count: (rows - first).min(height - own),
    }
}
