//! The black columns of a narrow row as one word.

ghost use Rattle.std.specs.Prelude.{◌≡◌, ℕ, ◌-◌, ◌^◌, ◌<◌, ◌≤◌, unsigned_abs};
ghost use Rattle.std.specs.Int.{bit_at};

/// `columns` columns from `low` on, at most 57: a bit for each, from the highest bit on. The other bits are 0.
#[derive(Clone, Copy)]
pub struct Stamp {
    pub low: i64,
    pub columns: u32,
    pub word: u64,
    pub ghost near: { unsigned_abs low ≤ 2 ^ 40 },
    pub ghost narrow: { columns ≤ 57 },
    pub ghost free: { (i : ℕ) → i < 64 - columns → bit_at word i ≡ 0 },
}
