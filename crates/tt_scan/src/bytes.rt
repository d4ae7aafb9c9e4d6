//! The columns of a row of bytes, eight a byte, the leftmost in the highest bit.

ghost use Rattle.std.specs.Prelude.{◌≡◌, ℕ, ◌+◌, ◌-◌, ◌*◌, ◌<◌, ◌≤◌, ◌&&◌, ◌||◌, ◌==◌, nat_le, nat_lt, length};
ghost use Rattle.std.specs.Int.{bit_at};
ghost use Rattle.tt_core.specs.Bits.{bit};
ghost use Rattle.tt_scan.specs.Blackened.{IsBlackened};

/// A byte whose columns from `from` up to `to` are black.
fn mask(from: usize, to: usize) -> u8
    requires order { from ≤ to }
    requires fits { to ≤ 8 }
    ensures { (j : ℕ) → j < 8 → (bit_at result (7 - j) == 1) ≡ (nat_le from j && nat_lt j to) }
{
    ((0xFFu32 >> from) - (0xFFu32 >> to)) as u8
}

/// Blackens the columns of one byte from `from` up to `to`.
fn fill_byte(row: &mut [u8], byte: usize, from: usize, to: usize)
    requires within { byte < length row.old }
    requires order { from ≤ to }
    requires fits { to ≤ 8 }
    ensures { IsBlackened (λ k. nat_le (8 * byte + from) k && nat_lt k (8 * byte + to)) row.old row.new }
{
    row[byte] |= mask(from, to);
}

/// Blackens whole bytes.
fn fill_bytes(row: &mut [u8], from: usize, to: usize)
    requires order { from ≤ to }
    requires within { to ≤ length row.old }
    ensures { IsBlackened (λ k. nat_le (8 * from) k && nat_lt k (8 * to)) row.old row.new }
{
    for byte in from..to {
        row[byte] = 0xFF;
    }
}

/// Blackens the columns from `from` up to `to`.
pub(crate) fn fill(row: &mut [u8], from: usize, to: usize)
    requires order { from < to }
    requires within { to ≤ 8 * length row.old }
    ensures { IsBlackened (λ k. nat_le from k && nat_lt k to) row.old row.new }
{
    let first = from / 8;
    let last = to / 8;
    if first == last {
        fill_byte(row, first, from % 8, to % 8);
    } else {
        fill_byte(row, first, from % 8, 8);
        fill_bytes(row, first + 1, last);
        if to % 8 > 0 {
            fill_byte(row, last, 0, to % 8);
        }
    }
}

/// Blackens one column of a row of bytes, the leftmost column in the highest bit of the first byte.
pub fn blacken(row: &mut [u8], column: usize)
    requires { column < 8 * length row.old }
    ensures bits { (k : ℕ) → bit row.new k ≡ (bit row.old k || (k == column)) }
    ensures len { length row.new ≡ length row.old }
{
    fill_byte(row, column / 8, column % 8, column % 8 + 1);
}
