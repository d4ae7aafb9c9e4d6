//! A word at its place in the bytes of a row, as one number of eight bytes.

ghost use Rattle.std.specs.Prelude.{◌≡◌, ℕ, ◌+◌, ◌-◌, ◌*◌, ◌<◌, ◌≤◌, ◌&&◌, nat_lt, length, slice_index};
ghost use Rattle.std.specs.Int.{bit_at, to_le_bytes, w64};
ghost use Rattle.tt_bitmap.specs.Bands.{IsBlackened};
ghost use Rattle.tt_bitmap.specs.Words.{in_eight, in_word, turned_by};

use crate::place::WordPlace;

/// The 64 columns that a word gives to eight bytes.
#[inline(always)]
pub(crate) fn turned(word: u64, place: WordPlace) -> u64
    ensures { result ≡ turned_by place.mask place.turn word }
{
    (word & place.mask).rotate_right(place.turn)
}

/// Byte `i` of eight, the first highest.
#[inline(always)]
fn byte_of(word: u64, i: usize) -> u8
    requires { i < 8 }
    ensures { (b : ℕ) → b < 8 → bit_at result b ≡ bit_at word ((56 - 8 * i) + b) }
{
    ((word >> (56 - 8 * i)) % 256) as u8
}

/// Blackens the columns of a word in a row that has at most eight bytes, byte by byte.
#[inline(always)]
pub(crate) fn or_few(row: &mut [u8], word: u64)
    requires { length row.old ≤ 8 }
    ensures { IsBlackened (λ k. nat_lt k (8 * length row.old) && in_word word k) row.old row.new }
{
    for i in 0..row.len() {
        row[i] |= byte_of(word, i);
    }
}

/// Eight bytes of a row from `start` on as one number, the first byte the lowest.
#[inline(always)]
fn read_eight(row: &[u8], start: usize) -> u64
    requires { start + 8 ≤ length row.now }
    ensures { (i : ℕ) → i < 8 → (b : ℕ) → b < 8 → bit_at result (8 * i + b) ≡ bit_at (slice_index row.now (start + i)) b }
{
    u64::from_le_bytes(*row[start..start + 8].as_array::<8>().unwrap())
}

/// Writes a number in eight bytes, the lowest byte first. A copy of a slice would test whether both overlap.
#[inline(always)]
fn write_number(bytes: &mut [u8], number: u64)
    requires { length bytes.old ≡ 8 }
    ensures { bytes.new ≡ to_le_bytes w64 number }
{
    let Some(eight) = bytes.as_mut_array::<8>() else {
        unreachable!()
    };
    *eight = number.to_le_bytes();
}

/// Writes a number in the place of eight bytes of a row, the lowest byte first.
#[inline(always)]
fn write_eight(row: &mut [u8], start: usize, eight: u64)
    requires { start + 8 ≤ length row.old }
    ensures within { (i : ℕ) → i < 8 → (b : ℕ) → b < 8 → bit_at (slice_index row.new (start + i)) b ≡ bit_at eight (8 * i + b) }
    ensures before { (at : ℕ) → at < start → slice_index row.new at ≡ slice_index row.old at }
    ensures after { (at : ℕ) → start + 8 ≤ at → slice_index row.new at ≡ slice_index row.old at }
    ensures len { length row.new ≡ length row.old }
{
    write_number(&mut row[start..start + 8], eight);
}

/// Blackens the columns of a word in eight bytes of a row, from byte `start` on.
#[inline(always)]
pub(crate) fn or_eight(row: &mut [u8], start: usize, word: u64)
    requires { start + 8 ≤ length row.old }
    ensures { IsBlackened (in_eight start word) row.old row.new }
{
    let old = read_eight(row, start);
    write_eight(row, start, old | word.swap_bytes());
}
