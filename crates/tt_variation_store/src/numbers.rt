//! The numbers of a table. A number that isn't whole within its table is 0 (profile).

ghost use Rattle.std.specs.Prelude.{◌≡◌, ◌*◌, ◌^◌, ◌<◌, ◌≤◌, unsigned_abs};
ghost use Rattle.tt_core.specs.Numbers.{number_at};
ghost use Rattle.tt_variation_store.specs.Numbers.{number, word, long, twos_complement, signed, kept_int16, kept_uint16};

use tt_core::{u16_at, u24_at, u32_at};

fn byte_at(table: &[u8], at: usize) -> Option<u8>
    ensures { result ≡ number_at table.now at 1 }
{
    table.get(at).copied()
}

/// The number in the bytes at an offset, by their count.
#[tactic(auto, unfolding(crate::specs::Numbers::number))]
pub(crate) fn number(table: &[u8], at: usize, size: usize) -> usize
    requires some { 0 < size }
    requires most { size ≤ 4 }
    ensures exact { result ≡ number table.now at size }
    ensures bound { result < 256 ^ size }
{
    let number = match size {
        1 => byte_at(table, at).map(u32::from),
        2 => u16_at(table, at).map(u32::from),
        3 => u24_at(table, at),
        _ => u32_at(table, at),
    };
    match number {
        Some(number) => number as usize,
        None => 0,
    }
}

/// The uint16 at an offset.
pub(crate) fn word(table: &[u8], at: usize) -> usize
    ensures exact { result ≡ word table.now at }
    ensures bound { result < 65536 }
{
    number(table, at, 2)
}

/// The uint32 at an offset.
pub(crate) fn long(table: &[u8], at: usize) -> usize
    ensures exact { result ≡ long table.now at }
    ensures bound { result < 2 ^ 32 }
{
    number(table, at, 4)
}

/// The count of numbers that a number of bytes holds.
fn span(size: usize) -> usize
    requires some { 0 < size }
    requires most { size ≤ 4 }
    ensures exact { result ≡ 256 ^ size }
    ensures bound { result ≤ 2 ^ 32 }
{
    match size {
        1 => 1 << 8,
        2 => 1 << 16,
        3 => 1 << 24,
        _ => 1 << 32,
    }
}

/// The number read as two's complement.
fn twos_complement(number: usize, span: usize) -> i64
    requires number { number < span }
    requires span { span ≤ 2 ^ 32 }
    ensures exact { result ≡ twos_complement span number }
    ensures bound { unsigned_abs result ≤ 2 ^ 31 }
{
    if 2 * number < span {
        number as i64
    } else {
        number as i64 - span as i64
    }
}

/// The signed number in the bytes at an offset, by their count.
pub(crate) fn signed(table: &[u8], at: usize, size: usize) -> i64
    requires some { 0 < size }
    requires most { size ≤ 4 }
    ensures exact { result ≡ signed table.now at size }
    ensures bound { unsigned_abs result ≤ 2 ^ 31 }
{
    twos_complement(number(table, at, size), span(size))
}

/// The int16 at an offset.
pub(crate) fn signed_word(table: &[u8], at: usize) -> i32
    ensures exact { result ≡ signed table.now at 2 }
    ensures bound { unsigned_abs result ≤ 32768 }
{
    let number = word(table, at) as i32;
    if number < 32768 {
        number
    } else {
        number - 65536
    }
}

/// The product of two numbers of a table.
pub(crate) fn product(a: usize, b: usize) -> usize
    requires first { a < 2 ^ 18 }
    requires second { b < 2 ^ 17 }
    ensures exact { result ≡ a * b }
    ensures bound { result < 2 ^ 35 }
{
    a * b
}

/// The nearest number that an int16 holds.
pub(crate) fn kept_int16(number: i64) -> i16
    ensures { result ≡ kept_int16 number }
{
    if number < -32768 {
        -32768
    } else if number > 32767 {
        32767
    } else {
        number as i16
    }
}

/// The nearest number that a uint16 holds.
pub(crate) fn kept_uint16(number: i64) -> u16
    ensures { result ≡ kept_uint16 number }
{
    if number < 0 {
        0
    } else if number > 65535 {
        65535
    } else {
        number as u16
    }
}
