//! Numbers of a font, and the rounding of quotients. Apple TrueType Reference Manual, "The TrueType Font File", data
//! types.

ghost use Rattle.std.specs.Prelude.{◌≡◌, ◌≢◌, ℕ, ◌+◌, ◌*◌, ◌^◌, ◌<◌, ◌≤◌, ◌<ℤ◌, pos, unsigned_abs};
ghost use Rattle.tt_core.specs.Numbers.{number_at, signed_at, signed32_at, nearest_quotient, rounded_quotient};

use byteorder::{BigEndian, ByteOrder};

/// The u16 at an offset, or None if its bytes pass the end.
pub fn u16_at(b: &[u8], at: usize) -> Option<u16>
    ensures { result ≡ number_at b.now at 2 }
{
    if at > b.len() || b.len() - at < 2 {
        return None;
    }
    Some(BigEndian::read_u16(&b[at..]))
}

/// The i16 at an offset, or None if its bytes pass the end.
pub fn i16_at(b: &[u8], at: usize) -> Option<i16>
    ensures { result ≡ signed_at b.now at }
{
    if at > b.len() || b.len() - at < 2 {
        return None;
    }
    Some(BigEndian::read_i16(&b[at..]))
}

/// The u32 at an offset, or None if its bytes pass the end.
pub fn u32_at(b: &[u8], at: usize) -> Option<u32>
    ensures { result ≡ number_at b.now at 4 }
{
    if at > b.len() || b.len() - at < 4 {
        return None;
    }
    Some(BigEndian::read_u32(&b[at..]))
}

/// The i32 at an offset, or None if its bytes pass the end.
pub fn i32_at(b: &[u8], at: usize) -> Option<i32>
    ensures { result ≡ signed32_at b.now at }
{
    match u32_at(b, at) {
        Some(n) => Some(n.cast_signed()),
        None => None,
    }
}

/// The 24-bit number at an offset, or None if its bytes pass the end.
pub fn u24_at(b: &[u8], at: usize) -> Option<u32>
    ensures { result ≡ number_at b.now at 3 }
{
    if at > b.len() || b.len() - at < 3 {
        return None;
    }
    Some(BigEndian::read_u24(&b[at..]))
}

fn nearest(n: i64, d: i64) -> i64
    requires numerator { unsigned_abs n < 2 ^ 61 }
    requires denominator { unsigned_abs d < 2 ^ 61 }
    requires positive { pos 0 <ℤ d }
    ensures exact { result ≡ nearest_quotient n d }
    ensures within { (most : ℕ) → unsigned_abs n ≤ unsigned_abs d * most → unsigned_abs result ≤ most }
{
    (2 * n + d).div_euclid(2 * d)
}

/// `n / d` rounded to the nearest whole number, a half upwards.
pub fn rq(n: i64, d: i64) -> i64
    requires numerator { unsigned_abs n < 2 ^ 61 }
    requires denominator { unsigned_abs d < 2 ^ 61 }
    requires nonzero { d ≢ pos 0 }
    ensures exact { result ≡ rounded_quotient n d }
    ensures bound { unsigned_abs result ≤ unsigned_abs n }
    ensures within { (most : ℕ) → unsigned_abs n ≤ unsigned_abs d * most → unsigned_abs result ≤ most }
{
    if d < 0 {
        nearest(-n, -d)
    } else {
        nearest(n, d)
    }
}
