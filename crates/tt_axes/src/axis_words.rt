//! The values that `--axis` gives.

ghost use Rattle.std.specs.Prelude.{◌≡◌, ◌+◌, ◌*◌, ◌^◌, ◌<◌, ◌≤◌, length, option_copied, option_map, IfOk, IfSome};
ghost use Rattle.std.specs.List.{list_all};
ghost use Rattle.tt_axes.specs.AxisWords.{axis_value_of, axis_values_of, by_digits, byte_or_blank, digit_value, fixed_by, fraction_of, given_by, is_printed, last_weight, tag_of, unsigned_value, value_of, with_digit};

use crate::values::AxisValue;
use std::alloc::{AllocError, Global};
use tt_core::cut;

/// The value of a digit.
fn digit_value(c: u8) -> Option<u32>
    ensures exact { result ≡ digit_value c }
    ensures bound { IfSome result (λ d. d ≤ 9) }
{
    if c.is_ascii_digit() {
        Some(u32::from(c - b'0'))
    } else {
        None
    }
}

/// A number with one more digit.
fn with_digit(n: u32, digit: Option<u32>) -> Option<u32>
    requires number { n < 10000 }
    requires digit { IfSome digit (λ d. d ≤ 9) }
    ensures exact { result ≡ with_digit n digit }
    ensures bound { IfSome result (λ m. m ≤ 10 * n + 9) }
{
    Some(10 * n + digit?)
}

/// The number of 1 to 5 digits.
#[tactic(auto, using(crate::proofs::Digits::digits_more, crate::proofs::Digits::digits_all))]
fn by_digits(digits: &[u8]) -> Option<u32>
    ensures exact { result ≡ by_digits digits.now }
    ensures number { IfSome result (λ n. n < 10 ^ length digits.now) }
    ensures short { IfSome result (λ n. (1 ≤ length digits.now) × (length digits.now ≤ 5)) }
{
    if digits.is_empty() || digits.len() > 5 {
        return None;
    }
    let mut n = 0;
    for i in 0..digits.len() {
        n = with_digit(n, digit_value(digits[i]))?;
    }
    Some(n)
}

/// The weight of the last of some digits behind a point, in 1/100000.
pub(crate) fn last_weight(digits: usize) -> u32
    requires some { 1 ≤ digits }
    requires few { digits ≤ 5 }
    ensures exact { result ≡ last_weight digits }
    ensures bound { result ≤ 10000 }
{
    match digits {
        1 => 10_000,
        2 => 1000,
        3 => 100,
        4 => 10,
        _ => 1,
    }
}

/// The digits behind a point, in 1/100000.
fn fraction_of(digits: Option<&[u8]>) -> Option<u32>
    ensures exact { result ≡ fraction_of (option_copied digits.entry) }
    ensures bound { IfSome result (λ n. n < 100000) }
{
    match digits {
        Some(digits) => {
            let n = by_digits(digits)?;
            Some(n * last_weight(digits.len()))
        }
        None => Some(0),
    }
}

/// A number below 32,768, in 16.16, by its whole and by 1/100000.
fn fixed_by(whole: Option<u32>, fraction: Option<u32>) -> Option<u32>
    requires { IfSome fraction (λ n. n < 100000) }
    ensures exact { result ≡ fixed_by whole fraction }
    ensures bound { IfSome result (λ n. n < 2 ^ 31) }
{
    let whole = u64::from(whole?);
    let fraction = u64::from(fraction?);
    if whole >= 32768 {
        return None;
    }
    Some(((2 * (65536 * (100_000 * whole + fraction)) + 100_000) / 200_000) as u32)
}

/// A decimal without a sign, in 16.16.
fn unsigned_value(text: &[u8]) -> Option<u32>
    ensures exact { result ≡ unsigned_value text.now }
    ensures bound { IfSome result (λ n. n < 2 ^ 31) }
{
    let (whole, fraction) = cut(b'.', text);
    fixed_by(by_digits(whole), fraction_of(fraction))
}

/// A decimal below 32,768 in magnitude, in 16.16: an optional minus sign, 1 to 5 digits, and optionally a point and 1 to 5
/// digits.
#[tactic(auto, unfolding(crate::specs::AxisWords::value_of))]
fn value_of(text: &[u8]) -> Option<i32>
    ensures { result ≡ value_of text.now }
{
    if !text.is_empty() && text[0] == b'-' {
        let value = unsigned_value(&text[1..])?;
        return Some(-(value as i32));
    }
    let value = unsigned_value(text)?;
    Some(value as i32)
}

fn is_printed(c: u8) -> bool
    ensures { result ≡ is_printed c }
{
    (0x20..=0x7E).contains(&c)
}

fn are_printed(text: &[u8]) -> bool
    ensures { result ≡ list_all is_printed text.now }
{
    text.iter().all(|c| is_printed(*c))
}

/// Byte `i` of a tag, or a blank.
fn byte_or_blank(text: &[u8], i: usize) -> u8
    ensures { result ≡ byte_or_blank text.now i }
{
    match text.get(i) {
        Some(byte) => *byte,
        None => b' ',
    }
}

/// A tag of 1 to 4 printed characters, filled up with blanks.
fn tag_of(text: &[u8]) -> Option<[u8; 4]>
    ensures { result ≡ tag_of text.now }
{
    if text.is_empty() || text.len() > 4 || !are_printed(text) {
        return None;
    }
    Some([
        byte_or_blank(text, 0),
        byte_or_blank(text, 1),
        byte_or_blank(text, 2),
        byte_or_blank(text, 3),
    ])
}

/// The value that a piece gives.
fn axis_value_of(piece: &[u8]) -> Option<AxisValue>
    ensures { result ≡ axis_value_of piece.now }
{
    let (tag, value) = cut(b'=', piece);
    let value = value?;
    let tag = tag_of(tag)?;
    let value = value_of(value)?;
    Some(AxisValue { tag, value })
}

/// The values that a text gives, separated by commas, each TAG=VALUE. None: the text is of another form. Error: memory
/// ran out.
#[tactic(auto, unfolding(crate::specs::AxisWords::axis_values_of))]
pub fn read_axis_values(alloc: Global, text: &[u8]) -> Result<Option<Vec<AxisValue>>, AllocError>
    ensures { IfOk result (λ values. option_map (λ vs. vs.items) values ≡ axis_values_of text.now) }
{
    let mut values = Vec::new(alloc);
    let mut rest = text;
    loop {
        let (piece, more) = cut(b',', rest);
        let Some(value) = axis_value_of(piece) else {
            return Ok(None);
        };
        values.push(value)?;
        match more {
            None => return Ok(Some(values)),
            Some(next) => rest = next,
        }
    }
}
