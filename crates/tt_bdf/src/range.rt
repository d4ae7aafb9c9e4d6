//! The characters that `--range` asks for, as ranges of code points.

ghost use Rattle.std.specs.Prelude.{◌≡◌, ◌≤◌, option_map, All, IfOk, IfSome};
ghost use Rattle.tt_bdf.specs.Ranges.{IsCodeRange, between, by_digits, code_of, hex_value, last_code, range_of, ranges_of, unmarked, with_digit};

use std::alloc::{AllocError, Global};
use tt_core::cut;

/// The greatest code point.
const LAST_CODE: u32 = 0x10_FFFF;

/// Code points from the first to the last, both included.
#[derive(Clone, Copy, Debug, PartialEq, Eq)]
pub struct CodeRange {
    pub first: u32,
    pub last: u32,
}

/// The value of a hexadecimal digit of either case.
fn hex_value(c: u8) -> Option<u32>
    ensures exact { result ≡ hex_value c }
    ensures bound { IfSome result (λ d. d ≤ 15) }
{
    match c {
        b'0'..=b'9' => Some(u32::from(c - b'0')),
        b'A'..=b'F' => Some(u32::from(c - 55)),
        b'a'..=b'f' => Some(u32::from(c - 87)),
        _ => None,
    }
}

/// A code point with one more digit, if that is a code point.
fn with_digit(n: u32, digit: Option<u32>) -> Option<u32>
    requires code { n ≤ last_code }
    requires digit { IfSome digit (λ d. d ≤ 15) }
    ensures exact { result ≡ with_digit n digit }
    ensures code { IfSome result (λ m. m ≤ last_code) }
{
    let more = 16 * n + digit?;
    if more <= LAST_CODE { Some(more) } else { None }
}

/// The code point of 1 to 6 digits.
#[tactic(auto, using(crate::proofs::Cuts::digits_more, crate::proofs::Cuts::digits_all))]
fn by_digits(digits: &[u8]) -> Option<u32>
    ensures exact { result ≡ by_digits digits.now }
    ensures code { IfSome result (λ n. n ≤ last_code) }
{
    if digits.is_empty() || digits.len() > 6 {
        return None;
    }
    let mut n = 0;
    for i in 0..digits.len() {
        n = with_digit(n, hex_value(digits[i]))?;
    }
    Some(n)
}

/// The digits behind `U+`.
fn unmarked(text: &[u8]) -> &[u8]
    ensures { result.now ≡ unmarked text.now }
{
    if text.len() >= 2 && text[0] == b'U' && text[1] == b'+' {
        return &text[2..];
    }
    text
}

fn code_of(text: &[u8]) -> Option<u32>
    ensures exact { result ≡ code_of text.now }
    ensures code { IfSome result (λ n. n ≤ last_code) }
{
    by_digits(unmarked(text))
}

/// The range from a code point to one that is not below it.
fn between(first: Option<u32>, last: Option<u32>) -> Option<CodeRange>
    requires { IfSome last (λ n. n ≤ last_code) }
    ensures exact { result ≡ between first last }
    ensures codes { IfSome result IsCodeRange }
{
    let first = first?;
    let last = last?;
    if first <= last {
        Some(CodeRange { first, last })
    } else {
        None
    }
}

/// The range that a piece of a text asks for.
fn range_of(piece: &[u8]) -> Option<CodeRange>
    ensures exact { result ≡ range_of piece.now }
    ensures codes { IfSome result IsCodeRange }
{
    let (first, last) = cut(b'-', piece);
    match last {
        None => between(code_of(first), code_of(first)),
        Some(last) => between(code_of(first), code_of(last)),
    }
}

/// The ranges that a text asks for: separated by commas, each a code point or two with a hyphen between. A code point is
/// 1 to 6 hexadecimal digits of either case, with or without `U+` before them. None: the text is of another form. Error:
/// memory ran out.
#[tactic(auto, unfolding(crate::specs::Ranges::ranges_of))]
pub fn read_ranges(alloc: Global, text: &[u8]) -> Result<Option<Vec<CodeRange>>, AllocError>
    ensures exact { IfOk result (λ ranges. option_map (λ rs. rs.items) ranges ≡ ranges_of text.now) }
    ensures codes { IfOk result (λ ranges. IfSome ranges (λ rs. All IsCodeRange rs.items)) }
{
    let mut ranges = Vec::new(alloc);
    let mut rest = text;
    loop {
        let (piece, more) = cut(b',', rest);
        let Some(range) = range_of(piece) else {
            return Ok(None);
        };
        ranges.push(range)?;
        match more {
            None => return Ok(Some(ranges)),
            Some(next) => rest = next,
        }
    }
}
