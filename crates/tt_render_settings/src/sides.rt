//! The sides of a box, as `--box` has them in words.

ghost use Rattle.std.specs.Prelude.{◌≡◌, ◌<◌, IfSome};
ghost use Rattle.tt_render_settings.specs.Sides.{box_words, digit_value, side_of, side_pair, with_digit};

use tt_core::cut;

/// The sides of a box, in pixels.
#[derive(Clone, Copy, Debug, PartialEq, Eq)]
pub struct BoxSides {
    pub width: u32,
    pub height: u32,
}

/// The value of a digit.
fn digit_value(c: u8) -> Option<u32>
    ensures exact { result ≡ digit_value c }
    ensures bound { IfSome result (λ d. d < 10) }
{
    match c {
        b'0'..=b'9' => Some(u32::from(c - b'0')),
        _ => None,
    }
}

/// A number with one more digit, if that is below 2^32.
fn with_digit(n: u32, digit: Option<u32>) -> Option<u32>
    requires digit { IfSome digit (λ d. d < 10) }
    ensures { result ≡ with_digit n digit }
{
    let more = 10 * u64::from(n) + u64::from(digit?);
    if more < 4_294_967_296 {
        Some(more as u32)
    } else {
        None
    }
}

/// The number of some digits: at least one, and below 2^32.
#[tactic(auto, using(crate::proofs::SideDigits::digits_more, crate::proofs::SideDigits::digits_all))]
fn side_of(digits: &[u8]) -> Option<u32>
    ensures { result ≡ side_of digits.now }
{
    if digits.is_empty() {
        return None;
    }
    let mut n = 0;
    for i in 0..digits.len() {
        n = with_digit(n, digit_value(digits[i]))?;
    }
    Some(n)
}

/// Both sides, where both are numbers.
fn side_pair(width: Option<u32>, height: Option<u32>) -> Option<BoxSides>
    ensures { result ≡ side_pair width height }
{
    Some(BoxSides {
        width: width?,
        height: height?,
    })
}

impl BoxSides {
    /// The sides that two numbers with `x` between them name. None: the words are of another form.
    pub fn read(words: &str) -> Option<BoxSides>
        ensures { result ≡ box_words words.now }
    {
        let (width, height) = cut(b'x', words.as_bytes());
        match height {
            None => None,
            Some(height) => side_pair(side_of(width), side_of(height)),
        }
    }
}
