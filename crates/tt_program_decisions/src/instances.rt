//! The words of `--instance` and `--axis`, and their instance.

ghost use Rattle.std.specs.Prelude.{◌≡◌, true, is_some, option_map, IfErr, IfOk};
ghost use Rattle.std.specs.List.{list_all};
ghost use Rattle.tt_face.specs.Views.{asked_view, named_view};
ghost use Rattle.tt_program_decisions.specs.Instances.{AsksWords, axes_asked, instance_asked, is_digit, is_number, named_asked, number_of, with_digit};

use crate::request::Arguments;
use std::alloc::{AllocError, Global};
use tt_axes::{AxisValue, read_axis_values};
use tt_face::{AskedInstance, NamedBy};

/// The words of the instance on a command line.
#[derive(Clone, Copy)]
pub struct InstanceWords<'a> {
    /// The name of a named instance, or its number.
    pub named: Option<&'a str>,
    /// Values of axes, as TAG=VALUE,TAG=VALUE.
    pub axes: Option<&'a str>,
}

/// The words of `--instance` and `--axis`, which may be absent.
pub fn instance_words<'a, A: Arguments<'a>>(arguments: &A) -> InstanceWords<'a>
    ensures { AsksWords (A.text arguments.now) result }
{
    InstanceWords {
        named: arguments.text_for("instance"),
        axes: arguments.text_for("axis"),
    }
}

/// The values that the words of `--axis` give, no values where these are absent. None where the words are of another form.
/// Error: memory ran out.
pub fn axes_asked(alloc: Global, words: Option<&str>) -> Result<Option<Vec<AxisValue>>, AllocError>
    ensures exact { IfOk result (λ axes. option_map (λ vs. vs.items) axes ≡ axes_asked (option_map (λ s. s.now) words.entry)) }
    ensures memory { IfErr result (λ e. is_some words.entry ≡ true) }
{
    match words {
        Some(words) => read_axis_values(alloc, words.as_bytes()),
        None => Ok(Some(Vec::new(alloc))),
    }
}

/// A number with one more digit; the greatest number where that is greater.
fn with_digit(n: u32, digit: u8) -> u32
    ensures { result ≡ with_digit n digit }
{
    let more = 10 * u64::from(n) + u64::from(digit.saturating_sub(b'0'));
    more.min(4_294_967_295) as u32
}

/// The number of some digits, at most 2^32 - 1. No font has that instance.
#[tactic(auto, using(std::proofs::lemmas::List::Sums::fold_more))]
fn number_of(digits: &[u8]) -> u32
    ensures { result ≡ number_of digits.now }
{
    let mut n = 0;
    for digit in digits {
        n = with_digit(n, *digit);
    }
    n
}

fn is_digit(c: u8) -> bool
    ensures { result ≡ is_digit c }
{
    c.is_ascii_digit()
}

fn are_digits(word: &[u8]) -> bool
    ensures { result ≡ list_all is_digit word.now }
{
    word.iter().all(|c| is_digit(*c))
}

/// Whether a word is digits alone.
fn is_number(word: &[u8]) -> bool
    ensures { result ≡ is_number word.now }
{
    if word.is_empty() {
        return false;
    }
    are_digits(word)
}

/// The named instance of a word: digits alone are its number, other words its name.
fn named_asked<'a>(word: &'a str) -> NamedBy<'a>
    ensures { named_view result ≡ named_asked word.now }
{
    let bytes = word.as_bytes();
    if is_number(bytes) {
        NamedBy::Number(number_of(bytes))
    } else {
        NamedBy::Name(bytes)
    }
}

impl<'a> InstanceWords<'a> {
    /// The instance of the words, by the values that those of `--axis` give. None without words.
    pub fn asked(self, axes: &'a [AxisValue]) -> Option<AskedInstance<'a>>
        ensures { option_map asked_view result ≡ instance_asked (option_map (λ s. s.now) self.entry.named) (option_map (λ s. s.now) self.entry.axes) axes.now }
    {
        let named = match self.named {
            Some(word) => Some(named_asked(word)),
            None => None,
        };
        if named.is_none() && self.axes.is_none() {
            return None;
        }
        Some(AskedInstance { named, axes })
    }
}
