//! The advances of a font's characters: SWIDTH, SPACING and AVERAGE_WIDTH.

ghost use Rattle.std.specs.Prelude.{◌≡◌, ◌<◌, ◌≤◌, ◌^◌, length, unsigned_abs};
ghost use Rattle.tt_bdf.specs.Advances.{advances_sum, average_width, have_advance, is_monospaced, scalable_width};
ghost use Rattle.tt_bdf.specs.Head.{spacing_of};
ghost use Rattle.tt_core.specs.Limits.{text_limit};

use crate::character::BdfCharacter;
use tt_core::rq;

/// The facts of all advances in a file.
#[derive(Clone, Copy)]
pub(crate) struct Spacing {
    /// Whether all characters have one advance.
    pub(crate) monospaced: bool,
    /// Ten times the mean of the advances in columns.
    pub(crate) average: i64,
}

/// An advance in font units, in thousandths of an em.
pub(crate) fn scalable_width(units: u16, em: u16) -> i64
    requires { 16 ≤ em }
    ensures { result ≡ scalable_width units em }
{
    rq(1000 * i64::from(units), i64::from(em))
}

/// The sum of the advances in columns.
fn advances_sum(characters: &[BdfCharacter]) -> u64
    requires { length characters.now ≤ text_limit }
    ensures exact { result ≡ advances_sum characters.now }
    ensures bound { result < 2 ^ 45 }
{
    let mut sum = 0;
    for c in characters {
        sum += u64::from(c.advance);
    }
    sum
}

/// Ten times the mean of the advances in columns.
fn average_width(characters: &[BdfCharacter]) -> i64
    requires some { 1 ≤ length characters.now }
    requires few { length characters.now ≤ text_limit }
    ensures { result ≡ average_width characters.now }
{
    let sum = advances_sum(characters);
    rq(10 * sum as i64, characters.len() as i64)
}

/// Whether all of some characters have this advance.
fn have_advance(advance: u32, characters: &[BdfCharacter]) -> bool
    ensures { result ≡ have_advance advance characters.now }
{
    for c in characters {
        if c.advance != advance {
            return false;
        }
    }
    true
}

/// Whether all characters have one advance.
fn is_monospaced(characters: &[BdfCharacter]) -> bool
    requires { 1 ≤ length characters.now }
    ensures { result ≡ is_monospaced characters.now }
{
    have_advance(characters[0].advance, &characters[1..])
}

pub(crate) fn spacing_of(characters: &[BdfCharacter]) -> Spacing
    requires some { 1 ≤ length characters.now }
    requires few { length characters.now ≤ text_limit }
    ensures { result ≡ spacing_of characters.now }
{
    Spacing {
        monospaced: is_monospaced(characters),
        average: average_width(characters),
    }
}
