//! The family and the style of a font in a file.

ghost use Rattle.std.specs.Prelude.{◌≡◌, ◌≤◌, ◌<◌, length, string_bytes, IfOk};
ghost use Rattle.tt_bdf.specs.Style.{end_within, family_character, family_of, is_bold, is_divider, is_italic, is_visible, trimmed, without_front};

use std::alloc::{AllocError, Global};

/// Whether a character divides an X font name or a list of names.
fn is_divider(c: u8) -> bool
    ensures { result ≡ is_divider c }
{
    c == b'-' || c == b'*' || c == b'?' || c == b',' || c == b'"'
}

/// A character of a family name: a blank for each that is no visible character of ASCII, and for the dividers.
fn family_character(c: u8) -> u8
    ensures exact { result ≡ family_character c }
    ensures ascii { result < 128 }
{
    if (0x21..=0x7E).contains(&c) && !is_divider(c) {
        c
    } else {
        b' '
    }
}

/// Whether a character of a name is no blank in the family's name.
fn is_visible(c: u8) -> bool
    ensures { result ≡ is_visible c }
{
    family_character(c) != b' '
}

/// A name from its first character that is no blank on.
fn without_front(name: &[u8]) -> &[u8]
    ensures { result.now ≡ without_front name.now }
{
    for i in 0..name.len() {
        if is_visible(name[i]) {
            return &name[i..];
        }
    }
    &[]
}

/// The length of a name without the blanks at its end.
#[tactic(auto, using(crate::proofs::Blanks::end_less, crate::proofs::Blanks::end_here))]
fn end_within(name: &[u8]) -> usize
    ensures exact { result ≡ end_within name.now (length name.now) }
    ensures within { result ≤ length name.now }
{
    let mut end = name.len();
    while end > 0 && !is_visible(name[end - 1]) {
        end -= 1;
    }
    end
}

/// A name without blanks at both ends.
fn trimmed(name: &[u8]) -> &[u8]
    ensures { result.now ≡ trimmed name.now }
{
    without_front(&name[..end_within(name)])
}

/// The family's name by the name of a font, without the characters that divide an X font name. Error: memory
/// ran out.
#[tactic(auto, unfolding(crate::specs::Style::family_of))]
pub fn family_name(alloc: Global, told: &[u8]) -> Result<String, AllocError>
    ensures { IfOk result (λ name. string_bytes name ≡ family_of told.now) }
{
    let kept = trimmed(told);
    if kept.is_empty() {
        return String::from_str(alloc, "unknown");
    }
    let mut name = String::new(alloc);
    for c in kept {
        name.push(family_character(*c) as char)?;
    }
    Ok(name)
}

/// Whether a font is bold, by the macStyle of its head.
pub fn is_bold(style: u16) -> bool
    ensures { result ≡ is_bold style }
{
    style % 2 == 1
}

/// Whether a font is italic, by the macStyle of its head.
pub fn is_italic(style: u16) -> bool
    ensures { result ≡ is_italic style }
{
    style / 2 % 2 == 1
}
