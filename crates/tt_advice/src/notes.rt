//! What people are told of a font that is drawn: there is more to choose from.

ghost use Rattle.std.specs.Prelude.{◌≡◌, ◌≤◌, ◌++◌, length, string_bytes, IfOk, OnOk};
ghost use Rattle.tt_advice.specs.Notes.{count_in, first_hint, first_of, font_notes, hint_told, variable_hint};
ghost use Rattle.tt_core.specs.Limits.{font_limit};

use crate::advising::has_record;
use crate::hint::{FixedHint, Hint, hint_line};
use crate::kinds::begins;
use std::alloc::{AllocError, Global};
use tt_core::u32_at;

/// The hint about a variable font, unless an instance was requested.
fn variable_hint(file: &[u8], face: u32, instance: bool) -> Option<Hint>
    requires { length file.now ≤ font_limit }
    ensures { result ≡ variable_hint file.now face instance }
{
    if instance || !has_record(file, face, *b"fvar") {
        None
    } else {
        Some(Hint::Fixed(FixedHint::Variable))
    }
}

/// The number of a collection's faces. None where the file is no collection.
fn count_in(file: &[u8]) -> Option<u32>
    ensures { result ≡ count_in file.now }
{
    if begins(file, b"ttcf") {
        u32_at(file, 8)
    } else {
        None
    }
}

/// The hint about the first of so many faces, where there are more.
fn first_of(count: Option<u32>) -> Option<Hint>
    ensures { result ≡ first_of count }
{
    let count = count?;
    if count > 1 {
        Some(Hint::FirstOf(count))
    } else {
        None
    }
}

/// The hint about the first face of a collection, where no face was requested.
fn first_hint(file: &[u8], given: bool) -> Option<Hint>
    ensures { result ≡ first_hint file.now given }
{
    if given {
        None
    } else {
        first_of(count_in(file))
    }
}

/// Appends the line of a hint, if there is one. Error: memory ran out.
fn push_hint(
    text: &mut String,
    alloc: Global,
    path: &str,
    hint: Option<Hint>,
) -> Result<(), AllocError>
    ensures { OnOk result (string_bytes text.new ≡ string_bytes text.old ++ hint_told path.now hint) }
{
    match hint {
        Some(hint) => {
            let line = hint_line(alloc, path, hint)?;
            text.push_str(&line)
        }
        None => Ok(()),
    }
}

/// The lines about a font that is drawn, by its path, its bytes, its face's number, and whether the face and an instance
/// were requested. Error: memory ran out.
#[tactic(auto, unfolding(crate::specs::Notes::font_notes))]
pub fn font_notes(
    alloc: Global,
    path: &str,
    file: &[u8],
    face: u32,
    given: bool,
    instance: bool,
) -> Result<String, AllocError>
    requires { length file.now ≤ font_limit }
    ensures { IfOk result (λ text. string_bytes text ≡ font_notes path.now file.now face given instance) }
{
    let mut text = String::new(alloc);
    push_hint(&mut text, alloc, path, variable_hint(file, face, instance))?;
    push_hint(&mut text, alloc, path, first_hint(file, given))?;
    Ok(text)
}
