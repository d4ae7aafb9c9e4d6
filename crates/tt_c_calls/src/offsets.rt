//! Where the units of a text begin, in bytes. Unicode, "Variation Selectors" and "UTF-8".

ghost use Rattle.std.specs.Prelude.{◌≡◌, IfOk};
ghost use Rattle.tt_cmap.specs.Units.{is_selector};
ghost use Rattle.tt_c_calls.specs.Offsets.{begins_unit, unit_offsets};

use std::alloc::{AllocError, Global};

/// Whether a character is a variation selector.
fn is_selector(c: char) -> bool
    ensures { result ≡ is_selector c }
{
    ('\u{FE00}'..='\u{FE0F}').contains(&c) || ('\u{E0100}'..='\u{E01EF}').contains(&c)
}

/// Whether a character begins a unit. With `pairs` a selector does not: it belongs to a character before, or to none.
fn begins_unit(pairs: bool, c: char) -> bool
    ensures { result ≡ begins_unit pairs c }
{
    !(pairs && is_selector(c))
}

/// The offset of each unit of a text, in bytes from the text's start. With `pairs` selectors belong to characters; else
/// each character is a unit. Error: memory ran out.
pub(crate) fn offsets_of(alloc: Global, pairs: bool, text: &str) -> Result<Vec<usize>, AllocError>
    ensures { IfOk result (λ v. v.items ≡ unit_offsets pairs text.now) }
{
    let mut offsets = Vec::new(alloc);
    let mut rest = text.chars();
    let mut at = 0;
    while let Some(c) = rest.next() {
        if begins_unit(pairs, c) {
            offsets.push(at)?;
        }
        at += c.len_utf8();
    }
    Ok(offsets)
}
