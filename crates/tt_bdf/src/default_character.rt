//! The character that stands for those that a file lacks: DEFAULT_CHAR.

ghost use Rattle.std.specs.Prelude.{◌≡◌};
ghost use Rattle.tt_bdf.specs.Advances.{default_character, has_character};

use crate::character::BdfCharacter;

/// Whether a character is among some.
fn has_character(code: u32, characters: &[BdfCharacter]) -> bool
    ensures { result ≡ has_character code characters.now }
{
    for c in characters {
        if c.code as u32 == code {
            return true;
        }
    }
    false
}

/// The replacement character, else the question mark, if one is there.
pub(crate) fn default_character(characters: &[BdfCharacter]) -> Option<u32>
    ensures { result ≡ default_character characters.now }
{
    if has_character(0xFFFD, characters) {
        return Some(0xFFFD);
    }
    if has_character(0x3F, characters) {
        return Some(0x3F);
    }
    None
}
