//! The options `--kern` and `--height`: how lines are laid out.

ghost use Rattle.std.specs.Prelude.{◌≡◌};
ghost use Rattle.tt_program_decisions.specs.Rules.{AsksRules, heights_named};

use crate::request::Arguments;
use tt_face::{Heights, LineRules};
use tt_program_words::{EXACT, ROUNDED};

/// The rounding of heights that has this name.
pub(crate) fn heights_named(name: &str) -> Option<Heights>
    ensures { result ≡ heights_named name.now }
{
    match name {
        EXACT => Some(Heights::Exact),
        ROUNDED => Some(Heights::Rounded),
        _ => None,
    }
}

/// The rules of `--height HEIGHT`, where the word is present, and of the flag `--kern`. None where the word is unknown.
pub(crate) fn rules_of<'a, A: Arguments<'a>>(arguments: &A) -> Option<LineRules>
    ensures { AsksRules (A.text arguments.now) (A.IsFlag arguments.now) result }
{
    let height = arguments.text_for("height");
    let kerned = arguments.is_set("kern");
    Some(LineRules {
        heights: heights_named(height?)?,
        kerned,
    })
}
