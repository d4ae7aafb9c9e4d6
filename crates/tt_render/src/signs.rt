//! The first character of each sign in the lines of a label.

ghost use Rattle.std.specs.Prelude.{◌≡◌, ◌∷◌, ◌++◌, [], ℕ, List, chars, find};
ghost use Rattle.tt_advice.specs.Signs.{is_of};
ghost use Rattle.tt_line.specs.Labels.{label_lines};
ghost use Rattle.tt_render.specs.Labels.{or_later, signs_of};

use tt_advice::{Sign, is_plain};
use tt_line::unmarked;
use tt_render_texts::Signs;

/// The first character that has a sign: the one of the lines before, or else that of a line.
fn first_of(before: Option<char>, sign: Sign, line: &str) -> Option<char>
    ensures { result ≡ or_later before (find (is_of sign) (chars line.now)) }
{
    match before {
        Some(c) => Some(c),
        None => sign.first_in(line),
    }
}

/// The first character of each sign in some lines and one more. Most lines are plain, and are read once.
fn signs_after(before: Signs, line: &str) -> Signs
    ensures { (lines : List (List ℕ)) → before ≡ signs_of lines → result ≡ signs_of (lines ++ line.now ∷ []) }
{
    if is_plain(line.as_bytes()) {
        return before;
    }
    Signs {
        control: first_of(before.control, Sign::Control, line),
        right_to_left: first_of(before.right_to_left, Sign::RightToLeft, line),
        shaped: first_of(before.shaped, Sign::Shaped, line),
        joining: first_of(before.joining, Sign::Joining, line),
    }
}

/// The first character of each sign in the lines of a label's text.
pub(crate) fn signs_of(text: &str) -> Signs
    ensures { result ≡ signs_of (label_lines text.now) }
{
    let mut signs = Signs {
        control: None,
        right_to_left: None,
        shaped: None,
        joining: None,
    };
    for line in unmarked(text).lines() {
        signs = signs_after(signs, line);
    }
    signs
}
