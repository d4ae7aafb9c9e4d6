//! Where a row of a line may end.

ghost use Rattle.std.specs.Prelude.{◌≡◌, ◌<◌, length};
ghost use Rattle.tt_rows.specs.Breaks.{breaks_before, is_after_word, may_break};

use crate::classes::{begins_no_row, ends_no_row, is_blank, is_digit, is_hyphen, is_ideograph};
use crate::unit::RowUnit;

/// Whether a row may end between characters `a` and `b`, where `a` follows a character that is no blank, or not. The
/// first rule that holds decides (profile).
#[tactic(auto, unfolding(crate::specs::Breaks::may_break))]
fn may_break(after_word: bool, a: char, b: char) -> bool
    ensures { result ≡ may_break after_word a b }
{
    if is_blank(a) {
        return !is_blank(b);
    }
    if is_blank(b) {
        return false;
    }
    if a == '\u{200B}' {
        return true;
    }
    if is_hyphen(a) {
        return after_word && !is_digit(b);
    }
    (is_ideograph(a) || is_ideograph(b)) && (!begins_no_row(b) && !ends_no_row(a))
}

/// Whether a unit that is no blank stands before the one before unit `j`.
fn is_after_word(line: &[RowUnit], j: usize) -> bool
    requires { j < length line.now }
    ensures { result ≡ is_after_word line.now j }
{
    1 < j && !is_blank(line[j - 2].character)
}

/// Whether a row may end before unit `j` of a line.
pub(crate) fn breaks_before(line: &[RowUnit], j: usize) -> bool
    requires after { 0 < j }
    requires within { j < length line.now }
    ensures { result ≡ breaks_before line.now j }
{
    may_break(
        is_after_word(line, j),
        line[j - 1].character,
        line[j].character,
    )
}
