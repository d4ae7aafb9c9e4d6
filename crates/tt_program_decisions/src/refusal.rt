//! What the parser of the command line says in the first line of a refusal.

ghost use Rattle.std.specs.Prelude.{◌≡◌, option_map};
ghost use Rattle.tt_advice.specs.Kinds.{begins};
ghost use Rattle.tt_program_decisions.specs.Tips.{before, behind, ends, first_line, is_no_number, unexpected_word};

/// The text before the first line feed.
pub(crate) fn first_line(text: &str) -> &str
    ensures { result.now ≡ first_line text.now }
{
    match text.split_once('\n') {
        Some((line, _)) => line,
        None => text,
    }
}

/// Whether some bytes begin with others.
fn begins(bytes: &[u8], with: &[u8]) -> bool
    ensures { result ≡ begins bytes.now with.now }
{
    with.len() <= bytes.len() && bytes[..with.len()] == with[..]
}

/// Whether some bytes end with others.
fn ends(bytes: &[u8], with: &[u8]) -> bool
    ensures { result ≡ ends bytes.now with.now }
{
    with.len() <= bytes.len() && bytes[bytes.len() - with.len()..] == with[..]
}

/// What a line has behind its front, if that is there.
fn behind<'a>(line: &'a [u8], front: &[u8]) -> Option<&'a [u8]>
    ensures { option_map (λ s. s.now) result ≡ behind line.now front.now }
{
    if line.len() < front.len() || !begins(line, front) {
        return None;
    }
    Some(&line[front.len()..])
}

/// What a line has before its end, if that is there.
fn before<'a>(line: &'a [u8], end: &[u8]) -> Option<&'a [u8]>
    ensures { option_map (λ s. s.now) result ≡ before line.now end.now }
{
    if line.len() < end.len() || !ends(line, end) {
        return None;
    }
    Some(&line[..line.len() - end.len()])
}

/// The word that a line of the parser calls unexpected.
#[tactic(auto, unfolding(crate::specs::Tips::unexpected_word))]
pub(crate) fn unexpected_word(line: &[u8]) -> Option<&[u8]>
    ensures { option_map (λ s. s.now) result ≡ unexpected_word line.now }
{
    before(behind(line, b"error: unexpected argument '")?, b"' found")
}

/// Whether a line of the parser says that the value of `--size` has another character than digits, or none.
#[tactic(auto, unfolding(crate::specs::Tips::is_no_number))]
pub(crate) fn is_no_number(line: &[u8]) -> bool
    ensures { result ≡ is_no_number line.now }
{
    begins(line, b"error: invalid value '")
        && (ends(line, b"' for '--size <N>': invalid digit found in string")
            || ends(
                line,
                b"' for '--size <N>': cannot parse integer from empty string",
            ))
}
