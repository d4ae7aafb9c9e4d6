//! Texts that are cut at a separator.

ghost use Rattle.std.specs.Prelude.{◌≡◌, ◌==◌, ◌<◌, length, slice_index, option_copied};
ghost use Rattle.tt_core.specs.Cutting.{after, before};

/// Whether the byte at a place of a text is this one.
fn is_at(text: &[u8], i: usize, byte: u8) -> bool
    requires { i < length text.now }
    ensures { result ≡ (slice_index text.now i == byte) }
{
    text[i] == byte
}

/// What is before the first separator of a text, and what is after. None: the text has no separator.
pub fn cut(separator: u8, text: &[u8]) -> (&[u8], Option<&[u8]>)
    ensures before { result.0.now ≡ before separator text.now }
    ensures after { option_copied result.1 ≡ after separator text.now }
{
    for i in 0..text.len() {
        if is_at(text, i, separator) {
            return (&text[..i], Some(&text[i + 1..]));
        }
    }
    (text, None)
}
