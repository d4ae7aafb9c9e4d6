//! Pixels of words by their numbers, 56 to a word, the leftmost in the highest bit.

ghost use Rattle.std.specs.Prelude.{◌≡◌, ℕ, ◌-◌, ◌*◌, ◌/◌, ◌%◌, ◌^◌, ◌<◌, ◌≤◌, ◌&&◌, ◌||◌, ◌==◌, min, nat_le, nat_lt, length};
ghost use Rattle.tt_bitmap.specs.Bitmaps.{pixel};
ghost use Rattle.tt_bitmap.specs.Words.{in_word};

/// A word with the columns from `from` up to `to`.
#[inline(always)]
pub(crate) fn ones(from: u32, to: u32) -> u64
    requires order { from ≤ to }
    requires fits { to ≤ 56 }
    ensures { (j : ℕ) → j < 64 → in_word result j ≡ (nat_le from j && nat_lt j to) }
{
    (u64::MAX >> from) - (u64::MAX >> to)
}

/// How many pixels of word `at` have lower numbers than a pixel.
#[inline(always)]
fn count_before(number: usize, at: usize) -> u32
    requires { 56 * at < 2 ^ 64 }
    ensures { result ≡ min 56 (number - 56 * at) }
{
    number.saturating_sub(56 * at).min(56) as u32
}

/// Blackens the columns of a word in word `at` of others.
#[inline(always)]
pub(crate) fn or_word(words: &mut [u64], at: usize, word: u64)
    requires { at < length words.old }
    ensures pixels { (i : ℕ) → pixel words.new i ≡ (pixel words.old i || ((i / 56 == at) && in_word word (i % 56))) }
    ensures len { length words.new ≡ length words.old }
{
    words[at] |= word;
}

/// Blackens the pixels from number `from` up to `past`, word by word.
pub(crate) fn blacken_run(words: &mut [u64], from: usize, past: usize)
    requires order { from ≤ past }
    requires within { past ≤ 56 * length words.old }
    ensures pixels { (i : ℕ) → pixel words.new i ≡ (pixel words.old i || (nat_le from i && nat_lt i past)) }
    ensures len { length words.new ≡ length words.old }
{
    for at in from / 56..past.div_ceil(56) {
        words[at] |= ones(count_before(from, at), count_before(past, at));
    }
}
