//! Classes of characters for the breaking of lines: a short form of those of Unicode Standard Annex 14 (profile).

ghost use Rattle.std.specs.Prelude.{◌≡◌};
ghost use Rattle.tt_rows.specs.Classes.{begins_no_row, ends_no_row, in_range, in_ranges, is_blank, is_digit, is_hyphen, is_ideograph};

// Ranges of characters, each from its first to its last.

const IDEOGRAPHS: [(char, char); 10] = [
    ('\u{2E80}', '\u{2FFF}'),
    ('\u{3001}', '\u{30FF}'),
    ('\u{31A0}', '\u{4DBF}'),
    ('\u{4E00}', '\u{9FFF}'),
    ('\u{A000}', '\u{A4CF}'),
    ('\u{F900}', '\u{FAFF}'),
    ('\u{FE30}', '\u{FE4F}'),
    ('\u{FF01}', '\u{FF60}'),
    ('\u{FFE0}', '\u{FFE6}'),
    ('\u{20000}', '\u{3FFFF}'),
];

const NEVER_FIRST: [(char, char); 59] = [
    ('!', '!'),
    ('%', '%'),
    (')', ')'),
    (',', ','),
    ('.', '.'),
    (':', ';'),
    ('?', '?'),
    (']', ']'),
    ('}', '}'),
    ('\u{2019}', '\u{2019}'),
    ('\u{201D}', '\u{201D}'),
    ('\u{2026}', '\u{2026}'),
    ('\u{3001}', '\u{3002}'),
    ('\u{3005}', '\u{3005}'),
    ('\u{3009}', '\u{3009}'),
    ('\u{300B}', '\u{300B}'),
    ('\u{300D}', '\u{300D}'),
    ('\u{300F}', '\u{300F}'),
    ('\u{3011}', '\u{3011}'),
    ('\u{3015}', '\u{3015}'),
    ('\u{3017}', '\u{3017}'),
    ('\u{3019}', '\u{3019}'),
    ('\u{301F}', '\u{301F}'),
    ('\u{303B}', '\u{303B}'),
    ('\u{3041}', '\u{3041}'),
    ('\u{3043}', '\u{3043}'),
    ('\u{3045}', '\u{3045}'),
    ('\u{3047}', '\u{3047}'),
    ('\u{3049}', '\u{3049}'),
    ('\u{3063}', '\u{3063}'),
    ('\u{3083}', '\u{3083}'),
    ('\u{3085}', '\u{3085}'),
    ('\u{3087}', '\u{3087}'),
    ('\u{308E}', '\u{308E}'),
    ('\u{3095}', '\u{3096}'),
    ('\u{3099}', '\u{309A}'),
    ('\u{309D}', '\u{309E}'),
    ('\u{30A1}', '\u{30A1}'),
    ('\u{30A3}', '\u{30A3}'),
    ('\u{30A5}', '\u{30A5}'),
    ('\u{30A7}', '\u{30A7}'),
    ('\u{30A9}', '\u{30A9}'),
    ('\u{30C3}', '\u{30C3}'),
    ('\u{30E3}', '\u{30E3}'),
    ('\u{30E5}', '\u{30E5}'),
    ('\u{30E7}', '\u{30E7}'),
    ('\u{30EE}', '\u{30EE}'),
    ('\u{30F5}', '\u{30F6}'),
    ('\u{30FB}', '\u{30FE}'),
    ('\u{FF01}', '\u{FF01}'),
    ('\u{FF05}', '\u{FF05}'),
    ('\u{FF09}', '\u{FF09}'),
    ('\u{FF0C}', '\u{FF0C}'),
    ('\u{FF0E}', '\u{FF0E}'),
    ('\u{FF1A}', '\u{FF1B}'),
    ('\u{FF1F}', '\u{FF1F}'),
    ('\u{FF3D}', '\u{FF3D}'),
    ('\u{FF5D}', '\u{FF5D}'),
    ('\u{FF60}', '\u{FF60}'),
];

const NEVER_LAST: [(char, char); 18] = [
    ('(', '('),
    ('[', '['),
    ('{', '{'),
    ('\u{2018}', '\u{2018}'),
    ('\u{201C}', '\u{201C}'),
    ('\u{3008}', '\u{3008}'),
    ('\u{300A}', '\u{300A}'),
    ('\u{300C}', '\u{300C}'),
    ('\u{300E}', '\u{300E}'),
    ('\u{3010}', '\u{3010}'),
    ('\u{3014}', '\u{3014}'),
    ('\u{3016}', '\u{3016}'),
    ('\u{3018}', '\u{3018}'),
    ('\u{301D}', '\u{301D}'),
    ('\u{FF08}', '\u{FF08}'),
    ('\u{FF3B}', '\u{FF3B}'),
    ('\u{FF5B}', '\u{FF5B}'),
    ('\u{FF5F}', '\u{FF5F}'),
];

fn in_range(range: (char, char), c: char) -> bool
    ensures { result ≡ in_range c range }
{
    range.0 <= c && c <= range.1
}

/// Whether a character is in one of these ranges.
fn in_ranges(ranges: &[(char, char)], c: char) -> bool
    ensures { result ≡ in_ranges ranges.now c }
{
    for range in ranges {
        if in_range(*range, c) {
            return true;
        }
    }
    false
}

/// Whether a row may end before a character and after it, as beside ideographs.
#[tactic(auto, unfolding(crate::specs::Classes::is_ideograph))]
pub(crate) fn is_ideograph(c: char) -> bool
    ensures { result ≡ is_ideograph c }
{
    in_ranges(&IDEOGRAPHS, c)
}

/// Whether no row begins with a character: closing marks and small kana.
#[tactic(auto, unfolding(crate::specs::Classes::begins_no_row))]
pub(crate) fn begins_no_row(c: char) -> bool
    ensures { result ≡ begins_no_row c }
{
    in_ranges(&NEVER_FIRST, c)
}

/// Whether no row ends with a character: opening marks.
#[tactic(auto, unfolding(crate::specs::Classes::ends_no_row))]
pub(crate) fn ends_no_row(c: char) -> bool
    ensures { result ≡ ends_no_row c }
{
    in_ranges(&NEVER_LAST, c)
}

/// Whether a character is U+0020.
#[inline(always)]
pub(crate) fn is_blank(c: char) -> bool
    ensures { result ≡ is_blank c }
{
    c == ' '
}

pub(crate) fn is_hyphen(c: char) -> bool
    ensures { result ≡ is_hyphen c }
{
    c == '-' || c == '\u{2010}'
}

pub(crate) fn is_digit(c: char) -> bool
    ensures { result ≡ is_digit c }
{
    '0' <= c && c <= '9'
}
