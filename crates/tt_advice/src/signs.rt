//! Characters that are told to people, since a picture of them is not what may be expected.

ghost use Rattle.std.specs.Prelude.{◌≡◌, None, chars, find, true};
ghost use Rattle.tt_advice.specs.declared.signs.Sign.{Sign};
ghost use Rattle.tt_advice.specs.Signs.{in_range, in_ranges, is_of, is_plain, is_printed};

/// Why a character is reported.
#[derive(Clone, Copy, Debug, PartialEq, Eq)]
pub enum Sign {
    /// A control character, which is drawn as the font has it.
    Control,
    /// It is written from right to left.
    RightToLeft,
    /// It is of a script whose letters take other forms beside each other.
    Shaped,
    /// It joins the character beside it.
    Joining,
}

// Ranges of characters, each from its first to its last.

const CONTROL: [(char, char); 2] = [('\0', '\u{1F}'), ('\u{7F}', '\u{9F}')];

const RIGHT_TO_LEFT: [(char, char); 6] = [
    ('\u{590}', '\u{8FF}'),
    ('\u{FB1D}', '\u{FDCF}'),
    ('\u{FDF0}', '\u{FDFF}'),
    ('\u{FE70}', '\u{FEFE}'),
    ('\u{10800}', '\u{10FFF}'),
    ('\u{1E800}', '\u{1EFFF}'),
];

const SHAPED: [(char, char); 12] = [
    ('\u{900}', '\u{109F}'),
    ('\u{1100}', '\u{11FF}'),
    ('\u{1700}', '\u{18AF}'),
    ('\u{1900}', '\u{1AAF}'),
    ('\u{1B00}', '\u{1C4F}'),
    ('\u{1CD0}', '\u{1CFF}'),
    ('\u{A800}', '\u{A82F}'),
    ('\u{A840}', '\u{A8FF}'),
    ('\u{A930}', '\u{AAFF}'),
    ('\u{ABC0}', '\u{ABFF}'),
    ('\u{D7B0}', '\u{D7FF}'),
    ('\u{11000}', '\u{11FFF}'),
];

const JOINING: [(char, char); 13] = [
    ('\u{300}', '\u{36F}'),
    ('\u{483}', '\u{489}'),
    ('\u{1AB0}', '\u{1AFF}'),
    ('\u{1DC0}', '\u{1DFF}'),
    ('\u{200C}', '\u{200D}'),
    ('\u{20D0}', '\u{20FF}'),
    ('\u{2DE0}', '\u{2DFF}'),
    ('\u{302A}', '\u{302F}'),
    ('\u{3099}', '\u{309A}'),
    ('\u{FE20}', '\u{FE2F}'),
    ('\u{1F1E6}', '\u{1F1FF}'),
    ('\u{1F3FB}', '\u{1F3FF}'),
    ('\u{E0020}', '\u{E007F}'),
];

fn in_range(range: (char, char), c: char) -> bool
    ensures { result ≡ in_range c range }
{
    range.0 <= c && c <= range.1
}

/// Whether a character is in one of these ranges.
pub(crate) fn in_ranges(ranges: &[(char, char)], c: char) -> bool
    ensures { result ≡ in_ranges ranges.now c }
{
    for range in ranges {
        if in_range(*range, c) {
            return true;
        }
    }
    false
}

/// Whether a byte is a printed character of ASCII.
fn is_printed(byte: u8) -> bool
    ensures { result ≡ is_printed byte }
{
    0x20 <= byte && byte <= 0x7E
}

/// Whether the bytes of a text are printed characters of ASCII alone. Such a text has no sign.
pub fn is_plain(text: &[u8]) -> bool
    ensures exact { result ≡ is_plain text.now }
    ensures signless { result ≡ true → (s : Sign) → find (is_of s) (chars text.now) ≡ None }
{
    for byte in text {
        if !is_printed(*byte) {
            return false;
        }
    }
    true
}

impl Sign {
    /// Whether a character has this sign.
    #[tactic(auto, unfolding(crate::specs::Signs::is_of))]
    pub fn is_of(self, c: char) -> bool
        ensures { result ≡ is_of self c }
    {
        match self {
            Sign::Control => in_ranges(&CONTROL, c),
            Sign::RightToLeft => in_ranges(&RIGHT_TO_LEFT, c),
            Sign::Shaped => in_ranges(&SHAPED, c),
            Sign::Joining => in_ranges(&JOINING, c),
        }
    }

    /// The first character of a text that has this sign.
    pub fn first_in(self, text: &str) -> Option<char>
        ensures { result ≡ find (is_of self) (chars text.now) }
    {
        let mut rest = text.chars();
        while let Some(c) = rest.next() {
            if self.is_of(c) {
                return Some(c);
            }
        }
        None
    }
}
