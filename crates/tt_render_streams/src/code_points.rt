//! Names of characters in a line of text.

ghost use Rattle.std.specs.Fmt.{digit_glyph};
ghost use Rattle.std.specs.Prelude.{◌≡◌, ◌+◌, ◌^◌, ◌<◌, ◌≤◌, ◌∷◌, ◌++◌, true, length};
ghost use Rattle.tt_render_streams.specs.CodePoints.{code_point, named};

use tt_pbm::Ascii;

/// Puts `U+NNNN` of a character, and a blank, before a text.
pub fn push_name(line: &mut Ascii, c: char)
    requires room { length line.old + 9 ≤ 160 }
    ensures text { line.new ≡ named c line.old }
    ensures len { length line.new ≤ length line.old + 9 }
{
    line.push(b' ');
    push_code_point(line, c as u32);
    line.push(b'+');
    line.push(b'U');
}

/// Puts a code point before a text, with at least four digits.
fn push_code_point(line: &mut Ascii, code: u32)
    requires code { code < 2 ^ 24 }
    requires room { length line.old + 6 ≤ 160 }
    ensures text { line.new ≡ code_point code ++ line.old }
    ensures len { length line.new ≤ length line.old + 6 }
{
    push_digit(line, code % 16);
    push_digit(line, code / 16 % 16);
    push_digit(line, code / 256 % 16);
    push_digit(line, code / 4096 % 16);
    if code >= 0x1_0000 {
        push_digit(line, code / 0x1_0000 % 16);
        if code >= 0x10_0000 {
            push_digit(line, code / 0x10_0000);
        }
    }
}

/// Puts a capital hexadecimal digit before a text.
fn push_digit(line: &mut Ascii, digit: u32)
    requires digit { digit < 16 }
    requires room { length line.old < 160 }
    ensures text { line.new ≡ digit_glyph true digit ∷ line.old }
{
    let first = if digit < 10 { b'0' } else { b'A' - 10 };
    line.push(first + digit as u8);
}
