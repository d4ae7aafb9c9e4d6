//! The lines of a character.

ghost use Rattle.std.specs.Prelude.{◌≡◌, ◌+◌, ◌*◌, ◌<◌, ◌≤◌, ◌++◌, true, length, string_bytes, IfOk, OnOk};
ghost use Rattle.std.specs.Fmt.{digit_glyph};
ghost use Rattle.tt_bdf.specs.Bitmap.{bitmap_bytes, bitmap_of, character_head, character_text, row_bytes, row_text, rows_text};
ghost use Rattle.tt_bdf.specs.Extent.{IsLimited, bottom_of};
ghost use Rattle.tt_core.specs.Limits.{width_limit};

use crate::character::BdfCharacter;
use crate::spacing::scalable_width;
use std::alloc::{AllocError, Global};

/// The digit of a number below 16.
fn digit(n: u8) -> u8
    requires { n < 16 }
    ensures { result ≡ digit_glyph true n }
{
    if n < 10 { b'0' + n } else { b'A' + (n - 10) }
}

/// Appends the line of a row. Error: memory ran out.
fn push_row(text: &mut Vec<u8>, row: &[u8]) -> Result<(), AllocError>
    ensures { OnOk result (text.new.items ≡ text.old.items ++ row_text row.now) }
{
    for byte in row {
        text.push(digit(*byte / 16))?;
        text.push(digit(*byte % 16))?;
    }
    text.push(b'\n')?;
    Ok(())
}

/// The bytes of a row of pixels.
fn row_bytes(width: u32) -> usize
    requires { width ≤ width_limit }
    ensures exact { result ≡ row_bytes width }
    ensures bound { result ≤ 2048 }
{
    (width as usize + 7) / 8
}

/// Appends the lines of a bitmap's rows. Error: memory ran out.
fn push_rows(
    text: &mut Vec<u8>,
    bitmap: &[u8],
    stride: usize,
    height: usize,
) -> Result<(), AllocError>
    requires { length bitmap.now ≡ stride * height }
    ensures { OnOk result (text.new.items ≡ text.old.items ++ rows_text bitmap.now stride height) }
{
    for i in 0..height {
        push_row(text, &bitmap[stride * i..stride * (i + 1)])?;
    }
    Ok(())
}

/// The lower edge of a character's ink.
fn bottom_of(c: BdfCharacter) -> i32
    requires { IsLimited c }
    ensures { result ≡ bottom_of c }
{
    c.top - c.height as i32
}

/// The lines of a character before its rows. Error: memory ran out.
fn character_head(alloc: Global, em: u16, c: BdfCharacter) -> Result<String, AllocError>
    requires units { 16 ≤ em }
    requires limits { IsLimited c }
    ensures { IfOk result (λ text. string_bytes text ≡ character_head em c) }
{
    let code = c.code as u32;
    let scalable = scalable_width(c.units, em);
    let advance = c.advance;
    let width = c.width;
    let height = c.height;
    let left = c.left;
    let bottom = bottom_of(c);
    format!(in alloc;
        "STARTCHAR U+{code:04X}\nENCODING {code}\nSWIDTH {scalable} 0\nDWIDTH {advance} 0\nBBX {width} {height} {left} {bottom}\nBITMAP\n"
    )
}

/// Appends the lines of a character. Error: memory ran out.
pub(crate) fn push_character(
    alloc: Global,
    text: &mut Vec<u8>,
    em: u16,
    rows: &[u8],
    c: BdfCharacter,
) -> Result<(), AllocError>
    requires units { 16 ≤ em }
    requires limits { IsLimited c }
    requires within { c.at + bitmap_bytes c ≤ length rows.now }
    ensures { OnOk result (text.new.items ≡ text.old.items ++ character_text em rows.now c) }
{
    let head = character_head(alloc, em, c)?;
    text.extend_from_slice(head.as_bytes())?;
    let stride = row_bytes(c.width);
    let height = c.height as usize;
    push_rows(text, &rows[c.at..c.at + stride * height], stride, height)?;
    text.extend_from_slice(b"ENDCHAR\n")?;
    Ok(())
}
