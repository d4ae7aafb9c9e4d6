//! A picture as a file. RFC 2083, "PNG Specification".

ghost use Rattle.std.specs.Prelude.{◌≡◌, ◌*◌, ◌^◌, ◌<◌, ◌≤◌, length, IfOk};
ghost use Rattle.tt_core.specs.Bits.{stride};
ghost use Rattle.tt_core.specs.Limits.{height_limit, width_limit};
ghost use Rattle.tt_png.specs.Png.{filtered, header_data, length_by, png_length, png_text};

use crate::adler::adler_32;
use crate::blocks::{BLOCK, push_blocks};
use crate::chunks::push_chunk;
use std::alloc::{AllocError, Global};

/// The first bytes of each file.
const SIGNATURE: [u8; 8] = [0x89, 0x50, 0x4E, 0x47, 0x0D, 0x0A, 0x1A, 0x0A];

/// Red, green and blue of a bit 0, which is white, and of a bit 1, which is black.
const PALETTE: [u8; 6] = [0xFF, 0xFF, 0xFF, 0x00, 0x00, 0x00];

/// The type of a row's filter that changes nothing.
const NO_FILTER: u8 = 0;

/// The data of the chunk IHDR: one bit a pixel, which is a number of a colour of the palette. Not interlaced.
fn header_data(width: u32, height: u32) -> [u8; 13]
    ensures { result ≡ header_data width height }
{
    let [a, b, c, d] = width.to_be_bytes();
    let [e, f, g, h] = height.to_be_bytes();
    [a, b, c, d, e, f, g, h, 1, 3, 0, 0, 0]
}

/// The bytes of a row.
fn row_bytes(width: u32) -> usize
    requires { width ≤ width_limit }
    ensures exact { result ≡ stride width }
    ensures few { result ≤ 2048 }
{
    (width as usize + 7) / 8
}

/// The rows, each behind the type of its filter. Error: memory ran out.
fn filtered(alloc: Global, width: u32, height: u32, rows: &[u8]) -> Result<Vec<u8>, AllocError>
    requires columns { width ≤ width_limit }
    requires most_rows { height ≤ height_limit }
    requires bytes { length rows.now ≡ stride width * height }
    ensures exact { IfOk result (λ content. content.items ≡ filtered (stride width) height rows.now) }
    ensures few { IfOk result (λ content. length content.items < 2 ^ 24) }
{
    let bytes = row_bytes(width);
    let mut content = Vec::with_capacity(alloc, (1 + bytes) * height as usize)?;
    let mut rest = rows;
    let mut left = height;
    while left > 0 {
        let (row, after) = rest.split_at(bytes);
        content.push(NO_FILTER)?;
        content.extend_from_slice(row)?;
        rest = after;
        left -= 1;
    }
    Ok(content)
}

/// The length of a file with so many bytes of rows and filter types.
fn length_by(content: usize) -> usize
    requires { content < 2 ^ 24 }
    ensures { result ≡ length_by content }
{
    69 + content + 17 * (content.saturating_sub(1) / BLOCK + 1)
}

/// The file of a picture in PNG. `rows` has the bytes of its rows in format P4: the leftmost pixel is in the highest bit,
/// and a black pixel is 1. The data are stored, not compressed. Error: memory ran out.
pub fn png(alloc: Global, width: u32, height: u32, rows: &[u8]) -> Result<Vec<u8>, AllocError>
    requires some_columns { 1 ≤ width }
    requires columns { width ≤ width_limit }
    requires some_rows { 1 ≤ height }
    requires most_rows { height ≤ height_limit }
    requires bytes { length rows.now ≡ stride width * height }
    ensures exact { IfOk result (λ file. file.items ≡ png_text width height rows.now) }
    ensures len { IfOk result (λ file. length file.items ≡ png_length width height) }
{
    let filtered = filtered(alloc, width, height, rows)?;
    let content = filtered.as_slice();
    let sum = adler_32(content).to_be_bytes();
    let mut file = Vec::with_capacity(alloc, length_by(content.len()))?;
    file.extend_from_slice(&SIGNATURE)?;
    push_chunk(&mut file, *b"IHDR", &header_data(width, height))?;
    push_chunk(&mut file, *b"PLTE", &PALETTE)?;
    push_blocks(&mut file, content, sum)?;
    push_chunk(&mut file, *b"IEND", &[])?;
    Ok(file)
}
