//! The header of a picture. Netpbm, "PBM", format P4.

ghost use Rattle.std.specs.Prelude.{◌≡◌, ◌≤◌, length, take};
ghost use Rattle.tt_core.specs.Limits.{width_limit, height_limit};
ghost use Rattle.tt_pbm.specs.P4.{p4_header_of};

use crate::ascii::Ascii;

/// Room for a header: two numbers of at most 5 digits, and 5 bytes around them.
pub const HEADER_ROOM: usize = 16;

/// A picture's header: the first `len` of these bytes.
#[derive(Clone, Copy, Debug)]
pub struct Header {
    pub bytes: [u8; HEADER_ROOM],
    pub len: usize,
}

/// The header of a picture of `w` columns and `h` rows.
pub fn p4_header(w: u32, h: u32) -> Header
    requires some_columns { 1 ≤ w }
    requires columns { w ≤ width_limit }
    requires some_rows { 1 ≤ h }
    requires rows { h ≤ height_limit }
    ensures exact { take result.len result.bytes ≡ p4_header_of w h }
    ensures len { length (p4_header_of w h) ≡ result.len }
    ensures bound { result.len ≤ 16 }
{
    let mut text = Ascii::new();
    text.push(b'\n');
    text.push_u16(h as u16);
    text.push(b' ');
    text.push_u16(w as u16);
    text.push(b'\n');
    text.push(b'4');
    text.push(b'P');
    let text = text.as_bytes();
    let mut bytes = [0; HEADER_ROOM];
    bytes[..text.len()].copy_from_slice(text);
    Header {
        bytes,
        len: text.len(),
    }
}
