//! Writes a picture: its header with a first band of rows by one call, and then each further band, which is made once
//! the rows before it are written. A small picture has one band.

ghost use Rattle.std.specs.Prelude.{◌≡◌, ◌+◌, ◌*◌, ◌^◌, ◌<◌, ◌≤◌, ◌++◌, false, drop, length, take, IfErr};
ghost use Rattle.tt_core.specs.Bits.{stride};
ghost use Rattle.tt_pbm.specs.P4.{p4_header_of};
ghost use Rattle.tt_pbm.specs.Writing.{Writes};
ghost use Rattle.tt_picture.specs.Pictures.{IsReady, band_rows, rows_at};
ghost use Rattle.tt_render_streams.specs.File.{IsBegun, picture_bytes, piece_bytes};

use crate::drawn::Drawn;
use tt_core::Sink;
use tt_pbm::{Cut, p4_header, write_all_of};
use tt_picture::Picture;

/// Writes the header, and then the rows. It takes no memory.
pub fn write_picture<W: Sink>(out: &mut W, drawn: &mut Drawn) -> Result<(), Cut>
    requires out { W.has_failed out.old ≡ false }
    requires ready { IsReady drawn.old.picture }
    requires piece { length drawn.old.piece.items ≡ piece_bytes drawn.old.picture }
    ensures writes { Writes result (W.written out.old) (W.written out.new) (W.has_failed out.new) (picture_bytes drawn.old.picture) }
    ensures report { drawn.new.picture.unfitted ≡ drawn.old.picture.unfitted }
{
    let piece: &mut [u8] = &mut drawn.piece;
    let len = make_first(&mut drawn.picture, piece);
    write_all_of(out, &piece[..len])?;
    match write_rows(out, &mut drawn.picture, piece) {
        Ok(()) => Ok(()),
        Err(cut) => Err(Cut {
            sent: len as u64 + cut.sent,
        }),
    }
}

/// Puts the header and the first band of rows at the front of a piece. Returns the number of their bytes.
fn make_first(picture: &mut Picture, piece: &mut [u8]) -> usize
    requires ready { IsReady picture.old }
    requires piece { length piece.old ≡ piece_bytes picture.old }
    ensures bytes { take result piece.new ≡ p4_header_of picture.old.frame.width picture.old.frame.height
        ++ rows_at picture.old 0 (band_rows picture.old.frame) }
    ensures within { result ≤ length piece.new }
    ensures same { picture.new ≡ record picture.old { made = band_rows picture.old.frame } }
    ensures len { length piece.new ≡ length piece.old }
{
    let header = p4_header(picture.width(), picture.height());
    let rows = picture.band_rows();
    let len = header.len + picture.band_bytes();
    piece[..header.len].copy_from_slice(&header.bytes[..header.len]);
    picture.next_rows(rows, &mut piece[header.len..len]);
    len
}

/// Writes the remaining rows of a picture band by band.
fn write_rows<W: Sink>(out: &mut W, picture: &mut Picture, piece: &mut [u8]) -> Result<(), Cut>
    requires out { W.has_failed out.old ≡ false }
    requires begun { IsBegun picture.old }
    requires piece { stride picture.old.frame.width * band_rows picture.old.frame ≤ length piece.old }
    ensures writes { Writes result (W.written out.old) (W.written out.new) (W.has_failed out.new) (drop (stride picture.old.frame.width * picture.old.made) picture.old.rows) }
    ensures bound { IfErr result (λ cut. cut.sent < 2 ^ 32) }
    ensures report { picture.new.unfitted ≡ picture.old.unfitted }
{
    let mut sent = 0;
    while picture.rows_left() > 0 {
        let count = picture.band_rows().min(picture.rows_left());
        let bytes = picture.row_bytes() * count as usize;
        match write_band(out, picture, count, &mut piece[..bytes]) {
            Ok(()) => sent += bytes as u64,
            Err(cut) => return Err(Cut {
                sent: sent + cut.sent,
            }),
        }
    }
    Ok(())
}

/// Makes the next `count` rows of a picture, and writes them by one call.
fn write_band<W: Sink>(
    out: &mut W,
    picture: &mut Picture,
    count: u32,
    band: &mut [u8],
) -> Result<(), Cut>
    requires out { W.has_failed out.old ≡ false }
    requires within { picture.old.made + count ≤ picture.old.frame.height }
    requires band { length band.old ≡ stride picture.old.frame.width * count }
    ensures writes { Writes result (W.written out.old) (W.written out.new) (W.has_failed out.new) (rows_at picture.old picture.old.made count) }
    ensures same { picture.new ≡ record picture.old { made = picture.old.made + count } }
    ensures band { length band.new ≡ length band.old }
{
    picture.next_rows(count, band);
    write_all_of(out, band)
}
