//! The bytes of a picture's rows.

ghost use Rattle.std.specs.Prelude.{◌≡◌, ℕ, ◌+◌, ◌*◌, ◌<◌, ◌≤◌, ◌&&◌, nat_lt, length, option_map, IfSome};
ghost use Rattle.std.specs.Vec.{vec_items};
ghost use Rattle.tt_bitmap.specs.Bands.{column};
ghost use Rattle.tt_core.specs.Bits.{stride};
ghost use Rattle.tt_picture.specs.Stamps.{AreRowsOf, rows_show};

use tt_scan::Frame;

/// The bytes of a row: a bit for each pixel, and up to seven bits more.
pub(crate) fn row_bytes(frame: Frame) -> usize
    ensures { result ≡ stride frame.width }
{
    (frame.width as usize).div_ceil(8)
}

/// Overwrites a band of `count` rows with those of a picture from row `from` on, as the bytes of all rows have them. The
/// band is white where there are no such bytes.
pub(crate) fn write_rows(
    all: &Option<Vec<u8>>,
    frame: Frame,
    from: u32,
    count: u32,
    band: &mut [u8],
)
    requires rows { IfSome all.now (λ v. AreRowsOf frame v.items) }
    requires within { from + count ≤ frame.height }
    requires len { length band.old ≡ stride frame.width * count }
    ensures columns { (i c : ℕ) → i < count → c < 8 * stride frame.width → column (stride frame.width) band.new i c
        ≡ (nat_lt c frame.width && rows_show frame (option_map vec_items all.now) c (from + i)) }
    ensures len { length band.new ≡ length band.old }
{
    match all {
        Some(bytes) => {
            let at = row_bytes(frame) * from as usize;
            band.copy_from_slice(&bytes[at..at + band.len()]);
        }
        None => band.fill(0),
    }
}
