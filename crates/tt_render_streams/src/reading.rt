//! Reads a font to its end.

ghost use Rattle.std.specs.Prelude.{◌≡◌, ◌+◌, ◌<◌, ◌≤◌, false, length, take, drop, vec_len, IfOk, OnOk, OnErr};
ghost use Rattle.std.specs.Io.KnownBytes.{Consumes, IsAtEnd, Keeps};
ghost use Rattle.tt_core.specs.Device.{RemembersFailure};
ghost use Rattle.tt_core.specs.Limits.{font_limit};
ghost use Rattle.tt_render_streams.specs.Reading.{ReadsAll};

use crate::fault::RunFault;
use std::alloc::{AllocError, Global};
use tt_core::{FONT_LIMIT, IoFailed, Source};

/// The bytes of one read.
const PIECE: usize = 131_072;

/// The first request of memory, in bytes, which is enough for most fonts. The system gives pages only as they are
/// written.
const FIRST: usize = 1_048_576;

/// The bytes of the read at this place. Zeros past the font's end are in vain, so the first reads are short.
fn piece_at(filled: usize) -> usize
    ensures some { 0 < result }
    ensures few { result ≤ 131072 }
{
    if filled < 2 * PIECE { PIECE / 4 } else { PIECE }
}

/// Extends the vector with zeros past its filled front, so that the next read finds room. The memory doubles, up to one
/// byte more than the limit, so the last growth begins at half of it. Error: Memory.
fn make_room(file: &mut Vec<u8>, filled: usize) -> Result<(), AllocError>
    requires within { filled ≤ vec_len file.old }
    requires known { filled ≤ font_limit }
    requires limit { vec_len file.old ≤ font_limit + 1 }
    ensures front { take filled file.new.items ≡ take filled file.old.items }
    ensures within { filled ≤ vec_len file.new }
    ensures room { OnOk result (filled < vec_len file.new) }
    ensures limit { vec_len file.new ≤ font_limit + 1 }
{
    if filled < file.len() {
        return Ok(());
    }
    let wanted = (filled + piece_at(filled)).min(FONT_LIMIT + 1);
    if file.capacity() < wanted {
        let memory = (2 * filled + 1).max(FIRST).clamp(wanted, FONT_LIMIT + 1);
        file.reserve_exact(memory - filled)?;
    }
    file.resize(wanted, 0)
}

/// One read, to the place after the filled front.
pub fn read_after<R: Source>(font: &mut R, buf: &mut [u8], filled: usize) -> Result<usize, IoFailed>
    requires { filled < length buf.old }
    ensures front { take filled buf.new ≡ take filled buf.old }
    ensures bound { IfOk result (λ n. filled + n ≤ length buf.new) }
    ensures bytes { IfOk result (λ n. Consumes (R.left font.old) (R.left font.new) (take n (drop filled buf.new))) }
    ensures end { IfOk result (λ n. n ≡ 0 → IsAtEnd (R.left font.new)) }
    ensures unchanged { OnErr result (Keeps (R.left font.old) (R.left font.new)) }
    ensures failure { RemembersFailure (R.has_failed font.old) (R.has_failed font.new) result }
{
    font.read(&mut buf[filled..])
}

/// All bytes of the reader, at most FONT_LIMIT. Errors: Read, FontLarge, Memory.
pub fn read_font<R: Source>(alloc: Global, font: &mut R) -> Result<Vec<u8>, RunFault>
    requires { R.has_failed font.old ≡ false }
    ensures { ReadsAll (λ v. v.items) result (R.left font.old) (R.left font.new) (R.has_failed font.new) }
{
    let mut file = Vec::new(alloc);
    let mut filled = 0;
    'pieces: loop {
        if let Err(AllocError) = make_room(&mut file, filled) {
            return Err(RunFault::Memory);
        }
        match read_after(font, &mut file, filled) {
            Ok(0) => {
                file.truncate(filled);
                return Ok(file);
            }
            Ok(n) => {
                filled += n;
                if filled > FONT_LIMIT {
                    return Err(RunFault::FontLarge);
                }
            }
            Err(_) => return Err(RunFault::Read),
        }
    }
}
