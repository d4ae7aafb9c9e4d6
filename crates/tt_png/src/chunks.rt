//! Chunks at the end of a file. RFC 2083, section 3.2.

ghost use Rattle.std.specs.Int.{to_be_bytes, w32};
ghost use Rattle.std.specs.Prelude.{◌≡◌, ◌+◌, ◌^◌, ◌<◌, ◌≤◌, ◌++◌, drop, length, IfOk, OnOk};
ghost use Rattle.tt_png.specs.Crc.{crc_32};
ghost use Rattle.tt_png.specs.Chunks.{chunk};

use crate::crc::crc_32;
use std::alloc::AllocError;

/// Appends the length of a chunk's data, and its type. Returns the place of the type. Error: memory ran out.
pub(crate) fn begin_chunk(
    file: &mut Vec<u8>,
    kind: [u8; 4],
    len: usize,
) -> Result<usize, AllocError>
    requires { len < 2 ^ 32 }
    ensures begun { OnOk result (file.new.items ≡ file.old.items ++ (to_be_bytes w32 len ++ kind)) }
    ensures place { IfOk result (λ at. at ≡ length file.old.items + 4) }
{
    file.extend_from_slice(&(len as u32).to_be_bytes())?;
    let at = file.len();
    file.extend_from_slice(&kind)?;
    Ok(at)
}

/// Appends the CRC-32 of all bytes from the place of a chunk's type on. Error: memory ran out.
pub(crate) fn end_chunk(file: &mut Vec<u8>, at: usize) -> Result<(), AllocError>
    requires { at ≤ length file.old.items }
    ensures { OnOk result (file.new.items ≡ file.old.items ++ to_be_bytes w32 (crc_32 (drop at file.old.items))) }
{
    let crc = crc_32(&file[at..]);
    file.extend_from_slice(&crc.to_be_bytes())?;
    Ok(())
}

/// Appends a chunk. Error: memory ran out.
pub(crate) fn push_chunk(
    file: &mut Vec<u8>,
    kind: [u8; 4],
    content: &[u8],
) -> Result<(), AllocError>
    requires { length content.now < 2 ^ 32 }
    ensures { OnOk result (file.new.items ≡ file.old.items ++ chunk kind content.now) }
{
    let at = begin_chunk(file, kind, content.len())?;
    file.extend_from_slice(content)?;
    end_chunk(file, at)?;
    Ok(())
}
