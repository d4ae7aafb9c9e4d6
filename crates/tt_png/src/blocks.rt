//! The data of a picture in stored blocks, a chunk for each. RFC 1951, section 3.2.4.

ghost use Rattle.std.specs.Prelude.{◌≡◌, ◌≤◌, ◌++◌, codes, length, OnOk};
ghost use Rattle.tt_png.specs.Blocks.{image_chunks, stored, stored_head};
ghost use Rattle.tt_png.specs.Chunks.{chunk};

use crate::chunks::{begin_chunk, end_chunk};
use std::alloc::AllocError;

/// Bytes of a stored block but the last.
pub(crate) const BLOCK: usize = 65535;

/// The first bytes in the format of zlib: deflate by a window of 32,768 bytes, and no preset dictionary. RFC 1950,
/// section 2.2.
const ZLIB_HEAD: [u8; 2] = [0x78, 0x01];

/// The head of a stored block. `last` is 1 for the last block, and 0 for the others.
fn stored_head(last: u8, len: u16) -> [u8; 5]
    ensures { result ≡ stored_head last len }
{
    let [low, high] = len.to_le_bytes();
    let [other_low, other_high] = (!len).to_le_bytes();
    [last, low, high, other_low, other_high]
}

/// Appends the chunk of a stored block, with the bytes before the block and behind it. Error: memory ran out.
fn push_block(
    file: &mut Vec<u8>,
    front: &[u8],
    last: u8,
    block: &[u8],
    sum: &[u8],
) -> Result<(), AllocError>
    requires front { length front.now ≤ 2 }
    requires block { length block.now ≤ 65535 }
    requires sum { length sum.now ≤ 4 }
    ensures { OnOk result (file.new.items ≡ file.old.items ++ chunk (codes "IDAT") (front.now ++ (stored last block.now ++ sum.now))) }
{
    let head = stored_head(last, block.len() as u16);
    let len = front.len() + head.len() + block.len() + sum.len();
    let at = begin_chunk(file, *b"IDAT", len)?;
    file.extend_from_slice(front)?;
    file.extend_from_slice(&head)?;
    file.extend_from_slice(block)?;
    file.extend_from_slice(sum)?;
    end_chunk(file, at)?;
    Ok(())
}

/// Appends the chunks of data with this Adler-32. Error: memory ran out.
pub(crate) fn push_blocks(
    file: &mut Vec<u8>,
    content: &[u8],
    sum: [u8; 4],
) -> Result<(), AllocError>
    ensures { OnOk result (file.new.items ≡ file.old.items ++ image_chunks content.now sum) }
{
    let mut front: &[u8] = &ZLIB_HEAD;
    let mut rest = content;
    while rest.len() > BLOCK {
        let (block, after) = rest.split_at(BLOCK);
        push_block(file, front, 0, block, &[])?;
        front = &[];
        rest = after;
    }
    push_block(file, front, 1, rest, &sum)?;
    Ok(())
}
