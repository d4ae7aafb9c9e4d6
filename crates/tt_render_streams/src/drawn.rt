//! A picture that is ready to be written.

ghost use Rattle.std.specs.Prelude.{◌≡◌, length, IfOk};
ghost use Rattle.tt_render_streams.specs.File.{piece_bytes};

use std::alloc::{AllocError, Global};
use tt_pbm::HEADER_ROOM;
use tt_picture::Picture;

/// A picture, and memory for its header and a band of its rows.
#[derive(Drop)]
pub struct Drawn {
    pub picture: Picture,
    pub piece: Vec<u8>,
}

/// Memory for the header of a picture and a band of its rows. Error: Memory.
pub fn piece_for(alloc: Global, picture: &Picture) -> Result<Vec<u8>, AllocError>
    ensures { IfOk result (λ v. length v.items ≡ piece_bytes picture.now) }
{
    vec![in alloc; 0u8; HEADER_ROOM + picture.band_bytes()]
}
