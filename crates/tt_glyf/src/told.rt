//! The size that a glyph declares, known before the glyph is read. OpenType, "The 'glyf' table", "Glyph Header" and
//! "Simple Glyph Description".

ghost use Rattle.std.specs.Prelude.{◌≡◌, ◌<◌, ◌≤◌, ◌^◌, All, IfOk, length, vec_len};
ghost use Rattle.tt_core.specs.Limits.{component_limit};
ghost use Rattle.tt_glyf.specs.Loca.{glyph_bytes_of};
ghost use Rattle.tt_glyf.specs.Raw.{raw_view};
ghost use Rattle.tt_glyf.specs.Told.{told_contours, told_in, told_size, tells_composite, records_in, components_of};

use crate::format::{HEADER_SIZE, NUMBER_OF_CONTOURS_OFFSET, WORD_SIZE};
use crate::glyf::Glyf;
use crate::raw::{Raw, Record};
use std::alloc::{AllocError, Global};
use tt_core::{FontFault, i16_at, u16_at};

impl<'a> Glyf<'a> {
    /// The sum of contours and points that a simple glyph declares by numberOfContours and the last of
    /// endPtsOfContours. It is 0 for an empty glyph or a composite, and if these bytes do not exist.
    #[tactic(auto, unfolding(crate::specs::Told::told_size))]
    pub fn told_size(&self, g: u16) -> u32
        requires { g < self.now.glyphs }
        ensures exact { result ≡ told_size self.now g }
        ensures bound { result < 2 ^ 17 }
    {
        match self.bytes(g) {
            Ok(bytes) => told_in(bytes),
            Err(_) => 0,
        }
    }

    /// The component records of a composite glyph. Other glyphs, and composites that cannot be read, give none. Of a
    /// simple glyph only the header is read. Error: memory ran out.
    pub fn components(&self, alloc: Global, g: u16) -> Result<Vec<Record>, AllocError>
        requires { g < self.now.glyphs }
        ensures exact { IfOk result (λ r. r.items ≡ components_of self.now g) }
        ensures known { IfOk result (λ r. All (λ c. c.glyph < self.now.glyphs) r.items) }
        ensures few { IfOk result (λ r. vec_len r ≤ component_limit) }
    {
        if !self.is_composite(g) {
            return Ok(Vec::new(alloc));
        }
        match self.read(alloc, g) {
            Ok(raw) => Ok(records_in(alloc, raw)),
            Err(FontFault::Font(_)) => Ok(Vec::new(alloc)),
            Err(FontFault::Memory) => Err(AllocError),
        }
    }

    fn is_composite(&self, g: u16) -> bool
        requires { g < self.now.glyphs }
        ensures { result ≡ tells_composite (glyph_bytes_of self.now g) }
    {
        match self.bytes(g) {
            Ok(bytes) => told_contours(bytes) < 0,
            Err(_) => false,
        }
    }
}

/// The component records of a composite glyph; other glyphs give none.
fn records_in(alloc: Global, raw: Raw) -> Vec<Record>
    ensures { result.items ≡ records_in (raw_view raw.entry) }
{
    match raw {
        Raw::Empty => Vec::new(alloc),
        Raw::Simple { .. } => Vec::new(alloc),
        Raw::Composite { records, .. } => records,
    }
}

/// numberOfContours, or 0 if the header is cut.
fn told_contours(bytes: &[u8]) -> i16
    ensures exact { result ≡ told_contours bytes.now }
{
    if bytes.len() < HEADER_SIZE {
        return 0;
    }
    i16_at(bytes, NUMBER_OF_CONTOURS_OFFSET).unwrap()
}

/// The declared sum of contours and points of a simple glyph.
fn told_in(bytes: &[u8]) -> u32
    ensures exact { result ≡ told_in bytes.now }
    ensures bound { result < 2 ^ 17 }
{
    let contours = told_contours(bytes);
    if contours <= 0 {
        return 0;
    }
    let last = HEADER_SIZE + WORD_SIZE * (usize::from(contours.unsigned_abs()) - 1);
    match u16_at(bytes, last) {
        Some(end) => u32::from(contours.unsigned_abs()) + u32::from(end) + 1,
        None => 0,
    }
}
