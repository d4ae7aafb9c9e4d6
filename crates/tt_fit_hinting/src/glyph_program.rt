//! A glyph's program.

ghost use Rattle.std.specs.Prelude.{◌+◌, ◌<◌, ◌^◌, length};

use tt_fit_outline::{Grid, Units};

/// A glyph's program.
#[derive(Clone, Copy)]
pub struct GlyphProgram<'a, 'u> {
    pub code: &'a [u8],
    /// The offset of the program in glyf.
    pub code_at: u32,
    /// The offset of the glyph's first byte in glyf.
    pub glyph_at: u32,
    /// The grid of the phantom points before the program.
    pub grid: Grid,
    /// The font units in which originals are measured; None for 26.6.
    pub units: Option<Units<'u>>,
    pub ghost fits: { code_at + length code.now < 2 ^ 32 },
}
