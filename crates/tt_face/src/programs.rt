//! The tables of a font's programs.

/// The tables with a font's programs, each empty where the font has none.
#[derive(Clone, Copy)]
pub struct Programs<'a> {
    /// The control values.
    pub cvt: &'a [u8],
    /// The font program.
    pub fpgm: &'a [u8],
    /// The control value program.
    pub prep: &'a [u8],
}
