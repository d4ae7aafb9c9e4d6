//! A pixel of a glyph.

/// A pixel by its column and its row. Columns count rightwards from the glyph's origin, rows upwards from the base
/// line. In a pass over columns the two are exchanged.
#[derive(Clone, Copy, Debug, PartialEq, Eq)]
pub struct Pixel {
    pub column: i64,
    pub row: i64,
}
