//! The box of a glyph, in 1/8192 pixel.

/// The least and the greatest of some places, in 1/8192 pixel.
#[derive(Clone, Copy)]
pub struct Extent {
    pub low: i32,
    pub high: i32,
}

/// The box of a glyph: from the least to the greatest x, and from the least to the greatest y.
#[derive(Clone, Copy)]
pub struct Extents {
    pub across: Extent,
    pub up: Extent,
}
