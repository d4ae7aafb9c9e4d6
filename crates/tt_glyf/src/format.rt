//! The offsets and sizes of the fields of glyph data, by the names of OpenType, "The 'glyf' table". specs/Format.antt
//! has the whole format as a table. The flags are `PointFlags` and `ComponentFlags`.

/// Bytes of a word.
pub(crate) const WORD_SIZE: usize = 2;

/// Offsets in the header, from the glyph's first byte.
pub(crate) const NUMBER_OF_CONTOURS_OFFSET: usize = 0;

pub(crate) const X_MIN_OFFSET: usize = 2;

/// Bytes of the header. The contours' ends or the component records follow.
pub(crate) const HEADER_SIZE: usize = 10;

/// Offsets in a component record, from its first byte. Its flags come first.
pub(crate) const GLYPH_INDEX_OFFSET: usize = 2;

pub(crate) const ARGUMENTS_OFFSET: usize = 4;
