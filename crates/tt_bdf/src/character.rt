//! A character of a file.

/// A character: the advance of its glyph, and the box of the glyph's ink. Without ink, the box is four zeros.
#[derive(Clone, Copy)]
pub struct BdfCharacter {
    pub code: char,
    /// The advance in font units.
    pub units: u16,
    /// The advance in columns.
    pub advance: u32,
    /// Columns from the pen to the first column of ink, rightwards.
    pub left: i32,
    /// Rows from the base line up to the upper edge of the highest row of ink.
    pub top: i32,
    /// Columns of ink.
    pub width: u32,
    /// Rows of ink.
    pub height: u32,
    /// The place of the first row's bytes among all rows.
    pub at: usize,
}
