//! Where the ink of a glyph stands.

/// The least box that holds the ink of a glyph. Without ink all four are 0.
#[derive(Clone, Copy, Debug, PartialEq, Eq)]
pub struct InkPlace {
    /// Columns from the pen to the first column of ink, rightwards.
    pub left: i32,
    /// Rows from the base line up to the upper edge of the highest row of ink.
    pub top: i32,
    /// Columns of ink.
    pub width: u32,
    /// Rows of ink.
    pub height: u32,
}
