//! A unit of a line that may be broken into rows.

/// A unit of a line: its character, its glyph, and its steps in pixels.
#[derive(Clone, Copy, Debug, PartialEq, Eq)]
pub struct RowUnit {
    pub character: char,
    pub glyph: u16,
    /// The step at the end of a row.
    pub step: u32,
    /// The step before the next unit, with the kerning of the pair.
    pub kerned: u32,
}
