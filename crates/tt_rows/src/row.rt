//! A row of a line.

/// The places of a row's units in their line.
#[derive(Clone, Copy, Debug, PartialEq, Eq)]
pub struct LineRow {
    /// The first unit.
    pub from: usize,
    /// One past the last unit that is drawn. Blanks at the end of a row are not.
    pub until: usize,
    /// The first unit of the next row; the number of all units for the last row.
    pub next: usize,
    /// Whether the row ends within a word.
    pub broken: bool,
}
