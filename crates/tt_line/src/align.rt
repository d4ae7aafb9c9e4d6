//! The side at which the lines of a label begin or end.

/// Where the shorter lines of a label stand.
#[derive(Clone, Copy, Debug, PartialEq, Eq)]
pub enum Align {
    /// Each line begins at the left margin.
    Left,
    /// Each line stands in the middle; where this is between two columns, in the left one.
    Centre,
    /// Each line ends at the right margin.
    Right,
}
