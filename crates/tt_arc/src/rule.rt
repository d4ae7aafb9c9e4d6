//! How many chords a curve has.

/// The number of chords of a curve, and what becomes of those that meet no line.
#[derive(Clone, Copy, Debug, PartialEq, Eq)]
pub enum ChordRule {
    /// Eight chords, whose ends are exact. Each chord is an edge.
    Eight,
    /// From 1 to 32 chords, by how far the curve bends. Their ends are rounded to 1/8192 pixel, and chords that meet no
    /// line are joined.
    ByBend,
}
