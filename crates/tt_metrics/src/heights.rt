//! How the ascent and the descent become rows of a picture.

/// The rounding of a line's ascent and descent to rows.
#[derive(Clone, Copy, Debug, PartialEq, Eq)]
pub enum Heights {
    /// Each is rounded up, so that no row of either is lost.
    Exact,
    /// Each is rounded to the nearest row, so that box drawing characters of lines one below the other join.
    Rounded,
}
