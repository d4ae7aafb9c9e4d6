//! Where an edge crosses a line, the marks in gaps, and the rules for filling dropouts.

/// Where an edge crosses the centre line of a row.
#[derive(Clone, Copy)]
pub struct Crossing {
    /// The line: rows count upwards from the base line.
    pub line: i32,
    /// The gap: the columns of its two pixels are this one and the next.
    pub gap: i32,
    /// The distance to the right from the left pixel's centre, in 1/8192 pixel, less than a pixel.
    pub place: u16,
    /// Whether the edge rises.
    pub up: bool,
}

/// A step of the walk along a contour.
#[derive(Clone, Copy)]
pub enum Step {
    /// An edge crosses a line.
    Cross(Crossing),
    /// An edge ends at a height, in 1/8192 pixel.
    End(i32),
}

/// A crossing, or an end that counts as one.
#[derive(Clone, Copy)]
pub struct Mark {
    pub at: Crossing,
    /// Whether its gap needs a pixel because of this mark.
    pub asks: bool,
}

/// Which dropouts are filled, and how.
#[derive(Clone, Copy, Debug, PartialEq, Eq)]
pub struct Rules {
    /// Stubs are drawn: scan types 0 and 4.
    pub stubs: bool,
    /// The pixel nearer to the middle is taken, and not the left one: scan types 4 and 5.
    pub smart: bool,
    /// A small contour that needs no pixel of a gap gets the pixel that holds its middle.
    pub dots: bool,
}

/// The way to the next crossing: that crossing, and the greatest distance from a line of the edge ends on the way, in
/// 1/8192 pixel.
#[derive(Clone, Copy)]
pub struct Leg {
    pub next: Crossing,
    pub far: u64,
}

/// The first and the last column of a glyph's box, both included; or its rows.
#[derive(Clone, Copy)]
pub struct Columns {
    pub first: i64,
    pub last: i64,
}
