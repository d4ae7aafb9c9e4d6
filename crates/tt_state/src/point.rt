//! A point of a zone. Apple TrueType Reference Manual, "Instructing TrueType Glyphs".

/// A point, in 26.6 pixels: its position before the program, and its current position. In a zone with font units, it
/// also has a position in font units that never changes.
#[derive(Clone, Copy, Debug, PartialEq, Eq)]
pub struct Point {
    /// In font units; 0 in a zone without font units.
    pub units_x: i32,
    pub units_y: i32,
    pub org_x: i32,
    pub org_y: i32,
    pub x: i32,
    pub y: i32,
    /// Whether an instruction moved the point along x, so that IUP does not.
    pub touched_x: bool,
    pub touched_y: bool,
    /// Whether the point is on the curve; else it is a control point.
    pub on: bool,
}
