//! The limits of this project (profile). They bound memory and the size of numbers; no standard has them.

/// Bytes of a font file. Every offset fits 32 bits, and so do sums of offsets.
pub const FONT_LIMIT: usize = 67_108_864;

/// Characters of a text.
pub const TEXT_LIMIT: usize = 4096;

/// Pixels per em.
pub const SIZE_LIMIT: u32 = 300;

/// Pixels of margin around a line.
pub const MARGIN_LIMIT: u32 = 64;

/// Columns of a picture.
pub const WIDTH_LIMIT: u32 = 16_384;

/// Rows of a picture.
pub const HEIGHT_LIMIT: u32 = 4096;

/// Points of a glyph, phantom points not counted.
pub const POINT_LIMIT: usize = 16_384;

/// Component records of a glyph.
pub const COMPONENT_LIMIT: usize = 32;

/// Levels of nested components.
pub const LEVEL_LIMIT: u32 = 4;

/// Levels of nested components, if as many glyphs as possible are to be fitted.
pub const BEST_LEVEL_LIMIT: u32 = 8;

/// Magnitude of a coordinate, in 26.6 pixels. Two coordinates and a pen are below 2^23, so every product of a scan
/// conversion fits 64 bits.
pub const COORDINATE_LIMIT: i32 = 2_097_151;

/// Steps of one run of a program. A step is one instruction.
pub const STEP_LIMIT: u32 = 1_000_000;

/// Work of a line's points and programs, if the job's work is bounded. The work counts steps, points that instructions
/// go over, bytes that skips pass, the values that are copied for each run, and 40 for each point of the line's glyphs.
pub const WORK_LIMIT: u64 = 50_000_000;

/// Points of all glyphs of a job, if the job's work is bounded. Phantom points count too, and one more for each
/// contour.
pub const POINT_WORK_LIMIT: u64 = 1_000_000;

/// Crossings of a job's glyphs, if the job's work is bounded.
pub const CROSSING_LIMIT: u64 = 10_000_000;

/// Axes of a variable font.
pub const AXIS_LIMIT: usize = 64;

/// Open calls of functions.
pub const CALL_LIMIT: usize = 64;

/// Entries of the interpreter's stack.
pub const STACK_LIMIT: usize = 8192;
