//! The result of reading a glyph: font units, as in the file.

ghost use Rattle.std.specs.Prelude.{◌≡◌};
ghost use Rattle.tt_glyf.specs.Format.{has};

use crate::component_flags::{ComponentFlags, has_flag};

/// The data of a glyph.
#[derive(Drop)]
pub enum Raw<'a> {
    /// No outline.
    Empty,
    Simple {
        x_min: i16,
        points: Vec<RawPoint>,
        /// The last point of each contour.
        ends: Vec<u16>,
        /// The glyph's program.
        code: &'a [u8],
        /// The program's offset in glyf.
        code_at: u32,
    },
    Composite {
        x_min: i16,
        records: Vec<Record>,
        /// The glyph's program, empty if there is none.
        code: &'a [u8],
        /// The program's offset in glyf.
        code_at: u32,
    },
}

/// A point, in font units.
#[derive(Clone, Copy, Debug, PartialEq, Eq)]
pub struct RawPoint {
    pub x: i16,
    pub y: i16,
    /// Whether the point is on the curve.
    pub on: bool,
}

/// A component of a composite glyph.
#[derive(Clone, Copy, Debug, PartialEq, Eq)]
pub struct Record {
    /// The record's offset in glyf.
    pub at: u32,
    /// The flags as in the file; `ComponentFlags` names them.
    pub flags: u16,
    /// The component's glyph number.
    pub glyph: u16,
    /// An offset along x, or a point of the parts assembled before.
    pub arg1: i32,
    /// An offset along y, or a point of the component.
    pub arg2: i32,
    /// x' = xx x + xy y and y' = yx x + yy y. 16384 is one.
    pub xx: i16,
    pub yx: i16,
    pub xy: i16,
    pub yy: i16,
}

impl Record {
    /// Whether the record has this flag. Apart from `has_flag` (for the prover), which alone needs the contract of
    /// `contains`.
    pub fn has(&self, flag: ComponentFlags) -> bool
        ensures { result ≡ has self.now.flags flag.0 }
    {
        has_flag(self.flags, flag)
    }
}
