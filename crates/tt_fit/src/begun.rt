//! A glyph that is begun: its own points in their places, its components and its program. OpenType, "The 'glyf' table".

ghost use Rattle.std.specs.Prelude.{◌+◌, ◌<◌, ◌≤◌, ◌^◌, length, All};
ghost use Rattle.tt_core.specs.Limits.{component_limit, point_limit};
ghost use Rattle.tt_glyf.specs.Meaning.{AreEnds, HasArguments};

use tt_fit_outline::{Grid, Outline, PhantomUnits};
use tt_glyf::{RawPoint, Record};

/// The data of a simple glyph, in font units as in the file.
#[derive(Drop)]
pub(crate) struct SimpleData<'a> {
    pub(crate) x_min: i16,
    pub(crate) points: Vec<RawPoint>,
    /// The last point of each contour.
    pub(crate) ends: Vec<u16>,
    /// The glyph's program.
    pub(crate) code: &'a [u8],
    /// The program's offset in glyf.
    pub(crate) code_at: u32,
    pub(crate) ghost few: { length points.items ≤ point_limit },
    pub(crate) ghost contours: { AreEnds (length points.items) ends.items },
    pub(crate) ghost fits: { code_at + length code.now < 2 ^ 32 },
}

/// The data of a composite glyph, in font units as in the file.
#[derive(Drop)]
pub(crate) struct CompositeData<'a> {
    pub(crate) x_min: i16,
    pub(crate) records: Vec<Record>,
    /// The glyph's program, empty if there is none.
    pub(crate) code: &'a [u8],
    /// The program's offset in glyf.
    pub(crate) code_at: u32,
    pub(crate) ghost few: { length records.items ≤ component_limit },
    pub(crate) ghost arguments: { All HasArguments records.items },
    pub(crate) ghost fits: { code_at + length code.now < 2 ^ 32 },
}

/// The places of a simple glyph's points in font units, in which its program measures originals.
#[derive(Drop)]
pub(crate) struct OwnUnits {
    pub(crate) points: Vec<RawPoint>,
    pub(crate) phantom: PhantomUnits,
}

/// A glyph's program, and the units of its originals.
#[derive(Drop)]
pub(crate) struct OwnProgram<'a> {
    pub(crate) code: &'a [u8],
    /// The offset of the program in glyf.
    pub(crate) code_at: u32,
    /// The offset of the glyph's first byte in glyf.
    pub(crate) glyph_at: u32,
    /// The grid of the phantom points before the program.
    pub(crate) grid: Grid,
    /// The font units in which originals are measured; None for 26.6.
    pub(crate) units: Option<OwnUnits>,
    pub(crate) ghost fits: { code_at + length code.now < 2 ^ 32 },
}

/// A glyph that is begun.
#[derive(Drop)]
pub(crate) struct Begun<'a> {
    /// Its own points in their places.
    pub(crate) outline: Outline,
    /// The components that are added to them.
    pub(crate) records: Vec<Record>,
    pub(crate) program: OwnProgram<'a>,
    pub(crate) ghost arguments: { All HasArguments records.items },
}

/// A simple glyph without points at an instance.
#[derive(Drop)]
pub(crate) struct FineStart {
    /// Its phantom points in whole font units.
    pub(crate) units: PhantomUnits,
    pub(crate) outline: Outline,
}
