//! The graphics state and its defaults. Apple TrueType Reference Manual, "Graphics State".

ghost use Rattle.std.specs.Prelude.{◌≡◌};
ghost use Rattle.tt_state.specs.GraphicsState.{default_of};

use crate::rounding::Round;
use crate::vector::Vector;

/// A coordinate axis.
#[derive(Clone, Copy, Debug, PartialEq, Eq)]
pub enum Axis {
    X,
    Y,
}

/// A set of points: zone 0 for points that programs make, zone 1 for the glyph's points.
#[derive(Clone, Copy, Debug, PartialEq, Eq)]
pub enum Zone {
    Twilight,
    Glyph,
}

/// A program's request to fill dropouts: places where a glyph's outline passes between the centers of pixels.
#[derive(Clone, Copy, Debug, PartialEq, Eq)]
pub struct ScanControl {
    /// Whether dropouts are filled.
    pub on: bool,
    /// The rules for filling dropouts: any number given to SCANTYPE.
    pub scan_type: u16,
}

/// The state variables that instructions read and set. Distances are in 26.6 pixels.
#[derive(Clone, Copy, Debug, PartialEq, Eq)]
pub struct GraphicsState {
    /// The projection vector. Current positions of points are measured along it.
    pub proj: Vector,
    /// The dual projection vector. Positions before the program are measured along it.
    pub dual: Vector,
    /// The freedom vector. Points move along it.
    pub free: Vector,
    /// The reference points, by number. They are tested against their zones when they are used.
    pub rp0: i32,
    pub rp1: i32,
    pub rp2: i32,
    /// The zone pointers.
    pub zp0: Zone,
    pub zp1: Zone,
    pub zp2: Zone,
    /// The number of points for the next instruction that loops.
    pub loops: u32,
    pub round: Round,
    pub min_distance: i32,
    /// The control-value cut-in.
    pub cut_in: i32,
    /// The single-width value.
    pub single_width: i32,
    /// The single-width cut-in.
    pub single_cut_in: i32,
    pub auto_flip: bool,
    /// The base size of delta instructions, in pixels per em.
    pub delta_base: i32,
    /// The binary logarithm of the number of parts of a pixel in deltas. SDS sets 0 to 6.
    pub delta_shift: u32,
    /// How a glyph is filled. No instruction reads this field.
    pub scan: ScanControl,
    /// Whether the whole instruction set is supported, with vectors off the axes. No instruction sets this field.
    pub whole: bool,
}

impl GraphicsState {
    /// The defaults at the start of a font program.
    pub fn new(whole: bool) -> GraphicsState
        ensures { result ≡ default_of whole }
    {
        GraphicsState {
            proj: Vector::X,
            dual: Vector::X,
            free: Vector::X,
            rp0: 0,
            rp1: 0,
            rp2: 0,
            zp0: Zone::Glyph,
            zp1: Zone::Glyph,
            zp2: Zone::Glyph,
            loops: 1,
            round: Round::Grid,
            min_distance: 64,
            cut_in: 68,
            single_width: 0,
            single_cut_in: 0,
            auto_flip: true,
            delta_base: 9,
            delta_shift: 3,
            scan: ScanControl {
                on: false,
                scan_type: 0,
            },
            whole,
        }
    }
}
