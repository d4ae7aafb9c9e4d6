//! A glyph that is cut into a bitmap.

ghost use Rattle.std.proofs.Props.{props};
ghost use Rattle.std.specs.Prelude.{IfSome};
ghost use Rattle.tt_bitmap.specs.Inks.{IsNear};

use tt_bitmap::{BoxBitmap, LeastBox};
use tt_core::Fault;

/// The facts of a glyph beside its pixels.
#[derive(Clone, Copy)]
pub struct GlyphFacts {
    /// The distance of its advance's two ends, in 26.6 pixels.
    pub advance_left: i32,
    /// The chords and straight edges of its outline.
    pub chords: usize,
    /// Its crossings at one pen, in a picture and outside, with the search for dropouts.
    pub crossings: u64,
    /// The fault of the font for which it is not fitted, if it was to be.
    pub unfitted: Option<Fault>,
}

/// The pixels of a glyph, and its facts. Owners share the glyph by a pointer: it is large, and is moved often.
#[derive(Drop)]
pub struct CutGlyph {
    /// All black pixels at pen 0, its dropouts too.
    pub bitmap: BoxBitmap,
    /// The least box that holds the black pixels; None where the glyph is blank.
    pub ink: Option<LeastBox>,
    pub facts: GlyphFacts,
    pub ghost near: { IfSome ink IsNear } by { Prim.hlevel props },
}
