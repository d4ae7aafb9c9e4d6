//! The contours of an outline.

ghost use Rattle.std.specs.Prelude.{◌≡◌, ◌^◌, ◌≤◌, length, All};
ghost use Rattle.tt_scan.specs.Contours.{AreEnds};
ghost use Rattle.tt_scan_edges.specs.Winding.{EdgeFits};
ghost use Rattle.tt_scan_gaps.specs.Boxes.{IsBoxOf};
ghost use Rattle.tt_scan_dropouts.specs.Ends.{AreEnds-prop};

use crate::boxed::BoxedRules;
use tt_scan::{Edge, Tape};

/// The edges of an outline, contour by contour; `ends` has for each contour the number of its edges and of those before
/// it.
#[derive(Clone, Copy)]
pub(crate) struct Contours<'a> {
    pub(crate) edges: &'a [Edge],
    pub(crate) ends: &'a [usize],
    pub(crate) ghost fit: { All EdgeFits edges.now },
    pub(crate) ghost are_ends: { AreEnds (length edges.now) ends.now } by { AreEnds-prop 0 (length edges.now) ends.now },
}

/// A glyph whose dropouts are filled: the rules and its box, its edges on a tape, and where its contours end among them.
#[derive(Clone, Copy)]
pub struct Outlined<'a> {
    pub rules: BoxedRules,
    pub tape: &'a Tape,
    pub ends: &'a [usize],
    pub ghost boxed: { IsBoxOf rules.extents tape.now.edges },
    pub ghost few: { length tape.now.edges ≤ 2 ^ 32 },
    pub ghost are_ends: { AreEnds (length tape.now.edges) ends.now } by { AreEnds-prop 0 (length tape.now.edges) ends.now },
}

impl<'a> Outlined<'a> {
    /// The glyph's contours.
    #[inline(always)]
    pub(crate) fn contours(self) -> Contours<'a>
        ensures edges { result.edges.now ≡ self.entry.tape.now.edges }
        ensures ends { result.ends.now ≡ self.entry.ends.now }
    {
        Contours {
            edges: self.tape.lend(),
            ends: self.ends,
        }
    }
}
