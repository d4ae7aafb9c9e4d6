//! The rules for the dropouts of one glyph.

use tt_scan_gaps::{Extents, Rules};

/// The rules for filling a glyph's dropouts, and the glyph's box, which holds all points of its outline. The box decides
/// which pixel of a gap at the glyph's border is taken.
#[derive(Clone, Copy)]
pub struct BoxedRules {
    pub rules: Rules,
    pub extents: Extents,
}
