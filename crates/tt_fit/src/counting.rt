//! Counts the points of a glyph before the glyph is made (profile).

ghost use Rattle.std.specs.Prelude.{◌≡◌, ◌<◌, All, IfOk};
ghost use Rattle.tt_fit.specs.Counting.{points_asked, points_of_all, left_of};

use std::alloc::{AllocError, Global};
use tt_glyf::{Glyf, Record};

/// The ends of a glyph's advance, its ascent and its descent.
const PHANTOM_COUNT: u64 = 4;

/// Counts the points of these glyphs.
#[derive(Clone, Copy)]
pub(crate) struct Counter<'g, 'a> {
    pub(crate) alloc: Global,
    pub(crate) glyf: &'g Glyf<'a>,
}

impl Counter<'_, '_> {
    /// What remains of `most` after the points of one glyph, with this many levels of components; None where it has
    /// more. Error: out of memory.
    #[cycle(counting)]
    #[tactic(auto, using(crate::proofs::Counts::own_alone, crate::proofs::Counts::with_components))]
    pub(crate) fn left(&self, levels: u32, g: u16, most: u64) -> Result<Option<u64>, AllocError>
        requires { g < self.now.glyf.now.glyphs }
        ensures { IfOk result (λ left. left ≡ left_of most (points_asked self.now.glyf.now levels g)) }
    {
        let own = PHANTOM_COUNT + u64::from(self.glyf.told_size(g));
        if most < own {
            return Ok(None);
        }
        if levels == 0 {
            return Ok(Some(most - own));
        }
        let parts = self.glyf.components(self.alloc, g)?;
        self.left_all(levels - 1, parts.as_slice(), most - own)
    }

    /// What remains of `most` after the points of some components; None where they have more.
    #[cycle(counting)]
    fn left_all(&self, levels: u32, parts: &[Record], most: u64) -> Result<Option<u64>, AllocError>
        requires { All (λ r. r.glyph < self.now.glyf.now.glyphs) parts.now }
        ensures { IfOk result (λ left. left ≡ left_of most (points_of_all self.now.glyf.now levels parts.now)) }
    {
        let mut left = most;
        for part in parts {
            match self.left(levels, part.glyph, left)? {
                Some(fewer) => left = fewer,
                None => return Ok(None),
            }
        }
        Ok(Some(left))
    }
}
