//! The advance of a glyph where the font lacks HVAR. OpenType, "gvar" (phantom points).

ghost use Rattle.std.specs.Prelude.{◌≡◌, ◌<◌, ◌≤◌, length, IfOk};
ghost use Rattle.tt_core.specs.Limits.{component_limit, point_limit};
ghost use Rattle.tt_core.specs.Outcomes.{FontGives};
ghost use Rattle.tt_glyf.specs.Meaning.{AreEnds, IfComposite, IfSimple};
ghost use Rattle.tt_glyf.specs.Raw.{raw_view};
ghost use Rattle.tt_fit_variation.specs.Advance.{advance_without_hvar, deltas_of, point_count};
ghost use Rattle.tt_fit_variation.specs.Views.{glyph_view};

use crate::glyph::GlyphVariation;
use crate::varied_glyph::GlyphDeltas;
use std::alloc::Global;
use tt_core::FontFault;
use tt_glyf::{Glyf, Raw};

impl GlyphVariation<'_, '_> {
    /// The points or the components of a glyph with their deltas. Errors: GlyphVariation, Memory.
    fn deltas_of(&self, alloc: Global, g: u16, raw: Raw) -> Result<GlyphDeltas, FontFault>
        requires few { IfSimple (raw_view raw) (λ s. length s.points ≤ point_limit) }
        requires ends { IfSimple (raw_view raw) (λ s. AreEnds (length s.points) s.ends) }
        requires records { IfComposite (raw_view raw) (λ c. length c.records ≤ component_limit) }
        ensures exact { FontGives glyph_view result (deltas_of self.now.gvar.now self.now.coordinates.now g (raw_view raw.entry)) }
        ensures count { IfOk result (λ d. d.points ≡ point_count (raw_view raw.entry)) }
    {
        match raw {
            Raw::Empty => self.of_composite(alloc, g, &[]),
            Raw::Simple { points, ends, .. } => self.of_simple(alloc, g, &points, &ends),
            Raw::Composite { records, .. } => self.of_composite(alloc, g, &records),
        }
    }

    /// The advance of a glyph where the font lacks HVAR, in font units, by the advance that hmtx has. Errors: those of
    /// reading the glyph, GlyphVariation, Memory.
    #[tactic(auto, unfolding(crate::specs::Advance::advance_without_hvar))]
    pub fn advance(
        &self,
        alloc: Global,
        glyf: &Glyf,
        g: u16,
        advance: u16,
    ) -> Result<u16, FontFault>
        requires { g < glyf.now.glyphs }
        ensures exact { FontGives (λ a. a) result (advance_without_hvar self.now.gvar.now self.now.coordinates.now glyf.now g advance) }
    {
        let raw = glyf.read(alloc, g)?;
        let deltas = self.deltas_of(alloc, g, raw)?;
        Ok(deltas.ends(false).advance(advance))
    }
}
