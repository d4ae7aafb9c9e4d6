//! The advance of one glyph. OpenType, "gvar" (phantom points).

ghost use Rattle.std.specs.Prelude.{◌≡◌, ◌<◌, is_some, IfOk};
ghost use Rattle.tt_advances.specs.Found.{face_units, glyph_units, units_by, units_of};
ghost use Rattle.tt_core.specs.Outcomes.{FontGives};
ghost use Rattle.tt_metrics.specs.Metrics.{glyphs_of};

use std::alloc::{AllocError, Global};
use tt_core::FontFault;
use tt_face::{Face, FaceInstance};
use tt_fit_variation::GlyphVariation;
use tt_glyf::Glyf;
use tt_metrics::Metrics;

/// The advance of a glyph at an instance, by HVAR where the font has it. Errors: those of reading the glyph,
/// GlyphVariation, Memory.
fn units_by(
    alloc: Global,
    instance: &FaceInstance,
    metrics: &Metrics,
    glyf: &Glyf,
    glyph: u16,
) -> Result<u16, FontFault>
    requires known { glyph < glyf.now.glyphs }
    requires metrics { glyf.now.glyphs ≡ glyphs_of metrics.now }
    ensures exact { FontGives (λ n. n) result (units_by (is_some metrics.now.advances) instance.now metrics.now glyf.now glyph) }
{
    let advance = metrics.advance(glyph);
    if metrics.has_varied_advances() {
        return Ok(advance);
    }
    let variation = GlyphVariation {
        gvar: instance.gvar(),
        coordinates: instance.coordinates(),
    };
    variation.advance(alloc, glyf, glyph, advance)
}

/// The advance of a glyph, at the instance if there is one. Errors: as `units_by`, and only at an instance without HVAR.
#[tactic(auto, unfolding(crate::specs::Found::glyph_units))]
pub(crate) fn glyph_units(
    alloc: Global,
    face: &Face,
    glyf: &Glyf,
    glyph: u16,
) -> Result<u16, FontFault>
    requires known { glyph < glyf.now.glyphs }
    requires metrics { glyf.now.glyphs ≡ glyphs_of face.now.metrics }
    ensures exact { FontGives (λ n. n) result (glyph_units face.now.instance face.now.metrics glyf.now glyph) }
{
    match face.instance() {
        Some(instance) => units_by(alloc, instance, face.metrics(), glyf, glyph),
        None => Ok(face.metrics().advance(glyph)),
    }
}

/// The advance of a glyph in font units. Errors, only at an instance without HVAR: those of loca and glyf, of reading the
/// glyph, GlyphVariation, Memory.
#[tactic(auto, unfolding(crate::specs::Found::face_units))]
pub fn face_units(alloc: Global, face: &Face, glyph: u16) -> Result<u16, FontFault>
    requires { glyph < glyphs_of face.now.metrics }
    ensures exact { FontGives (λ n. n) result (face_units face.now glyph) }
{
    if !face.finds_advances() {
        return Ok(face.metrics().advance(glyph));
    }
    let glyf = face.glyf()?;
    glyph_units(alloc, face, &glyf, glyph)
}

/// The advance of a glyph in font units; 0 where the glyph is refused. Error: memory ran out, at an instance without
/// HVAR alone.
#[tactic(auto, unfolding(crate::specs::Found::units_of))]
pub fn units_of(alloc: Global, face: &Face, glyph: u16) -> Result<u16, AllocError>
    requires { glyph < glyphs_of face.now.metrics }
    ensures { IfOk result (λ n. n ≡ units_of face.now glyph) }
{
    match face_units(alloc, face, glyph) {
        Ok(units) => Ok(units),
        Err(FontFault::Font(_)) => Ok(0),
        Err(FontFault::Memory) => Err(AllocError),
    }
}
