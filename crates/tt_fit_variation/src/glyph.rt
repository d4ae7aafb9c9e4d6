//! The points of a glyph with the deltas of an instance. OpenType, "gvar".

ghost use Rattle.std.specs.Prelude.{◌≡◌, ◌+◌, ◌++◌, ◌^◌, ◌≤◌, [], length, map, All, IfOk};
ghost use Rattle.tt_core.specs.Limits.{component_limit, font_limit, point_limit};
ghost use Rattle.tt_core.specs.Outcomes.{FontGives};
ghost use Rattle.tt_deltas.specs.Along.{IsStill, IsWithin};
ghost use Rattle.tt_glyf.specs.Meaning.{AreEnds};
ghost use Rattle.tt_fit_variation.specs.Glyph.{composite_deltas, four_ends, simple_deltas, still_part, still_x, still_y};
ghost use Rattle.tt_fit_variation.specs.Ends.{end_deltas};
ghost use Rattle.tt_fit_variation.specs.Views.{deltas_view, glyph_view};

use crate::end::EndDeltas;
use crate::ends::end_deltas;
use crate::varied_glyph::GlyphDeltas;
use std::alloc::{AllocError, Global};
use tt_axes::InstanceCoordinates;
use tt_core::FontFault;
use tt_deltas::{Gvar, Varied};
use tt_glyf::{RawPoint, Record};

/// The variations of a font's glyphs at an instance.
#[derive(Clone, Copy)]
pub struct GlyphVariation<'v, 'a> {
    pub gvar: &'v Gvar<'a>,
    pub coordinates: &'v InstanceCoordinates,
}

/// A phantom point's coordinate, not moved. Only coordinates of contours are looked at.
const END: Varied = Varied { at: 0, delta: 0 };

/// The coordinates, and those of four phantom points.
fn with_ends(coordinates: Vec<Varied>) -> Result<Vec<Varied>, AllocError>
    requires { All IsStill coordinates.items }
    ensures exact { IfOk result (λ v. v.items ≡ coordinates.items ++ four_ends) }
    ensures still { IfOk result (λ v. All IsStill v.items) }
    ensures count { IfOk result (λ v. length v.items ≡ length coordinates.items + 4) }
{
    let mut all = coordinates;
    all.push(END)?;
    all.push(END)?;
    all.push(END)?;
    all.push(END)?;
    Ok(all)
}

/// x of points, not moved.
fn still_xs(alloc: Global, points: &[RawPoint]) -> Result<Vec<Varied>, AllocError>
    ensures exact { IfOk result (λ v. v.items ≡ map still_x points.now) }
    ensures still { IfOk result (λ v. All IsStill v.items) }
{
    points
        .iter()
        .map(|p| Varied { at: p.x, delta: 0 })
        .collect(alloc)
}

/// y of points, not moved.
fn still_ys(alloc: Global, points: &[RawPoint]) -> Result<Vec<Varied>, AllocError>
    ensures exact { IfOk result (λ v. v.items ≡ map still_y points.now) }
    ensures still { IfOk result (λ v. All IsStill v.items) }
{
    points
        .iter()
        .map(|p| Varied { at: p.y, delta: 0 })
        .collect(alloc)
}

/// For each component a coordinate, not moved.
fn still_parts(alloc: Global, records: &[Record]) -> Result<Vec<Varied>, AllocError>
    ensures exact { IfOk result (λ v. v.items ≡ map still_part records.now) }
    ensures still { IfOk result (λ v. All IsStill v.items) }
{
    records
        .iter()
        .map(|_| Varied { at: 0, delta: 0 })
        .collect(alloc)
}

impl GlyphVariation<'_, '_> {
    /// The points of a simple glyph with their deltas. Errors: GlyphVariation, Memory.
    pub fn of_simple(
        &self,
        alloc: Global,
        g: u16,
        points: &[RawPoint],
        ends: &[u16],
    ) -> Result<GlyphDeltas, FontFault>
        requires few { length points.now ≤ point_limit }
        requires ends { AreEnds (length points.now) ends.now }
        ensures exact { FontGives glyph_view result (simple_deltas self.now.gvar.now self.now.coordinates.now g points.now ends.now) }
        ensures count { IfOk result (λ d. d.points ≡ length points.now) }
    {
        let mut xs = with_ends(still_xs(alloc, points)?)?;
        let mut ys = with_ends(still_ys(alloc, points)?)?;
        self.gvar
            .vary(alloc, g, self.coordinates, &mut xs, &mut ys, ends)?;
        Ok(GlyphDeltas {
            xs,
            ys,
            points: points.len(),
        })
    }

    /// The components of a composite glyph with their deltas. An empty glyph has none. Errors: GlyphVariation, Memory.
    pub fn of_composite(
        &self,
        alloc: Global,
        g: u16,
        records: &[Record],
    ) -> Result<GlyphDeltas, FontFault>
        requires few { length records.now ≤ component_limit }
        ensures exact { FontGives glyph_view result (composite_deltas self.now.gvar.now self.now.coordinates.now g records.now) }
        ensures count { IfOk result (λ d. d.points ≡ length records.now) }
    {
        let mut xs = with_ends(still_parts(alloc, records)?)?;
        let mut ys = with_ends(still_parts(alloc, records)?)?;
        self.gvar
            .vary(alloc, g, self.coordinates, &mut xs, &mut ys, &[])?;
        Ok(GlyphDeltas {
            xs,
            ys,
            points: records.len(),
        })
    }
}

impl GlyphDeltas {
    /// The deltas of the phantom points. Where HVAR gives the advance, its right end does not move by gvar. Apart from
    /// `end_deltas` (for the prover), which takes slices.
    pub fn ends(&self, by_hvar: bool) -> EndDeltas
        ensures { deltas_view result ≡ end_deltas by_hvar self.now.points (glyph_view self.now) }
    {
        end_deltas(by_hvar, self.points, &self.xs, &self.ys)
    }
}
