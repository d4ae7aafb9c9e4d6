//! Begins a glyph at an instance of a variable font. OpenType, "gvar".

ghost use Rattle.std.specs.Prelude.{◌≡◌, ◌<◌, [], length, All, IfOk};
ghost use Rattle.tt_core.specs.Outcomes.{FontGives, Gives};
ghost use Rattle.tt_glyf.specs.Raw.{composite, empty, simple};
ghost use Rattle.tt_fit.specs.Fitting.{begun_at_instance, ends_of, fine_start, simple_moved, whole_start, with_hinting};
ghost use Rattle.tt_fit.specs.Views.{begun_view, composite_view, fine_start_view, simple_view};
ghost use Rattle.tt_fit_hinting.specs.Views.{hinting_view};
ghost use Rattle.tt_fit_outline.specs.Views.{outline_of};
ghost use Rattle.tt_fit_variation.specs.Views.{deltas_view, glyph_view, points_view};

use crate::begun::{Begun, CompositeData, FineStart, SimpleData};
use crate::fitting::Fitter;
use std::alloc::AllocError;
use tt_core::{Fault, FontFault};
use tt_face::FaceInstance;
use tt_fit_hinting::Hinting;
use tt_fit_outline::{Outline, outline_in_place, scaled_phantom};
use tt_fit_variation::{
    EndDeltas, GlyphDeltas, GlyphVariation, InstancePoint, instance_places, instance_points,
    instance_units, moved_records,
};

/// The variations of the glyphs at an instance.
fn variation<'v, 'a>(instance: &'v FaceInstance<'a>) -> GlyphVariation<'v, 'a>
    ensures gvar { result.gvar.now ≡ instance.now.gvar }
    ensures coordinates { result.coordinates.now ≡ instance.now.coordinates }
{
    GlyphVariation {
        gvar: instance.gvar(),
        coordinates: instance.coordinates(),
    }
}

impl<'a> Fitter<'a> {
    /// The deltas of a glyph's phantom points. Where HVAR gives the advance, its right end does not move by gvar.
    fn ends(&self, deltas: &GlyphDeltas) -> EndDeltas
        ensures { deltas_view result ≡ ends_of self.now deltas.now.points (glyph_view deltas.now) }
    {
        deltas.ends(self.metrics().has_varied_advances())
    }

    /// A composite or an empty glyph without points: its phantom points are scaled from whole font units. Error:
    /// CoordRange.
    fn whole_start(&self, x_min: i16, g: u16, deltas: &GlyphDeltas) -> Result<Outline, Fault>
        requires { g < self.now.tables.glyphs }
        ensures exact { Gives outline_of result (whole_start self.now x_min g deltas.now.points (glyph_view deltas.now)) }
    {
        let ends = self.default_units(x_min, g);
        let units = self.ends(deltas).in_units(self.glyf.start(g), ends)?;
        self.start(scaled_phantom(self.size(), units), g)
    }

    /// A simple glyph without points: its phantom points are scaled from parts of a unit. Error: CoordRange.
    fn fine_start(
        &self,
        hinting: &Hinting<'a>,
        g: u16,
        data: &SimpleData<'a>,
        deltas: &GlyphDeltas,
    ) -> Result<FineStart, Fault>
        requires known { g < self.now.tables.glyphs }
        requires count { deltas.now.points ≡ length data.now.points.items }
        ensures exact { Gives fine_start_view result (fine_start (with_hinting self.now (hinting_view hinting.now)) g (simple_view data.now) (glyph_view deltas.now)) }
    {
        let ends = self.default_units(data.x_min, g);
        let moves = self.ends(deltas);
        let units = moves.in_units(self.glyf.start(g), ends)?;
        let phantom = moves.in_pixels(self.size().scale, ends);
        let outline = self.simple_start(hinting, phantom, g, data.code)?;
        Ok(FineStart { units, outline })
    }

    /// A simple glyph with its points in their places. Error: out of memory.
    fn simple_moved(
        &self,
        hinting: &Hinting<'a>,
        g: u16,
        data: &SimpleData<'a>,
        start: FineStart,
        moved: &[InstancePoint],
    ) -> Result<Begun<'a>, AllocError>
        requires known { g < self.now.tables.glyphs }
        requires count { length moved.now ≡ length data.now.points.items }
        ensures exact { IfOk result (λ b. begun_view b ≡ simple_moved (with_hinting self.now (hinting_view hinting.now)) g (simple_view data.now) (fine_start_view start) (points_view moved.now)) }
        ensures records { IfOk result (λ b. b.records.items ≡ []) }
    {
        let FineStart { units, outline } = start;
        let places = instance_places(self.alloc, moved)?;
        let outline = outline_in_place(self.alloc, places, &data.ends, outline)?;
        let units = self.own_units(instance_units(self.alloc, moved)?, units);
        Ok(Begun {
            outline,
            records: Vec::new(self.alloc),
            program: self.program(hinting, g, data.code, data.code_at, units),
        })
    }

    /// An empty glyph at an instance. Errors: GlyphVariation, CoordRange, Memory.
    pub(crate) fn empty_at(
        &self,
        hinting: &Hinting<'a>,
        instance: &FaceInstance<'a>,
        g: u16,
    ) -> Result<Begun<'a>, FontFault>
        requires { g < self.now.tables.glyphs }
        ensures exact { FontGives begun_view result (begun_at_instance instance.now (with_hinting self.now (hinting_view hinting.now)) g empty) }
        ensures records { IfOk result (λ b. b.records.items ≡ []) }
    {
        let deltas = variation(instance).of_composite(self.alloc, g, &[])?;
        let start = self.whole_start(0, g, &deltas)?;
        Ok(self.empty_begun(hinting, g, start))
    }

    /// A simple glyph at an instance. Errors: GlyphVariation, CoordRange, Memory.
    pub(crate) fn simple_at(
        &self,
        hinting: &Hinting<'a>,
        instance: &FaceInstance<'a>,
        g: u16,
        data: SimpleData<'a>,
    ) -> Result<Begun<'a>, FontFault>
        requires { g < self.now.tables.glyphs }
        ensures exact { FontGives begun_view result (begun_at_instance instance.now (with_hinting self.now (hinting_view hinting.now)) g (simple (simple_view data.entry))) }
        ensures records { IfOk result (λ b. b.records.items ≡ []) }
    {
        let deltas = variation(instance).of_simple(self.alloc, g, &data.points, &data.ends)?;
        let start = self.fine_start(hinting, g, &data, &deltas)?;
        let at = self.glyf.start(g);
        let size = self.size();
        let moved = instance_points(self.alloc, size, at, &data.points, &deltas.xs, &deltas.ys)?;
        Ok(self.simple_moved(hinting, g, &data, start, &moved)?)
    }

    /// A composite glyph at an instance. Errors: GlyphVariation, CoordRange, Memory.
    pub(crate) fn composite_at(
        &self,
        hinting: &Hinting<'a>,
        instance: &FaceInstance<'a>,
        g: u16,
        data: CompositeData<'a>,
    ) -> Result<Begun<'a>, FontFault>
        requires known { g < self.now.tables.glyphs }
        requires components { All (λ r. r.glyph < self.now.tables.glyphs) data.records.items }
        ensures exact { FontGives begun_view result (begun_at_instance instance.now (with_hinting self.now (hinting_view hinting.now)) g (composite (composite_view data.entry))) }
        ensures known { IfOk result (λ b. All (λ r. r.glyph < self.now.tables.glyphs) b.records.items) }
    {
        let deltas = variation(instance).of_composite(self.alloc, g, &data.records)?;
        let start = self.whole_start(data.x_min, g, &deltas)?;
        let records = moved_records(self.alloc, &data.records, &deltas.xs, &deltas.ys)?;
        let CompositeData { code, code_at, .. } = data;
        Ok(self.composite_begun(hinting, g, code, code_at, records, start))
    }
}
