//! The distinct glyphs of some units, fitted with the strike's fitter.

ghost use Rattle.std.specs.Prelude.{◌≡◌, ◌<◌, ◌≤◌, true, length, map, All, Err, IfOk};
ghost use Rattle.tt_core.specs.Limits.{text_limit};
ghost use Rattle.tt_core.specs.Outcomes.{IfTold, draw_font_fault};
ghost use Rattle.tt_metrics.specs.Metrics.{glyphs_of};
ghost use Rattle.tt_strike.specs.Defects.{IsMadeDefect, TellsDefects};
ghost use Rattle.tt_strike.specs.Fitted.{HasFittedUnits, outlines_made};
ghost use Rattle.tt_strike.specs.Makers.{job_at};
ghost use Rattle.tt_strike.specs.Refusals.{refusal};
ghost use Rattle.tt_strike.specs.Strikes.{IsCacheOf};
ghost use Rattle.tt_strike.specs.Work.{is_bounded};

use crate::distinct_glyphs::{DistinctGlyphs, distinct};
use crate::sized::SizedFace;
use crate::work::charge_asked;
use tt_core::DrawFault;
use tt_picture::{Cache, FittedGlyph, fit_glyphs};

/// Some units whose distinct glyphs are fitted.
#[derive(Drop)]
pub struct FittedUnits {
    /// For each glyph of the font 0, or one more than its place in `fitted`.
    pub places: Vec<u16>,
    /// The distinct glyphs, in order of first appearance.
    pub fitted: Vec<FittedGlyph>,
    /// The work that remains after the programs of the glyphs.
    pub left: Option<u64>,
}

impl<'f, 'a> SizedFace<'f, 'a> {
    /// The distinct glyphs of some units, fitted; only where work is bounded. Each comes from the cache where its cost is
    /// left, else it is made. Errors, the first of: those of loca and glyf, of the programs; WorkLarge of the points, and
    /// of the deltas; those of the glyphs in the order of the units. Memory may come at any allocation.
    pub fn fit_units(
        &mut self,
        units: &[(u16, u32)],
        cache: &Cache,
    ) -> Result<FittedUnits, DrawFault>
        requires known { All (λ g. g.0 < glyphs_of self.old.face.metrics) units.now }
        requires few { length units.now ≤ text_limit }
        requires bounded { is_bounded self.old.fit ≡ true }
        requires cache { IsCacheOf self.old cache.now }
        ensures fitted { IfOk result (HasFittedUnits self.old.face self.old.ppem self.old.fit (map (λ g. g.0) units.now)) }
        ensures room { IfOk result (λ t. length t.places.items ≡ glyphs_of self.old.face.metrics) }
        ensures stops { IfTold refusal result (λ r. outlines_made self.old.face self.old.ppem self.old.fit (map (λ g. g.0) units.now) ≡ Err r) }
        ensures defects { TellsDefects draw_font_fault (IsMadeDefect self.old.face (job_at self.old.ppem self.old.fit) (map (λ g. g.0) units.now)) result }
        ensures same { self.new ≡ self.old }
    {
        let source = self.source;
        let count = source.face.metrics().glyphs();
        let mut fitter = self.maker.take(&source)?;
        let begun = fitter.work();
        let met = distinct(source.alloc, &mut self.table, count, units)?;
        let DistinctGlyphs { places, numbers } = met;
        charge_asked(source.fit, &mut fitter, &numbers, cache)?;
        let fitted = fit_glyphs(source.alloc, &mut fitter, &numbers, cache)?;
        let left = fitter.work();
        self.maker.give_back(fitter, begun);
        Ok(FittedUnits {
            places,
            fitted,
            left,
        })
    }
}
