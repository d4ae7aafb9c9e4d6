//! Fits a text's glyphs, by whose steps the text is laid out.

ghost use Rattle.std.specs.Prelude.{◌≡◌, ◌<◌, ◌≤◌, true, length, map, chars, All, Ok, Err, IfOk};
ghost use Rattle.tt_core.specs.Limits.{text_limit};
ghost use Rattle.tt_core.specs.Outcomes.{IfTold, draw_font_fault};
ghost use Rattle.tt_fit.specs.Fitting.{Fitter};
ghost use Rattle.tt_line.specs.Layout.{text_glyphs};
ghost use Rattle.tt_metrics.specs.Metrics.{glyphs_of};
ghost use Rattle.tt_strike.specs.Defects.{IsMadeDefect, TellsDefects};
ghost use Rattle.tt_strike.specs.Fitted.{AreFittedUnits, outlines_made};
ghost use Rattle.tt_strike.specs.Makers.{job_at};
ghost use Rattle.tt_strike.specs.Picture.{made_line};
ghost use Rattle.tt_strike.specs.Refusals.{refusal};
ghost use Rattle.tt_strike.specs.Strikes.{IsCacheOf};
ghost use Rattle.tt_strike.specs.Work.{is_bounded};

use crate::fitting::FittedUnits;
use crate::sized::SizedFace;
use crate::steps::put_steps;
use std::alloc::AllocError;
use tt_core::DrawFault;
use tt_line::unit_advances;
use tt_picture::Cache;

/// A text whose glyphs are fitted.
#[derive(Drop)]
pub(crate) struct FittedText {
    /// The glyph of each unit, with its step.
    pub(crate) steps: Vec<(u16, u32)>,
    pub(crate) units: FittedUnits,
}

impl<'f, 'a> SizedFace<'f, 'a> {
    /// The glyph of each unit of a text, with its advance. Error: memory ran out.
    /// `fitted_text` is apart (for the prover): that function has no field of the strike.
    pub(crate) fn advances(&mut self, text: &str) -> Result<Vec<(u16, u32)>, AllocError>
        requires text { length (chars text.now) ≤ text_limit }
        ensures glyphs { IfOk result (λ v. map (λ g. g.0) v.items ≡ text_glyphs self.old.face.cmap text.now) }
        ensures known { IfOk result (λ v. All (λ g. g.0 < glyphs_of self.old.face.metrics) v.items) }
        ensures few { IfOk result (λ v. length v.items ≤ text_limit) }
        ensures same { self.new ≡ self.old }
    {
        let alloc = self.source.alloc;
        unit_advances(alloc, &mut self.known, text)
    }

    /// The glyphs of a text, fitted, and their steps; only where work is bounded. Errors: those of `fit_units`.
    pub(crate) fn fitted_text(&mut self, text: &str, cache: &Cache) -> Result<FittedText, DrawFault>
        requires text { length (chars text.now) ≤ text_limit }
        requires bounded { is_bounded self.old.fit ≡ true }
        requires cache { IsCacheOf self.old cache.now }
        ensures fitted { IfOk result (λ t. (s : Fitter) × AreFittedUnits self.old.face self.old.ppem self.old.fit (text_glyphs self.old.face.cmap text.now) t.units s
            × (t.steps.items ≡ made_line self.old.face.metrics self.old.ppem s (text_glyphs self.old.face.cmap text.now))) }
        ensures known { IfOk result (λ t. All (λ g. g.0 < glyphs_of self.old.face.metrics) t.steps.items) }
        ensures few { IfOk result (λ t. length t.steps.items ≤ text_limit) }
        ensures stops { IfTold refusal result (λ r. outlines_made self.old.face self.old.ppem self.old.fit (text_glyphs self.old.face.cmap text.now) ≡ Err r) }
        ensures defects { TellsDefects draw_font_fault (IsMadeDefect self.old.face (job_at self.old.ppem self.old.fit) (text_glyphs self.old.face.cmap text.now)) result }
        ensures same { self.new ≡ self.old }
    {
        let face = self.face();
        let ppem = self.ppem();
        let mut steps = self.advances(text)?;
        let units = self.fit_units(&steps, cache)?;
        put_steps(
            face.metrics(),
            ppem,
            &units.places,
            &units.fitted,
            &mut steps,
        );
        Ok(FittedText { steps, units })
    }
}
