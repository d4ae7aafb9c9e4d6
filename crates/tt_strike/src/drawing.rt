//! Makes the glyphs of a line that is laid out, and draws them.

ghost use Rattle.std.specs.Prelude.{◌≡◌, ◌<◌, true, false, map, All, Ok, Err, IfOk, IsOkAnd};
ghost use Rattle.tt_core.specs.Outcomes.{GivesUnless, IfTold, draw_font_fault, draw_job_fault};
ghost use Rattle.tt_line.specs.Layout.{text_glyphs};
ghost use Rattle.tt_line.specs.Outcome.{placement_of};
ghost use Rattle.tt_metrics.specs.Metrics.{glyphs_of};
ghost use Rattle.tt_picture.specs.Cached.{limit_of};
ghost use Rattle.tt_picture.specs.Pictures.{image_of};
ghost use Rattle.tt_strike.specs.Costs.{line_cost};
ghost use Rattle.tt_strike.specs.Defects.{IsLineDefect, IsLineRefusal, IsMadeDefect, TellsDefects};
ghost use Rattle.tt_strike.specs.Fitted.{HasFittedUnits};
ghost use Rattle.tt_strike.specs.Made.{AreMade, shapes_made};
ghost use Rattle.tt_strike.specs.Picture.{frame_of, laid_out, line_outcome};
ghost use Rattle.tt_strike.specs.Refusals.{refusal};
ghost use Rattle.tt_strike.specs.Reported.{IsReported};
ghost use Rattle.tt_strike.specs.Strikes.{IsCacheOf, job_by, job_with};
ghost use Rattle.tt_strike.specs.Work.{is_bounded};

use crate::distinct_glyphs::{DistinctGlyphs, distinct};
use crate::fitting::FittedUnits;
use crate::laid::Laid;
use crate::making::{MadeLine, tested_edges};
use crate::sized::SizedFace;
use tt_core::DrawFault;
use tt_picture::{Cache, Glyphs, Picture, made_glyphs};

impl<'f, 'a> SizedFace<'f, 'a> {
    /// The glyphs of a laid-out line; only where work is not bounded. Those that may be and are small enough are cached.
    /// Errors: those of loca and glyf, of the programs, and of the glyphs in the order of the line; Memory.
    pub fn tested_glyphs(&mut self, laid: &Laid, cache: &mut Cache) -> Result<Glyphs, DrawFault>
        requires known { All (λ g. g.0 < glyphs_of self.old.face.metrics) laid.now.line.glyphs.items }
        requires cache { IsCacheOf self.old cache.old }
        requires unbounded { is_bounded self.old.fit ≡ false }
        ensures made { IfOk result (λ g. AreMade self.old.face (job_with self.old laid.now.margin) (placement_of laid.now.line) g.made.items) }
        ensures cost { IfOk result (λ g. line_cost self.old.face (job_with self.old laid.now.margin) (placement_of laid.now.line) ≡ Ok g.cost) }
        ensures stops { IfTold refusal result (λ r. shapes_made self.old.face (job_with self.old laid.now.margin) (placement_of laid.now.line) ≡ Err r) }
        ensures cache { IsCacheOf self.old cache.new }
        ensures limit { limit_of cache.new ≡ limit_of cache.old }
        ensures same { self.new ≡ self.old }
        ensures defects { TellsDefects draw_font_fault (IsMadeDefect self.old.face (job_with self.old laid.now.margin) (map (λ g. g.0) laid.now.line.glyphs.items)) result }
        ensures job { IfTold draw_job_fault result (λ j. ⊥) }
    {
        tt_fit::laws::work_unfits();
        let source = self.source;
        let count = source.face.metrics().glyphs();
        let met = distinct(source.alloc, &mut self.table, count, &laid.line.glyphs)?;
        let DistinctGlyphs { places, numbers } = met;
        let mut fitter = self.maker.take(&source)?;
        let begun = fitter.work();
        let made = made_glyphs(source.alloc, &mut fitter, &numbers, cache)?;
        self.maker.give_back(fitter, begun);
        Ok(Glyphs {
            places,
            made,
            cost: 0,
        })
    }

    /// The glyphs of a laid-out line whose units are fitted, drawn; only where work is bounded. Those that may be and are
    /// small enough are cached. Errors: WorkLarge of their chords, and then of their crossings by the work that is left;
    /// Memory.
    pub fn drawn_units(
        &self,
        units: FittedUnits,
        laid: &Laid,
        cache: &mut Cache,
    ) -> Result<Glyphs, DrawFault>
        requires bounded { is_bounded self.now.fit ≡ true }
        requires fitted { HasFittedUnits self.now.face self.now.ppem self.now.fit (map (λ g. g.0) laid.now.line.glyphs.items) units }
        requires cache { IsCacheOf self.now cache.old }
        ensures made { IfOk result (λ g. AreMade self.now.face (job_with self.now laid.now.margin) (placement_of laid.now.line) g.made.items) }
        ensures cost { IfOk result (λ g. line_cost self.now.face (job_with self.now laid.now.margin) (placement_of laid.now.line) ≡ Ok g.cost) }
        ensures stops { IfTold refusal result (λ r. shapes_made self.now.face (job_with self.now laid.now.margin) (placement_of laid.now.line) ≡ Err r) }
        ensures font { IfTold draw_font_fault result (λ _. ⊥) }
        ensures cache { IsCacheOf self.now cache.new }
        ensures limit { limit_of cache.new ≡ limit_of cache.old }
    {
        let FittedUnits {
            places,
            fitted,
            left,
        } = units;
        tested_edges(self.alloc(), self.fit(), places, fitted, laid, left, cache)
    }

    /// The picture of a text. Errors: as `make_line`.
    #[tactic(auto, unfolding(crate::specs::Picture::line_outcome, crate::specs::Picture::pictured_by, crate::specs::Picture::drawn))]
    pub(crate) fn draw(
        &mut self,
        text: &str,
        margin: u32,
        cache: &mut Cache,
    ) -> Result<Picture, DrawFault>
        requires cache { IsCacheOf self.old cache.old }
        ensures exact { GivesUnless refusal image_of result (line_outcome self.old.face (job_by self.old text.now margin)) }
        ensures frame { IfOk result (λ p. IsOkAnd (laid_out self.old.face (job_by self.old text.now margin)) (λ l. p.frame ≡ frame_of l margin)) }
        ensures reported { IfOk result (λ p. IsOkAnd (laid_out self.old.face (job_by self.old text.now margin)) (λ l. IsReported self.old.face (job_by self.old text.now margin) l p)) }
        ensures cache { IsCacheOf self.old cache.new }
        ensures limit { limit_of cache.new ≡ limit_of cache.old }
        ensures same { self.new ≡ self.old }
        ensures defects { TellsDefects draw_font_fault (IsLineDefect self.old.face (job_by self.old text.now margin) (text_glyphs self.old.face.cmap text.now)) result }
        ensures job { IfTold draw_job_fault result (IsLineRefusal self.old.face (job_by self.old text.now margin)) }
    {
        let made = self.make_line(text, margin, cache)?;
        let MadeLine { laid, glyphs } = made;
        let frame = laid.frame();
        let picture = Picture::new(self.alloc(), frame, &glyphs, &[laid.placed()])?;
        self.give_back(glyphs);
        Ok(picture)
    }
}
