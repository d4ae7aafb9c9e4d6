//! Lays a text out by advances, once the text and its margin are tested. At an instance without HVAR they are found
//! first.

ghost use Rattle.std.specs.Prelude.{◌≡◌, ◌<◌, ◌≤◌, false, length, map, chars, All, IfOk, IsOkAnd};
ghost use Rattle.tt_advances.specs.Defects.{IsAdvanceDefect};
ghost use Rattle.tt_advances.specs.Found.{advances_tested};
ghost use Rattle.tt_advances.specs.Lines.{advance_extent};
ghost use Rattle.tt_core.specs.Limits.{margin_limit, text_limit};
ghost use Rattle.tt_core.specs.Outcomes.{GivesUnless, IfTold, JobGives, draw_font_fault, draw_job_fault};
ghost use Rattle.tt_line.specs.Layout.{extent_of, placement, text_glyphs, IsRefusal};
ghost use Rattle.tt_line.specs.Outcome.{placement_of};
ghost use Rattle.tt_metrics.specs.Metrics.{glyphs_of};
ghost use Rattle.tt_strike.specs.Defects.{IsLineRefusal, TellsDefects};
ghost use Rattle.tt_strike.specs.Picture.{laid_out, placed_by_units};
ghost use Rattle.tt_strike.specs.Refusals.{refusal};
ghost use Rattle.tt_strike.specs.Strikes.{job_by};
ghost use Rattle.tt_strike.specs.Work.{is_bounded};

use crate::job::{test_margin, test_text};
use crate::laid::Laid;
use crate::sized::SizedFace;
use tt_core::DrawFault;
use tt_line::{Line, lay, lay_steps};

impl<'f, 'a> SizedFace<'f, 'a> {
    /// Lays a tested text out by the data of its glyphs; only at an instance without HVAR, where work is not bounded.
    /// Errors, the first of: those of `unit_steps`; EmptyPicture, PictureLarge. Memory may come at any allocation.
    #[tactic(auto, unfolding(crate::specs::Picture::placed_by_units))]
    fn lay_found(&mut self, text: &str, margin: u32) -> Result<Laid, DrawFault>
        requires margin { margin ≤ margin_limit }
        requires text { length (chars text.now) ≤ text_limit }
        ensures exact { GivesUnless refusal (λ l. placement_of l.line) result (placed_by_units self.old.face (job_by self.old text.now margin)) }
        ensures margin { IfOk result (λ l. l.margin ≡ margin) }
        ensures glyphs { IfOk result (λ l. map (λ g. g.0) l.line.glyphs.items ≡ text_glyphs self.old.face.cmap text.now) }
        ensures known { IfOk result (λ l. All (λ g. g.0 < glyphs_of self.old.face.metrics) l.line.glyphs.items) }
        ensures defects { TellsDefects draw_font_fault (IsAdvanceDefect self.old.face (text_glyphs self.old.face.cmap text.now)) result }
        ensures job { IfTold draw_job_fault result (λ j. IsOkAnd (advances_tested self.old.face (text_glyphs self.old.face.cmap text.now))
            (λ u. IsRefusal (advance_extent self.old.face self.old.ppem margin (text_glyphs self.old.face.cmap text.now)) j)) }
        ensures same { self.new ≡ self.old }
    {
        let face = self.face();
        let ppem = self.ppem();
        let steps = self.unit_steps(text)?;
        let line = lay_steps(face.metrics(), steps, ppem, margin)?;
        Ok(Laid { line, margin })
    }

    /// Tests a margin and a text, and lays the text out by advances; only where work is not bounded. Errors, the first
    /// of: MarginRange, TextLong; at an instance without HVAR those of the advances; EmptyPicture, PictureLarge. Memory
    /// may come at any allocation.
    pub(crate) fn lay_out(&mut self, text: &str, margin: u32) -> Result<Laid, DrawFault>
        requires unbounded { is_bounded self.old.fit ≡ false }
        ensures exact { GivesUnless refusal (λ l. placement_of l.line) result (laid_out self.old.face (job_by self.old text.now margin)) }
        ensures margin { IfOk result (λ l. l.margin ≡ margin) }
        ensures glyphs { IfOk result (λ l. map (λ g. g.0) l.line.glyphs.items ≡ text_glyphs self.old.face.cmap text.now) }
        ensures known { IfOk result (λ l. All (λ g. g.0 < glyphs_of self.old.face.metrics) l.line.glyphs.items) }
        ensures defects { TellsDefects draw_font_fault (IsAdvanceDefect self.old.face (text_glyphs self.old.face.cmap text.now)) result }
        ensures job { IfTold draw_job_fault result (IsLineRefusal self.old.face (job_by self.old text.now margin)) }
        ensures same { self.new ≡ self.old }
    {
        // The size gives the fact that it was tested.
        let _ppem = self.ppem();
        test_margin(margin)?;
        test_text(text)?;
        if self.finds_advances() {
            return self.lay_found(text, margin);
        }
        let line = self.lay_by_tables(text, margin)?;
        Ok(Laid { line, margin })
    }

    /// Lays a tested text out by the advances of the tables. Errors: EmptyPicture, PictureLarge; Memory.
    /// `lay_out` is apart (for the prover): that function has no field of the strike.
    fn lay_by_tables(&mut self, text: &str, margin: u32) -> Result<Line, DrawFault>
        requires margin { margin ≤ margin_limit }
        requires text { length (chars text.now) ≤ text_limit }
        ensures exact { JobGives placement_of result (placement self.old.face.metrics self.old.face.cmap text.now self.old.ppem margin) }
        ensures glyphs { IfOk result (λ l. map (λ g. g.0) l.glyphs.items ≡ text_glyphs self.old.face.cmap text.now) }
        ensures known { IfOk result (λ l. All (λ g. g.0 < glyphs_of self.old.face.metrics) l.glyphs.items) }
        ensures fault { IfTold draw_job_fault result (IsRefusal (extent_of self.old.face.metrics self.old.ppem margin (text_glyphs self.old.face.cmap text.now))) }
        ensures same { self.new ≡ self.old }
    {
        let alloc = self.source.alloc;
        lay(alloc, &mut self.known, text, margin)
    }
}
