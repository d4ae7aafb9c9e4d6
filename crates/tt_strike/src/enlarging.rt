//! Measures or draws a line with the added columns and rows that its ink needs. Its glyphs are made once.

ghost use Rattle.std.specs.Prelude.{◌≡◌, Ok, Err, IfOk, IsOkAnd};
ghost use Rattle.tt_core.specs.Outcomes.{GivesUnless, IfTold, draw_font_fault};
ghost use Rattle.tt_line.specs.Layout.{text_glyphs};
ghost use Rattle.tt_line.specs.Outcome.{placement_of};
ghost use Rattle.tt_picture.specs.Cached.{limit_of};
ghost use Rattle.tt_picture.specs.Pictures.{image_of};
ghost use Rattle.tt_picture.specs.Unfitted.{ListsOnce};
ghost use Rattle.tt_strike.specs.Costs.{cost_by};
ghost use Rattle.tt_strike.specs.Defects.{IsLineDefect, TellsDefects};
ghost use Rattle.tt_strike.specs.Enlarged.{IsEnlarged};
ghost use Rattle.tt_strike.specs.Grown.{grown_measured, grown_outcome, grown_placement};
ghost use Rattle.tt_strike.specs.Measures.{measure_view};
ghost use Rattle.tt_strike.specs.Picture.{frame_of, laid_out};
ghost use Rattle.tt_strike.specs.Refusals.{refusal};
ghost use Rattle.tt_strike.specs.Report.{report_by};
ghost use Rattle.tt_strike.specs.Reported.{IsReported};
ghost use Rattle.tt_strike.specs.Strikes.{IsCacheOf, job_by};

use crate::growing::grown;
use crate::inked::InkedGlyphs;
use crate::laid::Laid;
use crate::line_box::line_ink;
use crate::making::MadeLine;
use crate::measuring::Measure;
use crate::sized::SizedFace;
use tt_core::DrawFault;
use tt_picture::{Cache, Picture, glyph_inks};

/// A line in whose picture no ink is cut, and the glyphs of the line before columns and rows were added.
#[derive(Drop)]
pub(crate) struct Enlarged {
    inked: InkedGlyphs,
    laid: Laid,
}

impl<'f, 'a> SizedFace<'f, 'a> {
    /// The line of a text with the fewest added columns and rows such that no ink is cut. Errors: as `make_line`, and
    /// PictureLarge. The glyphs are made once, and those that may be and are small enough are cached.
    fn enlarge(&mut self, text: &str, margin: u32, cache: &mut Cache) -> Result<Enlarged, DrawFault>
        requires cache { IsCacheOf self.old cache.old }
        ensures enlarged { IfOk result (λ e. IsOkAnd (laid_out self.old.face (job_by self.old text.now margin)) (λ l. IsEnlarged self.old.face (job_by self.old text.now margin) l (placement_of e.laid.line) e.inked.glyphs.made.items)) }
        ensures margin { IfOk result (λ e. e.laid.margin ≡ margin) }
        ensures cost { IfOk result (λ e. cost_by self.old.face (job_by self.old text.now margin) ≡ Ok e.inked.glyphs.cost) }
        ensures stops { IfTold refusal result (λ r. grown_placement self.old.face (job_by self.old text.now margin) ≡ Err r) }
        ensures cache { IsCacheOf self.old cache.new }
        ensures limit { limit_of cache.new ≡ limit_of cache.old }
        ensures same { self.new ≡ self.old }
        ensures defects { TellsDefects draw_font_fault (IsLineDefect self.old.face (job_by self.old text.now margin) (text_glyphs self.old.face.cmap text.now)) result }
    {
        let made = self.make_line(text, margin, cache)?;
        let MadeLine { laid, glyphs } = made;
        let inks = glyph_inks(self.alloc(), &glyphs.made)?;
        let inked = InkedGlyphs { glyphs, inks };
        let ink = line_ink(laid.placed(), &inked);
        let line = grown(laid.line, ink)?;
        Ok(Enlarged {
            inked,
            laid: Laid { line, margin },
        })
    }

    /// The picture of a text's line with the fewest added columns and rows such that no ink is cut. Errors: as `enlarge`.
    /// The picture is drawn from the glyphs whose ink was found. Nothing is measured.
    pub(crate) fn draw_grown(
        &mut self,
        text: &str,
        margin: u32,
        cache: &mut Cache,
    ) -> Result<Picture, DrawFault>
        requires cache { IsCacheOf self.old cache.old }
        ensures exact { GivesUnless refusal image_of result (grown_outcome self.old.face (job_by self.old text.now margin)) }
        ensures frame { IfOk result (λ p. IsOkAnd (grown_placement self.old.face (job_by self.old text.now margin)) (λ l. p.frame ≡ frame_of l margin)) }
        ensures reported { IfOk result (λ p. IsOkAnd (laid_out self.old.face (job_by self.old text.now margin)) (λ l. IsReported self.old.face (job_by self.old text.now margin) l p)) }
        ensures cache { IsCacheOf self.old cache.new }
        ensures limit { limit_of cache.new ≡ limit_of cache.old }
        ensures same { self.new ≡ self.old }
        ensures defects { TellsDefects draw_font_fault (IsLineDefect self.old.face (job_by self.old text.now margin) (text_glyphs self.old.face.cmap text.now)) result }
    {
        let enlarged = self.enlarge(text, margin, cache)?;
        let Enlarged { inked, laid } = enlarged;
        let frame = laid.frame();
        let picture = Picture::new(self.alloc(), frame, &inked.glyphs, &[laid.placed()])?;
        let InkedGlyphs { glyphs, .. } = inked;
        self.give_back(glyphs);
        Ok(picture)
    }

    /// The measure of the picture that `draw_grown` makes. Errors: as `enlarge`.
    pub(crate) fn measure_grown(
        &mut self,
        text: &str,
        margin: u32,
        cache: &mut Cache,
    ) -> Result<Measure, DrawFault>
        requires cache { IsCacheOf self.old cache.old }
        ensures exact { GivesUnless refusal measure_view result (grown_measured self.old.face (job_by self.old text.now margin)) }
        ensures report { IfOk result (λ m. report_by self.old.face (job_by self.old text.now margin) ≡ Ok m.report.unfitted.items) }
        ensures once { IfOk result (λ m. ListsOnce m.report.unfitted.items) }
        ensures cost { IfOk result (λ m. cost_by self.old.face (job_by self.old text.now margin) ≡ Ok m.report.cost) }
        ensures cache { IsCacheOf self.old cache.new }
        ensures limit { limit_of cache.new ≡ limit_of cache.old }
        ensures same { self.new ≡ self.old }
        ensures defects { TellsDefects draw_font_fault (IsLineDefect self.old.face (job_by self.old text.now margin) (text_glyphs self.old.face.cmap text.now)) result }
    {
        let enlarged = self.enlarge(text, margin, cache)?;
        let Enlarged { inked, laid } = enlarged;
        let measure = self.measure_by(&laid, &inked)?;
        let InkedGlyphs { glyphs, .. } = inked;
        self.give_back(glyphs);
        Ok(measure)
    }
}
