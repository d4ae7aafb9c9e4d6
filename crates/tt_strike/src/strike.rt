//! A font at a size, which draws many lines and runs its programs once.

ghost use Rattle.std.specs.Prelude.{◌≡◌, ◌≤◌, [], Ok, IfOk, IsOkAnd};
ghost use Rattle.tt_core.specs.Outcomes.{GivesUnless, IfTold, draw_font_fault, draw_job_fault};
ghost use Rattle.tt_line.specs.Layout.{text_glyphs};
ghost use Rattle.tt_picture.specs.Pictures.{IsReady, image_of};
ghost use Rattle.tt_picture.specs.Unfitted.{ListsOnce};
ghost use Rattle.tt_strike.specs.Costs.{cost_by};
ghost use Rattle.tt_strike.specs.Defects.{IsLineDefect, IsLineRefusal, TellsDefects};
ghost use Rattle.tt_strike.specs.Grown.{grown_measured, grown_outcome, grown_placement};
ghost use Rattle.tt_strike.specs.Job.{size_tested, IsSizeRefusal};
ghost use Rattle.tt_strike.specs.Measures.{measure_view, measured};
ghost use Rattle.tt_strike.specs.Picture.{frame_of, line_outcome, text_placed};
ghost use Rattle.tt_strike.specs.Refusals.{as_job, refusal};
ghost use Rattle.tt_strike.specs.Report.{report_by};
ghost use Rattle.tt_strike.specs.Strikes.{IsFresh, job_of};
ghost use Rattle.tt_strike_kept.specs.Kept.{bytes_in};

use crate::measuring::Measure;
use crate::sized::SizedFace;
use std::alloc::{AllocError, Global};
use std::marker::Model;
use tt_core::DrawFault;
use tt_face::Face;
use tt_fit::Fit;
use tt_picture::{Cache, Picture};

/// A font at a size with a fit, which draws lines one after the other. The font's programs run once, when the first
/// line is drawn. Glyphs are cached for later lines. With `Fit::Best` a line pays from its own work for the font's
/// programs and for cached glyphs. Clauses see the font's tables, the size, the fit and the cache's limit in bytes. They
/// see the cached glyphs with their numbers too, the newest first. A line changes the cached glyphs alone.
#[derive(Drop)]
pub struct Strike<'f, 'a> {
    pub sized: SizedFace<'f, 'a>,
    pub cache: Cache,
    /// The limit of the cache in bytes, also where there is none.
    pub most: usize,
}

impl<'f, 'a> Model for Strike<'f, 'a> {
    ghost use Rattle.std.specs.Prelude.{◌≤◌, IfSome};
    ghost use Rattle.tt_picture.specs.Cached.{entries_of, limit_of};
    ghost use Rattle.tt_strike.specs.Strikes as strikes;

    ghost Value = { strikes.Strike };

    ghost view = { λ s. record {
      face = s.sized.face;
      ppem = s.sized.ppem;
      fit = s.sized.fit;
      most = s.most;
      kept = entries_of s.cache;
    } };

    ghost invariant = { λ s. strikes.IsCacheOf s.sized s.cache × IfSome (limit_of s.cache) (λ most. most ≤ s.most) };
}

/// A cache of at most `most` bytes for a font at a size. None where the limit is 0. Error: Memory.
fn open_cache(alloc: Global, most: usize) -> Result<Cache, AllocError>
    ensures { IfOk result (IsFresh most) }
{
    if most == 0 {
        return Ok(Cache::absent());
    }
    Cache::new(alloc, most)
}

impl<'f, 'a> Strike<'f, 'a> {
    /// A font at a size in pixels per em, 1 to 300, with a glyph cache of at most `most` bytes; 0 for no cache. Only
    /// the face's tables are read so far. Errors: SizeRange, Memory.
    pub fn new(
        alloc: Global,
        face: &'f Face<'a>,
        ppem: u32,
        fit: Fit,
        most: usize,
    ) -> Result<Strike<'f, 'a>, DrawFault>
        ensures tested { GivesUnless refusal (λ s. tt) result (as_job (size_tested ppem)) }
        ensures exact { IfOk result (λ s. s ≡ record { face = face.now; ppem = ppem; fit = fit; most = most; kept = [] }) }
        ensures font { IfTold draw_font_fault result (λ _. ⊥) }
        ensures refused { IfTold draw_job_fault result (IsSizeRefusal ppem) }
    {
        let sized = SizedFace::new(alloc, face, ppem, fit)?;
        let cache = open_cache(alloc, most)?;
        Ok(Strike { sized, cache, most })
    }

    /// The picture of a text of at most 4,096 characters, with a margin of 0 to 64 pixels: the picture that `run` would
    /// write for this font and job. Errors, the first of: MarginRange, TextLong; EmptyPicture, PictureLarge; those of
    /// loca and glyf; those of the programs; those of the glyphs in the order of the text. With `Fit::Best` EmptyPicture
    /// and PictureLarge come after those of the glyphs. Before the glyphs comes WorkLarge of their points, and of their
    /// deltas, and at the end WorkLarge of their chords and of their crossings. With any other fit, at an instance
    /// without HVAR, those of loca and glyf and of the glyphs' advances come before EmptyPicture. Memory may come at
    /// any allocation. A refused line too may change the cached glyphs. `SizedFace::draw` is apart (for the prover):
    /// that function has the face and the cache one by one.
    #[tactic(auto, unfolding(crate::specs::Report::report_by, crate::specs::Costs::cost_by))]
    pub fn line(&mut self, text: &str, margin: u32) -> Result<Picture, DrawFault>
        ensures exact { GivesUnless refusal image_of result (line_outcome self.old.face (job_of self.old text.now margin)) }
        ensures valid { IfOk result IsReady }
        ensures frame { IfOk result (λ p. IsOkAnd (text_placed self.old.face (job_of self.old text.now margin)) (λ l. p.frame ≡ frame_of l margin)) }
        ensures report { IfOk result (λ p. report_by self.old.face (job_of self.old text.now margin) ≡ Ok p.unfitted) }
        ensures once { IfOk result (λ p. ListsOnce p.unfitted) }
        ensures cost { IfOk result (λ p. cost_by self.old.face (job_of self.old text.now margin) ≡ Ok p.cost) }
        ensures defects { TellsDefects draw_font_fault (IsLineDefect self.old.face (job_of self.old text.now margin) (text_glyphs self.old.face.cmap text.now)) result }
        ensures job { IfTold draw_job_fault result (IsLineRefusal self.old.face (job_of self.old text.now margin)) }
        ensures same { self.new ≡ record self.old { kept = self.new.kept } }
    {
        self.sized.draw(text, margin, &mut self.cache)
    }

    /// The base line, the ink and the characters' places of a text's picture, without the picture. Errors as those of
    /// `line`. Glyphs are cached as by `line`.
    /// `SizedFace::measure` is apart (for the prover): that function has the face and the cache one by one.
    pub fn measure(&mut self, text: &str, margin: u32) -> Result<Measure, DrawFault>
        ensures exact { GivesUnless refusal measure_view result (measured self.old.face (job_of self.old text.now margin)) }
        ensures report { IfOk result (λ m. report_by self.old.face (job_of self.old text.now margin) ≡ Ok m.report.unfitted.items) }
        ensures once { IfOk result (λ m. ListsOnce m.report.unfitted.items) }
        ensures cost { IfOk result (λ m. cost_by self.old.face (job_of self.old text.now margin) ≡ Ok m.report.cost) }
        ensures defects { TellsDefects draw_font_fault (IsLineDefect self.old.face (job_of self.old text.now margin) (text_glyphs self.old.face.cmap text.now)) result }
        ensures job { IfTold draw_job_fault result (IsLineRefusal self.old.face (job_of self.old text.now margin)) }
        ensures same { self.new ≡ record self.old { kept = self.new.kept } }
    {
        self.sized.measure(text, margin, &mut self.cache)
    }

    /// The picture of a text with the fewest added columns and rows such that no ink is cut; equal to that of `line`
    /// where none is. Errors: those of `line`, and PictureLarge of the larger picture. A refused line too may change the
    /// cached glyphs.
    /// `SizedFace::draw_grown` is apart (for the prover): that function has the face and the cache one by one.
    #[tactic(auto, unfolding(crate::specs::Report::report_by, crate::specs::Costs::cost_by))]
    pub fn grown_line(&mut self, text: &str, margin: u32) -> Result<Picture, DrawFault>
        ensures exact { GivesUnless refusal image_of result (grown_outcome self.old.face (job_of self.old text.now margin)) }
        ensures valid { IfOk result IsReady }
        ensures frame { IfOk result (λ p. IsOkAnd (grown_placement self.old.face (job_of self.old text.now margin)) (λ l. p.frame ≡ frame_of l margin)) }
        ensures report { IfOk result (λ p. report_by self.old.face (job_of self.old text.now margin) ≡ Ok p.unfitted) }
        ensures once { IfOk result (λ p. ListsOnce p.unfitted) }
        ensures cost { IfOk result (λ p. cost_by self.old.face (job_of self.old text.now margin) ≡ Ok p.cost) }
        ensures defects { TellsDefects draw_font_fault (IsLineDefect self.old.face (job_of self.old text.now margin) (text_glyphs self.old.face.cmap text.now)) result }
        ensures same { self.new ≡ record self.old { kept = self.new.kept } }
    {
        self.sized.draw_grown(text, margin, &mut self.cache)
    }

    /// The measure of the picture that `grown_line` makes. Errors: those of `measure`, and PictureLarge of the larger
    /// picture. Glyphs are cached as by `line`.
    /// `SizedFace::measure_grown` is apart (for the prover): that function has the face and the cache one by one.
    pub fn grown_measure(&mut self, text: &str, margin: u32) -> Result<Measure, DrawFault>
        ensures exact { GivesUnless refusal measure_view result (grown_measured self.old.face (job_of self.old text.now margin)) }
        ensures report { IfOk result (λ m. report_by self.old.face (job_of self.old text.now margin) ≡ Ok m.report.unfitted.items) }
        ensures once { IfOk result (λ m. ListsOnce m.report.unfitted.items) }
        ensures cost { IfOk result (λ m. cost_by self.old.face (job_of self.old text.now margin) ≡ Ok m.report.cost) }
        ensures defects { TellsDefects draw_font_fault (IsLineDefect self.old.face (job_of self.old text.now margin) (text_glyphs self.old.face.cmap text.now)) result }
        ensures same { self.new ≡ record self.old { kept = self.new.kept } }
    {
        self.sized.measure_grown(text, margin, &mut self.cache)
    }

    /// The bytes of the cached glyphs: for each those of its bitmap's words, and 224. The newest glyphs are cached.
    pub fn kept_bytes(&self) -> usize
        ensures exact { result ≡ bytes_in self.now.kept }
        ensures most { result ≤ self.now.most }
    {
        self.cache.bytes()
    }

    /// The font's tables, which outlive this loan of the strike.
    pub fn face(&self) -> &'f Face<'a>
        ensures { result.now ≡ self.now.face }
    {
        self.sized.face()
    }
}
