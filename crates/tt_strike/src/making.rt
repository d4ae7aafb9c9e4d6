//! Lays out the line of a text, and makes and tests its glyphs.

ghost use Rattle.std.specs.Prelude.{◌≡◌, ℕ, map, true, false, List, Ok, Err, IfOk};
ghost use Rattle.tt_core.specs.Outcomes.{GivesUnless, IfTold, draw_font_fault, draw_job_fault, each};
ghost use Rattle.tt_fit.specs.Fitting.{Fitter};
ghost use Rattle.tt_fit.specs.GlyphCost.{without_work};
ghost use Rattle.tt_line.specs.Layout.{text_glyphs};
ghost use Rattle.tt_line.specs.Outcome.{placement_of};
ghost use Rattle.tt_picture.specs.Cached.{IsCacheFor, limit_of};
ghost use Rattle.tt_picture.specs.Distinct.{distinct};
ghost use Rattle.tt_picture.specs.Fitted.{AreFitted, fitted_chords, fitted_numbers};
ghost use Rattle.tt_picture.specs.Glyphs.{AreDrawn, ArePlaces, numbers_of};
ghost use Rattle.tt_picture.specs.Pixels.{Shape};
ghost use Rattle.tt_picture.specs.Shapes.{crossings_in, glyph_shape};
ghost use Rattle.tt_strike.specs.Costs.{cost_of};
ghost use Rattle.tt_strike.specs.Defects.{IsLineDefect, IsLineRefusal, TellsDefects};
ghost use Rattle.tt_strike.specs.Made.{IsMadeLine, text_shapes};
ghost use Rattle.tt_strike.specs.Refusals.{as_job, refusal};
ghost use Rattle.tt_strike.specs.Strikes.{IsCacheOf, job_by};
ghost use Rattle.tt_strike.specs.Work.{edges_limited, is_bounded};

use crate::job::{test_margin, test_text};
use crate::laid::Laid;
use crate::sized::SizedFace;
use crate::stepping::FittedText;
use crate::work::{CHORD_LIMIT, cost_of, crossings_allowed, is_bounded, test_crossings};
use std::alloc::Global;
use tt_core::{DrawFault, JobFault};
use tt_fit::Fit;
use tt_line::lay_steps;
use tt_picture::{Cache, FittedGlyph, Glyphs, LineLimits, drawn_glyphs};

/// A line that is laid out, and its glyphs, which are made and tested.
#[derive(Drop)]
pub(crate) struct MadeLine {
    pub(crate) laid: Laid,
    pub(crate) glyphs: Glyphs,
}

/// The glyphs of a line, fitted before, with the table of their places, where work is bounded. Those that may be and are
/// small enough are cached. Errors: WorkLarge of their chords, and then of their crossings by the work that is left;
/// Memory.
pub(crate) fn tested_edges(
    alloc: Global,
    fit: Fit,
    places: Vec<u16>,
    fitted: Vec<FittedGlyph>,
    laid: &Laid,
    left: Option<u64>,
    cache: &mut Cache,
) -> Result<Glyphs, DrawFault>
    requires bounded { is_bounded fit ≡ true }
    requires made { (maker : ℕ → Fitter) × AreFitted maker fitted.items }
    requires places { ArePlaces places.items (fitted_numbers fitted.items) }
    requires numbers { fitted_numbers fitted.items ≡ distinct (map (λ g. g.0) laid.now.line.glyphs.items) }
    ensures numbers { IfOk result (λ g. numbers_of g.made.items ≡ fitted_numbers fitted.items) }
    ensures drawn { IfOk result (λ g. (maker : ℕ → Fitter) → AreFitted maker fitted.items → AreDrawn maker g.made.items) }
    ensures exact { (maker : ℕ → Fitter) (shapes : List Shape) → AreFitted maker fitted.items → each (glyph_shape maker) laid.now.line.glyphs.items ≡ Ok shapes
        → GivesUnless refusal (λ g. tt) result (as_job (edges_limited fit left (fitted_chords fitted.items) (crossings_in shapes))) }
    ensures cost { (maker : ℕ → Fitter) (shapes : List Shape) → AreFitted maker fitted.items → each (glyph_shape maker) laid.now.line.glyphs.items ≡ Ok shapes
        → IfOk result (λ g. g.cost ≡ cost_of left (crossings_in shapes)) }
    ensures cached { (maker : ℕ → Fitter) (s : Fitter) → AreFitted maker fitted.items
        → ((n : ℕ) → without_work (maker n) ≡ without_work s) → IsCacheFor s cache.old → IsCacheFor s cache.new }
    ensures limit { limit_of cache.new ≡ limit_of cache.old }
{
    let allowed = crossings_allowed(left);
    let limits = LineLimits {
        chords: CHORD_LIMIT,
        crossings: allowed,
    };
    let Some(made) = drawn_glyphs(alloc, fitted, limits, cache)? else {
        return Err(DrawFault::Job(JobFault::WorkLarge));
    };
    let glyphs = Glyphs {
        places,
        made,
        cost: 0,
    };
    let crossings = test_crossings(fit, allowed, &glyphs, &laid.line.glyphs)?;
    let Glyphs { places, made, .. } = glyphs;
    Ok(Glyphs {
        places,
        made,
        cost: cost_of(left, crossings),
    })
}

impl<'f, 'a> SizedFace<'f, 'a> {
    /// The line of a text laid out by the steps of its glyphs, which are made first; only where work is bounded. Errors,
    /// the first of: MarginRange, TextLong; those of loca and glyf, of the programs; WorkLarge of the points, and of
    /// the deltas; those of the glyphs in the order of the text; EmptyPicture, PictureLarge; WorkLarge of the chords,
    /// and of the crossings. Memory may come at any allocation.
    fn make_by_steps(
        &mut self,
        text: &str,
        margin: u32,
        cache: &mut Cache,
    ) -> Result<MadeLine, DrawFault>
        requires cache { IsCacheOf self.old cache.old }
        requires bounded { is_bounded self.old.fit ≡ true }
        ensures made { IfOk result (λ m. IsMadeLine self.old.face (job_by self.old text.now margin) (placement_of m.laid.line) m.glyphs.made.items m.glyphs.cost) }
        ensures margin { IfOk result (λ m. m.laid.margin ≡ margin) }
        ensures stops { IfTold refusal result (λ r. text_shapes self.old.face (job_by self.old text.now margin) ≡ Err r) }
        ensures defects { TellsDefects draw_font_fault (IsLineDefect self.old.face (job_by self.old text.now margin) (text_glyphs self.old.face.cmap text.now)) result }
        ensures job { IfTold draw_job_fault result (IsLineRefusal self.old.face (job_by self.old text.now margin)) }
        ensures same { self.new ≡ self.old }
        ensures cache { IsCacheOf self.old cache.new }
        ensures limit { limit_of cache.new ≡ limit_of cache.old }
    {
        let face = self.face();
        let ppem = self.ppem();
        test_margin(margin)?;
        test_text(text)?;
        let fitted = self.fitted_text(text, cache)?;
        let FittedText { steps, units } = fitted;
        let line = lay_steps(face.metrics(), steps, ppem, margin)?;
        let laid = Laid { line, margin };
        let glyphs = self.drawn_units(units, &laid, cache)?;
        Ok(MadeLine { laid, glyphs })
    }

    /// The line of a text laid out by advances, and then its glyphs; only where work is not bounded. Errors, the first
    /// of: those of `lay_out`; those of `tested_glyphs`. Memory may come at any allocation.
    fn make_by_advances(
        &mut self,
        text: &str,
        margin: u32,
        cache: &mut Cache,
    ) -> Result<MadeLine, DrawFault>
        requires cache { IsCacheOf self.old cache.old }
        requires unbounded { is_bounded self.old.fit ≡ false }
        ensures made { IfOk result (λ m. IsMadeLine self.old.face (job_by self.old text.now margin) (placement_of m.laid.line) m.glyphs.made.items m.glyphs.cost) }
        ensures margin { IfOk result (λ m. m.laid.margin ≡ margin) }
        ensures stops { IfTold refusal result (λ r. text_shapes self.old.face (job_by self.old text.now margin) ≡ Err r) }
        ensures defects { TellsDefects draw_font_fault (IsLineDefect self.old.face (job_by self.old text.now margin) (text_glyphs self.old.face.cmap text.now)) result }
        ensures job { IfTold draw_job_fault result (IsLineRefusal self.old.face (job_by self.old text.now margin)) }
        ensures same { self.new ≡ self.old }
        ensures cache { IsCacheOf self.old cache.new }
        ensures limit { limit_of cache.new ≡ limit_of cache.old }
    {
        let laid = self.lay_out(text, margin)?;
        let glyphs = self.tested_glyphs(&laid, cache)?;
        Ok(MadeLine { laid, glyphs })
    }

    /// The line of a text, with its glyphs. Errors: those of its fit.
    pub(crate) fn make_line(
        &mut self,
        text: &str,
        margin: u32,
        cache: &mut Cache,
    ) -> Result<MadeLine, DrawFault>
        requires cache { IsCacheOf self.old cache.old }
        ensures made { IfOk result (λ m. IsMadeLine self.old.face (job_by self.old text.now margin) (placement_of m.laid.line) m.glyphs.made.items m.glyphs.cost) }
        ensures margin { IfOk result (λ m. m.laid.margin ≡ margin) }
        ensures stops { IfTold refusal result (λ r. text_shapes self.old.face (job_by self.old text.now margin) ≡ Err r) }
        ensures defects { TellsDefects draw_font_fault (IsLineDefect self.old.face (job_by self.old text.now margin) (text_glyphs self.old.face.cmap text.now)) result }
        ensures job { IfTold draw_job_fault result (IsLineRefusal self.old.face (job_by self.old text.now margin)) }
        ensures same { self.new ≡ self.old }
        ensures cache { IsCacheOf self.old cache.new }
        ensures limit { limit_of cache.new ≡ limit_of cache.old }
    {
        if is_bounded(self.fit()) {
            return self.make_by_steps(text, margin, cache);
        }
        self.make_by_advances(text, margin, cache)
    }
}
