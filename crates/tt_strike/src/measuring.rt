//! Measures the line of a text.

ghost use Rattle.std.specs.Prelude.{◌≡◌, ℕ, ℤ, ◌+◌, ◌<◌, ◌≤◌, ◌^◌, pos, ◌+ℤ◌, true, false, length, map, slice_index, All, IfOk, Ok, Option, unsigned_abs};
ghost use Rattle.tt_advances.specs.Found.{units_of};
ghost use Rattle.tt_core.specs.Limits.{width_limit};
ghost use Rattle.tt_core.specs.Outcomes.{GivesUnless, IfTold, draw_font_fault, draw_job_fault};
ghost use Rattle.tt_face.specs.Faces.{finds_advances};
ghost use Rattle.tt_line.specs.Layout.{text_glyphs};
ghost use Rattle.tt_line.specs.Outcome.{placement_of};
ghost use Rattle.tt_metrics.specs.Metrics.{glyphs_of};
ghost use Rattle.tt_picture.specs.Cached.{limit_of};
ghost use Rattle.tt_picture.specs.Distinct.{is_among};
ghost use Rattle.tt_picture.specs.Glyphs.{numbers_of};
ghost use Rattle.tt_picture.specs.Unfitted.{ListsOnce, unfitted_standing};
ghost use Rattle.tt_scan_edges.specs.Winding.{FrameFits};
ghost use Rattle.tt_bitmap.specs.declared.ink.LeastBox.{LeastBox};
ghost use Rattle.tt_strike.specs.Costs.{cost_by};
ghost use Rattle.tt_strike.specs.Defects.{IsLineDefect, IsLineRefusal, TellsDefects};
ghost use Rattle.tt_strike.specs.Measures.{HasUnits, character_at, characters_at, ink_of, made_step, measure_by, measure_view, measured};
ghost use Rattle.tt_strike.specs.Refusals.{refusal};
ghost use Rattle.tt_strike.specs.Report.{report_by};
ghost use Rattle.tt_strike.specs.Strikes.{IsCacheOf, job_by};
ghost use Rattle.tt_strike.specs.Work.{is_bounded};

use crate::inked::InkedGlyphs;
use crate::laid::Laid;
use crate::making::MadeLine;
use crate::sized::SizedFace;
use crate::steps::kerned_step;
use crate::work::is_bounded;
use std::alloc::AllocError;
use tt_advances::units_of;
use tt_core::DrawFault;
use tt_line::{kerning_at, step_of_units};
use tt_picture::{Cache, Glyph, InkBox, Report, glyph_inks, ink_at, joined, report_on};
use tt_scan::Frame;

/// The place of a character in its line's picture.
#[derive(Clone, Copy, Debug, PartialEq, Eq)]
pub struct CharacterMeasure {
    pub glyph: u16,
    /// The picture's column at the glyph's origin, margin included.
    pub pen: i64,
    /// The columns from here to the next character's origin.
    pub advance: u32,
    /// The box of the glyph's black pixels, if there are any.
    pub ink: Option<InkBox>,
}

/// The measure of a line, in pixels.
#[derive(Drop)]
pub struct Measure {
    /// Columns of the picture: 1 to 16,384.
    pub width: u32,
    /// Rows of the picture: 1 to 4,096.
    pub height: u32,
    /// The number of rows above the base line. Below 0, or more than the picture has, where the base line is outside.
    pub baseline: i64,
    /// The box of the line's black pixels, if there are any.
    pub ink: Option<InkBox>,
    /// One for each unit of the text, in order.
    pub characters: Vec<CharacterMeasure>,
    /// The line's report.
    pub report: Report,
}

/// The box of the ink of some characters.
fn ink_of(characters: &[CharacterMeasure]) -> Option<InkBox>
    ensures { result ≡ ink_of characters.now }
{
    let mut all = None;
    for character in characters {
        all = joined(all, character.ink);
    }
    all
}

/// The measure of a line with this frame, these characters and this report.
fn measure_of(frame: Frame, characters: Vec<CharacterMeasure>, report: Report) -> Measure
    requires { FrameFits frame }
    ensures exact { measure_view result ≡ record { width = frame.width; height = frame.height; baseline = frame.rise +ℤ pos frame.margin; ink = ink_of characters.items; characters = characters.items } }
    ensures report { result.report ≡ report }
{
    Measure {
        width: frame.width,
        height: frame.height,
        baseline: i64::from(frame.rise) + i64::from(frame.margin),
        ink: ink_of(&characters),
        characters,
        report,
    }
}

impl<'f, 'a> SizedFace<'f, 'a> {
    /// The advances of made glyphs in font units where the glyphs' data give them; else none is needed. Error: Memory.
    fn made_units(&self, made: &[Glyph]) -> Result<Vec<u16>, AllocError>
        requires { All (λ n. n < glyphs_of self.now.face.metrics) (numbers_of made.now) }
        ensures { IfOk result (λ v. HasUnits self.now.face self.now.fit (numbers_of made.now) v.items) }
    {
        let alloc = self.alloc();
        let face = self.face();
        let mut units = Vec::new(alloc);
        if is_bounded(self.fit()) || !self.finds_advances() {
            return Ok(units);
        }
        for glyph in made {
            units.push(units_of(alloc, face, glyph.number())?)?;
        }
        Ok(units)
    }

    /// The advance of a glyph in font units, where work is not bounded; glyph `at` of some whose advances are these.
    fn own_units(&self, glyph: u16, at: usize, units: &[u16]) -> u16
        requires known { glyph < glyphs_of self.now.face.metrics }
        requires unbounded { is_bounded self.now.fit ≡ false }
        requires at { finds_advances self.now.face ≡ true → (at < length units.now) × (slice_index units.now at ≡ units_of self.now.face glyph) }
        ensures { result ≡ units_of self.now.face glyph }
    {
        if self.finds_advances() {
            return units[at];
        }
        self.face().metrics().advance(glyph)
    }

    /// The pixels from the pen of glyph `at` to the next, with a kerning in font units: by its own advance, or by that of
    /// the face.
    fn step_of(&self, glyph: &Glyph, at: usize, units: &[u16], kerning: i32) -> u32
        requires known { glyph.now.number < glyphs_of self.now.face.metrics }
        requires at { is_bounded self.now.fit ≡ false → finds_advances self.now.face ≡ true
            → (at < length units.now) × (slice_index units.now at ≡ units_of self.now.face glyph.now.number) }
        requires kerning { unsigned_abs kerning ≤ 2 ^ 20 }
        ensures { result ≡ made_step self.now.face self.now.ppem self.now.fit glyph.now kerning }
    {
        let metrics = self.face().metrics();
        if is_bounded(self.fit()) {
            return kerned_step(metrics, self.ppem(), glyph.advance_left(), kerning);
        }
        let own = self.own_units(glyph.number(), at, units);
        step_of_units(metrics, self.ppem(), own, kerning)
    }

    /// The measure of a character, whose glyph is one of these, with its kerning.
    fn character(
        &self,
        frame: Frame,
        placed: (u16, u32),
        kerning: i32,
        inked: &InkedGlyphs,
        units: &[u16],
    ) -> CharacterMeasure
        requires frame { FrameFits frame }
        requires known { placed.0 < glyphs_of self.now.face.metrics }
        requires pen { placed.1 ≤ width_limit }
        requires kerning { unsigned_abs kerning ≤ 2 ^ 20 }
        requires among { is_among placed.0 (numbers_of inked.now.glyphs.made.items) ≡ true }
        requires units { HasUnits self.now.face self.now.fit (numbers_of inked.now.glyphs.made.items) units.now }
        ensures { (step : ℕ → ℤ → ℕ) (ink : ℕ → Option LeastBox) → All (λ g. (k : ℤ) → made_step self.now.face self.now.ppem self.now.fit g k ≡ step g.number k) inked.now.glyphs.made.items
            → inked.now.inks.items ≡ map ink (numbers_of inked.now.glyphs.made.items)
            → result ≡ character_at frame ink placed (step placed.0 kerning) }
    {
        let (glyph, pen) = placed;
        let at = inked.glyphs.place_of(glyph);
        CharacterMeasure {
            glyph,
            pen: i64::from(pen + frame.margin),
            advance: self.step_of(&inked.glyphs.made[at], at, units, kerning),
            ink: ink_at(frame, pen, inked.inks[at]),
        }
    }

    /// The measures of a line's characters, whose glyphs are these. Error: Memory.
    fn characters(
        &self,
        frame: Frame,
        line: &[(u16, u32)],
        inked: &InkedGlyphs,
    ) -> Result<Vec<CharacterMeasure>, AllocError>
        requires frame { FrameFits frame }
        requires known { All (λ g. g.0 < glyphs_of self.now.face.metrics) line.now }
        requires pens { All (λ g. g.1 ≤ width_limit) line.now }
        requires made { All (λ n. n < glyphs_of self.now.face.metrics) (numbers_of inked.now.glyphs.made.items) }
        requires among { All (λ g. is_among g.0 (numbers_of inked.now.glyphs.made.items) ≡ true) line.now }
        ensures { IfOk result (λ v. (step : ℕ → ℤ → ℕ) (ink : ℕ → Option LeastBox) → All (λ g. (k : ℤ) → made_step self.now.face self.now.ppem self.now.fit g k ≡ step g.number k) inked.now.glyphs.made.items
            → inked.now.inks.items ≡ map ink (numbers_of inked.now.glyphs.made.items)
            → v.items ≡ characters_at self.now.face.metrics step frame ink line.now) }
    {
        let units = self.made_units(&inked.glyphs.made)?;
        let mut measured = Vec::with_capacity(self.alloc(), line.len())?;
        for i in 0..line.len() {
            let kerning = kerning_at(self.face().metrics(), line, i);
            measured.push(self.character(frame, line[i], kerning, inked, &units))?;
        }
        Ok(measured)
    }

    /// The measure of a laid-out line, whose glyphs are these. Error: Memory.
    pub fn measure_by(&self, laid: &Laid, inked: &InkedGlyphs) -> Result<Measure, AllocError>
        requires known { All (λ g. g.0 < glyphs_of self.now.face.metrics) laid.now.line.glyphs.items }
        requires made { All (λ n. n < glyphs_of self.now.face.metrics) (numbers_of inked.now.glyphs.made.items) }
        requires among { All (λ g. is_among g.0 (numbers_of inked.now.glyphs.made.items) ≡ true) laid.now.line.glyphs.items }
        ensures exact { IfOk result (λ m. (step : ℕ → ℤ → ℕ) (ink : ℕ → Option LeastBox) → All (λ g. (k : ℤ) → made_step self.now.face self.now.ppem self.now.fit g k ≡ step g.number k) inked.now.glyphs.made.items
            → inked.now.inks.items ≡ map ink (numbers_of inked.now.glyphs.made.items)
            → measure_view m ≡ measure_by self.now.face.metrics step laid.now.margin ink (placement_of laid.now.line)) }
        ensures unfitted { IfOk result (λ m. m.report.unfitted.items ≡ unfitted_standing inked.now.glyphs.made.items) }
        ensures cost { IfOk result (λ m. m.report.cost ≡ inked.now.glyphs.cost) }
    {
        let frame = laid.frame();
        let report = report_on(self.alloc(), &inked.glyphs.made, inked.glyphs.cost)?;
        let characters = self.characters(frame, &laid.line.glyphs, inked)?;
        Ok(measure_of(frame, characters, report))
    }

    /// The measure of a text. Errors: as `make_line`. Glyphs that may be and are small enough are cached.
    #[tactic(auto, unfolding(crate::specs::Measures::measured, crate::specs::Measures::measured_line, crate::specs::Report::report_by, crate::specs::Report::line_report, crate::specs::Costs::cost_by))]
    pub(crate) fn measure(
        &mut self,
        text: &str,
        margin: u32,
        cache: &mut Cache,
    ) -> Result<Measure, DrawFault>
        requires cache { IsCacheOf self.old cache.old }
        ensures exact { GivesUnless refusal measure_view result (measured self.old.face (job_by self.old text.now margin)) }
        ensures report { IfOk result (λ m. report_by self.old.face (job_by self.old text.now margin) ≡ Ok m.report.unfitted.items) }
        ensures once { IfOk result (λ m. ListsOnce m.report.unfitted.items) }
        ensures cost { IfOk result (λ m. cost_by self.old.face (job_by self.old text.now margin) ≡ Ok m.report.cost) }
        ensures cache { IsCacheOf self.old cache.new }
        ensures limit { limit_of cache.new ≡ limit_of cache.old }
        ensures same { self.new ≡ self.old }
        ensures defects { TellsDefects draw_font_fault (IsLineDefect self.old.face (job_by self.old text.now margin) (text_glyphs self.old.face.cmap text.now)) result }
        ensures job { IfTold draw_job_fault result (IsLineRefusal self.old.face (job_by self.old text.now margin)) }
    {
        let made = self.make_line(text, margin, cache)?;
        let MadeLine { laid, glyphs } = made;
        let inks = glyph_inks(self.alloc(), &glyphs.made)?;
        let inked = InkedGlyphs { glyphs, inks };
        let measure = self.measure_by(&laid, &inked)?;
        let InkedGlyphs { glyphs, .. } = inked;
        self.give_back(glyphs);
        Ok(measure)
    }
}
