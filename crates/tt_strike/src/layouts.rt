//! The layout of a text without its ink: the size of its picture, its distance from a next line, and its pens.

ghost use Rattle.std.specs.Prelude.{◌≡◌, ◌≤◌, ◌||◌, true, false, length, map, chars, sum, IfErr, IfOk, Ok, OnOk};
ghost use Rattle.tt_core.specs.Limits.{margin_limit, text_limit, width_limit};
ghost use Rattle.tt_core.specs.Outcomes.{GivesUnless, draw_font_fault};
ghost use Rattle.tt_cmap.specs.Maps.{units_by};
ghost use Rattle.tt_face.specs.Faces.{finds_advances};
ghost use Rattle.tt_line.specs.Layout.{text_glyphs};
ghost use Rattle.tt_strike.specs.Defects.{IsLineDefect, TellsDefects};
ghost use Rattle.tt_strike.specs.Layouts.{HasLayoutDefect, IsNotMemory, ReadsNoGlyph, layout_by, layout_outcome, pens_at, pens_outcome, size_outcome, steps_outcome};
ghost use Rattle.tt_strike.specs.Refusals.{refusal};
ghost use Rattle.tt_strike.specs.Strikes.{job_by};
ghost use Rattle.tt_strike.specs.Work.{is_bounded};

use crate::job::{test_margin, test_text};
use crate::sized::SizedFace;
use crate::stepping::FittedText;
use crate::work::is_bounded;
use std::alloc::{AllocError, Global};
use tt_cmap::{CharacterMap, TextUnit};
use tt_core::DrawFault;
use tt_line::{LineSize, size_by_advances, size_by_steps};
use tt_picture::Cache;

/// The layout of a text, in pixels.
#[derive(Clone, Copy, Debug, PartialEq, Eq)]
pub struct Layout {
    /// The size of the picture, and its distance from a next line.
    pub size: LineSize,
    /// The picture's rows above the base line.
    pub baseline: i64,
    /// The units of the text: a variation selector that belongs to a character is not counted.
    pub characters: usize,
}

/// The pen of a unit of a text.
#[derive(Clone, Copy, Debug, PartialEq, Eq)]
pub struct Pen {
    pub unit: TextUnit,
    pub glyph: u16,
    /// The columns to the next pen.
    pub advance: u32,
    /// The picture's column at the glyph's origin, margin included.
    pub pen: u32,
}

/// The pens of a text, with its layout.
#[derive(Drop)]
pub struct TextPens {
    pub layout: Layout,
    /// One for each unit of the text, in order.
    pub pens: Vec<Pen>,
}

/// The layout of a text that has this size.
fn layout_by(size: LineSize, margin: u32, cmap: &CharacterMap, text: &str) -> Layout
    requires { length (chars text.now) ≤ text_limit }
    ensures { result ≡ layout_by size margin (units_by cmap.now (chars text.now)) }
{
    Layout {
        size,
        baseline: i64::from(size.rise) + i64::from(margin),
        characters: cmap.units(text).count(),
    }
}

/// The pens of a text by the glyphs of its units with their steps, from a first pen on. Error: memory ran out.
fn pens_at(
    alloc: Global,
    cmap: &CharacterMap,
    text: &str,
    steps: &[(u16, u32)],
    first: u32,
) -> Result<Vec<Pen>, AllocError>
    requires first { first ≤ margin_limit }
    requires fits { sum (map (λ g. g.1) steps.now) ≤ width_limit }
    ensures { IfOk result (λ ps. ps.items ≡ pens_at (units_by cmap.now (chars text.now)) steps.now first) }
{
    let mut pens = Vec::with_capacity(alloc, steps.len())?;
    let mut pen = first;
    for (unit, step) in cmap.units(text).zip(steps) {
        let (glyph, advance) = *step;
        pens.push(Pen {
            unit,
            glyph,
            advance,
            pen,
        })?;
        pen += advance;
    }
    Ok(pens)
}

impl<'f, 'a> SizedFace<'f, 'a> {
    /// The glyph of each unit of a text with its step, by the glyphs, which are made; only where work is bounded.
    /// Errors, the first of: those of loca and glyf, of the programs; WorkLarge of the points, and of the deltas; those
    /// of the glyphs. Memory may come at any allocation.
    fn made_steps(&mut self, text: &str) -> Result<Vec<(u16, u32)>, DrawFault>
        requires text { length (chars text.now) ≤ text_limit }
        requires bounded { is_bounded self.old.fit ≡ true }
        ensures exact { GivesUnless refusal (λ v. v.items) result (steps_outcome self.old.face (job_by self.old text.now 0)) }
        ensures few { IfOk result (λ v. length v.items ≤ text_limit) }
        ensures defects { TellsDefects draw_font_fault (IsLineDefect self.old.face (job_by self.old text.now 0) (text_glyphs self.old.face.cmap text.now)) result }
        ensures same { self.new ≡ self.old }
    {
        let fitted = self.fitted_text(text, &Cache::absent())?;
        let FittedText { steps, .. } = fitted;
        Ok(steps)
    }

    /// The glyph of each unit of a text with its step. Errors: those of `made_steps` where work is bounded, else those of
    /// `unit_steps`.
    fn steps(&mut self, text: &str) -> Result<Vec<(u16, u32)>, DrawFault>
        requires text { length (chars text.now) ≤ text_limit }
        ensures exact { GivesUnless refusal (λ v. v.items) result (steps_outcome self.old.face (job_by self.old text.now 0)) }
        ensures few { IfOk result (λ v. length v.items ≤ text_limit) }
        ensures defects { TellsDefects draw_font_fault (HasLayoutDefect self.old.face (job_by self.old text.now 0) (text_glyphs self.old.face.cmap text.now)) result }
        ensures same { self.new ≡ self.old }
    {
        let source = self.source;
        if is_bounded(source.fit) {
            return self.made_steps(text);
        }
        Ok(self.unit_steps(text)?)
    }

    /// Whether a layout reads glyphs: with `Fit::Best`, and at an instance without HVAR.
    fn reads_glyphs(&self) -> bool
        ensures { result ≡ (is_bounded self.now.fit || finds_advances self.now.face) }
    {
        is_bounded(self.fit()) || self.finds_advances()
    }

    /// Tests a margin and a text, and gives the size of the text's line. Without a bound of work no memory is taken, and
    /// no glyph is read, but at an instance without HVAR. Errors: as `layout`.
    fn line_size(&mut self, text: &str, margin: u32) -> Result<LineSize, DrawFault>
        ensures exact { GivesUnless refusal (λ z. z) result (size_outcome self.old.face (job_by self.old text.now margin)) }
        ensures memory { ReadsNoGlyph self.old.face self.old.fit → IfErr result IsNotMemory }
        ensures defects { TellsDefects draw_font_fault (HasLayoutDefect self.old.face (job_by self.old text.now margin) (text_glyphs self.old.face.cmap text.now)) result }
        ensures few { OnOk result (length (chars text.now) ≤ text_limit) }
        ensures same { self.new ≡ self.old }
    {
        let source = self.source;
        test_margin(margin)?;
        test_text(text)?;
        if self.reads_glyphs() {
            let steps = self.steps(text)?;
            return Ok(size_by_steps(source.face.metrics(), &steps, source.ppem, margin)?);
        }
        Ok(size_by_advances(&mut self.known, text, margin)?)
    }

    /// The layout of a text of at most 4,096 characters with a margin of 0 to 64 pixels: the size of the picture that
    /// does not grow, its base line, and its distance from a next line. Errors, the first of: MarginRange, TextLong;
    /// with `Fit::Best` those of loca and glyf, of the programs, WorkLarge of the points and of the deltas, and those
    /// of the glyphs; at an instance without HVAR with any other fit those of the advances; EmptyPicture, PictureLarge.
    /// Only with `Fit::Best`, or at such an instance, may Memory come, and are glyphs read.
    #[tactic(auto, unfolding(crate::specs::Layouts::layout_outcome))]
    pub fn layout(&mut self, text: &str, margin: u32) -> Result<Layout, DrawFault>
        ensures exact { GivesUnless refusal (λ l. l) result (layout_outcome self.old.face (job_by self.old text.now margin)) }
        ensures memory { ReadsNoGlyph self.old.face self.old.fit → IfErr result IsNotMemory }
        ensures defects { TellsDefects draw_font_fault (HasLayoutDefect self.old.face (job_by self.old text.now margin) (text_glyphs self.old.face.cmap text.now)) result }
        ensures same { self.new ≡ self.old }
    {
        let face = self.face();
        let size = self.line_size(text, margin)?;
        Ok(layout_by(size, margin, face.cmap(), text))
    }

    /// The pens of a text of at most 4,096 characters with a margin of 0 to 64 pixels, one for each unit, and its
    /// layout. With `Fit::Best` each glyph is made once for both. Errors: those of `layout`, in the same order; Memory.
    pub fn pens(&mut self, text: &str, margin: u32) -> Result<TextPens, DrawFault>
        ensures exact { GivesUnless refusal (λ p. p.pens.items) result (pens_outcome self.old.face (job_by self.old text.now margin)) }
        ensures layout { IfOk result (λ p. layout_outcome self.old.face (job_by self.old text.now margin) ≡ Ok p.layout) }
        ensures defects { TellsDefects draw_font_fault (HasLayoutDefect self.old.face (job_by self.old text.now margin) (text_glyphs self.old.face.cmap text.now)) result }
        ensures same { self.new ≡ self.old }
    {
        let source = self.source;
        test_margin(margin)?;
        test_text(text)?;
        let steps = self.steps(text)?;
        let face = source.face;
        let size = size_by_steps(face.metrics(), &steps, source.ppem, margin)?;
        let cmap = face.cmap();
        let pens = pens_at(source.alloc, cmap, text, &steps, margin)?;
        let layout = layout_by(size, margin, cmap, text);
        Ok(TextPens { layout, pens })
    }
}
