//! The product of a text: its output, and how it is written.

ghost use Rattle.std.specs.Prelude.{◌≡◌, false, Ok, IfOk};
ghost use Rattle.tt_core.specs.Outcomes.{GivesUnless, draw_font_fault};
ghost use Rattle.tt_line.specs.Layout.{text_glyphs};
ghost use Rattle.tt_pbm.specs.Writing.{Writes};
ghost use Rattle.tt_strike.specs.picture.Pictures.{IsReady, image_of};
ghost use Rattle.tt_render_lines.specs.Outputs.{CanGoOut, bytes_in, cost_in, unfitted_in};
ghost use Rattle.tt_render_settings.specs.Products.{IsMadeBy, measure_by, picture_by, product_of};
ghost use Rattle.tt_render_streams.specs.File.{picture_bytes};
ghost use Rattle.tt_strike.specs.Costs.{cost_by};
ghost use Rattle.tt_strike.specs.Defects.{IsLineDefect, TellsDefects};
ghost use Rattle.tt_strike.specs.Measures.{measure_view};
ghost use Rattle.tt_strike.specs.Refusals.{refusal};
ghost use Rattle.tt_strike.specs.Report.{report_by};
ghost use Rattle.tt_strike.specs.Strikes.{job_of};

use crate::measure_text::measure_text;
use std::alloc::{AllocError, Global};
use tt_core::Sink;
use tt_pbm::{Cut, write_all_of};
use tt_render_settings::{Product, Setting};
use tt_render_streams::{Drawn, piece_for, write_picture};
use tt_strike::{DrawFault, Measure, Picture, Report, Strike, Unfitted};

/// A text's output, ready to be written.
#[derive(Drop)]
pub(crate) enum Output {
    /// A picture with memory for writing it.
    Picture(Drawn),
    /// Lines of text, and the report.
    Text(Vec<u8>, Report),
}

impl Output {
    /// The unfitted glyphs.
    pub(crate) fn unfitted(&self) -> &[Unfitted]
        ensures { result.now ≡ unfitted_in self.now }
    {
        match self {
            Output::Picture(drawn) => drawn.picture.unfitted(),
            Output::Text(_, report) => &report.unfitted,
        }
    }

    /// The part of the budget of a call of many lines that the text takes.
    pub(crate) fn cost(&self) -> u64
        ensures { result ≡ cost_in self.now }
    {
        match self {
            Output::Picture(drawn) => drawn.picture.cost(),
            Output::Text(_, report) => report.cost,
        }
    }
}

/// The picture of a text by a strike: as it is, or with `grow` enlarged so that no ink is cut. Errors: those of
/// `Strike::line` or `Strike::grown_line`.
#[tactic(auto, unfolding(tt_render_settings::specs::Products::picture_by))]
pub fn make_picture(
    strike: &mut Strike,
    grow: bool,
    text: &str,
    margin: u32,
) -> Result<Picture, DrawFault>
    ensures exact { GivesUnless refusal image_of result (picture_by grow strike.old.face (job_of strike.old text.now margin)) }
    ensures ready { IfOk result IsReady }
    ensures made { IfOk result (λ p. IsMadeBy grow (job_of strike.old text.now margin) p strike.old.face) }
    ensures defects { TellsDefects draw_font_fault (IsLineDefect strike.old.face (job_of strike.old text.now margin) (text_glyphs strike.old.face.cmap text.now)) result }
    ensures same { strike.new ≡ record strike.old { kept = strike.new.kept } }
{
    if grow {
        strike.grown_line(text, margin)
    } else {
        strike.line(text, margin)
    }
}

/// The measure of the picture that `make_picture` makes. Errors: those of `Strike::measure` or `Strike::grown_measure`.
#[tactic(auto, unfolding(tt_render_settings::specs::Products::measure_by))]
pub fn make_measure(
    strike: &mut Strike,
    grow: bool,
    text: &str,
    margin: u32,
) -> Result<Measure, DrawFault>
    ensures exact { GivesUnless refusal measure_view result (measure_by grow strike.old.face (job_of strike.old text.now margin)) }
    ensures report { IfOk result (λ m. report_by strike.old.face (job_of strike.old text.now margin) ≡ Ok m.report.unfitted.items) }
    ensures cost { IfOk result (λ m. cost_by strike.old.face (job_of strike.old text.now margin) ≡ Ok m.report.cost) }
    ensures defects { TellsDefects draw_font_fault (IsLineDefect strike.old.face (job_of strike.old text.now margin) (text_glyphs strike.old.face.cmap text.now)) result }
    ensures same { strike.new ≡ record strike.old { kept = strike.new.kept } }
{
    if grow {
        strike.grown_measure(text, margin)
    } else {
        strike.measure(text, margin)
    }
}

/// A picture as an output, with memory for writing it. Error: memory ran out.
fn picture_output(alloc: Global, picture: Picture) -> Result<Output, AllocError>
    requires { IsReady picture }
    ensures bytes { IfOk result (λ o. bytes_in o ≡ picture_bytes picture) }
    ensures unfitted { IfOk result (λ o. unfitted_in o ≡ picture.unfitted) }
    ensures cost { IfOk result (λ o. cost_in o ≡ picture.cost) }
    ensures ready { IfOk result CanGoOut }
{
    let piece = piece_for(alloc, &picture)?;
    Ok(Output::Picture(Drawn { picture, piece }))
}

/// A text's output by a strike whose face is of this file. Errors: those of `make_picture` or `make_measure`.
#[tactic(auto, unfolding(tt_render_settings::specs::Products::product_of, tt_render_settings::specs::Products::picture_by))]
pub(crate) fn make_output(
    alloc: Global,
    strike: &mut Strike,
    file: &[u8],
    setting: &Setting,
    text: &str,
) -> Result<Output, DrawFault>
    requires file { file.now ≡ strike.old.face.directory.file }
    ensures exact { GivesUnless refusal bytes_in result (product_of setting.now strike.old text.now) }
    ensures report { IfOk result (λ o. report_by strike.old.face (job_of strike.old text.now setting.now.margin) ≡ Ok (unfitted_in o)) }
    ensures cost { IfOk result (λ o. cost_by strike.old.face (job_of strike.old text.now setting.now.margin) ≡ Ok (cost_in o)) }
    ensures ready { IfOk result CanGoOut }
    ensures defects { TellsDefects draw_font_fault (IsLineDefect strike.old.face (job_of strike.old text.now setting.now.margin) (text_glyphs strike.old.face.cmap text.now)) result }
    ensures same { strike.new ≡ record strike.old { kept = strike.new.kept } }
{
    match (setting.product, setting.grow) {
        (Product::Picture, true) => {
            let picture = strike.grown_line(text, setting.margin)?;
            Ok(picture_output(alloc, picture)?)
        }
        (Product::Picture, false) => {
            let picture = strike.line(text, setting.margin)?;
            Ok(picture_output(alloc, picture)?)
        }
        (Product::Measure, _) => {
            let face = strike.face();
            let measure = make_measure(strike, setting.grow, text, setting.margin)?;
            let lines = measure_text(alloc, setting.opening.reading, file, face, text, &measure)?;
            let Measure { report, .. } = measure;
            Ok(Output::Text(lines, report))
        }
    }
}

/// Writes the output of a text: a picture as `write_picture` does, lines of text by one call. It takes no memory.
pub(crate) fn write_output<W: Sink>(out: &mut W, output: &mut Output) -> Result<(), Cut>
    requires out { W.has_failed out.old ≡ false }
    requires ready { CanGoOut output.old }
    ensures { Writes result (W.written out.old) (W.written out.new) (W.has_failed out.new) (bytes_in output.old) }
{
    match output {
        Output::Picture(drawn) => write_picture(out, drawn),
        Output::Text(lines, _) => write_all_of(out, lines.as_slice()),
    }
}
