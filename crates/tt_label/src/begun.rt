//! The units of a text with their steps, and its glyphs, which are made once for all rows.

ghost use Rattle.std.specs.Prelude.{◌≡◌, ◌<◌, ◌≤◌, true, false, length, map, chars, All, Ok, Err, IfOk, pos};
ghost use Rattle.std.specs.List.{flat_map, sum_by};
ghost use Rattle.tt_core.specs.Limits.{margin_limit, text_limit};
ghost use Rattle.tt_core.specs.Outcomes.{GivesUnless, IfTold, draw_font_fault};
ghost use Rattle.tt_fit.specs.Fitting.{Fitter};
ghost use Rattle.tt_label.specs.Begun.{HasFinish, IsBegun, begun_outcome};
ghost use Rattle.tt_label.specs.Gathered.{AreReady, gathered, units_glyphs, units_made};
ghost use Rattle.tt_label.specs.Label.{label_glyphs};
ghost use Rattle.tt_label_rows.specs.Units.{text_units};
ghost use Rattle.tt_line.specs.Outcome.{placement_of};
ghost use Rattle.tt_metrics.specs.Metrics.{glyphs_of};
ghost use Rattle.tt_picture.specs.Cached.{limit_of};
ghost use Rattle.tt_rows.specs.Rows.{one_at_least};
ghost use Rattle.tt_strike.specs.Defects.{IsLineDefect, TellsDefects};
ghost use Rattle.tt_strike.specs.Job.{tested};
ghost use Rattle.tt_strike.specs.Made.{shapes_made};
ghost use Rattle.tt_strike.specs.Picture.{setting_in};
ghost use Rattle.tt_strike.specs.Refusals.{refusal};
ghost use Rattle.tt_strike.specs.Strikes.{IsCacheOf, job_by};
ghost use Rattle.tt_strike.specs.Work.{is_bounded};

use crate::finding::row_units;
use crate::gathering::fitted_lines;
use std::alloc::{AllocError, Global};
use tt_core::DrawFault;
use tt_label_rows::{all_glyphs, text_units};
use tt_line::Line;
use tt_picture::{Cache, Glyphs};
use tt_rows::RowUnit;
use tt_strike::{FittedUnits, Laid, SizedFace, is_bounded, test_margin, test_text};

/// How far the glyphs of a text are made.
#[derive(Drop)]
pub enum Stage {
    /// The glyphs are fitted; only where work is bounded.
    Fitted(FittedUnits),
    /// The glyphs are made; only where work is not bounded.
    Made(Glyphs),
}

/// The units of a text with their steps, and its glyphs.
#[derive(Drop)]
pub struct BegunLabel {
    /// The units of each line.
    pub lines: Vec<Vec<RowUnit>>,
    /// The glyphs of all units, one after the other, each at pen 0.
    pub gathered: Laid,
    pub stage: Stage,
}

/// The units of a text's lines, which have no steps yet. Error: Memory.
/// Callers are apart (for the prover): they have no field of the strike.
fn unstepped_units(sized: &mut SizedFace, text: &str) -> Result<Vec<Vec<RowUnit>>, AllocError>
    requires text { length (chars text.now) ≤ text_limit }
    ensures exact { IfOk result (λ v. map (λ l. l.items) v.items ≡ text_units sized.old.face.cmap text.now) }
    ensures known { IfOk result (λ v. All (λ l. All (λ u. u.glyph < glyphs_of sized.old.face.metrics) l.items) v.items) }
    ensures few { IfOk result (λ v. length (flat_map (λ l. l.items) v.items) ≤ text_limit) }
    ensures some { IfOk result (λ v. 1 ≤ length v.items) }
    ensures rows { IfOk result (λ v. sum_by (λ l. one_at_least (length l.items)) v.items ≤ text_limit) }
    ensures same { sized.new ≡ sized.old }
{
    let alloc = sized.source.alloc;
    text_units(alloc, &mut sized.known, text)
}

/// Some glyphs as a line, whatever their places.
fn gathered_line(glyphs: Vec<(u16, u32)>, margin: u32) -> Laid
    requires margin { margin ≤ margin_limit }
    requires few { length glyphs.items ≤ text_limit }
    requires pens { All (λ g. g.1 ≤ 1) glyphs.items }
    ensures line { placement_of result.line ≡ record { width = 1; height = 1; rise = pos 0; glyphs = glyphs.items } }
    ensures margin { result.margin ≡ margin }
{
    let line = Line {
        width: 1,
        height: 1,
        rise: 0,
        glyphs,
    };
    Laid { line, margin }
}

/// The units of a text, by the steps of its glyphs, which are fitted; only where work is bounded. Errors, the first of:
/// those of loca and glyf, of the programs; WorkLarge of the points, and of the deltas; those of the glyphs in the
/// order of the text. Memory may come at any allocation.
fn begin_by_steps(
    sized: &mut SizedFace,
    text: &str,
    margin: u32,
    cache: &Cache,
) -> Result<BegunLabel, DrawFault>
    requires cache { IsCacheOf sized.old cache.now }
    requires bounded { is_bounded sized.old.fit ≡ true }
    requires tested { tested (job_by sized.old text.now margin) ≡ Ok tt }
    requires margin { margin ≤ margin_limit }
    requires text { length (chars text.now) ≤ text_limit }
    ensures begun { IfOk result (IsBegun sized.old.face (job_by sized.old text.now margin)) }
    ensures stops { IfTold refusal result (λ r. units_made sized.old.face (job_by sized.old text.now margin) ≡ Err r) }
    ensures defects { TellsDefects draw_font_fault (IsLineDefect sized.old.face (job_by sized.old text.now margin) (label_glyphs sized.old.face.cmap text.now)) result }
    ensures same { sized.new ≡ sized.old }
{
    let source = sized.source;
    let units = unstepped_units(sized, text)?;
    let glyphs = all_glyphs(source.alloc, &units)?;
    let fitted = sized.fit_units(&glyphs, cache)?;
    let lines = fitted_lines(&source, &fitted, &units)?;
    Ok(BegunLabel {
        lines,
        gathered: gathered_line(glyphs, margin),
        stage: Stage::Fitted(fitted),
    })
}

/// The units of a text, by advances, and its glyphs; only where work is not bounded. Errors, the first of: those of the
/// advances, at an instance without HVAR alone; those of loca and glyf, of the programs; those of the glyphs in the
/// order of the text. Memory may come at any allocation.
fn begin_by_advances(
    sized: &mut SizedFace,
    text: &str,
    margin: u32,
    cache: &mut Cache,
) -> Result<BegunLabel, DrawFault>
    requires cache { IsCacheOf sized.old cache.old }
    requires unbounded { is_bounded sized.old.fit ≡ false }
    requires tested { tested (job_by sized.old text.now margin) ≡ Ok tt }
    requires margin { margin ≤ margin_limit }
    requires text { length (chars text.now) ≤ text_limit }
    ensures begun { IfOk result (IsBegun sized.old.face (job_by sized.old text.now margin)) }
    ensures stops { IfTold refusal result (λ r. units_made sized.old.face (job_by sized.old text.now margin) ≡ Err r) }
    ensures defects { TellsDefects draw_font_fault (IsLineDefect sized.old.face (job_by sized.old text.now margin) (label_glyphs sized.old.face.cmap text.now)) result }
    ensures cache { IsCacheOf sized.old cache.new }
    ensures limit { limit_of cache.new ≡ limit_of cache.old }
    ensures same { sized.new ≡ sized.old }
{
    let source = sized.source;
    let units = unstepped_units(sized, text)?;
    let lines = row_units(&source, &units)?;
    let gathered = gathered_line(all_glyphs(source.alloc, &units)?, margin);
    let glyphs = sized.tested_glyphs(&gathered, cache)?;
    Ok(BegunLabel {
        lines,
        gathered,
        stage: Stage::Made(glyphs),
    })
}

/// The units of a text with their steps, and its glyphs. Errors, the first of: MarginRange, TextLong; those of the fit.
pub fn begin_label(
    sized: &mut SizedFace,
    text: &str,
    margin: u32,
    cache: &mut Cache,
) -> Result<BegunLabel, DrawFault>
    requires cache { IsCacheOf sized.old cache.old }
    ensures begun { IfOk result (IsBegun sized.old.face (job_by sized.old text.now margin)) }
    ensures stops { IfTold refusal result (λ r. begun_outcome sized.old.face (job_by sized.old text.now margin) ≡ Err r) }
    ensures defects { TellsDefects draw_font_fault (IsLineDefect sized.old.face (job_by sized.old text.now margin) (label_glyphs sized.old.face.cmap text.now)) result }
    ensures cache { IsCacheOf sized.old cache.new }
    ensures limit { limit_of cache.new ≡ limit_of cache.old }
    ensures same { sized.new ≡ sized.old }
{
    let by_steps = is_bounded(sized.source.fit);
    test_margin(margin)?;
    test_text(text)?;
    if by_steps {
        return begin_by_steps(sized, text, margin, cache);
    }
    begin_by_advances(sized, text, margin, cache)
}

/// The glyphs of a label, drawn. Those that may be and are small enough are cached. Errors, where work is bounded:
/// WorkLarge of their chords, and then of their crossings by the remaining work; Memory.
pub fn finish_label(
    sized: &mut SizedFace,
    text: &str,
    line: &Laid,
    stage: Stage,
    cache: &mut Cache,
) -> Result<Glyphs, DrawFault>
    requires cache { IsCacheOf sized.old cache.old }
    requires stage { HasFinish sized.old.face (job_by sized.old text.now line.now.margin) line.now stage }
    ensures ready { IfOk result (λ g. (s : Fitter) → setting_in sized.old.face (job_by sized.old text.now line.now.margin) ≡ Ok s
        → AreReady sized.old.face (job_by sized.old text.now line.now.margin) s (units_glyphs sized.old.face (job_by sized.old text.now line.now.margin)) g.made.items g.cost) }
    ensures stops { IfTold refusal result (λ r. shapes_made sized.old.face (job_by sized.old text.now line.now.margin)
        (gathered (units_glyphs sized.old.face (job_by sized.old text.now line.now.margin))) ≡ Err r) }
    ensures font { IfTold draw_font_fault result (λ _. ⊥) }
    ensures cache { IsCacheOf sized.old cache.new }
    ensures limit { limit_of cache.new ≡ limit_of cache.old }
    ensures same { sized.new ≡ sized.old }
{
    match stage {
        Stage::Made(glyphs) => Ok(glyphs),
        Stage::Fitted(units) => sized.drawn_units(units, line, cache),
    }
}
