//! The label of a text, by a font.

ghost use Rattle.std.specs.Prelude.{◌≡◌, IfOk, IfSome};
ghost use Rattle.tt_core.specs.Outcomes.{GivesUnless, IfTold, draw_font_fault};
ghost use Rattle.tt_line.specs.Labels.{label_lines};
ghost use Rattle.tt_picture.specs.Pictures.{IsReady};
ghost use Rattle.tt_render.specs.Labels.{composed_text};
ghost use Rattle.tt_strike.specs.Defects.{TellsDefects};
ghost use Rattle.tt_strike.specs.Job.{IsJob, job_for, job_view};
ghost use Rattle.tt_strike.specs.Refusals.{refusal};
ghost use Rattle.tt_strike.specs.Strikes.{job_of};
ghost use Rattle.tt_c_calls.specs.Refusals.{call_font_fault, call_refusal};
ghost use Rattle.tt_c_labels.specs.Requests.{LeavesRoom, asked_view};
ghost use Rattle.tt_c_labels.specs.Labels.{IsDrawnDefect, IsDrawnOf, IsLabelDefect, IsLabelFaceDefect, IsLabelMade, IsLabelOf, IsSpaceDefect, IsStrikeOf, composed_job, drawn_if, drawn_view, label_drawn, label_opened, label_unfitted, label_wanted};
ghost use Rattle.tt_c_labels.specs.declared.request.LabelSpace.TheVariants as space;

use crate::request::{AskedLabel, CLabelJob, LabelRequest, LabelSpace, asked_label};
use std::alloc::Global;
use tt_box::{BoxLabel, LabelBox, label_in_box};
use tt_c_calls::{CallFault, opened_face};
use tt_face::Face;
use tt_label::{WidthLabel, label, label_in_width};
use tt_render::lines_lacking;
use tt_rows::composed;
use tt_strike::{DrawFault, FitterSource, Picture, Strike};

/// A label that is drawn.
#[derive(Drop)]
pub struct DrawnLabel {
    pub picture: Picture,
    /// The size that was drawn, in pixels per em.
    pub size: u32,
    /// The columns of ink that are cut at each side.
    pub left: u64,
    pub right: u64,
    /// The number of distinct characters without a glyph.
    pub missing: u64,
}

/// The label of a composed text, as large as its lines. Errors: those of `tt_label::label`.
#[tactic(auto, unfolding(crate::specs::Labels::label_drawn, crate::specs::Labels::label_unfitted))]
fn draw_lines(
    strike: &mut Strike,
    asked: &AskedLabel,
    text: &str,
    missing: u64,
) -> Result<Option<DrawnLabel>, DrawFault>
    requires { strike.old.ppem ≡ asked.now.job.ppem }
    ensures exact { GivesUnless refusal drawn_if result (label_drawn asked.now.align space.Lines strike.old.face (job_of strike.old text.now asked.now.job.margin)) }
    ensures ready { IfOk result (λ r. IfSome r (λ l. IsReady l.picture)) }
    ensures made { IfOk result (λ r. IfSome r (IsLabelMade asked.now.align space.Lines strike.old.face (job_of strike.old text.now asked.now.job.margin) missing)) }
    ensures defects { IfTold draw_font_fault result (IsSpaceDefect asked.now.align space.Lines strike.old.face (job_of strike.old text.now asked.now.job.margin)) }
{
    let picture = label(strike, text, asked.job.margin, asked.align)?;
    Ok(Some(DrawnLabel {
        picture,
        size: asked.job.ppem,
        left: 0,
        right: 0,
        missing,
    }))
}

/// The label of a composed text in rows of a given width. Errors: those of `tt_label::label_in_width`.
#[tactic(auto, unfolding(crate::specs::Labels::label_drawn, crate::specs::Labels::label_unfitted))]
fn draw_in_width(
    strike: &mut Strike,
    asked: &AskedLabel,
    width: u32,
    text: &str,
    missing: u64,
) -> Result<Option<DrawnLabel>, DrawFault>
    requires size { strike.old.ppem ≡ asked.now.job.ppem }
    requires room { LeavesRoom asked.now.job.margin (space.Width width) }
    ensures exact { GivesUnless refusal drawn_if result (label_drawn asked.now.align (space.Width width) strike.old.face (job_of strike.old text.now asked.now.job.margin)) }
    ensures ready { IfOk result (λ r. IfSome r (λ l. IsReady l.picture)) }
    ensures made { IfOk result (λ r. IfSome r (IsLabelMade asked.now.align (space.Width width) strike.old.face (job_of strike.old text.now asked.now.job.margin) missing)) }
    ensures defects { IfTold draw_font_fault result (IsSpaceDefect asked.now.align (space.Width width) strike.old.face (job_of strike.old text.now asked.now.job.margin)) }
{
    let made = label_in_width(strike, text, asked.job.margin, asked.align, width)?;
    let WidthLabel {
        picture,
        left,
        right,
    } = made;
    Ok(Some(DrawnLabel {
        picture,
        size: asked.job.ppem,
        left,
        right,
        missing,
    }))
}

/// The label of a composed text that fills a box, or none where the text fits at no size. Errors: those of
/// `tt_box::label_in_box`.
#[tactic(auto, unfolding(crate::specs::Labels::label_drawn, crate::specs::Labels::label_unfitted))]
fn draw_in_box(
    source: &FitterSource,
    text: &str,
    place: LabelBox,
    missing: u64,
) -> Result<Option<DrawnLabel>, DrawFault>
    ensures exact { GivesUnless refusal drawn_if result (label_drawn place.align (space.Box place.width place.height) source.now.face.now (job_for source.now.ppem source.now.fit text.now place.margin)) }
    ensures ready { IfOk result (λ r. IfSome r (λ l. IsReady l.picture)) }
    ensures made { IfOk result (λ r. IfSome r (IsLabelMade place.align (space.Box place.width place.height) source.now.face.now (job_for source.now.ppem source.now.fit text.now place.margin) missing)) }
    ensures defects { IfTold draw_font_fault result (IsSpaceDefect place.align (space.Box place.width place.height) source.now.face.now (job_for source.now.ppem source.now.fit text.now place.margin)) }
{
    let made = label_in_box(source, text, place)?;
    let Some(made) = made else {
        return Ok(None);
    };
    let BoxLabel { ppem, picture } = made;
    Ok(Some(DrawnLabel {
        picture,
        size: ppem,
        left: 0,
        right: 0,
        missing,
    }))
}

/// The label of a composed text, which lacks `missing` characters; none where the text fits into a box at no size. Errors:
/// those of the requested picture.
fn draw_composed(
    alloc: Global,
    strike: &mut Strike,
    asked: &AskedLabel,
    text: &str,
    missing: u64,
) -> Result<Option<DrawnLabel>, DrawFault>
    requires strike { IsStrikeOf (asked_view asked.now) strike.old }
    requires job { IsJob (job_view asked.now.job) }
    requires room { LeavesRoom asked.now.job.margin asked.now.space }
    ensures exact { GivesUnless refusal drawn_if result (label_drawn asked.now.align asked.now.space strike.old.face (job_of strike.old text.now asked.now.job.margin)) }
    ensures ready { IfOk result (λ r. IfSome r (λ l. IsReady l.picture)) }
    ensures made { IfOk result (λ r. IfSome r (IsLabelMade asked.now.align asked.now.space strike.old.face (job_of strike.old text.now asked.now.job.margin) missing)) }
    ensures defects { IfTold draw_font_fault result (IsSpaceDefect asked.now.align asked.now.space strike.old.face (job_of strike.old text.now asked.now.job.margin)) }
{
    match asked.space {
        LabelSpace::Lines => draw_lines(strike, asked, text, missing),
        LabelSpace::Width(width) => draw_in_width(strike, asked, width, text, missing),
        LabelSpace::Box { width, height } => {
            let source = FitterSource {
                alloc,
                face: strike.face(),
                ppem: asked.job.ppem,
                fit: asked.job.fit,
            };
            let place = LabelBox {
                width,
                height,
                margin: asked.job.margin,
                align: asked.align,
            };
            draw_in_box(&source, text, place, missing)
        }
    }
}

/// The label of a tested request by a strike; none where the text fits into a box at no size. Two characters beside each
/// other that are the composition of one that the font has are drawn, and counted, as that one. Errors: those of the
/// requested picture.
#[tactic(auto, unfolding(tt_render::specs::Labels::composed_text))]
fn draw_label(
    alloc: Global,
    strike: &mut Strike,
    asked: &AskedLabel,
) -> Result<Option<DrawnLabel>, DrawFault>
    requires strike { IsStrikeOf (asked_view asked.now) strike.old }
    requires job { IsJob (job_view asked.now.job) }
    requires room { LeavesRoom asked.now.job.margin asked.now.space }
    ensures exact { GivesUnless refusal drawn_if result (label_drawn asked.now.align asked.now.space strike.old.face (composed_job strike.old.face.cmap (asked_view asked.now).job)) }
    ensures ready { IfOk result (λ r. IfSome r (λ l. IsReady l.picture)) }
    ensures made { IfOk result (λ r. IfSome r (IsDrawnOf (asked_view asked.now) strike.old.face)) }
    ensures defects { IfTold draw_font_fault result (IsDrawnDefect (asked_view asked.now) strike.old.face) }
{
    let text = composed(alloc, strike.face().cmap(), asked.job.text)?;
    let missing = lines_lacking(alloc, strike, &text)?;
    draw_composed(alloc, strike, asked, &text, missing.len() as u64)
}

/// The tables of a label's job, with the rules of its lines. Errors: as `opened_face`.
fn label_face<'a>(font: &'a [u8], job: &CLabelJob) -> Result<Face<'a>, CallFault>
    ensures exact { GivesUnless call_refusal (λ f. f) result (label_opened job.now font.now) }
    ensures defects { TellsDefects call_font_fault (IsLabelFaceDefect job.now font.now) result }
{
    let instance = job.asked_instance();
    opened_face(font, job.opening(), instance.asked())
}

/// The label of a text by a font file. Errors, the first of: those of the request; FontLarge; those of the tables that
/// every text needs, and of the instance; those of the requested picture; BoxSmall where the text fits into a box at no size.
#[tactic(auto, unfolding(crate::specs::Labels::label_wanted))]
pub(crate) fn label_of(alloc: Global, request: &LabelRequest) -> Result<DrawnLabel, CallFault>
    ensures exact { GivesUnless call_refusal drawn_view result (label_wanted request.now.job.now request.now.text.now request.now.font.now) }
    ensures label { IfOk result (IsLabelOf request.now.job.now request.now.text.now request.now.font.now) }
    ensures defects { IfTold call_font_fault result (IsLabelDefect request.now.job.now request.now.text.now request.now.font.now) }
{
    let asked = asked_label(request.job, request.text)?;
    let face = label_face(request.font, request.job)?;
    let mut strike = Strike::new(alloc, &face, asked.job.ppem, asked.job.fit, 0)?;
    let drawn = draw_label(alloc, &mut strike, &asked)?;
    let Some(drawn) = drawn else {
        return Err(CallFault::BoxSmall);
    };
    Ok(drawn)
}
