//! A text at a size, in a box.

ghost use Rattle.std.specs.Prelude.{◌≡◌, ℕ, map, All, IfOk, IfSome, Option};
ghost use Rattle.tt_bitmap.specs.declared.ink.LeastBox.{LeastBox};
ghost use Rattle.tt_box.specs.Boxes.{begun_cost, is_inside, shown_in_box, size_tried};
ghost use Rattle.tt_box.specs.Views.{AreBoxed, FillsBox, place_of, shown_of, tried_view};
ghost use Rattle.tt_core.specs.Outcomes.{GivesUnless, IfTold, draw_font_fault};
ghost use Rattle.tt_face.specs.Faces.{Face};
ghost use Rattle.tt_fit.specs.Fitting.{Fitter};
ghost use Rattle.tt_label.specs.Begun.{HasStage};
ghost use Rattle.tt_label.specs.Label.{label_glyphs, label_ink};
ghost use Rattle.tt_label.specs.Views.{placements_of};
ghost use Rattle.tt_picture.specs.Glyphs.{AreDrawn, numbers_of};
ghost use Rattle.tt_picture.specs.Lines.{HasGlyphsOf};
ghost use Rattle.tt_picture.specs.Pictures.{IsReady};
ghost use Rattle.tt_picture.specs.Unfitted.{unfitted_standing};
ghost use Rattle.tt_strike.specs.Costs.{cost_of};
ghost use Rattle.tt_strike.specs.Defects.{IsLineDefect};
ghost use Rattle.tt_strike.specs.Job.{Job};
ghost use Rattle.tt_strike.specs.Refusals.{refusal};
ghost use Rattle.tt_strike.specs.Strikes.{job_by};

use crate::place::LabelBox;
use crate::rows::rows_in_box;
use std::alloc::{AllocError, Global};
use tt_core::{DrawFault, WORK_LIMIT};
use tt_label::{BegunLabel, Stage, begin_label, finish_label, label_ink, placed_lines};
use tt_label_rows::row_heights;
use tt_picture::{Cache, InkBox, Picture, glyph_inks};
use tt_strike::{InkedGlyphs, Laid, SizedFace};

/// A text at a size: its picture, if it fits, and what the size takes of the budget.
#[derive(Drop)]
pub struct TriedSize {
    pub picture: Option<Picture>,
    pub cost: u64,
}

/// Whether ink lies in a picture of this size.
fn is_inside(width: u32, height: u32, ink: Option<InkBox>) -> bool
    ensures { result ≡ is_inside width height ink }
{
    let Some(ink) = ink else {
        return true;
    };
    let above = ink.left >= 0 && ink.top >= 0;
    let below = ink.right < i64::from(width) && ink.bottom < i64::from(height);
    above && below
}

/// The work that was taken, by what remains. Nothing is counted where work is not bounded.
fn work_taken(left: Option<u64>) -> u64
    ensures { result ≡ cost_of left 0 }
{
    match left {
        Some(left) => WORK_LIMIT.saturating_sub(left),
        None => 0,
    }
}

/// The part of the budget that glyphs of a size take without being drawn: copies, programs, points and deltas.
fn begun_cost(stage: &Stage) -> u64
    ensures { (face : Face) (a : Job) (s : Fitter) → HasStage face a s stage.now → result ≡ begun_cost face a s }
{
    match stage {
        Stage::Fitted(units) => work_taken(units.left),
        Stage::Made(_) => 0,
    }
}

/// The picture of rows in a box, whose glyphs are made, if their ink lies in the box. Error: Memory.
fn draw_in_box(
    alloc: Global,
    lines: &[Laid],
    inked: &InkedGlyphs,
    place: LabelBox,
) -> Result<Option<Picture>, AllocError>
    requires boxed { AreBoxed (place_of place) lines.now }
    requires among { All (λ l. HasGlyphsOf (numbers_of inked.now.glyphs.made.items) l.line.glyphs.items) lines.now }
    ensures exact { IfOk result (λ r. (ink : ℕ → Option LeastBox) (maker : ℕ → Fitter)
        → inked.now.inks.items ≡ map ink (numbers_of inked.now.glyphs.made.items) → AreDrawn maker inked.now.glyphs.made.items
        → shown_of r ≡ shown_in_box (place_of place) place.margin maker (label_ink ink place.margin (placements_of lines.now)) (placements_of lines.now)) }
    ensures valid { IfOk result (λ r. IfSome r IsReady) }
    ensures sides { IfOk result (λ r. IfSome r (λ p. (p.frame.width ≡ place.width) × (p.frame.height ≡ place.height))) }
    ensures unfitted { IfOk result (λ r. IfSome r (λ p. p.unfitted ≡ unfitted_standing inked.now.glyphs.made.items)) }
    ensures cost { IfOk result (λ r. IfSome r (λ p. p.cost ≡ inked.now.glyphs.cost)) }
{
    let ink = label_ink(lines, inked);
    if !is_inside(place.width, place.height, ink) {
        return Ok(None);
    }
    let frame = lines[0].frame();
    let placed = placed_lines(alloc, lines)?;
    Ok(Some(Picture::new(alloc, frame, &inked.glyphs, &placed)?))
}

/// A text at a size, in a box. Errors, the first of: those of loca and glyf, of the programs; with `Fit::Best` WorkLarge of
/// the points, and of the deltas; those of the glyphs in the order of the text; with `Fit::Best`, where rows fit, WorkLarge
/// of the chords and of the crossings. With any other fit, at an instance without HVAR, those of loca and glyf and of the
/// glyphs' advances come before those of the programs. Memory may come at any allocation.
pub(crate) fn try_size(
    sized: &mut SizedFace,
    text: &str,
    place: LabelBox,
) -> Result<TriedSize, DrawFault>
    ensures exact { GivesUnless refusal tried_view result (size_tried sized.old.face (job_by sized.old text.now place.margin) (place_of place)) }
    ensures fills { IfOk result (λ t. IfSome t.picture (FillsBox sized.old.face (job_by sized.old text.now place.margin) (place_of place))) }
    ensures defects { IfTold draw_font_fault result (IsLineDefect sized.old.face (job_by sized.old text.now place.margin) (label_glyphs sized.old.face.cmap text.now)) }
{
    let alloc = sized.alloc();
    let mut cache = Cache::absent();
    let begun = begin_label(sized, text, place.margin, &mut cache)?;
    let BegunLabel {
        lines,
        gathered,
        stage,
    } = begun;
    let metrics = sized.face().metrics();
    let ppem = sized.ppem();
    let heights = row_heights(metrics, ppem);
    let rows = rows_in_box(alloc, heights, &lines, place)?;
    let Some(rows) = rows else {
        return Ok(TriedSize {
            picture: None,
            cost: begun_cost(&stage),
        });
    };
    let glyphs = finish_label(sized, text, &gathered, stage, &mut cache)?;
    let inks = glyph_inks(alloc, &glyphs.made)?;
    let inked = InkedGlyphs { glyphs, inks };
    let picture = draw_in_box(alloc, &rows, &inked, place)?;
    Ok(TriedSize {
        picture,
        cost: inked.glyphs.cost,
    })
}
