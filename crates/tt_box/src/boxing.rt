//! The sizes of a label in a box, from the greatest down.

ghost use Rattle.std.specs.Prelude.{◌≡◌, ℕ, ◌+◌, ◌≤◌, ◌^◌, Ok, IfOk, IfSome};
ghost use Rattle.tt_box.specs.Boxes.{box_outcome, is_too_high, least_size, left_after, size_tried, step_at};
ghost use Rattle.tt_box.specs.Defects.{IsTriedDefect};
ghost use Rattle.tt_box.specs.Views.{FillsBox, boxed_view, place_of, step_view, tried_view};
ghost use Rattle.tt_core.specs.Directory.{HasNo};
ghost use Rattle.tt_core.specs.Limits.{size_limit};
ghost use Rattle.tt_core.specs.Outcomes.{GivesUnless, IfTold, draw_font_fault};
ghost use Rattle.tt_label.specs.Gathered.{gathered, units_glyphs};
ghost use Rattle.tt_label.specs.Label.{label_glyphs};
ghost use Rattle.tt_picture.specs.Pictures.{IsReady};
ghost use Rattle.tt_picture.specs.Unfitted.{ListsOnce};
ghost use Rattle.tt_strike.specs.Costs.{line_cost};
ghost use Rattle.tt_strike.specs.Defects.{IsLineDefect};
ghost use Rattle.tt_strike.specs.Job.{job_for};
ghost use Rattle.tt_strike.specs.Refusals.{refusal};
ghost use Rattle.tt_strike.specs.Report.{line_report};

use crate::place::LabelBox;
use crate::trying::{TriedSize, try_size};
use tt_core::{DrawFault, JobFault};
use tt_face::Face;
use tt_label_rows::{is_low, row_heights};
use tt_picture::Picture;
use tt_strike::{FitterSource, SizedFace, test_margin, test_text};

/// The work that remains before the first size is tried, and what each size adds.
const BOX_WORK: u64 = 10_000_000;

const SIZE_WORK: u64 = 4_000_000;

/// The picture of a label that fills a box, and its size in pixels per em.
#[derive(Drop)]
pub struct BoxLabel {
    pub ppem: u32,
    pub picture: Picture,
}

/// The least size that is tried.
fn least_size(greatest: u32) -> u32
    ensures { result ≡ least_size greatest }
{
    if greatest < 5 { greatest } else { 5 }
}

/// The work that remains after a size was tried, or none where the size took more.
fn left_after(left: u64, cost: u64) -> Option<u64>
    requires { left ≤ 2 ^ 40 }
    ensures exact { result ≡ left_after left cost }
    ensures bound { IfSome result (λ n. n ≤ left + 4000000) }
{
    let most = left + SIZE_WORK;
    if most < cost {
        return None;
    }
    Some(most - cost)
}

/// Whether a row of this size is too high for a box.
fn is_too_high(face: &Face, ppem: u32, place: LabelBox) -> bool
    requires { ppem ≤ size_limit }
    ensures { result ≡ is_too_high face.now (place_of place) ppem }
{
    !is_low(
        row_heights(face.metrics(), ppem),
        0,
        place.height,
        place.margin,
    )
}

/// A text at this size, in a box. Errors: as `try_size`.
fn try_at(
    source: &FitterSource,
    ppem: u32,
    text: &str,
    place: LabelBox,
) -> Result<TriedSize, DrawFault>
    requires low { 1 ≤ ppem }
    requires high { ppem ≤ size_limit }
    ensures exact { GivesUnless refusal tried_view result (size_tried source.now.face.now (job_for ppem source.now.fit text.now place.margin) (place_of place)) }
    ensures fills { IfOk result (λ t. IfSome t.picture (FillsBox source.now.face.now (job_for ppem source.now.fit text.now place.margin) (place_of place))) }
    ensures defects { IfTold draw_font_fault result (IsLineDefect source.now.face.now (job_for ppem source.now.fit text.now place.margin) (label_glyphs source.now.face.now.cmap text.now)) }
{
    let mut sized = SizedFace::new(source.alloc, source.face, ppem, source.fit)?;
    try_size(&mut sized, text, place)
}

/// A size that was tried or is too high: its picture, if the text fits, and the work that remains.
#[derive(Drop)]
pub struct SizeStep {
    pub picture: Option<Picture>,
    pub left: Option<u64>,
}

/// The next size, in a box. Errors: WorkLarge where no work remains; those of a size that is tried.
fn next_size(
    source: &FitterSource,
    ppem: u32,
    text: &str,
    place: LabelBox,
    left: Option<u64>,
) -> Result<SizeStep, DrawFault>
    requires low { 1 ≤ ppem }
    requires high { ppem ≤ size_limit }
    requires work { IfSome left (λ n. n ≤ 2 ^ 40) }
    ensures exact { GivesUnless refusal step_view result (step_at source.now.face.now (job_for ppem source.now.fit text.now place.margin) (place_of place) left) }
    ensures fills { IfOk result (λ t. IfSome t.picture (FillsBox source.now.face.now (job_for ppem source.now.fit text.now place.margin) (place_of place))) }
    ensures defects { IfTold draw_font_fault result (IsLineDefect source.now.face.now (job_for ppem source.now.fit text.now place.margin) (label_glyphs source.now.face.now.cmap text.now)) }
    ensures bound { IfOk result (λ t. (most : ℕ) → IfSome left (λ n. n ≤ most) → IfSome t.left (λ n. n ≤ most + 4000000)) }
{
    if is_too_high(source.face, ppem, place) {
        return Ok(SizeStep {
            picture: None,
            left,
        });
    }
    let Some(work) = left else {
        return Err(JobFault::WorkLarge.into());
    };
    let size = try_at(source, ppem, text, place)?;
    let TriedSize { picture, cost } = size;
    Ok(SizeStep {
        picture,
        left: left_after(work, cost),
    })
}

/// The picture of a text that fills a box, at the greatest size in pixels per em, of at most `source.ppem`, where the
/// text fits: no word is broken, no row is wider or higher than the room between the margins, nor all rows together, and
/// no ink lies outside of the box. None where the text fits at no size down to 5.
///
/// Errors, the first of: MarginRange, TextLong; those of a size that is tried (`try_size`), or WorkLarge where the sizes
/// tried before it took more than 10,000,000 units of work and 4,000,000 for each of them. Memory may come at any
/// allocation. No glyph is made at a size whose rows are too high.
pub fn label_in_box(
    source: &FitterSource,
    text: &str,
    place: LabelBox,
) -> Result<Option<BoxLabel>, DrawFault>
    ensures exact { GivesUnless refusal boxed_view result (box_outcome source.now.face.now source.now.fit source.now.ppem text.now (place_of place)) }
    ensures valid { IfOk result (λ r. IfSome r (λ l. IsReady l.picture)) }
    ensures width { IfOk result (λ r. IfSome r (λ l. l.picture.frame.width ≡ place.width)) }
    ensures height { IfOk result (λ r. IfSome r (λ l. l.picture.frame.height ≡ place.height)) }
    ensures report { IfOk result (λ r. IfSome r (λ l. line_report source.now.face.now (job_for l.ppem source.now.fit text.now place.margin)
        (gathered (units_glyphs source.now.face.now (job_for l.ppem source.now.fit text.now place.margin))) ≡ Ok l.picture.unfitted)) }
    ensures once { IfOk result (λ r. IfSome r (λ l. ListsOnce l.picture.unfitted)) }
    ensures cost { IfOk result (λ r. IfSome r (λ l. line_cost source.now.face.now (job_for l.ppem source.now.fit text.now place.margin)
        (gathered (units_glyphs source.now.face.now (job_for l.ppem source.now.fit text.now place.margin))) ≡ Ok l.picture.cost)) }
    ensures sound { IfOk result (λ r. IfSome r (λ l. HasNo (IsLineDefect source.now.face.now (job_for l.ppem source.now.fit text.now place.margin) (label_glyphs source.now.face.now.cmap text.now)))) }
    ensures defects { IfTold draw_font_fault result (IsTriedDefect source.now.face.now source.now.fit source.now.ppem (label_glyphs source.now.face.now.cmap text.now)) }
{
    test_margin(place.margin)?;
    test_text(text)?;
    let least = least_size(source.ppem);
    let mut left = Some(BOX_WORK);
    let mut ppem = source.ppem + 1;
    while least < ppem {
        ppem -= 1;
        let size = next_size(source, ppem, text, place, left)?;
        let SizeStep {
            picture,
            left: more,
        } = size;
        if let Some(picture) = picture {
            return Ok(Some(BoxLabel { ppem, picture }));
        }
        left = more;
    }
    Ok(None)
}
