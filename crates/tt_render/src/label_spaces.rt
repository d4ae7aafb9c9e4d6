//! The picture of a label in the space that it has to have.

ghost use Rattle.std.specs.Prelude.{◌≡◌, Ok, IfOk};
ghost use Rattle.tt_box.specs.Views.{place_of};
ghost use Rattle.tt_core.specs.Outcomes.{GivesUnless};
ghost use Rattle.tt_label.specs.Label.{label_glyphs};
ghost use Rattle.tt_render.specs.LabelSpaces.{ClaimsIfSized, cost_in, cut_view, image_in, label_image, place_in, report_in};
ghost use Rattle.tt_render_settings.specs.declared.space.Space.TheVariants as space;
ghost use Rattle.tt_render_settings.specs.LinesDefects.{IsDefectBy};
ghost use Rattle.tt_render_settings.specs.TextsOutcome.{IsOfText, refusal_font_fault, told, without_line};
ghost use Rattle.tt_render_streams.specs.picture.Pictures.{IsReady};
ghost use Rattle.tt_strike.specs.Defects.{TellsDefects};
ghost use Rattle.tt_strike.specs.Strikes.{job_of};

use tt_box::{BoxLabel, LabelBox, label_in_box};
use tt_label::{Picture, WidthLabel, label, label_in_width};
use tt_render_settings::{Align, GivenBox, GivenSpace, Label, test_space};
use tt_render_texts::{CutInk, Refusal, SpaceFault, TextsFault, texts_fault};
use tt_strike::{FitterSource, SizedFace, Strike};

/// The picture of a label, and how much ink it lacks.
#[derive(Drop)]
pub(crate) struct CutLabel {
    pub(crate) picture: Picture,
    pub(crate) cut: CutInk,
}

/// A box with its margin and the side of its rows.
fn label_box(given: GivenBox, align: Align) -> LabelBox
    ensures { place_of result ≡ place_in given.sides given.margin align }
{
    LabelBox {
        width: given.sides.width,
        height: given.sides.height,
        margin: given.margin,
        align,
    }
}

/// The parts of the fitters of a face at a size.
fn source_of<'f, 'a>(sized: &SizedFace<'f, 'a>) -> FitterSource<'f, 'a>
    ensures face { result.face.now ≡ sized.now.face }
    ensures ppem { result.ppem ≡ sized.now.ppem }
    ensures fit { result.fit ≡ sized.now.fit }
{
    sized.source
}

/// The picture of a text that fills a box, at the greatest size that fits, which is not above that of the strike. Errors, the
/// first of: those of `label_in_box`; Space (BoxSmall), where the text fits at no size.
fn box_picture(
    strike: &Strike,
    text: &str,
    align: Align,
    given: GivenBox,
) -> Result<CutLabel, TextsFault>
    ensures exact { GivesUnless told cut_view (without_line result) (image_in (space.Box given.sides) strike.now.face (job_of strike.now text.now given.margin) align) }
    ensures valid { IfOk result (λ l. IsReady l.picture) }
    ensures report { IfOk result (λ l. report_in (space.Box given.sides) strike.now.face (job_of strike.now text.now given.margin) align ≡ Ok l.picture.unfitted) }
    ensures cost { IfOk result (λ l. cost_in (space.Box given.sides) strike.now.face (job_of strike.now text.now given.margin) align ≡ Ok l.picture.cost) }
    ensures serves { IsOfText (without_line result) }
{
    let source = source_of(&strike.sized);
    let place = label_box(given, align);
    let drawn = label_in_box(&source, text, place)?;
    match drawn {
        Some(label) => {
            let BoxLabel { picture, .. } = label;
            Ok(CutLabel {
                picture,
                cut: CutInk { left: 0, right: 0 },
            })
        }
        None => Err(texts_fault(None, Refusal::Space(SpaceFault::BoxSmall))),
    }
}

/// The picture of a text as a label, in the requested space. Errors, the first of: Space (WidthRange, BoxRange), of that
/// space; those of `label`, of `label_in_width`, or of `box_picture`.
#[tactic(auto, unfolding(crate::specs::LabelSpaces::label_image))]
pub(crate) fn label_picture(
    strike: &mut Strike,
    asked: &Label,
    text: &str,
) -> Result<CutLabel, TextsFault>
    ensures exact { GivesUnless told cut_view (without_line result) (label_image asked.now strike.old text.now) }
    ensures valid { IfOk result (λ l. IsReady l.picture) }
    ensures report { IfOk result (λ l. report_in asked.now.space strike.old.face (job_of strike.old text.now asked.now.setting.margin) asked.now.align ≡ Ok l.picture.unfitted) }
    ensures cost { IfOk result (λ l. cost_in asked.now.space strike.old.face (job_of strike.old text.now asked.now.setting.margin) asked.now.align ≡ Ok l.picture.cost) }
    ensures serves { IsOfText (without_line result) }
    ensures defects { ClaimsIfSized asked.now.space (TellsDefects refusal_font_fault (IsDefectBy label_glyphs asked.now.setting strike.old text.now) (without_line result)) }
    ensures same { strike.new ≡ record strike.old { kept = strike.new.kept } }
{
    match test_space(asked)? {
        GivenSpace::Free => {
            let picture = label(strike, text, asked.setting.margin, asked.align)?;
            Ok(CutLabel {
                picture,
                cut: CutInk { left: 0, right: 0 },
            })
        }
        GivenSpace::Width(given) => {
            let drawn = label_in_width(strike, text, given.margin, asked.align, given.width)?;
            let WidthLabel {
                picture,
                left,
                right,
            } = drawn;
            Ok(CutLabel {
                picture,
                cut: CutInk { left, right },
            })
        }
        GivenSpace::Box(given) => box_picture(strike, text, asked.align, given),
    }
}
