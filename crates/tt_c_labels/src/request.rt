//! The request of a label.

ghost use Rattle.std.specs.Prelude.{◌≡◌, IfOk};
ghost use Rattle.tt_core.specs.Outcomes.{GivesUnless, IfTold};
ghost use Rattle.tt_strike.specs.Job.{IsJob, job_view};
ghost use Rattle.tt_c_calls.specs.Refusals.{call_font_fault, call_refusal};
ghost use Rattle.tt_c_labels.specs.Requests.{LeavesRoom, align_asked, asked_view, box_asked, is_boxed, label_asked, label_instance, label_opening, leaves_room, space_asked};

use tt_c_calls::{
    AXES_MOST, CAxis, CallFault, JobInstance, fit_of, heights_asked, test_axes, text_of,
};
use tt_core::{HEIGHT_LIMIT, Reading, WIDTH_LIMIT};
use tt_face::{LineRules, Opening};
use tt_line::Align;
use tt_render_settings::{Setting, test_setting};
use tt_strike::{Job, test_job};

/// How a label is to be drawn.
#[repr(C)]
#[derive(Clone, Copy)]
pub struct CLabelJob {
    /// Pixels per em, 1 to 300.
    pub size: u32,
    /// Pixels round the lines, 0 to 64.
    pub margin: u32,
    /// How outlines are fitted: 0 full, 1 none, 2 fallback, 3 best.
    pub fit: u32,
    /// n + 1 for face n of the font's file, or 0 for face 0. The file is read widely.
    pub face: u32,
    /// Not 0 to kern the text: pairs of neighbouring glyphs are moved nearer or farther.
    pub kern: u32,
    /// Not 0 to round rise and depth to the nearest row each, so that lines of box drawing join.
    pub rounded: u32,
    /// Where the shorter lines stand: 0 at the left, 1 in the middle, 2 at the right.
    pub align: u32,
    /// Not 0 for a picture of that number of columns, whose lines are broken into rows.
    pub width: u32,
    /// Not 0, with `box_height`, for a picture of so many columns and rows, with the text at the greatest size that fits,
    /// of at most `size`.
    pub box_width: u32,
    pub box_height: u32,
    /// k + 1 for the font's named instance k. 0 for its default.
    pub instance: u32,
    /// How many of `axis` count, 0 to 16.
    pub axes: u32,
    /// Values of axes, in order, after those of the named instance.
    pub axis: [CAxis; AXES_MOST],
}

/// A request: a text, the font that draws its label, and how.
#[derive(Clone, Copy)]
pub struct LabelRequest<'a> {
    pub font: &'a [u8],
    pub text: &'a [u8],
    pub job: &'a CLabelJob,
}

/// The picture that a label is to have.
#[derive(Clone, Copy)]
pub enum LabelSpace {
    /// As large as its lines.
    Lines,
    /// Of that number of columns.
    Width(u32),
    /// Of that number of columns and of rows.
    Box { width: u32, height: u32 },
}

/// The tested request of a label.
#[derive(Clone, Copy)]
pub struct AskedLabel<'t> {
    pub job: Job<'t>,
    pub align: Align,
    pub space: LabelSpace,
}

impl CLabelJob {
    /// How the face is opened.
    pub(crate) fn opening(&self) -> Opening
        ensures { result ≡ label_opening self.now }
    {
        let rules = LineRules {
            heights: heights_asked(self.rounded),
            kerned: self.kern != 0,
        };
        Opening {
            reading: Reading::Wide {
                face: self.face.saturating_sub(1),
            },
            rules,
        }
    }

    /// The instance that the face is opened at.
    pub(crate) fn asked_instance(&self) -> JobInstance
        ensures { result ≡ label_instance self.now }
    {
        let axis = self.axis;
        JobInstance::new(self.instance, self.axes, &axis)
    }

    /// Whether the picture is to fill a box.
    fn is_boxed(&self) -> bool
        ensures { result ≡ is_boxed self.now }
    {
        self.box_width != 0 || self.box_height != 0
    }
}

/// The alignment of a number. Error: UnknownAlign.
#[tactic(auto, unfolding(crate::specs::Requests::align_asked))]
fn align_of(number: u32) -> Result<Align, CallFault>
    ensures exact { GivesUnless call_refusal (λ a. a) result (align_asked number) }
    ensures font { IfTold call_font_fault result (λ _. ⊥) }
{
    match number {
        0 => Ok(Align::Left),
        1 => Ok(Align::Centre),
        2 => Ok(Align::Right),
        _ => Err(CallFault::UnknownAlign),
    }
}

/// Whether a length of at most this limit has a pixel between two margins.
fn leaves_room(limit: u32, margin: u32, length: u32) -> bool
    ensures { result ≡ leaves_room limit margin length }
{
    2 * u64::from(margin) < u64::from(length) && length <= limit
}

/// The box that a label is to fill. Error: BoxRange.
#[tactic(auto, unfolding(crate::specs::Requests::box_asked))]
fn box_of(job: &CLabelJob) -> Result<LabelSpace, CallFault>
    ensures exact { GivesUnless call_refusal (λ s. s) result (box_asked job.now) }
    ensures room { IfOk result (LeavesRoom job.now.margin) }
    ensures font { IfTold call_font_fault result (λ _. ⊥) }
{
    let (width, height) = (job.box_width, job.box_height);
    if job.width != 0 {
        return Err(CallFault::BoxRange);
    }
    if leaves_room(WIDTH_LIMIT, job.margin, width)
        && leaves_room(HEIGHT_LIMIT, job.margin, height)
    {
        return Ok(LabelSpace::Box { width, height });
    }
    Err(CallFault::BoxRange)
}

/// The picture that a label is to have. Errors: BoxRange, WidthRange.
#[tactic(auto, unfolding(crate::specs::Requests::space_asked))]
fn space_of(job: &CLabelJob) -> Result<LabelSpace, CallFault>
    ensures exact { GivesUnless call_refusal (λ s. s) result (space_asked job.now) }
    ensures room { IfOk result (LeavesRoom job.now.margin) }
    ensures font { IfTold call_font_fault result (λ _. ⊥) }
{
    if job.is_boxed() {
        return box_of(job);
    }
    if job.width == 0 {
        return Ok(LabelSpace::Lines);
    }
    if !leaves_room(WIDTH_LIMIT, job.margin, job.width) {
        return Err(CallFault::WidthRange);
    }
    Ok(LabelSpace::Width(job.width))
}

/// The tested request of a label. Errors, the first of: UnknownFit, AxesMany, UnknownAlign, NotUtf8; SizeRange, MarginRange;
/// BoxRange, WidthRange; TextLong.
#[tactic(auto, unfolding(crate::specs::Requests::label_asked))]
pub(crate) fn asked_label<'t>(job: &CLabelJob, text: &'t [u8]) -> Result<AskedLabel<'t>, CallFault>
    ensures exact { GivesUnless call_refusal asked_view result (label_asked job.now text.now) }
    ensures opening { IfOk result (λ a. a.job.opening ≡ label_opening job.now) }
    ensures valid { IfOk result (λ a. IsJob (job_view a.job)) }
    ensures room { IfOk result (λ a. LeavesRoom a.job.margin a.space) }
    ensures font { IfTold call_font_fault result (λ _. ⊥) }
{
    let fit = fit_of(job.fit)?;
    test_axes(job.axes)?;
    let align = align_of(job.align)?;
    let text = text_of(text)?;
    let setting = Setting::plain(job.size, job.margin, fit, job.opening());
    test_setting(&setting)?;
    let space = space_of(job)?;
    let job = setting.job(text);
    test_job(&job)?;
    Ok(AskedLabel { job, align, space })
}
