//! The request of a call.

ghost use Rattle.std.specs.Prelude.{◌≡◌, ◌≢◌, not, ◌||◌, ◌==◌, IfErr, IfOk};
ghost use Rattle.tt_core.specs.Outcomes.{GivesUnless};
ghost use Rattle.tt_strike.specs.Job.{job_view};
ghost use Rattle.tt_c_calls.specs.Asked.{asked, face_named, face_reading, fit_asked, grows, heights_asked, job_fit, job_instance, job_opening, job_reading, reads_widely, text_asked};
ghost use Rattle.tt_c_calls.specs.declared.fault.CallFault.TheVariants as call;
ghost use Rattle.tt_c_calls.specs.Refusals.{call_refusal};

use crate::fault::CallFault;
use crate::variation::{AXES_MOST, CAxis, JobInstance, test_axes};
use std::str;
use tt_core::Reading;
use tt_face::{Heights, LineRules, Opening};
use tt_fit::Fit;
use tt_render_settings::Setting;
use tt_render_texts::{fit_reading, reading_asked};
use tt_strike::Job;

/// How a text is to be drawn.
#[repr(C)]
#[derive(Clone, Copy)]
pub struct CJob {
    /// Pixels per em, 1 to 300.
    pub size: u32,
    /// Pixels round the line, 0 to 64.
    pub margin: u32,
    /// How outlines are fitted: 0 full, 1 none, 2 fallback, 3 best.
    pub fit: u32,
    /// Not 0 to enlarge the picture on each side, by the fewest columns and rows, so that no ink is cut.
    pub grow: u32,
    /// n + 1 for face n of the font's file, which is read widely. 0 for the file's only font; with best for face 0, read
    /// widely.
    pub face: u32,
    /// Not 0 to kern the text: pairs of neighbouring glyphs are moved nearer or farther.
    pub kern: u32,
    /// Not 0 to round rise and depth to the nearest row each, so that lines of box drawing join.
    pub rounded: u32,
    /// Not 0 so that of lines drawn one after the other, one without a byte is blank, and never refused.
    pub blank: u32,
    /// k + 1 for the font's named instance k. 0 for its default.
    pub instance: u32,
    /// How many of `axis` count, 0 to 16.
    pub axes: u32,
    /// Values of axes, in order, after those of the named instance.
    pub axis: [CAxis; AXES_MOST],
}

/// A request: a text, the font that draws it, and how.
#[derive(Clone, Copy)]
pub struct TextRequest<'a> {
    pub font: &'a [u8],
    pub text: &'a [u8],
    pub job: &'a CJob,
}

impl CJob {
    /// Whether the picture is enlarged where ink would be cut.
    pub(crate) fn grows(&self) -> bool
        ensures { result ≡ grows self.now }
    {
        self.grow != 0
    }

    /// The reading of the font's file, by the way to fit and the face.
    pub(crate) fn reading(&self, fit: Fit) -> Reading
        ensures { result ≡ job_reading self.now fit }
    {
        reading_asked(face_named(self.face), fit_reading(fit))
    }

    /// Whether a text is read widely, so that variation selectors belong to characters.
    pub(crate) fn reads_widely(&self) -> bool
        ensures { result ≡ reads_widely self.now }
    {
        self.face != 0 || self.fit == 3
    }

    /// How the face is opened, by the way to fit.
    pub(crate) fn opening(&self, fit: Fit) -> Opening
        ensures { result ≡ job_opening self.now fit }
    {
        let rules = LineRules {
            heights: heights_asked(self.rounded),
            kerned: self.kern != 0,
        };
        Opening {
            reading: self.reading(fit),
            rules,
        }
    }

    /// The way to fit, once the number of values of axes is tested. Errors, the first of: UnknownFit, AxesMany.
    #[tactic(auto, unfolding(crate::specs::Asked::job_fit))]
    pub fn tested_fit(&self) -> Result<Fit, CallFault>
        ensures exact { GivesUnless call_refusal (λ f. f) result (job_fit self.now) }
        ensures memory { IfErr result (λ f. f ≢ call.Memory) }
    {
        let fit = fit_of(self.fit)?;
        test_axes(self.axes)?;
        Ok(fit)
    }

    /// The instance that the face is opened at.
    pub(crate) fn asked_instance(&self) -> JobInstance
        ensures { result ≡ job_instance self.now }
    {
        let axis = self.axis;
        JobInstance::new(self.instance, self.axes, &axis)
    }
}

/// How heights are rounded, by a number that is 0 or not.
pub fn heights_asked(rounded: u32) -> Heights
    ensures { result ≡ heights_asked rounded }
{
    if rounded == 0 {
        Heights::Exact
    } else {
        Heights::Rounded
    }
}

/// The face that a number names: none for 0, face n for n + 1.
fn face_named(number: u32) -> Option<u32>
    ensures { result ≡ face_named number }
{
    if number == 0 {
        return None;
    }
    Some(number - 1)
}

/// The reading of a call that takes a face and no job.
pub fn face_reading(number: u32) -> Reading
    ensures { result ≡ face_reading number }
{
    reading_asked(face_named(number), Reading::Strict)
}

/// The way to fit of a number. Error: UnknownFit.
#[tactic(auto, unfolding(crate::specs::Asked::fit_asked))]
pub fn fit_of(number: u32) -> Result<Fit, CallFault>
    ensures exact { GivesUnless call_refusal (λ f. f) result (fit_asked number) }
    ensures memory { IfErr result (λ f. f ≢ call.Memory) }
{
    match number {
        0 => Ok(Fit::Full),
        1 => Ok(Fit::None),
        2 => Ok(Fit::Fallback),
        3 => Ok(Fit::Best),
        _ => Err(CallFault::UnknownFit),
    }
}

/// The text of some bytes. Error: NotUtf8.
#[tactic(auto, unfolding(crate::specs::Asked::text_asked))]
pub fn text_of(bytes: &[u8]) -> Result<&str, CallFault>
    ensures exact { GivesUnless call_refusal (λ t. t.now) result (text_asked bytes.now) }
    ensures refused { IfErr result (λ f. f ≡ call.NotUtf8) }
{
    match str::from_utf8(bytes) {
        Ok(text) => Ok(text),
        Err(_) => Err(CallFault::NotUtf8),
    }
}

/// The job of a text. Errors, the first of: UnknownFit, AxesMany, NotUtf8.
#[tactic(auto, unfolding(crate::specs::Asked::asked))]
pub(crate) fn job_of<'t>(job: &CJob, text: &'t [u8]) -> Result<Job<'t>, CallFault>
    ensures exact { GivesUnless call_refusal job_view result (asked job.now text.now) }
    ensures memory { IfErr result (λ f. f ≢ call.Memory) }
{
    let fit = job.tested_fit()?;
    let text = text_of(text)?;
    Ok(Setting::plain(job.size, job.margin, fit, job.opening(fit)).job(text))
}
