//! Draws a line of text, from a reader to a writer.

ghost use Rattle.std.specs.Prelude.{◌≡◌, ◌<◌, false, length, option_map, Ok, IfOk, IfSome};
ghost use Rattle.tt_core.specs.Limits.{font_limit};
ghost use Rattle.tt_face.specs.Views.{asked_view};
ghost use Rattle.tt_strike.specs.picture.Unfitted.{ListsOnce};
ghost use Rattle.tt_render_run.specs.Defects.{IsJobRefusal, TellsDefectsOf};
ghost use Rattle.tt_render_run.specs.Outcome.{CallGives, IfJob, IfLarge};
ghost use Rattle.tt_render_streams.specs.Traffic.{traffic_of};
ghost use Rattle.tt_render_run.specs.Run.{run_wanted};
ghost use Rattle.tt_strike.specs.Defects.{IsRunDefect};
ghost use Rattle.tt_strike.specs.Job.{job_view};
ghost use Rattle.tt_strike.specs.Report.{report_of};

use crate::drawing::draw;
use std::alloc::Global;
use tt_core::{Sink, Source};
use tt_face::AskedInstance;
use tt_render_streams::{Drawn, RunFault, read_font, write_picture};
use tt_strike::{Job, Report, test_job};

/// Draws a line of text at an instance of the font, its default where none is requested, and writes its picture as binary
/// PBM (P4). A pixel is black where its centre lies on, or
/// inside, the chord outline of some glyph of the line. Each curve is eight chords. With `Fit::Best` a curve is 1 to 32
/// chords by its bend, and a glyph's dropouts, by the scan type of the font's programs, are black too. Nothing is
/// written before the edges of all glyphs are made; from then on no memory is taken. The report lists the glyphs that
/// could not be fitted.
///
/// Errors, the first of: Job (SizeRange, MarginRange, TextLong), before the font is read; Read, FontLarge; Font and Job
/// (EmptyPicture, PictureLarge, WorkLarge), in reading order; Write. The picture's size is known after cmap, at an
/// instance without HVAR after the advances of the glyphs, and with `Fit::Best` once the outlines of its glyphs are
/// made. WorkLarge comes with `Fit::Best` alone: for too many points, or deltas of the instance, before the outlines
/// are made; and after the picture's size is tested, for too many chords, or for too many crossings of rows, in the
/// picture and outside, with the search for dropouts. Memory may come at any allocation.
pub fn run<R: Source, W: Sink>(
    alloc: Global,
    font: &mut R,
    out: &mut W,
    job: &Job,
    instance: Option<AskedInstance>,
) -> Result<Report, RunFault>
    requires font { R.has_failed font.old ≡ false }
    requires out { W.has_failed out.old ≡ false }
    ensures outcome { CallGives result (traffic_of R.left R.has_failed W.written W.has_failed font.old font.new out.old out.new) (run_wanted job.now.opening (option_map asked_view instance.entry) (job_view job.now)) }
    // With fallback and best each unfitted glyph of the text is listed once, in order of first appearance, with its
    // fault; with the other fits none is.
    ensures report { IfOk result (λ r. IfSome (R.left font.old) (λ file. report_of job.now.opening (option_map asked_view instance.entry) (job_view job.now) file ≡ Ok r.unfitted.items)) }
    ensures once { IfOk result (λ r. ListsOnce r.unfitted.items) }
    ensures defects { TellsDefectsOf (R.left font.old) (IsRunDefect job.now.opening (option_map asked_view instance.entry) (job_view job.now)) result }
    ensures job { IfJob result (IsJobRefusal job.now.opening (option_map asked_view instance.entry) (job_view job.now) (R.left font.old)) }
    ensures large { IfLarge result (IfSome (R.left font.old) (λ file. font_limit < length file)) }
{
    test_job(job)?;
    let file = read_font(alloc, font)?;
    let mut picture = draw(alloc, &file, job, instance)?;
    write_picture(out, &mut picture)?;
    let Drawn { picture, .. } = picture;
    Ok(picture.into_report())
}
