//! The picture of a job by a font file.

ghost use Rattle.std.specs.Prelude.{◌≡◌, ◌≤◌, length, option_map, Ok, IfOk};
ghost use Rattle.tt_core.specs.Limits.{font_limit};
ghost use Rattle.tt_core.specs.Outcomes.{GivesUnless, IfTold, draw_font_fault, draw_job_fault};
ghost use Rattle.tt_face.specs.Views.{asked_view};
ghost use Rattle.tt_strike.specs.picture.Pictures.{IsReady, image_of};
ghost use Rattle.tt_strike.specs.picture.Unfitted.{ListsOnce};
ghost use Rattle.tt_render_streams.specs.File.{piece_bytes};
ghost use Rattle.tt_strike.specs.Defects.{IsFontRefusal, IsRunDefect, TellsDefects};
ghost use Rattle.tt_strike.specs.Job.{job_view, tested, ByFace, IsJob};
ghost use Rattle.tt_strike.specs.Picture.{pictured};
ghost use Rattle.tt_strike.specs.Refusals.{refusal};
ghost use Rattle.tt_strike.specs.Report.{report_of};

use std::alloc::Global;
use tt_face::AskedInstance;
use tt_render_streams::{Drawn, piece_for};
use tt_strike::{DrawFault, Face, Job, Strike};

/// The picture of a job by a font file, and memory for writing it. Errors, the first of: those of the tables
/// needed for every text, by the job's reading; those of the requested instance; EmptyPicture, PictureLarge; those of
/// loca and glyf; those of the programs; those of the glyphs in the order of the text. With `Fit::Best` WorkLarge of
/// the points and of the deltas comes before those of the glyphs. There EmptyPicture and PictureLarge come after the
/// glyphs, then WorkLarge of the chords, and of the crossings. Memory may come at any allocation.
#[tactic(auto, unfolding(tt_strike::specs::Picture::pictured, tt_strike::specs::Report::report_of))]
pub(crate) fn draw(
    alloc: Global,
    file: &[u8],
    job: &Job,
    instance: Option<AskedInstance>,
) -> Result<Drawn, DrawFault>
    requires size { length file.now ≤ font_limit }
    requires asked { IsJob (job_view job.now) }
    requires tested { tested (job_view job.now) ≡ Ok tt }
    ensures exact { GivesUnless refusal (λ d. image_of d.picture) result (pictured job.now.opening (option_map asked_view instance.entry) (job_view job.now) file.now) }
    ensures valid { IfOk result (λ d. IsReady d.picture) }
    ensures piece { IfOk result (λ d. length d.piece.items ≡ piece_bytes d.picture) }
    ensures report { IfOk result (λ d. report_of job.now.opening (option_map asked_view instance.entry) (job_view job.now) file.now ≡ Ok d.picture.unfitted) }
    ensures once { IfOk result (λ d. ListsOnce d.picture.unfitted) }
    ensures defects { TellsDefects draw_font_fault (IsRunDefect job.now.opening (option_map asked_view instance.entry) (job_view job.now) file.now) result }
    ensures job { IfTold draw_job_fault result (λ j. ByFace (λ face a. IsFontRefusal face a j) job.now.opening (option_map asked_view instance.entry) (job_view job.now) file.now) }
{
    let face = Face::read_at(file, job.opening, instance)?;
    let mut strike = Strike::new(alloc, &face, job.ppem, job.fit, 0)?;
    let picture = strike.line(job.text, job.margin)?;
    let piece = piece_for(alloc, &picture)?;
    Ok(Drawn { picture, piece })
}
