//! The glyphs of a list of numbers, tried.

ghost use Rattle.std.specs.Prelude.{◌≡◌, ◌<◌, ◌≤◌, ℕ, List, true, false, length, All, None, IfOk, IsOkAnd, OnOk};
ghost use Rattle.tt_core.specs.Outcomes.{GivesUnless, IfTold, draw_font_fault};
ghost use Rattle.tt_glyphs.specs.Lists.{IsTriedList};
ghost use Rattle.tt_glyphs.specs.Requests.{job_for, points_of_list_tested, request_begun};
ghost use Rattle.tt_picture.specs.Distinct.{distinct};
ghost use Rattle.tt_strike.specs.Defects.{IsSettingDefect, TellsDefects};
ghost use Rattle.tt_strike.specs.Makers.{job_at};
ghost use Rattle.tt_strike.specs.Refusals.{as_job, refusal};
ghost use Rattle.tt_strike.specs.Work.{is_bounded, started};

use crate::known::known_line;
use crate::outlines::try_glyphs;
use crate::request::test_count;
use crate::ruled::TriedGlyph;
use std::alloc::Global;
use tt_core::DrawFault;
use tt_face::Face;
use tt_fit::{Fit, Fitter};
use tt_picture::Cache;
use tt_strike::{DistinctGlyphs, FitterSource, SizedFace, charge_asked, distinct, is_bounded};

/// A list of numbers whose distinct glyphs are tried.
#[derive(Drop)]
pub(crate) struct TriedList<'f, 'a> {
    pub(crate) source: FitterSource<'f, 'a>,
    /// For each glyph of the font 0, or one more than its place in `tried`.
    pub(crate) places: Vec<u16>,
    /// The distinct glyphs of the font, in order of first appearance.
    pub(crate) tried: Vec<TriedGlyph>,
    /// The work that their programs left; None where work is not bounded.
    pub(crate) left: Option<u64>,
}

/// Charges the points and the deltas of distinct glyphs, where work is bounded. Errors: WorkLarge; Memory.
#[tactic(auto, unfolding(tt_strike::specs::Work::counts_tested, tt_strike::specs::Work::work_tested))]
fn charge(fit: Fit, fitter: &mut Fitter, numbers: &[u16]) -> Result<(), DrawFault>
    requires known { All (λ n. n < fitter.old.tables.glyphs) numbers.now }
    requires unbounded { is_bounded fit ≡ false → fitter.old.work ≡ None }
    ensures exact { (gs : List ℕ) → numbers.now ≡ distinct gs → GivesUnless refusal (λ u. u) result (as_job (points_of_list_tested fit fitter.old gs)) }
    ensures started { OnOk result ((gs : List ℕ) → numbers.now ≡ distinct gs → fitter.new ≡ started fitter.old gs) }
{
    if is_bounded(fit) {
        charge_asked(fit, fitter, numbers, &Cache::absent())?;
    }
    Ok(())
}

/// The distinct glyphs of at most 4,096 numbers, tried with one fitter in the list's order. Errors, the first of:
/// SizeRange, TextLong; those of loca and glyf, of the programs; WorkLarge of the points, and of the deltas. Memory may
/// come at any allocation.
pub(crate) fn tried_list<'f, 'a>(
    alloc: Global,
    face: &'f Face<'a>,
    glyphs: &[u32],
    ppem: u32,
    fit: Fit,
) -> Result<TriedList<'f, 'a>, DrawFault>
    ensures tried { IfOk result (λ l. IsOkAnd (request_begun face.now (job_for glyphs.now ppem fit)) (λ s. IsTriedList face.now (job_for glyphs.now ppem fit) s l)) }
    ensures stops { IfTold refusal result (λ r. request_begun face.now (job_for glyphs.now ppem fit) ≡ Err r) }
    ensures defects { TellsDefects draw_font_fault (IsSettingDefect face.now (job_at ppem fit)) result }
{
    let sized = SizedFace::new(alloc, face, ppem, fit)?;
    test_count(glyphs)?;
    let SizedFace {
        source,
        mut maker,
        mut table,
        ..
    } = sized;
    let mut fitter = maker.take(&source)?;
    let count = face.metrics().glyphs();
    let line = known_line(alloc, count, glyphs)?;
    let met = distinct(alloc, &mut table, count, &line)?;
    let DistinctGlyphs { places, numbers } = met;
    charge(fit, &mut fitter, &numbers)?;
    let tried = try_glyphs(alloc, &mut fitter, &numbers)?;
    Ok(TriedList {
        source,
        places,
        tried,
        left: fitter.work(),
    })
}
