//! The work of a job, which is bounded with `Fit::Best`.

ghost use Rattle.std.specs.Prelude.{◌≡◌, ℕ, ◌<◌, ◌≤◌, ◌-◌, ◌*◌, ◌^◌, true, All, List, IfOk, OnOk, Ok};
ghost use Rattle.tt_core.specs.Limits.{crossing_limit};
ghost use Rattle.tt_core.specs.Outcomes.{Gives, GivesUnless, each};
ghost use Rattle.tt_fit.specs.Counting.{points_asked};
ghost use Rattle.tt_fit.specs.DeltaCounting.{deltas_asked};
ghost use Rattle.tt_fit.specs.Fitting.{Fitter, charged_fitter};
ghost use Rattle.tt_strike.specs.Costs.{cost_of};
ghost use Rattle.tt_picture.specs.Cached.{IsCacheFor};
ghost use Rattle.tt_picture.specs.Glyphs.{AreDrawn, numbers_of};
ghost use Rattle.tt_picture.specs.Lines.{HasGlyphsOf};
ghost use Rattle.tt_picture.specs.Pixels.{Shape};
ghost use Rattle.tt_picture.specs.Shapes.{crossings_in, glyph_shape};
ghost use Rattle.tt_strike.specs.Refusals.{as_job, refusal};
ghost use Rattle.tt_strike.specs.Work.{all_counts, counts_left, counts_tested, crossings_allowed, deltas_of_all, glyph_deltas, is_bounded, points_of_all, work_of_counts, work_tested};

use std::alloc::AllocError;
use tt_core::{CROSSING_LIMIT, DrawFault, JobFault, POINT_WORK_LIMIT, WORK_LIMIT};
use tt_fit::{DELTA_LIMIT, Fit, Fitter};
use tt_picture::{Cache, Glyphs, crossings};

/// The work that each point of a line's glyphs takes.
const POINT_WORK: u64 = 40;

/// The work that each delta takes that an instance has for the line's glyphs.
const DELTA_WORK: u64 = 4;

/// The chords that a line's glyphs may have, each glyph once.
pub const CHORD_LIMIT: usize = 32_000_000;

/// The work that each crossing takes.
const CROSSING_WORK: u64 = 4;

/// The crossings that take no work.
const CROSSINGS_FREE: u64 = 500_000;

/// Whether the work of a job is bounded.
pub fn is_bounded(fit: Fit) -> bool
    ensures { result ≡ is_bounded fit }
{
    match fit {
        Fit::Full | Fit::None | Fit::Fallback => false,
        Fit::Best => true,
    }
}

/// What of the limits of points and of deltas is left to a line's glyphs.
#[derive(Clone, Copy)]
pub(crate) struct CountsLeft {
    pub(crate) points: u64,
    pub(crate) deltas: u64,
}

impl CountsLeft {
    /// The rest after so many points and deltas; None where one of them exceeds its limit.
    #[inline(always)]
    fn without(self, points: u64, deltas: u64) -> Option<CountsLeft>
        ensures { result ≡ counts_left self points deltas }
    {
        if points > self.points || deltas > self.deltas {
            return None;
        }
        Some(CountsLeft {
            points: self.points - points,
            deltas: self.deltas - deltas,
        })
    }

    /// The rest after a glyph that is counted by its headers; None where it has more. Its points are counted first: a part
    /// without deltas has points. Error: out of memory.
    #[inline(never)]
    fn without_counted(self, fitter: &Fitter, glyph: u16) -> Result<Option<CountsLeft>, AllocError>
        requires { glyph < fitter.now.tables.glyphs }
        ensures { IfOk result (λ left. left ≡ counts_left self (points_asked fitter.now.tables fitter.now.levels glyph) (deltas_asked fitter.now.instance fitter.now.tables fitter.now.levels glyph)) }
    {
        let Some(points) = fitter.points(glyph, self.points)? else {
            return Ok(None);
        };
        let Some(deltas) = fitter.deltas(glyph, self.deltas)? else {
            return Ok(None);
        };
        Ok(self.without(points, deltas))
    }

    /// The rest after a glyph, whose counts the cache has if the glyph is there; None where it has more. Error: out of
    /// memory.
    #[inline(always)]
    fn without_glyph(
        self,
        fitter: &Fitter,
        glyph: u16,
        cache: &Cache,
    ) -> Result<Option<CountsLeft>, AllocError>
        requires known { glyph < fitter.now.tables.glyphs }
        requires cache { IsCacheFor fitter.now cache.now }
        ensures { IfOk result (λ left. left ≡ counts_left self (points_asked fitter.now.tables fitter.now.levels glyph) (deltas_asked fitter.now.instance fitter.now.tables fitter.now.levels glyph)) }
    {
        match cache.counts(glyph) {
            Some(counts) => {
                let deltas = u64::from(counts.deltas);
                Ok(self.without(u64::from(counts.points), deltas))
            }
            None => self.without_counted(fitter, glyph),
        }
    }

    /// The rest after some glyphs; None where they have more. Error: out of memory.
    fn without_glyphs(
        self,
        fitter: &Fitter,
        glyphs: &[u16],
        cache: &Cache,
    ) -> Result<Option<CountsLeft>, AllocError>
        requires known { All (λ g. g < fitter.now.tables.glyphs) glyphs.now }
        requires cache { IsCacheFor fitter.now cache.now }
        ensures { IfOk result (λ left. left ≡ counts_left self (points_of_all fitter.now glyphs.now) (glyph_deltas fitter.now glyphs.now)) }
    {
        let mut left = self;
        for glyph in glyphs {
            match left.without_glyph(fitter, *glyph, cache)? {
                Some(fewer) => left = fewer,
                None => return Ok(None),
            }
        }
        Ok(Some(left))
    }
}

/// What the distinct glyphs of a line, and the deltas of the control values, leave of the limits; None where they have
/// more. Error: out of memory.
fn asked_left(
    fitter: &Fitter,
    numbers: &[u16],
    cache: &Cache,
) -> Result<Option<CountsLeft>, AllocError>
    requires known { All (λ g. g < fitter.now.tables.glyphs) numbers.now }
    requires cache { IsCacheFor fitter.now cache.now }
    ensures { IfOk result (λ left. left ≡ counts_left all_counts (points_of_all fitter.now numbers.now) (deltas_of_all fitter.now numbers.now)) }
{
    match DELTA_LIMIT.checked_sub(fitter.control_deltas()) {
        Some(deltas) => {
            let left = CountsLeft {
                points: POINT_WORK_LIMIT,
                deltas,
            };
            left.without_glyphs(fitter, numbers, cache)
        }
        None => Ok(None),
    }
}

/// Charges the points and the deltas of a line's distinct glyphs to its work, which is bounded, before a glyph is made.
/// The cache has the counts of cached glyphs. Headers state the deltas: there are none without an instance. Errors:
/// WorkLarge, where points or deltas are too many; Memory.
#[tactic(auto, unfolding(crate::specs::Work::counts_tested, crate::specs::Work::work_tested))]
pub fn charge_asked(
    fit: Fit,
    fitter: &mut Fitter,
    numbers: &[u16],
    cache: &Cache,
) -> Result<(), DrawFault>
    requires known { All (λ g. g < fitter.old.tables.glyphs) numbers.now }
    requires cache { IsCacheFor fitter.old cache.now }
    requires bounded { is_bounded fit ≡ true }
    ensures exact { GivesUnless refusal (λ u. u) result (as_job (counts_tested fit (points_of_all fitter.old numbers.now) (deltas_of_all fitter.old numbers.now))) }
    ensures charged { OnOk result (fitter.new ≡ charged_fitter fitter.old (work_of_counts (points_of_all fitter.old numbers.now) (deltas_of_all fitter.old numbers.now))) }
{
    let Some(left) = asked_left(fitter, numbers, cache)? else {
        return Err(DrawFault::Job(JobFault::WorkLarge));
    };
    let points = POINT_WORK_LIMIT - left.points;
    let deltas = DELTA_LIMIT - left.deltas;
    fitter.charge(POINT_WORK * points + DELTA_WORK * deltas);
    Ok(())
}

/// How many crossings a line may have by the work that its programs left.
pub fn crossings_allowed(left: Option<u64>) -> u64
    ensures exact { result ≡ crossings_allowed left }
    ensures small { result ≤ crossing_limit }
{
    match left {
        None => CROSSING_LIMIT,
        Some(left) => CROSSING_LIMIT.min(left / CROSSING_WORK + CROSSINGS_FREE),
    }
}

/// Counts the crossings of a line's glyphs at their pens, where work is bounded; else 0. Error: WorkLarge, where they are
/// more than `most`.
#[tactic(auto, unfolding(crate::specs::Work::work_tested))]
pub(crate) fn test_crossings(
    fit: Fit,
    most: u64,
    glyphs: &Glyphs,
    line: &[(u16, u32)],
) -> Result<u64, JobFault>
    requires line { HasGlyphsOf (numbers_of glyphs.now.made.items) line.now }
    requires most { most < 2 ^ 64 - 1 }
    ensures exact { (maker : ℕ → Fitter) (shapes : List Shape) → AreDrawn maker glyphs.now.made.items → each (glyph_shape maker) line.now ≡ Ok shapes
        → Gives (λ n. tt) result (work_tested fit most (crossings_in shapes)) }
    ensures count { (maker : ℕ → Fitter) (shapes : List Shape) → AreDrawn maker glyphs.now.made.items → each (glyph_shape maker) line.now ≡ Ok shapes
        → is_bounded fit ≡ true → IfOk result (λ n. n ≡ crossings_in shapes) }
    ensures few { IfOk result (λ n. n ≤ most) }
{
    let count = if is_bounded(fit) {
        crossings(glyphs, line)
    } else {
        0
    };
    if count > most {
        return Err(JobFault::WorkLarge);
    }
    Ok(count)
}

/// What a line takes of the budget of a call of many lines, by the work that remains and the line's crossings. Nothing
/// where work is not bounded.
pub(crate) fn cost_of(left: Option<u64>, crossings: u64) -> u64
    requires { crossings ≤ crossing_limit }
    ensures { result ≡ cost_of left crossings }
{
    match left {
        None => 0,
        Some(left) => WORK_LIMIT.saturating_sub(left) + CROSSING_WORK * crossings,
    }
}
