//! Laws of instructions and runs: the whole instruction set, the tolerant machine, and too few values. Apple TrueType
//! Reference Manual, "Instructing TrueType Glyphs".

ghost use Rattle.tt_exec_points.specs.Laws.{PointsAreLoosened, PointsAreTotal, PointsAreShort};
ghost use Rattle.tt_exec_points.specs.WithAll.{PointsStay};
ghost use Rattle.tt_exec_step.specs.Loosened.{RunsLoosen, TolerantRunsLackNothing};
ghost use Rattle.tt_exec_step.specs.WithAll.{RunsStay};

/// Lemma: the whole instruction set changes no result, except for the refusals OffProfile and Perpendicular.
pub fn points_stay()
    ensures { PointsStay }
{
    tt_points::laws::singles_stay();
    tt_points_loops::laws::several_stay();
}

/// Lemma: a tolerant machine gives the result of a strict one, unless that is a refusal that tolerance lifts.
pub fn points_loosened()
    ensures { PointsAreLoosened }
{
    tt_points_loops::laws::several_loosened();
}

/// Lemma: with the values that it takes, no instruction of a tolerant machine fails with too few values or for a
/// missing thing.
pub fn points_total()
    ensures { PointsAreTotal }
{
    tt_points::laws::singles_enough();
    tt_points_loops::laws::several_total();
}

/// Lemma: with fewer values than it takes, an instruction is refused.
pub fn few_values_are_refused()
    ensures { PointsAreShort }
{}

/// Lemma: the whole instruction set changes nothing for a run that ends without it, and no fault except OffProfile and
/// Perpendicular.
pub fn runs_stay()
    ensures { RunsStay }
{
    tt_exec_state::laws::settings_stay();
    points_stay();
}

/// Lemma: tolerance changes nothing for a run that ends on a strict machine, and no fault except those that it lifts.
pub fn runs_loosen()
    ensures { RunsLoosen }
{
    tt_exec_stack::laws::padding_is_enough();
    tt_exec_stack::laws::managing_is_loosened();
    tt_exec_stack::laws::few_values_are_refused();
    tt_exec_state::laws::answers_are_loosened();
    tt_exec_state::laws::few_values_are_refused();
    points_loosened();
    few_values_are_refused();
}

/// Lemma: a run on a tolerant machine never halts with StackShort, PointRange, ContourRange, ZoneRange, CvtRange or
/// StorageRange.
pub fn tolerant_runs_lack_nothing()
    ensures { TolerantRunsLackNothing }
{
    tt_exec_stack::laws::padding_is_enough();
    tt_exec_stack::laws::answers_are_total();
    tt_exec_state::laws::answers_are_total();
    points_total();
}
