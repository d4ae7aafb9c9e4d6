//! Laws of runs and of their work. Apple TrueType Reference Manual, "Instructing TrueType Glyphs".

ghost use Rattle.tt_exec.specs.Machines.{RunsBeginAgain};
ghost use Rattle.tt_exec.specs.MoreWork.{EndsStay, FaultsStay};
ghost use Rattle.tt_exec.specs.RunCost.{RunsGrow, RunsHaveCosts};
ghost use Rattle.tt_exec.specs.Worked.{SpentWork, UnboundedWork, WorkFalls};

pub use tt_exec_step::laws::{one_outcome, sizes_are_kept};

/// Lemma: for the same parts, a run on a machine that is begun again is the run on a new machine.
pub fn runs_begin_again()
    ensures { RunsBeginAgain }
{}

/// Lemma: a run without a budget is never refused for its work.
pub fn unbounded_work()
    ensures { UnboundedWork }
{}

/// Lemma: a run that exceeds its budget halts with StepLimit.
pub fn spent_work()
    ensures { SpentWork }
{}

/// Lemma: a run never increases the remaining work.
pub fn work_falls()
    ensures { WorkFalls }
{}

/// Lemma: a run's cost is one number, whatever remains. At least that much leaves the difference, and less is refused
/// by StepLimit. A run within its budget is within each larger budget too, and leaves as much more.
pub fn runs_have_costs()
    ensures cost { RunsHaveCosts }
    ensures grows { RunsGrow }
{}

/// Lemma: with more work remaining a run ends, or halts with a fault of its program, as before. The machine after a run
/// that ends is the same, and as much more work remains. A run that finds no memory is excepted.
pub fn more_work_is_the_same_run()
    ensures ends { EndsStay }
    ensures faults { FaultsStay }
{}
