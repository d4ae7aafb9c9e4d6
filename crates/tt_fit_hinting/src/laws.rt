//! A law of the definitions. The function is a lemma: its clause holds of all programs, and no code runs.

ghost use Rattle.tt_fit_hinting.specs.WorkLaws.{ProgramsHaveCosts};

/// Lemma: the work of a glyph's program has one cost, whatever remains of the job's work. At least that much leaves the
/// difference, and less is refused by StepLimit.
pub fn programs_have_costs()
    ensures { ProgramsHaveCosts }
{}
