//! Lemmas about the definitions, for all files. No code runs.

ghost use Rattle.tt_metrics.specs.Laws.{MetricsAreWhole};

/// Lemma: if the definition gives a font's metrics, then head, maxp, hhea and hmtx have no defect.
pub fn metrics_are_whole()
    ensures { MetricsAreWhole }
{}
