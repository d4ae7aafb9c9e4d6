//! Lemmas about the definitions, for all files and all scales. No code runs.

ghost use Rattle.tt_core.specs.Laws.{DirectoriesAreWhole, DirectoriesAreKept, TablesAreWhole, ReadingsAreWhole, StrictIsTheFile};
ghost use Rattle.tt_core.specs.Scales.{ScalesKeepOrder, ScalesAreOdd, ScalesKeepDifferences};

/// Lemma: if the definitions give a directory, or a needed table, then the directory or the table has no defect.
pub fn tables_are_whole()
    ensures directory { DirectoriesAreWhole }
    ensures same { DirectoriesAreKept }
    ensures table { TablesAreWhole }
{}

/// Lemma: a directory that a reading gives has no defect. The strict reading gives the directory at the file's start.
pub fn readings_are_whole()
    ensures whole { ReadingsAreWhole }
    ensures strict { StrictIsTheFile }
{}

/// Lemma: scaling to 26.6 preserves the order of distances, and differences up to a 64th of a pixel. With halves away
/// from zero, scaling is odd.
pub fn scales_keep_order()
    ensures order { ScalesKeepOrder }
    ensures odd { ScalesAreOdd }
    ensures differences { ScalesKeepDifferences }
{}
