//! Lemmas about the definitions, for all faces. No code runs.

ghost use Rattle.tt_advances.specs.Laws.{DefaultsGiveAdvances, FoundAdvancesAreWhole, TablesGiveAdvances};

/// Lemma: without an instance, and at one with HVAR, no glyph is read for an advance, and lines are laid out by the
/// advances of the tables.
pub fn tables_give_advances()
    ensures tables { TablesGiveAdvances }
    ensures default { DefaultsGiveAdvances }
{}

/// Lemma: where the advances of some glyphs are found, nothing that is read for them has a defect.
pub fn found_advances_are_whole()
    ensures { FoundAdvancesAreWhole }
{}
