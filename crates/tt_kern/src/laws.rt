//! Lemmas about the definitions, for all tables. No code runs.

ghost use Rattle.tt_kern.specs.Laws.{SearchesEnd, SearchesAreShort, KeysThatRiseAreFound, LookupsAreFew, SubtablesAreFew, ListsOfKernAreShort, WithoutTablesNone};

/// Lemma: where a binary search ends, the number passes, and the number before it fails. A search of fewer than 2^k
/// numbers tests at most k.
pub fn searches_end()
    ensures ends { SearchesEnd }
    ensures short { SearchesAreShort }
{}

/// Lemma: where the keys of records rise, the search finds each key that is there.
pub fn keys_that_rise_are_found()
    ensures { KeysThatRiseAreFound }
{}

/// Lemma: a feature has at most 32 lookups and 64 pair subtables, and a table kern at most 32 subtables.
pub fn lists_are_short()
    ensures lookups { LookupsAreFew }
    ensures subtables { SubtablesAreFew }
    ensures kern { ListsOfKernAreShort }
{}

/// Lemma: in a font without both tables the kerning of any two glyphs is 0.
pub fn without_tables_none()
    ensures { WithoutTablesNone }
{}
