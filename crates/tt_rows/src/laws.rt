//! Lemmas about the definitions, for all lines. No code runs.

ghost use Rattle.tt_rows.specs.ComposedLaws.{ComposedLinesAreNoLonger, ComposingAgainChangesNothing, CompositesAreNeverSecond, UncomposedLinesStay};
ghost use Rattle.tt_rows.specs.RowLaws.{FittingIsGreatest, LinesThatFitStay, RowsAreGreedy, RowsDropBlanks, RowsFit, RowsHaveEachUnit, WordsBreakOfNeed};

/// Lemma: each unit of a line stands in exactly one row, in the line's order. All units of a row are drawn, but for the
/// blanks at its end.
pub fn rows_have_each_unit()
    ensures units { RowsHaveEachUnit }
    ensures blanks { RowsDropBlanks }
{}

/// Lemma: a row that breaks no word is no wider than the room. Every longer row that ends where a row may end overflows
/// the room. A word is broken only where each row that ends so overflows. A line that fits is one row.
pub fn rows_are_greedy()
    ensures fit { RowsFit }
    ensures longest { RowsAreGreedy }
    ensures need { WordsBreakOfNeed }
    ensures whole { LinesThatFitStay }
{}

/// Lemma: the units that fit one after the other are the greatest number whose row is no wider than the room, where
/// kerning draws no unit nearer.
pub fn fitting_is_the_greatest()
    ensures { FittingIsGreatest }
{}

/// Lemma: a line without a pair that composes is unchanged, composing again changes nothing, and no line gets longer.
/// No composite is the second character of a primary composite.
pub fn composing_settles()
    ensures unchanged { UncomposedLinesStay }
    ensures again { ComposingAgainChangesNothing }
    ensures shorter { ComposedLinesAreNoLonger }
    ensures second { CompositesAreNeverSecond }
{}
