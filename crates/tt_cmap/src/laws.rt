//! Lemmas about the definitions, for all tables. No code runs.

ghost use Rattle.tt_cmap.specs.Laws.{CmapsAreWhole, FullTextsLackNothing};
ghost use Rattle.tt_cmap.specs.WideLaws.{WideCmapsAreWhole, WideExtendsStrict, SearchesEnd, SearchesFindTheLeast, SearchesMissNone, UnitsHaveCharacters, PlainTextsStay, CharactersAreUnits, UnitsAreFew};

/// Lemma: if the definition gives a character map, then cmap has no defect.
pub fn cmaps_are_whole()
    ensures { CmapsAreWhole }
{}

/// Lemma: the list of a text's characters without glyphs is empty if and only if all its units have glyphs.
pub fn full_texts_lack_nothing()
    ensures { FullTextsLackNothing }
{}

/// Lemma: the wide reading extends the strict one. Where both give a map, the maps have the same subtable, and the same
/// glyph for each character. A map of the wide reading has no defect.
pub fn wide_extends_strict()
    ensures whole { WideCmapsAreWhole }
    ensures extends { WideExtendsStrict }
{}

/// Lemma: where a binary search ends, the number passes, and the number before fails. If no number falls back, the
/// search ends at the least that passes, or past all.
pub fn searches_end()
    ensures ends { SearchesEnd }
    ensures least { SearchesFindTheLeast }
    ensures none { SearchesMissNone }
{}

/// Lemma: if selectors belong to characters, no unit's character is a selector, and in a text without selectors each
/// character is a unit. Else each character is a unit in every text. A text has at most as many units as characters.
pub fn units_have_characters()
    ensures characters { UnitsHaveCharacters }
    ensures plain { PlainTextsStay }
    ensures each { CharactersAreUnits }
    ensures few { UnitsAreFew }
{}
