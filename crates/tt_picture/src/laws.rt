//! Laws of the definitions. Each function is a lemma: its clauses hold of all glyphs, and no code runs.

ghost use Rattle.tt_picture.specs.Cached.{CachedStays};

/// Lemma: cached glyphs are those of every fitter that differs in its remaining work alone. So one cache serves all
/// glyphs of a line, and all lines.
pub fn cached_glyphs_stay()
    ensures { CachedStays }
{}
