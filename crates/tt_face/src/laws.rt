//! Lemmas about the definitions, for all files. No code runs.

ghost use Rattle.tt_face.specs.Laws.{AvarRefusesNothing, DefaultsAreFaces, FaultsComeFirst, GlyphTablesAreWhole, GvarAloneRefuses, InstancesAreWhole, ProgramsAreWhole, ZeroIsTheDefault};
ghost use Rattle.tt_face.specs.Instance.{ZeroKeepsFaces};
ghost use Rattle.tt_face.specs.Files.{FacesAreWhole, ReadFacesAreWhole, StrictIsTheFace, FacesAreTheirFonts, OpenedFacesAreWhole, PlainRulesKeepFaces, RulesKeepFaults, WideFacesExtend};

/// Lemma: if the definitions give a face, its glyph tables or its programs, then these have no defect.
pub fn faces_are_whole()
    ensures face { FacesAreWhole }
    ensures glyphs { GlyphTablesAreWhole }
    ensures programs { ProgramsAreWhole }
{}

/// Lemma: if a reading gives a face, the face has no defect for that reading. The strict reading gives the file's only
/// font. The wide reading extends the strict one. A face is its font, wherever the directory is.
pub fn readings_give_faces()
    ensures whole { ReadFacesAreWhole }
    ensures strict { StrictIsTheFace }
    ensures extends { WideFacesExtend }
    ensures fonts { FacesAreTheirFonts }
{}

/// Lemma: with exact heights and without kerning a face is that of its reading. By all rules a file is refused for the
/// same fault, and a face that is given has no defect.
pub fn rules_keep_faces()
    ensures plain { PlainRulesKeepFaces }
    ensures faults { RulesKeepFaults }
    ensures whole { OpenedFacesAreWhole }
{}

/// Lemma: a face without an instance is that of the font's default, and so is one whose coordinates are all 0.
pub fn defaults_are_faces()
    ensures none { DefaultsAreFaces }
    ensures zero { ZeroKeepsFaces }
    ensures default { ZeroIsTheDefault }
{}

/// Lemma: at an instance a file is refused for the faults of its face first, and then for those of fvar, of what is
/// asked, and of gvar's header. No other table refuses an instance.
pub fn few_tables_refuse()
    ensures face { FaultsComeFirst }
    ensures coordinates { AvarRefusesNothing }
    ensures tables { GvarAloneRefuses }
{}

/// Lemma: a face that is given at an instance has no defect.
pub fn instances_are_whole()
    ensures { InstancesAreWhole }
{}
