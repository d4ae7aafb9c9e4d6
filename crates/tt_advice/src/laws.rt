//! Laws of the definitions. Each function is a lemma: its clauses hold of all faults and files, and no code runs.

ghost use Rattle.tt_advice.specs.Laws.{CffIsThere, FacesAreCounted, ProgramsAreRefused};

/// Lemma: the advice is true. CFF outlines are reported only where a file has their version at the fault's offset, or a
/// table of them. The number of faces is the file's. A program is reported only for a fault of a program.
pub fn advice_is_true()
    ensures cff { CffIsThere }
    ensures faces { FacesAreCounted }
    ensures programs { ProgramsAreRefused }
{}
