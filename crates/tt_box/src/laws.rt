//! Lemmas about the definitions, for all faces, jobs and boxes. No code runs.

ghost use Rattle.tt_box.specs.BoxLaws.{BoxesCutNone, NoSizeIsLeft, SizesAreGreatest};

/// Lemma: at no greater size, from the requested one down, does the text of a label fit its box. A text that has no
/// picture fits at none of the sizes.
pub fn sizes_are_greatest()
    ensures greatest { SizesAreGreatest }
    ensures none { NoSizeIsLeft }
{}

/// Lemma: the picture of a box shows rows of unbroken words that fit, and all their ink lies in it.
pub fn boxes_cut_none()
    ensures { BoxesCutNone }
{}
