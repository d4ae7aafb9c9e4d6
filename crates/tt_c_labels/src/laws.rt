//! Lemmas about the definitions, for all faces and jobs. No code runs.

ghost use Rattle.tt_c_labels.specs.LabelLaws.{LabelsAreTheCommands};

/// Lemma: the label of a composed text has the picture, and the cut columns, that the command `label` writes and tells in the
/// same space. It is refused for the same reason.
pub fn labels_are_the_commands()
    ensures { LabelsAreTheCommands }
{}
