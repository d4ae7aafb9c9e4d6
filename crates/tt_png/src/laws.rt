//! Lemmas about the definitions, for all pictures. No code runs.

ghost use Rattle.tt_png.specs.Laws.{FilesHaveTheirLength, FilesReadBack};

/// Lemma: the length of a file follows from the size of its picture.
pub fn lengths_follow()
    ensures { FilesHaveTheirLength }
{}

/// Lemma: a reader finds the size, the colours and the rows of the picture in its file.
pub fn files_read_back()
    ensures { FilesReadBack }
{}
