//! Lemmas about the definitions, for all faults, jobs, texts and files.

ghost use Rattle.tt_c_calls.specs.LineRooms.{AskedRoomIsEnough, SmallerRoomIsRefused};
ghost use Rattle.tt_c_calls.specs.Offsets.{OffsetsCutTexts, OffsetsRise};
ghost use Rattle.tt_c_calls.specs.Laws.{FontMessagesAreLines, JobMessagesAreLines, MessagesAreShort, PlainIsRun, ShortRoomsAreEnough};

/// Lemma: the message of a refused font or job is the program's line on standard error; for a font, if the tag of the
/// table is ASCII.
pub fn messages_are_lines()
    ensures fonts { FontMessagesAreLines }
    ensures jobs { JobMessagesAreLines }
{}

/// Lemma: the message of an answer has at most 90 bytes, its zero included. So `message` reports at most 90 bytes, and never
/// finds a room of 90 bytes too small.
pub fn messages_are_short()
    ensures text { MessagesAreShort }
    ensures room { ShortRoomsAreEnough }
{}

/// Lemma: without `grow` the picture of a text is the one that `run` writes, and is refused for the same reason.
pub fn plain_is_run()
    ensures { PlainIsRun }
{}

/// Lemma: the byte offsets of a text's units rise and lie in the text. They cut the text into its units: each piece, from an
/// offset up to the next one or to the end, alone has one unit, which is the text's.
pub fn offsets_cut_texts()
    ensures rise { OffsetsRise }
    ensures cut { OffsetsCutTexts }
{}

/// Lemma: `lines_room` reports the exact room of `draw_lines` for the same lines. A room of this size is enough, and
/// each smaller one is refused as too small, unless memory is refused.
pub fn asked_rooms_are_exact()
    ensures enough { AskedRoomIsEnough }
    ensures smaller { SmallerRoomIsRefused }
{}
