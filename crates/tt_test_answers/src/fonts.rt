//! Does what the program does, without its command line, over readers and writers in memory, and as often as there are
//! questions: for tests with fonts that are damaged and devices that fail. A line of standard input is a question, or
//! states the font, its instance or the devices for the questions after it:
//!
//!     font HEX
//!     file PATH
//!     axes AXES
//!     devices READ FAILS WRITE ROOM END
//!     map TEXT LENGTH AT BYTE ..
//!     draw TEXT SIZE MARGIN FIT LENGTH AT BYTE ..
//!     lines TEXT LINES MISSING SIZE MARGIN FIT LENGTH AT BYTE ..
//!
//! AXES are values of axes as `--axis` has them, or `-`: questions are about the font's instance there.
//!
//! A question is about the first LENGTH bytes of the font, with other bytes at the places that are named. HEX and
//! TEXT are in hexadecimal, or `-`. A call of the reader gives READ bytes at most, and the call number FAILS fails, if
//! that is not 0; a call of the writer takes WRITE bytes at most, and one that finds ROOM bytes taken fails, takes nothing,
//! or finds its reader gone, as END says: `fails`, `nothing` or `closed`. For `lines` TEXT is the content of standard
//! input, which is read as the font is, but for the number LINES of the call that fails; MISSING is a word of `--missing`.
//!
//! The answer of a question is a line too, `STATUS COUNT SUM|LINE|`: the exit status, the number of bytes that were
//! written, their sum by FNV-1a of 64 bits, and the lines on standard error, with `|` for each line feed.

mod asked;
mod devices;

pub(crate) use self::asked::Asked;
use anyhow::Result;
use std::fs;
use tt_test_words::Line;

/// Answers a question, or keeps a font or devices.
pub(crate) fn answer(rt: &HostRuntime, line: &mut Line, asked: &mut Asked) -> Result<()> {
    match line.word() {
        "file" => asked.font = fs::read(rt, line.word())?,
        word => asked.answer(rt.alloc(), line, word),
    }
    Ok(())
}
