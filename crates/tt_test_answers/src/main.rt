//! Prints the answers of the libraries, to be compared with those of other programs:
//!
//!     tt_test_answers glyphs FONT
//!     tt_test_answers outlines FONT SIZE FIT all
//!     tt_test_answers outlines FONT SIZE FIT GLYPH ..
//!     tt_test_answers outlines FONT SIZE FIT pixels GLYPH WIDTH HEIGHT MARGIN RISE
//!     tt_test_answers outlines FONT SIZE FIT at AXES ..
//!     tt_test_answers pixels
//!     tt_test_answers dropouts
//!     tt_test_answers machine
//!     tt_test_answers fonts
//!     tt_test_answers any
//!
//! FIT is `full`, `none`, `fallback` or `best`. AXES are values as `--axis` has them, and the words of `outlines` follow.
//! The last five read questions from standard input: about edges and
//! pixels, about dropouts, about runs of the bytecode machine, and about damaged fonts and devices that fail. After
//! `any` each line begins with one of the four words above it. The module of each word states the form of its lines.
//! Where memory is refused for a glyph, a note on standard error names the glyph, and the glyph is requested once more.
#![tactic(auto)]

mod fonts;

use crate::fonts::Asked;
use anyhow::{Result, bail};
use std::io::{BufRead, BufReader};
use std::{env, fs};
use tt_test_glyphs::{glyphs, outlines};
use tt_test_machine::machine;
use tt_test_machine::machine::Program;
use tt_test_pixels::{dropouts, pixels};
use tt_test_words::Line;

fn main(rt: HostRuntime) -> Result<()> {
    let words: Vec<String> = env::args(&rt)?.collect(rt.alloc())?;
    match words.as_slice() {
        [_, what] => answer_lines(&rt, what.as_str()),
        [_, what, font, rest @ ..] => answer_words(&rt, what.as_str(), font.as_str(), rest),
        _ => bail!("a word is missing"),
    }
}

/// Answers the words of the command line, about a font.
fn answer_words(rt: &HostRuntime, what: &str, path: &str, words: &[String]) -> Result<()> {
    let font = fs::read(rt, path)?;
    let mut text = String::new(rt.alloc());
    for word in words {
        text.push_str(word.as_str())?;
        text.push(' ')?;
    }
    let mut line = Line::new(rt.alloc(), text.as_str());
    match what {
        "glyphs" => glyphs::put_table(rt.alloc(), &mut line, font.as_slice()),
        "outlines" => outlines::put_table(rt.alloc(), &mut line, font.as_slice()),
        _ => line.refuse("no such table"),
    }
    line.print(rt, 0)
}

/// State that a line of standard input leaves for the lines after it.
#[derive(Drop)]
struct Kept {
    /// The font program of the machine's questions.
    program: Program,
    /// The font, its instance and the devices of questions about fonts.
    asked: Asked,
}

/// Answers the lines of standard input.
fn answer_lines(rt: &HostRuntime, what: &str) -> Result<()> {
    let input = BufReader::new(rt.alloc(), rt.reader())?;
    let mut number = 0u64;
    let mut kept = Kept {
        program: Program::empty(rt.alloc()),
        asked: Asked::new(rt.alloc()),
    };
    for text in input.lines(rt.alloc()) {
        let text = text?;
        number = number.wrapping_add(1);
        let mut line = Line::new(rt.alloc(), text.as_str());
        answer_line(rt, what, &mut line, &mut kept)?;
        line.print(rt, number)?;
    }
    Ok(())
}

/// Answers a line of standard input.
fn answer_line(rt: &HostRuntime, what: &str, line: &mut Line, kept: &mut Kept) -> Result<()> {
    let what = if what == "any" { line.word() } else { what };
    match what {
        "pixels" => pixels::answer(rt.alloc(), line),
        "dropouts" => dropouts::answer(rt.alloc(), line),
        "machine" => machine::answer(rt.alloc(), line, &mut kept.program),
        "fonts" => fonts::answer(rt, line, &mut kept.asked)?,
        _ => line.refuse("no such table"),
    }
    Ok(())
}
