//! A line of words, and its answer.

use anyhow::{Result, bail};
use std::alloc::Global;
use std::io::Write;
use std::str::SplitAsciiWhitespace;

/// A line of words. The answer is collected in memory, so that no function that answers can fail.
#[derive(Drop)]
pub struct Line<'a> {
    /// The words that are still to be read.
    words: SplitAsciiWhitespace<'a>,
    answer: Vec<u8>,
    /// Notes for standard error, the reason of a refusal among them.
    notes: Vec<u8>,
    /// The line is no question, or cannot be answered.
    refused: bool,
    /// Memory for the answer or for a note ran out.
    lost: bool,
}

impl<'a> Line<'a> {
    pub fn new(alloc: Global, text: &'a str) -> Line<'a> {
        Line {
            words: text.split_ascii_whitespace(),
            answer: Vec::new(alloc),
            notes: Vec::new(alloc),
            refused: false,
            lost: false,
        }
    }

    /// The next word; None after the last one.
    pub fn next(&mut self) -> Option<&'a str> {
        self.words.next()
    }

    /// Adds a text to the answer.
    pub fn put(&mut self, text: &str) {
        if self.answer.extend_from_slice(text.as_bytes()).is_err() {
            self.lost = true;
        }
    }

    /// Adds a character of ASCII to the answer.
    pub fn put_byte(&mut self, byte: u8) {
        if self.answer.push(byte).is_err() {
            self.lost = true;
        }
    }

    /// Adds a number to the answer.
    pub fn put_number(&mut self, number: i64) {
        if write!(self.answer, "{number}").is_err() {
            self.lost = true;
        }
    }

    /// Adds a number from 0 to 2^64 - 1 to the answer.
    pub fn put_unsigned(&mut self, number: u64) {
        if write!(self.answer, "{number}").is_err() {
            self.lost = true;
        }
    }

    /// Adds a blank and a number to the answer.
    pub fn put_field(&mut self, number: i64) {
        self.put_byte(b' ');
        self.put_number(number);
    }

    /// Adds a blank and a number to the answer, for each number.
    pub fn put_fields(&mut self, numbers: &[i64]) {
        for number in numbers {
            self.put_field(*number);
        }
    }

    /// Adds a note.
    pub fn note(&mut self, text: &str) {
        if self.notes.extend_from_slice(text.as_bytes()).is_err() {
            self.lost = true;
        }
    }

    /// Adds a blank and a number to the notes.
    pub fn note_field(&mut self, number: i64) {
        if write!(self.notes, " {number}").is_err() {
            self.lost = true;
        }
    }

    /// Refuses the line, unless it is refused already.
    pub fn refuse(&mut self, why: &str) {
        if !self.refused {
            self.refused = true;
            self.note(why);
        }
    }

    /// Refuses the line for a number out of its range, unless it is refused already.
    pub(crate) fn refuse_number(&mut self, number: i64, low: i64, high: i64) {
        if !self.refused {
            self.refused = true;
            self.note_field(number);
            self.note(" is not from");
            self.note_field(low);
            self.note(" to");
            self.note_field(high);
        }
    }

    /// Whether the line is refused, or memory ran out.
    pub fn is_refused(&self) -> bool {
        self.refused || self.lost
    }

    /// Prints the notes and the answer. Error: the line is refused, or memory ran out.
    pub fn print(&self, rt: &HostRuntime, number: u64) -> Result<()> {
        rt.stderr().write_all(self.notes.as_slice())?;
        if self.refused {
            bail!(" (line {number})");
        }
        if self.lost {
            bail!("out of memory (line {number})");
        }
        rt.stdout().write_all(self.answer.as_slice())?;
        Ok(())
    }
}
