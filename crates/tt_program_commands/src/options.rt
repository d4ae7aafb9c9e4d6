//! The words and options of the subcommands.

use crate::arguments::{Argument, Takes};
use tt_program_words::{ALIGNS, BEST, DRAW, EXACT, FITS, FULL, HEIGHTS, LEFT, MISSING_WORDS, TELL};

/// The start of each argument: the word at a place, which may be left out.
const PLAIN: Argument = Argument {
    name: "",
    takes: Takes::Place,
    short: None,
    values: &[],
    defaults: &[],
    required: false,
    unless: &[],
    conflicts: &[],
    help: "",
};

pub(crate) const FONT: Argument = Argument {
    name: "FONT",
    required: true,
    help: "The path of a TrueType font file",
    ..PLAIN
};

pub(crate) const TEXT: Argument = Argument {
    name: "TEXT",
    help: "At most 4096 characters",
    ..PLAIN
};

pub(crate) const TEXT_OR_LINES: Argument = Argument {
    unless: &["lines"],
    ..TEXT
};

pub(crate) const SIZE: Argument = Argument {
    name: "size",
    takes: Takes::Number,
    values: &["N"],
    required: true,
    help: "Pixels per em, 1 to 300",
    ..PLAIN
};

pub(crate) const MARGIN: Argument = Argument {
    name: "margin",
    takes: Takes::Number,
    values: &["N"],
    defaults: &["0"],
    help: "Pixels round the line, 0 to 64",
    ..PLAIN
};

pub(crate) const WIDTH: Argument = Argument {
    name: "width",
    takes: Takes::Number,
    values: &["N"],
    help: "Break longer lines, and make the picture N columns wide",
    ..PLAIN
};

pub(crate) const BOX: Argument = Argument {
    name: "box",
    takes: Takes::Text,
    values: &["WxH"],
    conflicts: &["width"],
    help: "Make the picture W by H, at the greatest size that fits",
    ..PLAIN
};

pub(crate) const ALIGN: Argument = Argument {
    name: "align",
    takes: Takes::OneOf(ALIGNS),
    values: &["SIDE"],
    defaults: &[LEFT],
    help: "left, centre or right, of shorter lines",
    ..PLAIN
};

/// `--fit` for programs.
pub(crate) const FIT: Argument = Argument {
    name: "fit",
    takes: Takes::OneOf(FITS),
    values: &["HOW"],
    defaults: &[FULL],
    help: "How the font's own programs (hinting) are used:\n\
           best      for any font; fills gaps in thin strokes\n\
           fallback  as full, but draws a refused glyph unhinted\n\
           none      not at all; outlines are scaled\n\
           full      by the strict rules alone",
    ..PLAIN
};

/// `--fit` for people.
pub(crate) const FIT_BEST: Argument = Argument {
    defaults: &[BEST],
    ..FIT
};

pub(crate) const FACE: Argument = Argument {
    name: "face",
    takes: Takes::Number,
    values: &["N"],
    help: "A face of the file, counted from 0; 'faces' lists them",
    ..PLAIN
};

pub(crate) const INSTANCE: Argument = Argument {
    name: "instance",
    takes: Takes::Text,
    values: &["NAME"],
    help: "A named instance of a variable font, or its number;\n\
           'faces' lists them",
    ..PLAIN
};

pub(crate) const AXIS: Argument = Argument {
    name: "axis",
    takes: Takes::Text,
    values: &["TAG=N"],
    help: "Values of a variable font's axes, as wght=700,wdth=87.5",
    ..PLAIN
};

/// `--missing` for programs.
pub(crate) const MISSING: Argument = Argument {
    name: "missing",
    takes: Takes::OneOf(MISSING_WORDS),
    values: &["HOW"],
    defaults: &[DRAW],
    help: "What to do with a character that the font lacks:\n\
           tell      draw glyph 0, and report the character\n\
           refuse    refuse the text\n\
           draw      draw glyph 0, often a box",
    ..PLAIN
};

/// `--missing` for people.
pub(crate) const MISSING_TOLD: Argument = Argument {
    defaults: &[TELL],
    ..MISSING
};

pub(crate) const GROW: Argument = Argument {
    name: "grow",
    takes: Takes::Flag,
    help: "Make the picture larger where ink would be cut",
    ..PLAIN
};

pub(crate) const KERN: Argument = Argument {
    name: "kern",
    takes: Takes::Flag,
    help: "Move pairs such as AV nearer; it pays from size 16 on",
    ..PLAIN
};

pub(crate) const HEIGHT: Argument = Argument {
    name: "height",
    takes: Takes::OneOf(HEIGHTS),
    values: &["HOW"],
    defaults: &[EXACT],
    help: "exact, or rounded to join box lines",
    ..PLAIN
};

pub(crate) const NO_INK: Argument = Argument {
    name: "no-ink",
    takes: Takes::Flag,
    conflicts: &["grow", "lines"],
    help: "Print no boxes of ink, and the distance of lines; quick",
    ..PLAIN
};

pub(crate) const RANGE: Argument = Argument {
    name: "range",
    takes: Takes::Text,
    values: &["R"],
    help: "Hexadecimal code points, as 20-7E,A0-FF",
    ..PLAIN
};

pub(crate) const OUTPUT: Argument = Argument {
    name: "output",
    takes: Takes::Text,
    short: Some('o'),
    values: &["FILE"],
    help: "The file for the picture: PNG if it ends in .png;\n\
           with --lines a file of each line, whose number is %d",
    ..PLAIN
};

pub(crate) const PNG: Argument = Argument {
    name: "png",
    takes: Takes::Flag,
    help: "Write PNG in place of P4",
    ..PLAIN
};

pub(crate) const KEEP_GOING: Argument = Argument {
    name: "keep-going",
    takes: Takes::Flag,
    conflicts: &["TEXT"],
    help: "With --lines: report a refused line, and go on",
    ..PLAIN
};

pub(crate) const LINES: Argument = Argument {
    name: "lines",
    takes: Takes::Flag,
    conflicts: &["TEXT"],
    help: "Draw each line of standard input, in place of TEXT",
    ..PLAIN
};
