//! The words of the command line's options. This crate has constants alone, since two crates need them:
//! `tt_program_commands`, which describes the options by clap, and `tt_program_decisions`, which stands without clap.
#![tactic(auto)]

/// The default way to fit of programs.
pub const FULL: &str = "full";

/// The way to fit that leaves outlines as they are, scaled.
pub const NONE: &str = "none";

/// The way to fit that is as full, but draws a refused glyph unhinted.
pub const FALLBACK: &str = "fallback";

/// The default way to fit of people.
pub const BEST: &str = "best";

/// The words of `--fit`.
pub const FITS: &[&str] = &[FULL, NONE, FALLBACK, BEST];

/// The default treatment of characters without a glyph.
pub const DRAW: &str = "draw";

/// What is done about them for people.
pub const TELL: &str = "tell";

/// The refusal of a text that has such a character.
pub const REFUSE: &str = "refuse";

/// The words of `--missing`.
pub const MISSING_WORDS: &[&str] = &[DRAW, TELL, REFUSE];

/// The default side of lines.
pub const LEFT: &str = "left";

pub const CENTRE: &str = "centre";

pub const RIGHT: &str = "right";

/// The words of `--align`.
pub const ALIGNS: &[&str] = &[LEFT, CENTRE, RIGHT];

/// The default rounding of heights.
pub const EXACT: &str = "exact";

pub const ROUNDED: &str = "rounded";

/// The words of `--height`.
pub const HEIGHTS: &[&str] = &[EXACT, ROUNDED];
