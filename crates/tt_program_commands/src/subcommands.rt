//! The subcommands, as data.

use crate::arguments::Argument;
use crate::options::{
    ALIGN, AXIS, BOX, FACE, FIT, FIT_BEST, FONT, GROW, HEIGHT, INSTANCE, KEEP_GOING, KERN, LINES,
    MARGIN, MISSING, MISSING_TOLD, NO_INK, OUTPUT, PNG, RANGE, SIZE, TEXT, TEXT_OR_LINES, WIDTH,
};

/// A subcommand.
pub(crate) struct Subcommand {
    pub(crate) name: &'static str,
    /// The words that call it.
    pub(crate) call: &'static str,
    pub(crate) about: &'static str,
    /// The end of its help.
    pub(crate) ending: Option<&'static str>,
    pub(crate) arguments: &'static [Argument],
}

/// The subcommand that has this name, if there is one.
pub(crate) fn subcommand_named(name: &str) -> Option<&'static Subcommand> {
    for subcommand in subcommands() {
        if subcommand.name == name {
            return Some(subcommand);
        }
    }
    None
}

/// All subcommands, in the order of the help.
pub(crate) fn subcommands() -> [&'static Subcommand; 6] {
    [label(), draw(), measure(), map(), faces(), bdf()]
}

// Only these functions read the constants, each of one subcommand: a proof that sees them is slow.

fn label() -> &'static Subcommand {
    &LABEL
}

fn draw() -> &'static Subcommand {
    &DRAW
}

fn measure() -> &'static Subcommand {
    &MEASURE
}

fn map() -> &'static Subcommand {
    &MAP
}

fn faces() -> &'static Subcommand {
    &FACES
}

fn bdf() -> &'static Subcommand {
    &BDF
}

static LABEL: Subcommand = Subcommand {
    name: "label",
    call: "tt_render label",
    about: "Writes the picture of a text for people, as binary PBM (P4)",
    ending: Some(
        "A line feed in TEXT begins a new line of the picture.\n\
         A TEXT that begins with '-' goes after '--':\n  tt_render label --size N FONT -- -text",
    ),
    arguments: &[
        Argument {
            required: false,
            unless: &["box"],
            help: "Pixels per em, 1 to 300; with --box at most so many",
            ..SIZE
        },
        Argument {
            help: "Pixels round the lines, 0 to 64",
            ..MARGIN
        },
        ALIGN,
        WIDTH,
        BOX,
        FIT_BEST,
        FACE,
        INSTANCE,
        AXIS,
        MISSING_TOLD,
        KERN,
        HEIGHT,
        LINES,
        KEEP_GOING,
        OUTPUT,
        PNG,
        FONT,
        TEXT_OR_LINES,
    ],
};

static DRAW: Subcommand = Subcommand {
    name: "draw",
    call: "tt_render draw",
    about: "Writes the picture of a line of text, as binary PBM (P4)",
    ending: Some(
        "A TEXT that begins with '-' goes after '--':\n  tt_render draw --size N FONT -- -text",
    ),
    arguments: &[
        SIZE,
        MARGIN,
        FIT,
        FACE,
        INSTANCE,
        AXIS,
        MISSING,
        GROW,
        KERN,
        HEIGHT,
        LINES,
        KEEP_GOING,
        FONT,
        TEXT_OR_LINES,
    ],
};

static MEASURE: Subcommand = Subcommand {
    name: "measure",
    call: "tt_render measure",
    about: "Prints where the baseline, the ink and each character are, in pixels",
    ending: Some(
        "A TEXT that begins with '-' goes after '--':\n  tt_render measure --size N FONT -- -text",
    ),
    arguments: &[
        SIZE,
        MARGIN,
        FIT,
        FACE,
        INSTANCE,
        AXIS,
        MISSING,
        GROW,
        KERN,
        HEIGHT,
        Argument {
            help: "Measure each line of standard input, in place of TEXT",
            ..LINES
        },
        KEEP_GOING,
        FONT,
        TEXT_OR_LINES,
        NO_INK,
    ],
};

static MAP: Subcommand = Subcommand {
    name: "map",
    call: "tt_render map",
    about: "Prints each character's glyph number and advance in font units",
    ending: Some("A TEXT that begins with '-' goes after '--':\n  tt_render map FONT -- -text"),
    arguments: &[
        FACE,
        INSTANCE,
        AXIS,
        FONT,
        Argument {
            required: true,
            ..TEXT
        },
    ],
};

static FACES: Subcommand = Subcommand {
    name: "faces",
    call: "tt_render faces",
    about: "Prints the faces of a file, with their axes and named instances",
    ending: None,
    arguments: &[FONT],
};

static BDF: Subcommand = Subcommand {
    name: "bdf",
    call: "tt_render bdf",
    about: "Writes characters of a font at a size as a bitmap font (BDF 2.1)",
    ending: Some(
        "Without --range and TEXT it writes --range 20-7E,A0-FF.\n\
         A TEXT that begins with '-' goes after '--':\n  tt_render bdf --size N FONT -- -text",
    ),
    arguments: &[
        SIZE, RANGE, FIT_BEST, FACE, INSTANCE, AXIS, HEIGHT, FONT, TEXT,
    ],
};
