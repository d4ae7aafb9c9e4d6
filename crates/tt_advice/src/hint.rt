//! What people are told of a font's file.

ghost use Rattle.std.specs.Prelude.{◌≡◌, string_bytes, IfOk};
ghost use Rattle.std.specs.Str.{encode_utf8_all};
ghost use Rattle.tt_advice.specs.Hints.{fixed_words, hint_line, hint_words};

use crate::shown::push_shown;
use std::alloc::{AllocError, Global};
use tt_core::Fault;

/// What is reported to people of a font's file.
#[derive(Clone, Copy, Debug, PartialEq, Eq)]
pub enum Hint {
    /// Words without a number or a name.
    Fixed(FixedHint),
    /// The file is a collection of so many faces, and has not the requested face.
    Faces(u32),
    /// The table of this fault is missing.
    Lacks(Fault),
    /// The table of this fault is damaged.
    Damaged(Fault),
    /// The font has no axis with this tag.
    NoAxis([u8; 4]),
    /// The first of so many faces is drawn.
    FirstOf(u32),
}

/// A hint whose words are fixed.
#[derive(Clone, Copy, Debug, PartialEq, Eq)]
pub enum FixedHint {
    /// There is no file with this path.
    NoFile,
    /// There is no file with this path, and the text has the name of a font file.
    Swapped,
    /// The system permits no reading.
    NotAllowed,
    /// A folder of the path is a file.
    FileOnPath,
    /// The path follows too many symbolic links.
    Links,
    /// The path is too long.
    LongName,
    /// The path names a folder.
    Folder,
    /// The file has no byte.
    Empty,
    /// The outlines are of another kind.
    Cff,
    /// A font of PostScript.
    Type1,
    /// Pictures of glyphs, and no outlines.
    Bitmaps,
    /// A font packed for the web.
    Woff,
    /// A font packed for the web anew.
    Woff2,
    /// A packed file.
    Gzip,
    /// A page of the web.
    Page,
    /// No font.
    NoFont,
    /// A collection of an unknown version.
    Version,
    /// The file has one face, and another was requested.
    NoCollection,
    /// A collection without a face.
    NoFaces,
    /// No character map is read.
    NoMap,
    /// The file ends too early.
    Cut,
    /// A glyph beyond a limit.
    Beyond,
    /// A program for fitting is refused.
    Program,
    /// One of the shapes of a variable font is drawn.
    Variable,
    /// The request has an instance, and the font has one shape.
    NotVariable,
    /// The font has no such named instance.
    NoInstance,
    /// The font has more of the characters of a file than a file may have.
    ManyCharacters,
    /// The font has none of the characters of a file.
    NoCharacter,
}

impl FixedHint {
    /// What follows the font's path.
    #[tactic(auto, unfolding(crate::specs::Hints::fixed_words))]
    fn words(self) -> &'static str
        ensures { result.now ≡ fixed_words self }
    {
        match self {
            FixedHint::NoFile => "no such file",
            FixedHint::Swapped => "no such file; FONT stands before TEXT",
            FixedHint::NotAllowed => "permission denied",
            FixedHint::FileOnPath => "a folder of this path is a file",
            FixedHint::Links => "too many symbolic links",
            FixedHint::LongName => "the name is too long",
            FixedHint::Folder => "is a folder",
            FixedHint::Empty => "is empty",
            FixedHint::Cff => CFF,
            FixedHint::Type1 => TYPE1,
            FixedHint::Bitmaps => BITMAPS,
            FixedHint::Woff => "is a packed font (WOFF); unpack it first: woff2sfnt",
            FixedHint::Woff2 => "is a packed font (WOFF2); unpack it first: woff2_decompress",
            FixedHint::Gzip => "is packed (gzip); unpack it first: gunzip",
            FixedHint::Page => "is no font, but begins like a page of the web",
            FixedHint::NoFont => "is no TrueType font",
            FixedHint::Version => "is a collection of a version that is not read",
            FixedHint::NoCollection => "is no collection: its one face is --face 0",
            FixedHint::NoFaces => "is a collection without a face",
            FixedHint::NoMap => "has no character map that is read",
            FixedHint::Cut => "is cut off or damaged",
            FixedHint::Beyond => "has a glyph beyond what is drawn",
            FixedHint::Program => PROGRAM,
            FixedHint::Variable => VARIABLE,
            FixedHint::NotVariable => "is no variable font",
            FixedHint::NoInstance => "has no such instance; tt_render faces lists them",
            FixedHint::ManyCharacters => MANY_CHARACTERS,
            FixedHint::NoCharacter => "has a glyph for none of the characters asked for",
        }
    }
}

const CFF: &str = "has CFF outlines; TrueType outlines alone are drawn: \
                   take the .ttf of the family, or convert it (fontforge)";

const TYPE1: &str = "is a Type 1 font; TrueType outlines alone are drawn: convert it (fontforge)";

const BITMAPS: &str = "has bitmaps or colour pictures, but no TrueType outlines";

const VARIABLE: &str = "is a variable font; its default instance is drawn \
                        (--instance, --axis; faces lists them)";

const PROGRAM: &str = "has a program for fitting that is refused; --fit best draws it";

const MANY_CHARACTERS: &str = "has more than 4096 of the characters asked for; --range says which";

/// The bytes of a tag, each as one character.
fn tag_text(alloc: Global, tag: [u8; 4]) -> Result<String, AllocError>
    ensures { IfOk result (λ text. string_bytes text ≡ encode_utf8_all tag) }
{
    let [first, second, third, fourth] = tag;
    let mut text = String::new(alloc);
    text.push(char::from(first))?;
    text.push(char::from(second))?;
    text.push(char::from(third))?;
    text.push(char::from(fourth))?;
    Ok(text)
}

/// What follows the font's path.
fn words(alloc: Global, hint: Hint) -> Result<String, AllocError>
    ensures { IfOk result (λ text. string_bytes text ≡ hint_words hint) }
{
    match hint {
        Hint::Fixed(fixed) => String::from_str(alloc, fixed.words()),
        Hint::Faces(count) => {
            let last = count.saturating_sub(1);
            format!(in alloc; "is a collection of {count} faces: --face is 0 to {last}")
        }
        Hint::Lacks(fault) => {
            let table = fault.tag();
            format!(in alloc; "lacks the table '{table}'")
        }
        Hint::Damaged(fault) => {
            let table = fault.tag();
            format!(in alloc; "is damaged in its table '{table}'")
        }
        Hint::NoAxis(tag) => {
            let axis = tag_text(alloc, tag)?;
            format!(in alloc; "has no axis {axis}; tt_render faces lists its axes")
        }
        Hint::FirstOf(count) => {
            format!(in alloc; "is a collection of {count} faces; face 0 is drawn (--face N)")
        }
    }
}

/// The line of a hint, with its line feed, about the font of this path. Error: memory ran out.
pub fn hint_line(alloc: Global, path: &str, hint: Hint) -> Result<String, AllocError>
    ensures { IfOk result (λ text. string_bytes text ≡ hint_line path.now hint) }
{
    let words = words(alloc, hint)?;
    let mut line = String::from_str(alloc, "tt_render: ")?;
    push_shown(&mut line, path)?;
    line.push_str(": ")?;
    line.push_str(&words)?;
    line.push_str("\n")?;
    Ok(line)
}
