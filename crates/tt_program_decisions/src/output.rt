//! The files that `-o` names: their format, and their names.

ghost use Rattle.std.specs.Prelude.{◌≡◌, option_map, string_bytes, IfOk};
ghost use Rattle.tt_program_decisions.specs.Output.{IsFileName, format_asked, is_numbered, names_png, next_mark};
ghost use Rattle.tt_program_decisions.specs.Stops.{stop_of_output};

use crate::stopping::Stop;
use crate::unfound::lowered;
use std::alloc::{AllocError, Global};
use tt_render_texts::PictureFormat;

/// Whether a name ends in `.png`, in letters of any case.
fn names_png(name: &str) -> bool
    ensures { result ≡ names_png name.now }
{
    let bytes = name.as_bytes();
    let len = bytes.len();
    if len < 4 {
        return false;
    }
    let end = [
        lowered(bytes[len - 4]),
        lowered(bytes[len - 3]),
        lowered(bytes[len - 2]),
        lowered(bytes[len - 1]),
    ];
    end == *b".png"
}

/// The format of pictures: PNG with `--png`, and where the name of a file says so; else P4.
pub(crate) fn format_asked(png: bool, output: Option<&str>) -> PictureFormat
    ensures { result ≡ format_asked png (option_map (λ s. s.now) output.entry) }
{
    if png {
        return PictureFormat::Png;
    }
    match output {
        Some(name) => {
            if names_png(name) {
                PictureFormat::Png
            } else {
                PictureFormat::Pbm
            }
        }
        None => PictureFormat::Pbm,
    }
}

/// The state of a search for `%d` in the first bytes of a name.
#[derive(Clone, Copy)]
struct Marks {
    /// The last byte is `%`.
    percent: bool,
    /// There is a `%d`.
    some: bool,
    /// There is another one.
    more: bool,
}

/// The same with a byte more.
fn next_mark(before: Marks, byte: u8) -> Marks
    ensures { result ≡ next_mark before byte }
{
    if before.percent && byte == b'd' {
        Marks {
            percent: false,
            some: true,
            more: before.some,
        }
    } else {
        Marks {
            percent: byte == b'%',
            some: before.some,
            more: before.more,
        }
    }
}

/// Whether a name has `%d` exactly once.
#[tactic(auto, using(std::proofs::lemmas::List::Sums::fold_more))]
pub(crate) fn is_numbered(name: &str) -> bool
    ensures { result ≡ is_numbered name.now }
{
    let mut marks = Marks {
        percent: false,
        some: false,
        more: false,
    };
    for byte in name.as_bytes() {
        marks = next_mark(marks, *byte);
    }
    marks.some && !marks.more
}

/// The reason why pictures of lines have no place: the name of their files has not `%d` exactly once; or there is no name,
/// and one stream takes no pictures in PNG.
pub(crate) fn stop_of_output(format: PictureFormat, output: Option<&str>) -> Option<Stop>
    ensures { result ≡ stop_of_output format (option_map (λ s. s.now) output.entry) }
{
    match output {
        Some(name) => {
            if is_numbered(name) {
                None
            } else {
                Some(Stop::Unnumbered)
            }
        }
        None => match format {
            PictureFormat::Png => Some(Stop::OneStream),
            PictureFormat::Pbm => None,
        },
    }
}

/// The name of the file of a picture: of a line with this number, `%d` in the name is the number. Error: memory ran out.
pub fn file_name(alloc: Global, name: &str, number: Option<u32>) -> Result<String, AllocError>
    ensures { IfOk result (λ text. IsFileName name.now number (string_bytes text)) }
{
    let Some(number) = number else {
        return String::from_str(alloc, name);
    };
    match name.split_once("%d") {
        Some((before, after)) => format!(in alloc; "{before}{number}{after}"),
        None => String::from_str(alloc, name),
    }
}
