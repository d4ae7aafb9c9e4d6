//! The second line about a refused label: what a person can do.

ghost use Rattle.std.specs.Prelude.{◌≡◌, string_bytes, IfOk};
ghost use Rattle.tt_render_settings.specs.Help.{fixed_help, folder_help, job_help, label_help, label_lines_of, space_help, space_words};
ghost use Rattle.tt_advice.specs.Notes.{hint_told};

use crate::label::Label;
use crate::setting::Setting;
use crate::space::Space;
use std::alloc::{AllocError, Global};
use tt_advice::{FixedHint, Hint, hint_line};
use tt_core::JobFault;
use tt_render_texts::{Messages, Refusal, SpaceFault, TextsFault, named_line, texts_line};

/// The line about the font's file, if there is a hint. Error: memory ran out.
fn font_help(alloc: Global, path: &str, hint: Option<Hint>) -> Result<String, AllocError>
    ensures { IfOk result (λ text. string_bytes text ≡ hint_told path.now hint) }
{
    match hint {
        Some(hint) => hint_line(alloc, path, hint),
        None => Ok(String::new(alloc)),
    }
}

/// The line about a path that could not be read, if the path is that of a folder. Error: memory ran out.
fn folder_help(alloc: Global, path: &str, folder: bool) -> Result<String, AllocError>
    ensures { IfOk result (λ text. string_bytes text ≡ folder_help path.now folder) }
{
    if folder {
        hint_line(alloc, path, Hint::Fixed(FixedHint::Folder))
    } else {
        Ok(String::new(alloc))
    }
}

/// A line of these words.
fn fixed_help(about: Messages, words: &str) -> Result<String, AllocError>
    ensures { IfOk result (λ text. string_bytes text ≡ fixed_help about.number words.now) }
{
    let head = about.head()?;
    format!(in about.alloc; "{head}{words}\n")
}

/// The line about a refused job. Empty for a picture without a pixel, which no label is.
fn job_help(about: Messages, job: JobFault, setting: &Setting) -> Result<String, AllocError>
    ensures { IfOk result (λ text. string_bytes text ≡ job_help about.number job setting.now) }
{
    match job {
        JobFault::SizeRange => {
            let head = about.head()?;
            let size = setting.ppem;
            format!(in about.alloc; "{head}--size is 1 to 300 pixels per em, not {size}\n")
        }
        JobFault::MarginRange => {
            let head = about.head()?;
            let margin = setting.margin;
            format!(in about.alloc; "{head}--margin is 0 to 64 pixels, not {margin}\n")
        }
        JobFault::TextLong => fixed_help(about, "a text has at most 4096 characters"),
        JobFault::PictureLarge => {
            fixed_help(about, "a picture has at most 16384 columns and 4096 rows")
        }
        JobFault::WorkLarge => {
            fixed_help(about, "the glyphs of this text are too much work at once")
        }
        JobFault::EmptyPicture => Ok(String::new(about.alloc)),
    }
}

/// The requested space, as on the command line.
fn space_words(alloc: Global, space: Space) -> Result<String, AllocError>
    ensures { IfOk result (λ text. string_bytes text ≡ space_words space) }
{
    match space {
        Space::Free => Ok(String::new(alloc)),
        Space::Width(width) => format!(in alloc; "{width}"),
        Space::Box(sides) => {
            let width = sides.width;
            let height = sides.height;
            format!(in alloc; "{width}x{height}")
        }
    }
}

/// The line about a refused space.
fn space_help(about: Messages, fault: SpaceFault, space: Space) -> Result<String, AllocError>
    ensures { IfOk result (λ text. string_bytes text ≡ space_help about.number fault space) }
{
    let head = about.head()?;
    let words = space_words(about.alloc, space)?;
    match fault {
        SpaceFault::WidthRange => format!(in about.alloc;
            "{head}--width is 1 to 16384 pixels and more than both margins, not {words}\n"
        ),
        SpaceFault::BoxRange => format!(in about.alloc;
            "{head}--box is 1x1 to 16384x4096 pixels and more than both margins, not {words}\n"
        ),
        SpaceFault::BoxSmall => fixed_help(about, "the text fits into this box at no size"),
    }
}

/// The second line on standard error after this fault of `draw_label` or `draw_labels`, with its line feed. Empty where
/// nothing helps. `hint` is that of the call, and `folder` says whether the font's path is that of a folder. Error: memory
/// ran out.
pub fn label_help(
    alloc: Global,
    fault: &TextsFault,
    hint: Option<Hint>,
    asked: &Label,
    folder: bool,
) -> Result<String, AllocError>
    ensures { IfOk result (λ text. string_bytes text ≡ label_help asked.now folder fault.now hint) }
{
    let about = Messages {
        alloc,
        number: named_line(fault),
    };
    match fault.refusal {
        Refusal::Font(_) => font_help(alloc, asked.path, hint),
        Refusal::FontRead => folder_help(alloc, asked.path, folder),
        Refusal::Job(job) => job_help(about, job, &asked.setting),
        Refusal::Space(fault) => space_help(about, fault, asked.space),
        Refusal::NotUtf8 => {
            fixed_help(
                about,
                "the lines have to be UTF-8; iconv(1) changes other encodings",
            )
        }
        Refusal::Missing(_)
        | Refusal::FontLarge
        | Refusal::Read
        | Refusal::Create
        | Refusal::Write { .. }
        | Refusal::Many
        | Refusal::Memory => Ok(String::new(alloc)),
    }
}

/// The lines on standard error about a refused label: the fault, and where something helps what a person can do. Error:
/// memory ran out.
pub fn label_lines(
    alloc: Global,
    fault: &TextsFault,
    hint: Option<Hint>,
    asked: &Label,
    folder: bool,
) -> Result<String, AllocError>
    ensures { IfOk result (λ text. string_bytes text ≡ label_lines_of asked.now folder fault.now hint) }
{
    let mut text = texts_line(alloc, fault)?;
    text.push_str("\n")?;
    let help = label_help(alloc, fault, hint, asked, folder)?;
    text.push_str(&help)?;
    Ok(text)
}
