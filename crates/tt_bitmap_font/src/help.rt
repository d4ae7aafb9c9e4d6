//! The second line about a refused file: what a person can do.

ghost use Rattle.std.specs.Prelude.{◌≡◌, string_bytes, IfOk, None};
ghost use Rattle.tt_bitmap_font.specs.Help.{bdf_help, file_job_help, plain_help, refused_help};

use crate::font_file::FontFile;
use std::alloc::{AllocError, Global};
use tt_advice::{Hint, hint_line};
use tt_core::JobFault;
use tt_render_settings::{Align, Label, Space, label_help};
use tt_render_texts::{PictureFormat, Refusal, TextsFault};

const LARGE: &str =
    "tt_render: a glyph has at most 16384 columns and 4096 rows, all together 67108864 bytes\n";

/// The line that a refused label of the font has. Error: memory ran out.
fn plain_help(
    alloc: Global,
    refusal: Refusal,
    hint: Option<Hint>,
    asked: &FontFile,
    folder: bool,
) -> Result<String, AllocError>
    ensures { IfOk result (λ text. string_bytes text ≡ plain_help asked.now folder refusal hint) }
{
    let fault = TextsFault {
        line: None,
        refusal,
    };
    let label = Label {
        setting: asked.setting(),
        align: Align::Left,
        space: Space::Free,
        path: asked.path,
        face_given: asked.face_given,
        format: PictureFormat::Pbm,
    };
    label_help(alloc, &fault, hint, &label, folder)
}

/// The line about a refused job without a hint. Error: memory ran out.
fn refused_help(
    alloc: Global,
    job: JobFault,
    asked: &FontFile,
    folder: bool,
) -> Result<String, AllocError>
    ensures { IfOk result (λ text. string_bytes text ≡ refused_help asked.now folder job) }
{
    match job {
        JobFault::PictureLarge => String::from_str(alloc, LARGE),
        JobFault::SizeRange
        | JobFault::MarginRange
        | JobFault::TextLong
        | JobFault::EmptyPicture
        | JobFault::WorkLarge => plain_help(alloc, Refusal::Job(job), None, asked, folder),
    }
}

/// The line about a refused job. Error: memory ran out.
fn file_job_help(
    alloc: Global,
    job: JobFault,
    hint: Option<Hint>,
    asked: &FontFile,
    folder: bool,
) -> Result<String, AllocError>
    ensures { IfOk result (λ text. string_bytes text ≡ file_job_help asked.now folder job hint) }
{
    match hint {
        None => refused_help(alloc, job, asked, folder),
        Some(hint) => hint_line(alloc, asked.path, hint),
    }
}

/// The second line on standard error after this fault of `write_bdf`, with its line feed. Empty where nothing helps.
/// `hint` is that of the call, and `folder` says whether the font's path is that of a folder. Error: memory ran out.
pub fn bdf_help(
    alloc: Global,
    fault: &TextsFault,
    hint: Option<Hint>,
    asked: &FontFile,
    folder: bool,
) -> Result<String, AllocError>
    ensures { IfOk result (λ text. string_bytes text ≡ bdf_help asked.now folder fault.now hint) }
{
    match fault.refusal {
        Refusal::Job(job) => file_job_help(alloc, job, hint, asked, folder),
        Refusal::Font(_)
        | Refusal::Space(_)
        | Refusal::NotUtf8
        | Refusal::Missing(_)
        | Refusal::FontRead
        | Refusal::FontLarge
        | Refusal::Read
        | Refusal::Create
        | Refusal::Write { .. }
        | Refusal::Many
        | Refusal::Memory => plain_help(alloc, fault.refusal, hint, asked, folder),
    }
}
