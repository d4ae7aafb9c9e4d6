//! Why texts are not drawn.

ghost use Rattle.std.specs.Prelude.{◌≡◌};
ghost use Rattle.tt_render_texts.specs.declared.refusal.Refusal.TheVariants as reason;
ghost use Rattle.tt_render_texts.specs.Views.{before_lines, refusal_of_draw, refusal_of_put, refusal_of_run};

use crate::space_fault::SpaceFault;
use std::alloc::AllocError;
use thiserror::Error;
use tt_core::{DrawFault, Fault, JobFault};
use tt_render_streams::{NotPut, RunFault};

/// Why a text is refused, or a call that draws texts stops.
#[derive(Clone, Copy, Debug, PartialEq, Eq, Error)]
pub enum Refusal {
    /// The font has this defect.
    #[error("the font is refused")]
    Font(Fault),
    /// The size or the margin is out of range, or the text cannot be drawn.
    #[error("{0}")]
    Job(JobFault),
    /// The label does not stand in the requested width or box.
    #[error("{0}")]
    Space(SpaceFault),
    /// The text is not UTF-8.
    #[error("the text is not UTF-8")]
    NotUtf8,
    /// The font has no glyph for this character.
    #[error("a character has no glyph")]
    Missing(char),
    /// The font could not be read to its end; nothing was written.
    #[error("cannot read the font")]
    FontRead,
    /// The font has more than 67,108,864 bytes; nothing was written.
    #[error("the font is too large")]
    FontLarge,
    /// The lines could not be read to their end.
    #[error("cannot read the lines")]
    Read,
    /// The place of the text's picture, as a file, could not be made. Nothing of the text was written.
    #[error("cannot create the picture")]
    Create,
    /// Writing failed after `sent` bytes of the text's output.
    #[error("cannot write after {sent} bytes")]
    Write { sent: u64 },
    /// 4,294,967,295 lines were drawn, and no test says whether there are more; or so many reads found no end of a line
    /// that is too long.
    #[error("too many lines")]
    Many,
    /// Memory was refused.
    #[error("out of memory")]
    Memory,
}

/// Why `draw_text` or `draw_lines` fails. Nothing of a refused text is written. The output of the earlier lines is.
#[derive(Clone, Copy, Debug, PartialEq, Eq, Error)]
#[error("{refusal}")]
pub struct TextsFault {
    /// The number of the line that stopped the call, from 1. None before the first line, after too many lines, and for
    /// the one text.
    pub line: Option<u32>,
    pub refusal: Refusal,
}

/// A fault of a picture is the refusal of its text.
fn refusal_of_draw(fault: DrawFault) -> Refusal
    ensures { result ≡ refusal_of_draw fault }
{
    match fault {
        DrawFault::Font(fault) => Refusal::Font(fault),
        DrawFault::Job(fault) => Refusal::Job(fault),
        DrawFault::Memory => Refusal::Memory,
    }
}

/// A fault of reading a font is the refusal of the call.
pub fn refusal_of_run(fault: RunFault) -> Refusal
    ensures { result ≡ refusal_of_run fault }
{
    match fault {
        RunFault::Font(fault) => Refusal::Font(fault),
        RunFault::Job(fault) => Refusal::Job(fault),
        RunFault::Read => Refusal::FontRead,
        RunFault::FontLarge => Refusal::FontLarge,
        RunFault::Write { sent } => Refusal::Write { sent },
        RunFault::Memory => Refusal::Memory,
    }
}

/// A picture that is not in its place stops the call.
pub fn refusal_of_put(fault: NotPut) -> Refusal
    ensures { result ≡ refusal_of_put fault }
{
    match fault {
        NotPut::Uncreated => Refusal::Create,
        NotPut::Cut { sent } => Refusal::Write { sent },
    }
}

/// The fault of a call; `line` is the number of the line that stopped it.
pub fn texts_fault(line: Option<u32>, refusal: Refusal) -> TextsFault
    ensures { result ≡ record { line = line; refusal = refusal } }
{
    TextsFault { line, refusal }
}

impl From<AllocError> for TextsFault {
    ghost from_gives = { λ _ e. e ≡ before_lines reason.Memory };

    fn from(_e: AllocError) -> TextsFault {
        texts_fault(None, Refusal::Memory)
    }
}

impl From<Fault> for TextsFault {
    ghost from_gives = { λ f e. e ≡ before_lines (reason.Font f) };

    fn from(fault: Fault) -> TextsFault {
        texts_fault(None, Refusal::Font(fault))
    }
}

impl From<JobFault> for TextsFault {
    ghost from_gives = { λ j e. e ≡ before_lines (reason.Job j) };

    fn from(fault: JobFault) -> TextsFault {
        texts_fault(None, Refusal::Job(fault))
    }
}

impl From<SpaceFault> for TextsFault {
    ghost from_gives = { λ f e. e ≡ before_lines (reason.Space f) };

    fn from(fault: SpaceFault) -> TextsFault {
        texts_fault(None, Refusal::Space(fault))
    }
}

impl From<DrawFault> for TextsFault {
    ghost from_gives = { λ f e. e ≡ before_lines (refusal_of_draw f) };

    fn from(fault: DrawFault) -> TextsFault {
        texts_fault(None, refusal_of_draw(fault))
    }
}

impl From<RunFault> for TextsFault {
    ghost from_gives = { λ f e. e ≡ before_lines (refusal_of_run f) };

    fn from(fault: RunFault) -> TextsFault {
        texts_fault(None, refusal_of_run(fault))
    }
}
