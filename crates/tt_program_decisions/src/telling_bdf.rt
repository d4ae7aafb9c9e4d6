//! The report of a font file that was written: the exit status, and on standard error a line for programs and one for
//! people.

ghost use Rattle.std.specs.Prelude.{◌≡◌, ◌≤◌, string_bytes, IfOk};
ghost use Rattle.tt_render_texts.specs.Printing.{errors_of};
ghost use Rattle.tt_program_decisions.specs.BdfCalls.{TellsFile, file_lines_of};

use crate::telling::tell_text;
use std::alloc::{AllocError, Global};
use tt_advice::Hint;
use tt_bitmap_font::{FontFile, bdf_help};
use tt_core::Sink;
use tt_render_settings::Labelled;
use tt_render_texts::{TextsFault, texts_line, texts_status};

/// The lines about a refused font file, for one write. Error: memory ran out.
fn file_lines(
    alloc: Global,
    fault: &TextsFault,
    hint: Option<Hint>,
    file: &FontFile,
    folder: bool,
) -> Result<String, AllocError>
    ensures { IfOk result (λ text. string_bytes text ≡ file_lines_of file.now folder fault.now hint) }
{
    let mut text = texts_line(alloc, fault)?;
    text.push_str("\n")?;
    let help = bdf_help(alloc, fault, hint, file, folder)?;
    text.push_str(&help)?;
    Ok(text)
}

/// Reports the answer of `write_bdf` on standard error, or by the status alone where the reader had closed the output.
/// Returns the exit status.
#[tactic(auto, using(crate::proofs::Statuses::texts_status_within))]
pub(crate) fn tell_bdf<E: Sink>(
    alloc: Global,
    written: &Labelled,
    file: &FontFile,
    folder: bool,
    closed: bool,
    error: &mut E,
) -> u8
    ensures bound { result ≤ 5 }
    ensures told { TellsFile closed (E.has_failed error.old) file.now folder written.now.hint written.now.answer result (errors_of E.written E.has_failed error.old error.new) }
{
    match &written.answer {
        Ok(()) => 0,
        Err(fault) => {
            let status = texts_status(fault);
            if closed || error.failed() {
                return status;
            }
            let lines = file_lines(alloc, fault, written.hint, file, folder);
            tell_text(lines, status, error)
        }
    }
}
