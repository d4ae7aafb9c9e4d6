//! The report of texts that were drawn, after the reports printed meanwhile: the exit status, and a line on standard
//! error.

ghost use Rattle.std.specs.Prelude.{◌≡◌, ◌≤◌};
ghost use Rattle.tt_render_texts.specs.Printing.{errors_of};
ghost use Rattle.tt_program_decisions.specs.Telling.{TellsLines, TellsTexts, passed_status};

use crate::telling::tell_line;
use std::alloc::Global;
use tt_core::Sink;
use tt_render_lines::LinesDrawn;
use tt_render_texts::{TextsFault, texts_line, texts_status};

/// Reports the answer of `draw_text` or `write_layout` on standard error, or by the status alone where the reader had
/// closed the output. Returns the exit status.
#[tactic(auto, using(crate::proofs::Statuses::texts_status_within))]
pub(crate) fn tell_texts<T, E: Sink>(
    alloc: Global,
    answer: &Result<T, TextsFault>,
    closed: bool,
    error: &mut E,
) -> u8
    ensures bound { result ≤ 5 }
    ensures told { TellsTexts closed (E.has_failed error.old) answer.now result (errors_of E.written E.has_failed error.old error.new) }
{
    match answer {
        Ok(_) => 0,
        Err(fault) => {
            if closed || error.failed() {
                return texts_status(fault);
            }
            tell_line(texts_line(alloc, fault), texts_status(fault), error)
        }
    }
}

/// The exit status where lines were drawn, by the fault of the first line that was refused and passed over.
pub(crate) fn passed_status(refused: &Option<TextsFault>) -> u8
    ensures { result ≡ passed_status refused.now }
{
    match refused {
        Some(fault) => texts_status(fault),
        None => 0,
    }
}

/// Reports the answer of `draw_lines` on standard error, or by the status alone where the reader had closed the output.
/// Returns the exit status.
#[tactic(auto, using(crate::proofs::Statuses::texts_status_within, crate::proofs::Statuses::passed_status_within))]
pub(crate) fn tell_lines<E: Sink>(
    alloc: Global,
    answer: &Result<LinesDrawn, TextsFault>,
    closed: bool,
    error: &mut E,
) -> u8
    ensures bound { result ≤ 5 }
    ensures told { TellsLines closed (E.has_failed error.old) answer.now result (errors_of E.written E.has_failed error.old error.new) }
{
    match answer {
        Ok(drawn) => passed_status(&drawn.refused),
        Err(fault) => {
            let status = texts_status(fault);
            if closed || error.failed() {
                return status;
            }
            tell_line(texts_line(alloc, fault), status, error)
        }
    }
}
