//! The report of labels that were drawn: the exit status, and on standard error a line for programs and one for people.

ghost use Rattle.std.specs.Prelude.{◌≤◌};
ghost use Rattle.tt_render_texts.specs.Printing.{errors_of};
ghost use Rattle.tt_program_decisions.specs.Telling.{TellsLabel};

use crate::telling::tell_text;
use crate::telling_texts::passed_status;
use std::alloc::Global;
use tt_core::Sink;
use tt_render_settings::{Label, LabelsDrawn, label_lines};
use tt_render_texts::texts_status;

/// Reports the answer of `draw_label` or `draw_labels` on standard error, or by the status alone where the reader had
/// closed the output. Returns the exit status.
#[tactic(auto, using(crate::proofs::Statuses::texts_status_within, crate::proofs::Statuses::passed_status_within))]
pub(crate) fn tell_label<E: Sink>(
    alloc: Global,
    drawn: &LabelsDrawn,
    label: &Label,
    folder: bool,
    closed: bool,
    error: &mut E,
) -> u8
    ensures bound { result ≤ 5 }
    ensures told { TellsLabel closed (E.has_failed error.old) label.now folder drawn.now.hint drawn.now.answer result (errors_of E.written E.has_failed error.old error.new) }
{
    match &drawn.answer {
        Ok(first) => passed_status(first),
        Err(fault) => {
            let status = texts_status(fault);
            if closed || error.failed() {
                return status;
            }
            let lines = label_lines(alloc, fault, drawn.hint, label, folder);
            tell_text(lines, status, error)
        }
    }
}
