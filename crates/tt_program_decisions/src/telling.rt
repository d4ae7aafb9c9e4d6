//! The report of an answer: the exit status, and a line on standard error.

ghost use Rattle.std.specs.Prelude.{◌≡◌, ℕ, ◌≤◌, ◌++◌, false, List, codes, string_bytes, IfOk};
ghost use Rattle.tt_render_texts.specs.Printing.{errors_of};
ghost use Rattle.tt_program_decisions.specs.Telling.{Tells, TellsLine, TellsText};

use std::alloc::{AllocError, Global};
use tt_core::Sink;
use tt_render_streams::{RunFault, line, status};
use tt_render_texts::print_text;

/// The line for refused memory; it takes no memory.
pub(crate) const NO_MEMORY: &str = "tt_render: out of memory\n";

/// Reports the answer of `map` on standard error, or by the status alone where the reader had closed the output. Returns
/// the exit status.
#[tactic(auto, using(crate::proofs::Statuses::status_within))]
pub(crate) fn tell<E: Sink>(
    alloc: Global,
    answer: &Result<(), RunFault>,
    closed: bool,
    error: &mut E,
) -> u8
    requires { E.has_failed error.old ≡ false }
    ensures bound { result ≤ 5 }
    ensures told { Tells closed answer.now result (errors_of E.written E.has_failed error.old error.new) }
{
    match answer {
        Ok(()) => 0,
        Err(fault) => {
            let code = status(fault);
            if closed {
                return code;
            }
            tell_line(line(alloc, fault), code, error)
        }
    }
}

/// Prints a line, with its line feed, and returns an exit status. Where memory is refused for the line, reports that
/// instead.
pub(crate) fn tell_line<E: Sink>(line: Result<String, AllocError>, code: u8, error: &mut E) -> u8
    requires status { code ≤ 5 }
    requires error { E.has_failed error.old ≡ false }
    ensures bound { result ≤ 5 }
    ensures told { (text : List ℕ) → IfOk line (λ l. string_bytes l ≡ text) → TellsLine text code result (errors_of E.written E.has_failed error.old error.new) }
{
    tell_text(ended(line), code, error)
}

/// Prints a text, and returns an exit status. Where memory is refused for the text, reports that instead.
pub(crate) fn tell_text<E: Sink>(text: Result<String, AllocError>, code: u8, error: &mut E) -> u8
    requires status { code ≤ 5 }
    requires error { E.has_failed error.old ≡ false }
    ensures bound { result ≤ 5 }
    ensures told { (told : List ℕ) → IfOk text (λ t. string_bytes t ≡ told) → TellsText told code result (errors_of E.written E.has_failed error.old error.new) }
{
    match text {
        Ok(text) => {
            print_text(error, &text);
            code
        }
        Err(AllocError) => {
            print_text(error, NO_MEMORY);
            status(&RunFault::Memory)
        }
    }
}

/// A line with its line feed.
fn ended(line: Result<String, AllocError>) -> Result<String, AllocError>
    ensures { (text : List ℕ) → IfOk line (λ l. string_bytes l ≡ text) → IfOk result (λ t. string_bytes t ≡ text ++ codes "\n") }
{
    let mut text = line?;
    text.push_str("\n")?;
    Ok(text)
}
