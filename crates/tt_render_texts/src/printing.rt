//! Prints on standard error.

ghost use Rattle.tt_render_texts.specs.Printing.{PrintsBehind, errors_of};

use tt_core::Sink;
use tt_pbm::write_all_of;

/// Prints a text, unless the device has failed. A new failure is not reported, for lack of another device.
#[tactic(auto, using(crate::proofs::Printed::printed))]
pub fn print_text<E: Sink>(error: &mut E, text: &str)
    ensures { PrintsBehind (E.has_failed error.old) (errors_of E.written E.has_failed error.old error.new) text.now }
{
    if !error.failed() {
        let _ = write_all_of(error, text.as_bytes());
    }
}
