//! The report of a font that cannot be opened. For `label` and `bdf` a line tells a person what to do.

ghost use Rattle.std.specs.Prelude.{◌≡◌, ◌≤◌, false, None, option_map, string_bytes, IfOk};
ghost use Rattle.tt_program_decisions.specs.Stops.{TellsStop, stop_at_open};
ghost use Rattle.tt_program_decisions.specs.Unopened.{TellsHint, TellsUnopened, creating_hint, hint_of_open, opening_hint, opening_text, path_line};
ghost use Rattle.tt_render_texts.specs.Printing.{errors_of};

use crate::request::Request;
use crate::stopping::{stop_of_open, tell_stop};
use crate::telling::tell_text;
use crate::unfound::{PathHint, family_line, stream_line, unfound_hint};
use std::alloc::{AllocError, Global};
use std::io::ErrorKind;
use tt_advice::{FixedHint, Hint, hint_line};
use tt_core::Sink;
use tt_render_texts::print_text;

/// The hint about a path that cannot be opened, by the kind of the error. The text may be the path.
fn opening_hint(kind: ErrorKind, path: &str, text: Option<&str>) -> Option<PathHint>
    ensures { result ≡ opening_hint kind path.now (option_map (λ s. s.now) text.entry) }
{
    match kind {
        ErrorKind::NotFound => Some(unfound_hint(path, text)),
        ErrorKind::PermissionDenied => Some(PathHint::Fixed(FixedHint::NotAllowed)),
        ErrorKind::NotADirectory => Some(PathHint::Fixed(FixedHint::FileOnPath)),
        ErrorKind::FilesystemLoop => Some(PathHint::Fixed(FixedHint::Links)),
        ErrorKind::InvalidFilename => Some(PathHint::Fixed(FixedHint::LongName)),
        _ => None,
    }
}

/// The hint of a request whose font cannot be opened. Only `label` and `bdf` have hints.
fn hint_of_open(request: &Request, kind: ErrorKind) -> Option<PathHint>
    ensures { result ≡ hint_of_open request.now kind }
{
    match request {
        Request::Label { font, text, .. } => opening_hint(kind, font, Some(*text)),
        Request::Labels { font, .. } => opening_hint(kind, font, None),
        Request::Bdf(asked) => opening_hint(kind, asked.font, Some(asked.text)),
        Request::Map { .. }
        | Request::Faces { .. }
        | Request::Text { .. }
        | Request::Lines { .. }
        | Request::Layout { .. } => None,
    }
}

/// The line of a hint about a path, with its line feed. Error: memory ran out.
fn path_line(alloc: Global, path: &str, hint: PathHint) -> Result<String, AllocError>
    ensures { IfOk result (λ text. string_bytes text ≡ path_line path.now hint) }
{
    match hint {
        PathHint::Fixed(hint) => hint_line(alloc, path, Hint::Fixed(hint)),
        PathHint::Stream => stream_line(alloc),
        PathHint::Family => family_line(alloc, path),
    }
}

/// The line of a font that cannot be opened, and the line of a hint. Error: memory ran out.
fn opening_text(alloc: Global, path: &str, hint: PathHint) -> Result<String, AllocError>
    ensures { IfOk result (λ text. string_bytes text ≡ opening_text path.now hint) }
{
    let mut text = String::from_str(alloc, "tt_render: cannot read the font\n")?;
    let line = path_line(alloc, path, hint)?;
    text.push_str(&line)?;
    Ok(text)
}

/// Reports on standard error that the font of a request cannot be opened. Returns the exit status.
pub fn tell_unopened<E: Sink>(
    alloc: Global,
    request: &Request,
    kind: ErrorKind,
    error: &mut E,
) -> u8
    requires { E.has_failed error.old ≡ false }
    ensures bound { result ≤ 5 }
    // The line is that of the stop, and the status too, whether a hint follows or not.
    ensures told { TellsUnopened request.now kind result (errors_of E.written E.has_failed error.old error.new) }
    ensures plain { hint_of_open request.now kind ≡ None → TellsStop (stop_at_open kind) result (errors_of E.written E.has_failed error.old error.new) }
{
    match hint_of_open(request, kind) {
        None => tell_stop(stop_of_open(kind), error),
        Some(hint) => tell_text(opening_text(alloc, request.font(), hint), 3, error),
    }
}

/// The hint about the file of a picture that cannot be created, by the kind of the error.
fn creating_hint(kind: ErrorKind) -> Option<FixedHint>
    ensures { result ≡ creating_hint kind }
{
    match kind {
        ErrorKind::NotFound => Some(FixedHint::NoFile),
        ErrorKind::PermissionDenied => Some(FixedHint::NotAllowed),
        ErrorKind::NotADirectory => Some(FixedHint::FileOnPath),
        ErrorKind::FilesystemLoop => Some(FixedHint::Links),
        ErrorKind::IsADirectory => Some(FixedHint::Folder),
        ErrorKind::InvalidFilename => Some(FixedHint::LongName),
        _ => None,
    }
}

/// Tells a person, after the line about a picture whose place could not be made, why the file of this path cannot be
/// created. Some kinds of errors have no words. Where memory runs out nothing is printed.
pub fn tell_unmade<E: Sink>(alloc: Global, path: &str, kind: ErrorKind, error: &mut E)
    ensures told { TellsHint (creating_hint kind) path.now (E.has_failed error.old) (errors_of E.written E.has_failed error.old error.new) }
{
    let Some(hint) = creating_hint(kind) else {
        return;
    };
    if let Ok(line) = hint_line(alloc, path, Hint::Fixed(hint)) {
        print_text(error, &line);
    }
}
