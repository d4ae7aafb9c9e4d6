//! The ends of the program without a request.

ghost use Rattle.std.specs.Prelude.{◌≡◌, ◌≤◌, false};
ghost use Rattle.tt_program_decisions.specs.Stops.{stop_at_open, stop_at_print, stop_at_words, stop_status, stop_text};
ghost use Rattle.tt_render_texts.specs.Printing.{Prints, errors_of};

use crate::telling::NO_MEMORY;
use std::io::ErrorKind;
use tt_core::Sink;
use tt_render_texts::print_text;

/// The reason why there is no request to perform.
#[derive(Clone, Copy)]
pub enum Stop {
    /// The help or the version was requested, and is printed.
    Shown,
    /// The help or the version was requested, and cannot be printed.
    NotShown,
    /// The help or the version was requested, and its reader had closed the output.
    Unread,
    /// A word of the command line is not UTF-8.
    NoText,
    /// A word is missing, though clap accepted the command line.
    Incomplete,
    /// The words of `--range` are of another form.
    Range,
    /// The words of `--axis` are of another form.
    Axis,
    /// The name of files of lines has not `%d` exactly once.
    Unnumbered,
    /// One stream takes no pictures in PNG of several lines.
    OneStream,
    /// The font cannot be opened.
    Unopened,
    /// Memory was refused before a request was known, or its font open.
    Memory,
}

/// The reason why a command line has no words: memory, or a word that is not UTF-8.
pub fn stop_of_words(kind: ErrorKind) -> Stop
    ensures { result ≡ stop_at_words kind }
{
    match kind {
        ErrorKind::OutOfMemory => Stop::Memory,
        _ => Stop::NoText,
    }
}

/// The reason why a font is not open.
pub fn stop_of_open(kind: ErrorKind) -> Stop
    ensures { result ≡ stop_at_open kind }
{
    match kind {
        ErrorKind::OutOfMemory => Stop::Memory,
        _ => Stop::Unopened,
    }
}

/// The reason why the help or the version is not printed.
pub fn stop_of_print(kind: ErrorKind) -> Stop
    ensures { result ≡ stop_at_print kind }
{
    match kind {
        ErrorKind::BrokenPipe => Stop::Unread,
        _ => Stop::NotShown,
    }
}

/// Reports on standard error why there is no request to perform. Returns the exit status.
#[tactic(auto, using(crate::proofs::Statuses::stop_within))]
pub fn tell_stop<E: Sink>(stop: Stop, error: &mut E) -> u8
    requires { E.has_failed error.old ≡ false }
    ensures bound { result ≤ 5 }
    ensures status { result ≡ stop_status stop }
    ensures text { Prints (errors_of E.written E.has_failed error.old error.new) (stop_text stop) }
{
    print_text(error, text_of(stop));
    status_of(stop)
}

fn status_of(stop: Stop) -> u8
    ensures { result ≡ stop_status stop }
{
    match stop {
        Stop::Shown => 0,
        Stop::NoText
        | Stop::Incomplete
        | Stop::Range
        | Stop::Axis
        | Stop::Unnumbered
        | Stop::OneStream => 2,
        Stop::Unopened => 3,
        Stop::NotShown | Stop::Unread => 4,
        Stop::Memory => 5,
    }
}

/// A line with its line feed; empty where clap has printed, or nobody reads.
fn text_of(stop: Stop) -> &'static str
    ensures { result.now ≡ stop_text stop }
{
    match stop {
        Stop::Shown | Stop::Unread => "",
        Stop::NotShown => "tt_render: cannot write the help\n",
        Stop::NoText => "tt_render: the command line is not UTF-8\n",
        Stop::Incomplete => "tt_render: the command line is incomplete; --box is WxH, as 384x120\n",
        Stop::Range => "tt_render: --range is hexadecimal, as 20-7E,A0-FF\n",
        Stop::Axis => "tt_render: --axis is TAG=VALUE, as wght=700,wdth=87.5\n",
        Stop::Unnumbered => "tt_render: with --lines the FILE of -o has %d once, as label-%d.png\n",
        Stop::OneStream => "tt_render: --png with --lines goes with -o, as -o label-%d.png\n",
        Stop::Unopened => "tt_render: cannot read the font\n",
        Stop::Memory => NO_MEMORY,
    }
}
