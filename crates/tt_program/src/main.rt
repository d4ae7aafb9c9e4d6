//! The program: clap, the font's file and the standard streams, handed to tt_program_decisions, which decides.
#![tactic(auto)]

ghost use Rattle.std.specs.Prelude.{◌≡◌, ◌≤◌, false};

mod command;
mod output;

use crate::command::{command_line, subcommand};
use crate::output::OutputFiles;
use clap::Error;
use clap::error::ErrorKind;
use std::alloc::{AllocError, Global};
use std::fs::OpenFile;
use std::io::Read;
use std::process::ExitCode;
use std::rt::{Env, Files, Stderr, Stdin};
use std::{env, fs, io};
use tt_advice::shown_words;
use tt_core::{Device, Sink};
use tt_program_decisions::{
    Stop, axes_asked, perform, stop_of_print, stop_of_request, stop_of_words, tell_refused,
    tell_stop, tell_unmade, tell_unopened,
};

fn main(rt: HostRuntime) -> ExitCode {
    ExitCode::from(serve(&rt, rt.stdin(), rt.stderr()))
}

/// Standard input. Where the program began without one, a file that is opened takes the place of standard input, and this
/// reader fails.
#[derive(Drop)]
struct Lines {
    stdin: Stdin,
    closed: bool,
}

impl Lines {
    /// Standard input as it is before any file is opened. A read of no bytes fails exactly where later reads would.
    fn new(mut stdin: Stdin) -> Lines {
        let closed = stdin.read(&mut []).is_err();
        Lines { stdin, closed }
    }
}

impl Read for Lines {
    fn read(&mut self, buf: &mut [u8]) -> io::Result<usize> {
        if self.closed {
            return Err(io::Error::from(io::ErrorKind::Other));
        }
        self.stdin.read(buf)
    }
}

/// Reads the command line and performs its request; answers the exit status.
fn serve<R: Files + Env + Print + Eprint + AllocGlobal>(rt: &R, stdin: Stdin, stderr: Stderr) -> u8
    ensures { result ≤ 5 }
{
    let mut errors = Device::new(stderr);
    let words = match words(rt) {
        Ok(words) => words,
        Err(error) => return tell_stop(stop_of_words(error.kind()), &mut errors),
    };
    let command = match command_line(rt.alloc(), &words) {
        Ok(Some(command)) => command,
        Ok(None) => return tell_stop(Stop::Incomplete, &mut errors),
        Err(error) => return tell_error(rt, &words, &error, &mut errors),
    };
    let axes = match axes_asked(rt.alloc(), command.instance.axes) {
        Ok(Some(axes)) => axes,
        Ok(None) => return tell_stop(Stop::Axis, &mut errors),
        Err(AllocError) => return tell_stop(Stop::Memory, &mut errors),
    };
    let request = command.request.at(command.instance.asked(&axes));
    if let Some(stop) = stop_of_request(rt.alloc(), &request) {
        return tell_stop(stop, &mut errors);
    }
    let mut lines = Device::new(Lines::new(stdin));
    let file = match fs::open(rt, request.font()) {
        Ok(file) => file,
        Err(error) => return tell_unopened(rt.alloc(), &request, error.kind(), &mut errors),
    };
    let folder = is_folder(&file);
    let mut font = Device::new(file);
    let mut out = OutputFiles::new(rt, io::writer(rt), request.output());
    let status = perform(
        rt.alloc(),
        &request,
        folder,
        &mut font,
        &mut lines,
        &mut out,
        &mut errors,
    );
    if let Some(unmade) = &out.unmade {
        tell_unmade(rt.alloc(), &unmade.path, unmade.kind, &mut errors);
    }
    status
}

/// Whether a file that was opened is a folder.
fn is_folder<F: OpenFile>(file: &F) -> bool {
    match file.metadata() {
        Ok(known) => known.is_dir(),
        Err(_) => false,
    }
}

fn words<R: Env + AllocGlobal>(rt: &R) -> io::Result<Vec<String>> {
    let words = env::args(rt)?.collect(rt.alloc())?;
    Ok(words)
}

/// Prints what clap says: help and the version on standard output, all else on standard error. Returns the exit status.
fn tell_error<R: Print + Eprint + AllocGlobal, E: Sink>(
    rt: &R,
    words: &[String],
    error: &Error,
    errors: &mut E,
) -> u8
    requires { E.has_failed errors.old ≡ false }
    ensures { result ≤ 5 }
{
    if error.kind() == ErrorKind::OutOfMemory {
        return tell_stop(Stop::Memory, errors);
    }
    if error.use_stderr() {
        return tell_refusal(rt.alloc(), words, errors);
    }
    match error.print(rt) {
        Ok(()) => tell_stop(Stop::Shown, errors),
        Err(error) => tell_stop(stop_of_print(error.kind()), errors),
    }
}

/// Prints why clap refuses the words, with a tip if there is one. Clap repeats words, so it reads them once more as they
/// are reported. A word that has question marks by that is refused no less, since no option, value or subcommand has one.
/// Returns the exit status.
fn tell_refusal<E: Sink>(alloc: Global, words: &[String], errors: &mut E) -> u8
    requires { E.has_failed errors.old ≡ false }
    ensures { result ≤ 5 }
{
    let Ok(shown) = shown_words(alloc, words) else {
        return tell_stop(Stop::Memory, errors);
    };
    match command_line(alloc, &shown) {
        Err(error) if error.kind() == ErrorKind::OutOfMemory => tell_stop(Stop::Memory, errors),
        Err(error) if error.use_stderr() => match format!(in alloc; "{error}") {
            Ok(refusal) => tell_refused(alloc, subcommand(&shown), &refusal, errors),
            Err(AllocError) => tell_stop(Stop::Memory, errors),
        },
        _ => tell_stop(Stop::Incomplete, errors),
    }
}
