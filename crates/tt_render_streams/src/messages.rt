//! The program's messages about a fault, and about an unfitted glyph.

ghost use Rattle.std.specs.Prelude.{◌≡◌, string_bytes, IfOk};
ghost use Rattle.tt_render_streams.specs.Messages.{status_of, line_of, font_line, job_line, unfitted_line_of};

use crate::fault::RunFault;
use std::alloc::{AllocError, Global};
use tt_core::{Fault, JobFault};
use tt_picture::Unfitted;

/// The program's exit status.
pub fn status(fault: &RunFault) -> u8
    ensures { result ≡ status_of fault.now }
{
    match fault {
        RunFault::Font(_) => 1,
        RunFault::Job(_) => 2,
        RunFault::Read | RunFault::FontLarge => 3,
        RunFault::Write { .. } => 4,
        RunFault::Memory => 5,
    }
}

/// The program's line on standard error, without the line feed.
pub fn line(alloc: Global, fault: &RunFault) -> Result<String, AllocError>
    ensures { IfOk result (λ text. string_bytes text ≡ line_of fault.now) }
{
    match fault {
        RunFault::Font(fault) => font_line(alloc, *fault),
        RunFault::Job(job) => job_line(alloc, *job),
        RunFault::Read => String::from_str(alloc, "tt_render: cannot read the font"),
        RunFault::FontLarge => {
            String::from_str(alloc, "tt_render: font larger than 67108864 bytes")
        }
        RunFault::Write { sent } => {
            format!(in alloc; "tt_render: cannot write after {sent} bytes")
        }
        RunFault::Memory => String::from_str(alloc, "tt_render: out of memory"),
    }
}

/// The line of a defect of the font.
fn font_line(alloc: Global, fault: Fault) -> Result<String, AllocError>
    ensures { IfOk result (λ text. string_bytes text ≡ font_line fault) }
{
    let table = fault.tag();
    let offset = fault.offset;
    let number = fault.why.number();
    let name = fault.why.name();
    format!(in alloc; "tt_render: {table}+{offset}: {number} {name}")
}

/// The line of a refused job.
fn job_line(alloc: Global, job: JobFault) -> Result<String, AllocError>
    ensures { IfOk result (λ text. string_bytes text ≡ job_line job) }
{
    let number = job.number();
    let name = job.name();
    format!(in alloc; "tt_render: {number} {name}")
}

/// The program's line on standard error for an unfitted glyph, without the line feed.
pub fn unfitted_line(alloc: Global, unfitted: &Unfitted) -> Result<String, AllocError>
    ensures { IfOk result (λ text. string_bytes text ≡ unfitted_line_of unfitted.now) }
{
    let glyph = unfitted.glyph;
    let fault = unfitted.fault;
    let table = fault.tag();
    let offset = fault.offset;
    let number = fault.why.number();
    let name = fault.why.name();
    format!(in alloc; "tt_render: glyph {glyph} unfitted: {table}+{offset}: {number} {name}")
}
