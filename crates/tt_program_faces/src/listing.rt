//! The output of `faces`: the number of a file's faces, and a line for each.

ghost use Rattle.std.specs.Prelude.{◌≡◌, ◌≤◌, ◌++◌, codes, false, length, string_bytes, IfOk};
ghost use Rattle.tt_core.specs.Limits.{font_limit};
ghost use Rattle.tt_core.specs.Outcomes.{FontGives, font_fault};
ghost use Rattle.tt_face.specs.Files.{face_by};
ghost use Rattle.tt_program_faces.specs.FaceLines.{IsFacesDefect, face_lines, faces_of, faces_text, faces_wanted, fault_line, figures, read_lines, read_words, wide};
ghost use Rattle.tt_render_run.specs.Defects.{TellsDefectsOf};
ghost use Rattle.tt_render_run.specs.Outcome.{CallGives};
ghost use Rattle.tt_render_streams.specs.Traffic.{traffic_of};
ghost use Rattle.tt_strike.specs.Defects.{TellsDefects};

use crate::variations::{push_name, push_variations};
use std::alloc::{AllocError, Global};
use tt_core::{Fault, FontFault, Reading, Sink, Source, face_count};
use tt_face::Face;
use tt_metrics::Metrics;
use tt_pbm::write_all_of;
use tt_render_streams::{RunFault, read_font};

/// Faces that have a line (profile).
const FACES_TOLD: u32 = 256;

/// Writes the number of a font file's faces, and a line for each of the first 256: its glyphs, its units per em and its
/// name, or the reason why it is refused. The lines of the face's axes and named instances follow. Nothing is written
/// before all lines are made.
///
/// Errors, the first of: Read, FontLarge; Font, of the place of the first face; Write. Memory may come at any
/// allocation.
pub fn faces<R: Source, W: Sink>(alloc: Global, font: &mut R, out: &mut W) -> Result<(), RunFault>
    requires font { R.has_failed font.old ≡ false }
    requires out { W.has_failed out.old ≡ false }
    ensures outcome { CallGives result (traffic_of R.left R.has_failed W.written W.has_failed font.old font.new out.old out.new) faces_wanted }
    ensures defects { TellsDefectsOf (R.left font.old) IsFacesDefect result }
{
    let file = read_font(alloc, font)?;
    let lines = lines_by(alloc, &file)?;
    write_all_of(out, &lines)?;
    Ok(())
}

/// The lines by a font file.
#[tactic(auto, unfolding(crate::specs::FaceLines::faces_of))]
fn lines_by(alloc: Global, file: &[u8]) -> Result<Vec<u8>, FontFault>
    requires { length file.now ≤ font_limit }
    ensures exact { FontGives (λ lines. lines.items) result (faces_of file.now) }
    ensures defects { TellsDefects font_fault (IsFacesDefect file.now) result }
{
    let count = face_count(file)?;
    Ok(lines(alloc, file, count)?)
}

fn lines(alloc: Global, file: &[u8], count: u32) -> Result<Vec<u8>, AllocError>
    requires { length file.now ≤ font_limit }
    ensures { IfOk result (λ lines. lines.items ≡ faces_text file.now count) }
{
    let mut lines = Vec::new(alloc);
    let head = format!(in alloc; "faces {count}\n")?;
    lines.extend_from_slice(head.as_bytes())?;
    for n in 0..count.min(FACES_TOLD) {
        let more = face_lines(alloc, file, n)?;
        lines.extend_from_slice(&more)?;
    }
    Ok(lines)
}

/// The lines of face n: its own, and those of its axes and named instances.
fn face_lines(alloc: Global, file: &[u8], n: u32) -> Result<Vec<u8>, AllocError>
    requires { length file.now ≤ font_limit }
    ensures { IfOk result (λ lines. lines.items ≡ face_lines n (face_by file.now (wide n))) }
{
    match Face::read(file, Reading::Wide { face: n }) {
        Ok(face) => read_lines(alloc, n, &face),
        Err(fault) => refused_line(alloc, n, fault),
    }
}

/// The lines of a face that is read.
fn read_lines(alloc: Global, n: u32, face: &Face) -> Result<Vec<u8>, AllocError>
    ensures { IfOk result (λ lines. lines.items ≡ read_lines n face.now) }
{
    let mut lines = read_words(alloc, n, face)?;
    lines.push(b'\n')?;
    push_variations(&mut lines, alloc, face)?;
    Ok(lines)
}

/// The words about a face that is read.
fn read_words(alloc: Global, n: u32, face: &Face) -> Result<Vec<u8>, AllocError>
    ensures { IfOk result (λ words. words.items ≡ read_words n face.now) }
{
    let mut words = Vec::new(alloc);
    let figures = figures(alloc, n, face.metrics())?;
    words.extend_from_slice(figures.as_bytes())?;
    let name = face.full_name(alloc)?;
    push_name(&mut words, &name)?;
    Ok(words)
}

/// The line about a face that is refused.
fn refused_line(alloc: Global, n: u32, fault: Fault) -> Result<Vec<u8>, AllocError>
    ensures { IfOk result (λ line. line.items ≡ fault_line n fault ++ codes "\n") }
{
    let mut line = Vec::new(alloc);
    let words = fault_line(alloc, n, fault)?;
    line.extend_from_slice(words.as_bytes())?;
    line.push(b'\n')?;
    Ok(line)
}

fn figures(alloc: Global, n: u32, metrics: &Metrics) -> Result<String, AllocError>
    ensures { IfOk result (λ text. string_bytes text ≡ figures n metrics.now) }
{
    let glyphs = metrics.glyphs();
    let em = metrics.units_per_em();
    format!(in alloc; "{n} {glyphs} {em}")
}

fn fault_line(alloc: Global, n: u32, fault: Fault) -> Result<String, AllocError>
    ensures { IfOk result (λ text. string_bytes text ≡ fault_line n fault) }
{
    let table = fault.tag();
    let offset = fault.offset;
    let number = fault.why.number();
    let name = fault.why.name();
    format!(in alloc; "{n} {table}+{offset}: {number} {name}")
}
