//! The axes and named instances of a face, as lines.

ghost use Rattle.std.specs.Prelude.{◌≡◌, ◌<◌, ◌++◌, string_bytes, IfOk, OnOk};
ghost use Rattle.tt_axes.specs.Fvar.{axis_count, instance_count};
ghost use Rattle.tt_face.specs.Names.{told_character};
ghost use Rattle.tt_program_faces.specs.Variations.{axis_figures, axis_line, axis_lines, behind_blank, comma, instance_line, instance_lines, next_place, places, tag_words, value_words, variation_lines};

use std::alloc::{AllocError, Global};
use tt_axes::{Fvar, VariationAxis, value_text};
use tt_face::{Face, LISTED_INSTANCES};

/// Appends a name behind a blank, and nothing without a name. Error: memory ran out.
pub(crate) fn push_name(lines: &mut Vec<u8>, name: &[u8]) -> Result<(), AllocError>
    ensures { OnOk result (lines.new.items ≡ lines.old.items ++ behind_blank name.now) }
{
    if !name.is_empty() {
        lines.push(b' ')?;
    }
    lines.extend_from_slice(name)
}

/// A byte of a tag as it is told: itself if it can be printed, else a question mark.
fn told_character(byte: u8) -> u8
    ensures { result ≡ told_character byte }
{
    if (0x20..=0x7E).contains(&byte) {
        byte
    } else {
        b'?'
    }
}

/// Appends a tag. Error: memory ran out.
fn push_tag(lines: &mut Vec<u8>, tag: [u8; 4]) -> Result<(), AllocError>
    ensures { OnOk result (lines.new.items ≡ lines.old.items ++ tag_words tag) }
{
    let [first, second, third, fourth] = tag;
    lines.push(told_character(first))?;
    lines.push(told_character(second))?;
    lines.push(told_character(third))?;
    lines.push(told_character(fourth))?;
    Ok(())
}

/// The values of an axis, each behind a blank. Error: memory ran out.
fn axis_figures(alloc: Global, axis: VariationAxis) -> Result<String, AllocError>
    ensures { IfOk result (λ text. string_bytes text ≡ axis_figures axis) }
{
    let least = value_text(alloc, axis.least)?;
    let default = value_text(alloc, axis.default)?;
    let greatest = value_text(alloc, axis.greatest)?;
    format!(in alloc; " {least} {default} {greatest}")
}

/// Appends the line of an axis. Error: memory ran out.
fn push_axis(
    lines: &mut Vec<u8>,
    alloc: Global,
    face: &Face,
    axis: VariationAxis,
) -> Result<(), AllocError>
    ensures { OnOk result (lines.new.items ≡ lines.old.items ++ axis_line face.now.directory axis) }
{
    let figures = axis_figures(alloc, axis)?;
    let name = face.name(alloc, axis.name)?;
    lines.extend_from_slice(b"axis ")?;
    push_tag(lines, axis.tag)?;
    lines.extend_from_slice(figures.as_bytes())?;
    push_name(lines, &name)?;
    lines.push(b'\n')?;
    Ok(())
}

/// Appends a comma between two places. Error: memory ran out.
fn push_comma(lines: &mut Vec<u8>, i: usize) -> Result<(), AllocError>
    ensures { OnOk result (lines.new.items ≡ lines.old.items ++ comma i) }
{
    if i > 0 {
        lines.push(b',')?;
    }
    Ok(())
}

/// Appends a value behind an equals sign. Error: memory ran out.
fn push_value(lines: &mut Vec<u8>, alloc: Global, value: i32) -> Result<(), AllocError>
    ensures { OnOk result (lines.new.items ≡ lines.old.items ++ value_words value) }
{
    let shown = value_text(alloc, value)?;
    lines.push(b'=')?;
    lines.extend_from_slice(shown.as_bytes())
}

/// Appends the place of a named instance on an axis, behind a comma but for the first. Error: memory ran out.
fn push_place(
    lines: &mut Vec<u8>,
    alloc: Global,
    fvar: &Fvar,
    k: usize,
    i: usize,
) -> Result<(), AllocError>
    requires instance { k < instance_count fvar.now }
    requires axis { i < axis_count fvar.now }
    ensures { OnOk result (lines.new.items ≡ lines.old.items ++ next_place fvar.now k i) }
{
    push_comma(lines, i)?;
    push_tag(lines, fvar.axis(i).tag)?;
    push_value(lines, alloc, fvar.place(k, i))?;
    Ok(())
}

/// Appends the places of a named instance. Error: memory ran out.
fn push_places(lines: &mut Vec<u8>, alloc: Global, fvar: &Fvar, k: usize) -> Result<(), AllocError>
    requires { k < instance_count fvar.now }
    ensures { OnOk result (lines.new.items ≡ lines.old.items ++ places fvar.now k) }
{
    for i in 0..fvar.axis_count() {
        push_place(lines, alloc, fvar, k, i)?;
    }
    Ok(())
}

/// Appends the line of a named instance. Error: memory ran out.
fn push_instance(
    lines: &mut Vec<u8>,
    alloc: Global,
    face: &Face,
    fvar: &Fvar,
    k: usize,
) -> Result<(), AllocError>
    requires { k < instance_count fvar.now }
    ensures { OnOk result (lines.new.items ≡ lines.old.items ++ instance_line face.now.directory fvar.now k) }
{
    let head = format!(in alloc; "instance {k} ")?;
    let name = face.name(alloc, fvar.instance(k).name)?;
    lines.extend_from_slice(head.as_bytes())?;
    push_places(lines, alloc, fvar, k)?;
    push_name(lines, &name)?;
    lines.push(b'\n')?;
    Ok(())
}

/// Appends the lines of the axes. Error: memory ran out.
fn push_axes(lines: &mut Vec<u8>, alloc: Global, face: &Face, fvar: &Fvar) -> Result<(), AllocError>
    ensures { OnOk result (lines.new.items ≡ lines.old.items ++ axis_lines face.now.directory fvar.now) }
{
    for i in 0..fvar.axis_count() {
        push_axis(lines, alloc, face, fvar.axis(i))?;
    }
    Ok(())
}

/// Appends the lines of the first 256 named instances. Error: memory ran out.
fn push_instances(
    lines: &mut Vec<u8>,
    alloc: Global,
    face: &Face,
    fvar: &Fvar,
) -> Result<(), AllocError>
    ensures { OnOk result (lines.new.items ≡ lines.old.items ++ instance_lines face.now.directory fvar.now) }
{
    let count = LISTED_INSTANCES.min(fvar.instance_count());
    for k in 0..count {
        push_instance(lines, alloc, face, fvar, k)?;
    }
    Ok(())
}

/// Appends the lines of a face's axes and named instances, none where the face has no whole table fvar. Error: memory ran
/// out.
pub(crate) fn push_variations(
    lines: &mut Vec<u8>,
    alloc: Global,
    face: &Face,
) -> Result<(), AllocError>
    ensures { OnOk result (lines.new.items ≡ lines.old.items ++ variation_lines face.now.directory) }
{
    match face.variations() {
        Some(fvar) => {
            push_axes(lines, alloc, face, &fvar)?;
            push_instances(lines, alloc, face, &fvar)
        }
        None => Ok(()),
    }
}
