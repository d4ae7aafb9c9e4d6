//! The measure of a text without its ink, as lines of text. A line is made from its end.

ghost use Rattle.std.specs.Prelude.{◌≡◌, IfOk};
ghost use Rattle.tt_render_lines.specs.LayoutTexts.{layout_text, pen_text, size_text};

use crate::measure_text::first_lines;
use std::alloc::{AllocError, Global};
use tt_core::Reading;
use tt_pbm::Ascii;
use tt_render_streams::push_name;
use tt_strike::{Face, Layout, Pen};

/// Makes the picture's line, and that of a line of text.
fn make_size_lines(line: &mut Ascii, layout: &Layout)
    ensures { line.new ≡ size_text layout.now }
{
    line.clear();
    line.push(b'\n');
    line.push_u32(layout.size.step);
    line.push(b' ');
    line.push_u32(layout.size.gap);
    line.push(b' ');
    line.push_i64(i64::from(layout.size.depth));
    line.push(b' ');
    line.push_i64(i64::from(layout.size.rise));
    line.push_bytes(b"\nline ");
    line.push_i64(layout.baseline);
    line.push_bytes(b" baseline ");
    line.push_u32(layout.size.height);
    line.push(b' ');
    line.push_u32(layout.size.width);
    line.push_bytes(b"picture ");
}

fn make_pen_line(line: &mut Ascii, pen: &Pen)
    ensures { line.new ≡ pen_text pen.now }
{
    line.clear();
    line.push(b'\n');
    line.push_u32(pen.advance);
    line.push(b' ');
    line.push_u32(pen.pen);
    line.push(b' ');
    line.push_u16(pen.glyph);
    push_name(line, pen.unit.character);
}

/// The lines of a text by a face. First, for a face of a collection, `face`, and `font`, as in a measure with ink. Then
/// `picture`: its width and height; `baseline`, the rows above it. Then `line`: the rows above the base line, the rows
/// below, those between two lines, and those from one base line to the next. Then for each unit `U+NNNN`: its glyph,
/// the column of its origin, its advance in columns.
#[tactic(auto, unfolding(crate::specs::LayoutTexts::layout_text))]
pub(crate) fn layout_text(
    alloc: Global,
    reading: Reading,
    file: &[u8],
    face: &Face,
    layout: &Layout,
    pens: &[Pen],
) -> Result<Vec<u8>, AllocError>
    ensures { IfOk result (λ lines. lines.items ≡ layout_text reading file.now face.now layout.now pens.now) }
{
    let mut lines = first_lines(alloc, reading, file, face.metrics(), pens.len())?;
    let mut line = Ascii::new();
    make_size_lines(&mut line, layout);
    lines.extend_from_slice(line.as_bytes())?;
    for pen in pens {
        make_pen_line(&mut line, pen);
        lines.extend_from_slice(line.as_bytes())?;
    }
    Ok(lines)
}
