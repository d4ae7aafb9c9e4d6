//! What tt_glyf reads of each glyph of a font, a line `GLYPH KIND COUNT CONTOURS PROGRAM SUM SUM SUM`: whether it is
//! empty, simple or composite, its points or components, its contours (-1 of a composite), the bytes of its program,
//! and three sums. A wrong coordinate, flag, component or argument changes a sum.

ghost use Rattle.std.specs.Prelude.{◌<◌};

use crate::tables::{note_glyph, tables_of};
use std::alloc::Global;
use tt_core::FontFault;
use tt_glyf::{Glyf, Raw, RawPoint, Record};
use tt_test_words::Line;

pub fn put_table(alloc: Global, line: &mut Line, font: &[u8]) {
    line.end();
    match tables_of(font) {
        Some((metrics, glyphs)) => {
            for g in 0..metrics.glyphs() {
                put_glyph(alloc, line, &glyphs, g);
            }
        }
        None => line.refuse("the font is refused"),
    }
}

/// Puts the line of a glyph, which is read once more where memory was refused.
fn put_glyph(alloc: Global, line: &mut Line, glyphs: &Glyf, g: u16)
    requires { g < glyphs.now.glyphs }
{
    let mut read = glyphs.read(alloc, g);
    if let Err(FontFault::Memory) = read {
        note_glyph(line, g);
        read = glyphs.read(alloc, g);
    }
    line.put_number(i64::from(g));
    match read {
        Ok(Raw::Empty) => line.put(" empty 0 0 0 0 0 0\n"),
        Ok(
            Raw::Simple {
                points,
                ends,
                code,
                ..
            },
        ) => put_simple(line, &points, ends.len(), code.len()),
        Ok(Raw::Composite { records, code, .. }) => put_composite(line, &records, code.len()),
        Err(_) => line.refuse("a glyph is refused"),
    }
}

/// Puts the parts of a simple glyph. The sums are those of each coordinate times its point's place from 1 on, along x and
/// along y, and of the places of the points on the curve.
fn put_simple(line: &mut Line, points: &[RawPoint], contours: usize, program: usize) {
    line.put(" simple");
    put_size(line, points.len());
    put_size(line, contours);
    put_size(line, program);
    let (mut place, mut x, mut y, mut on) = (1i64, 0i64, 0i64, 0i64);
    for p in points {
        x = x.wrapping_add(place.wrapping_mul(i64::from(p.x)));
        y = y.wrapping_add(place.wrapping_mul(i64::from(p.y)));
        on = on.wrapping_add(place.wrapping_mul(i64::from(p.on)));
        place = place.wrapping_add(1);
    }
    line.put_fields(&[x, y, on]);
    line.put("\n");
}

/// Puts the parts of a composite glyph. The sums are those of each component's glyph, and of each of its arguments, times
/// its place from 1 on.
fn put_composite(line: &mut Line, records: &[Record], program: usize) {
    line.put(" composite");
    put_size(line, records.len());
    line.put(" -1");
    put_size(line, program);
    let (mut place, mut glyph, mut first, mut second) = (0i64, 0i64, 0i64, 0i64);
    for r in records {
        place = place.wrapping_add(1);
        glyph = glyph.wrapping_add(place.wrapping_mul(i64::from(r.glyph)));
        first = first.wrapping_add(place.wrapping_mul(i64::from(r.arg1)));
        second = second.wrapping_add(place.wrapping_mul(i64::from(r.arg2)));
    }
    line.put_fields(&[glyph, first, second]);
    line.put("\n");
}

fn put_size(line: &mut Line, size: usize) {
    line.put(" ");
    line.put_unsigned(size as u64);
}
