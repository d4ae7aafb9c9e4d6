//! The tables of a font that are read before its glyphs.

ghost use Rattle.std.specs.Prelude.{◌≡◌, ◌≤◌, length, IfSome};
ghost use Rattle.tt_core.specs.Limits.{font_limit};
ghost use Rattle.tt_metrics.specs.Metrics.{loca_format_of, glyphs_of};

use tt_axes::AxisValue;
use tt_core::{Dir, FONT_LIMIT, Reading};
use tt_face::{AskedInstance, Face, Opening};
use tt_fit::Programs;
use tt_glyf::Glyf;
use tt_metrics::Metrics;
use tt_test_words::Line;

fn directory_of(font: &[u8]) -> Option<Dir<'_>> {
    if font.len() > FONT_LIMIT {
        return None;
    }
    Dir::open(font).ok()
}

/// The metrics and the glyph data of a font.
pub(crate) fn tables_of(font: &[u8]) -> Option<(Metrics<'_>, Glyf<'_>)>
    ensures format { IfSome result (λ t. t.1.format ≡ loca_format_of t.0) }
    ensures glyphs { IfSome result (λ t. t.1.glyphs ≡ glyphs_of t.0) }
{
    let dir = directory_of(font)?;
    let metrics = Metrics::open(&dir).ok()?;
    let loca = dir.needed(*b"loca").ok()?;
    let glyf = dir.needed(*b"glyf").ok()?;
    let glyphs = Glyf::open(loca, glyf, &metrics).ok()?;
    Some((metrics, glyphs))
}

/// The tables of a font's programs, each empty where the font has none.
pub(crate) fn programs_of(font: &[u8]) -> Option<Programs<'_>>
    ensures fpgm { IfSome result (λ p. length p.fpgm.now ≤ font_limit) }
    ensures prep { IfSome result (λ p. length p.prep.now ≤ font_limit) }
{
    let dir = directory_of(font)?;
    Some(Programs {
        cvt: dir.table(*b"cvt ").ok()?.unwrap_or(&[]),
        fpgm: dir.table(*b"fpgm").ok()?.unwrap_or(&[]),
        prep: dir.table(*b"prep").ok()?.unwrap_or(&[]),
    })
}

/// The first face of a font's file at the instance that has these values of axes.
pub(crate) fn face_at<'a>(font: &'a [u8], axes: &[AxisValue]) -> Option<Face<'a>> {
    if font.len() > FONT_LIMIT {
        return None;
    }
    let asked = AskedInstance { named: None, axes };
    Face::read_at(font, Opening::plain(Reading::Wide { face: 0 }), Some(asked)).ok()
}

/// Notes that memory was refused for a glyph.
pub(crate) fn note_glyph(line: &mut Line, g: u16) {
    line.note("glyph");
    line.note_field(i64::from(g));
    line.note(": out of memory\n");
}
