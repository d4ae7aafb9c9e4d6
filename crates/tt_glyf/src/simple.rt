//! A simple glyph. OpenType, "The 'glyf' table", "Simple Glyph Description".

ghost use Rattle.std.specs.Prelude.{◌≡◌, ◌+◌, ◌*◌, ◌^◌, ◌<◌, ◌≤◌, length, vec_len, All, IsTrue, IfOk, IfErr};
ghost use Rattle.tt_core.specs.Limits.{point_limit};
ghost use Rattle.tt_core.specs.Outcomes.{Gives, FontGives};
ghost use Rattle.tt_glyf.specs.Format.{end_place, header_size, word_size};
ghost use Rattle.tt_glyf.specs.Meaning.{HasArguments, IfComposite};
ghost use Rattle.tt_glyf.specs.Raw.{raw_view};
ghost use Rattle.tt_glyf.specs.Simple.{end_at, ends_of, points_of, simple_of};
ghost use Rattle.tt_glyf.specs.Views.{ends_listing};

use crate::bytes::GlyphBytes;
use crate::coordinates::DeltaAxis;
use crate::flags::read_flags;
use crate::format::{HEADER_SIZE, WORD_SIZE};
use crate::raw::{Raw, RawPoint};
use tt_core::{Fault, FontFault, POINT_LIMIT, Why};

/// The end of a contour, at least the preceding end. Errors: GlyphShort, ContourOrder.
#[inline(always)]
#[tactic(auto, unfolding(crate::specs::Simple::end_at))]
fn end_at(glyph: &GlyphBytes, at: usize, before: u16) -> Result<u16, Fault>
    ensures exact { Gives (λ e. e) result (end_at glyph.now at before) }
    ensures room { IfOk result (λ e. at + word_size ≤ length glyph.now.bytes) }
{
    let end = glyph.word(at)?;
    if end < before {
        return Err(glyph.fault(at, Why::ContourOrder));
    }
    Ok(end)
}

/// The last point of each contour, and the offset after these numbers.
#[derive(Drop)]
struct EndList {
    ends: Vec<u16>,
    next: usize,
}

/// The ends of all contours. Errors: GlyphShort, ContourOrder, Memory.
#[tactic(auto, using(crate::proofs::Contours::turn, crate::proofs::Contours::breaks, crate::proofs::Contours::done))]
fn read_ends(glyph: &GlyphBytes, contours: usize) -> Result<EndList, FontFault>
    requires header { header_size ≤ length glyph.now.bytes }
    requires size { contours < 2 ^ 16 }
    ensures exact { FontGives ends_listing result (ends_of glyph.now contours) }
    ensures count { IfOk result (λ e. vec_len e.ends ≡ contours) }
    ensures next { IfOk result (λ e. e.next ≡ end_place contours) }
    ensures room { IfOk result (λ e. e.next ≤ length glyph.now.bytes) }
{
    let mut ends = Vec::with_capacity(glyph.alloc(), contours.min(glyph.len() / WORD_SIZE))?;
    let mut before = 0;
    for i in 0..contours {
        before = end_at(glyph, HEADER_SIZE + WORD_SIZE * i, before)?;
        ends.push(before)?;
    }
    Ok(EndList {
        ends,
        next: HEADER_SIZE + WORD_SIZE * contours,
    })
}

/// The `count` points from an offset on, read in one list. Errors: those of flags and coordinates, Memory.
fn read_points(glyph: &GlyphBytes, at: usize, count: usize) -> Result<Vec<RawPoint>, FontFault>
    requires place { at ≤ length glyph.now.bytes }
    requires few { count ≤ point_limit }
    ensures exact { FontGives (λ p. p.items) result (points_of glyph.now at count) }
{
    let mut list = read_flags(glyph, at, count)?;
    list.read_along(glyph, DeltaAxis::X)?;
    list.read_along(glyph, DeltaAxis::Y)?;
    Ok(list.points)
}

impl<'a> GlyphBytes<'a> {
    /// The part of a simple glyph after its header. Errors: those of the ends and the points, PointLimit, GlyphShort,
    /// Memory.
    #[tactic(auto, unfolding(crate::specs::Simple::simple_of, crate::specs::Simple::points_within))]
    pub(crate) fn read_simple(&self, x_min: i16, contours: usize) -> Result<Raw<'a>, FontFault>
        requires header { header_size ≤ length self.now.bytes }
        requires some { 0 < contours }
        requires size { contours < 2 ^ 16 }
        ensures exact { FontGives raw_view result (simple_of self.now x_min contours) }
        ensures arguments { IfOk result (λ r. IfComposite (raw_view r) (λ c. All HasArguments c.records)) }
    {
        let list = read_ends(self, contours)?;
        let count = usize::from(list.ends[list.ends.len() - 1]) + 1;
        if count > POINT_LIMIT {
            // At the last contour's end.
            return Err(FontFault::Font(self.fault(list.next - WORD_SIZE, Why::PointLimit)));
        }
        let size = usize::from(self.word(list.next)?);
        let code = self.slice(list.next + WORD_SIZE, size)?;
        let points = read_points(self, list.next + WORD_SIZE + size, count)?;
        Ok(Raw::Simple {
            x_min,
            points,
            ends: list.ends,
            code,
            code_at: self.place(list.next + WORD_SIZE),
        })
    }
}
