//! A text laid out without its ink.

ghost use Rattle.std.specs.Prelude.{◌≡◌, ◌≢◌, length, map, IfErr, IfOk, None};
ghost use Rattle.tt_core.specs.Outcomes.{GivesUnless, IfTold};
ghost use Rattle.tt_c_calls.specs.Asked.{IsAskedDefect, job_instance};
ghost use Rattle.tt_c_calls.specs.declared.fault.CallFault.TheVariants as call;
ghost use Rattle.tt_c_calls.specs.Layouts.{ArePensTold, LaysOutText, PlacesPens, layout_told, layout_wanted, pen_told, pens_wanted};
ghost use Rattle.tt_c_calls.specs.Measures.{IsEntriesSmall};
ghost use Rattle.tt_c_calls.specs.Offsets.{offsets_asked};
ghost use Rattle.tt_c_calls.specs.Refusals.{call_font_fault, call_refusal};

use crate::answer::{CAnswer, DONE, ROOM, answer_of, sized};
use crate::asked::{TextRequest, job_of};
use crate::fault::CallFault;
use crate::mapping::selector_of;
use crate::offsets::offsets_of;
use crate::opening::job_face;
use std::alloc::Global;
use tt_strike::{Layout, Pen, SizedFace, TextPens, test_job};

/// The picture of a text without its ink, and its distance from a next line.
#[repr(C)]
#[derive(Clone, Copy)]
pub struct CLayout {
    /// Columns of the picture that does not grow: 1 to 16,384.
    pub width: u32,
    /// Rows of that picture: 1 to 4,096.
    pub height: u32,
    /// The number of its rows above the base line. Below 0, or more than the picture has, where the base line is
    /// outside.
    pub baseline: i64,
    /// Rows of a line above its base line, without a margin.
    pub rise: i64,
    /// Rows of a line below its base line, without a margin.
    pub depth: i64,
    /// Rows between the descent of a line and the ascent of the next.
    pub gap: u64,
    /// Rows from one base line to the next, at least 1.
    pub step: u64,
    /// The units of the text.
    pub characters: u64,
}

/// The pen of a unit of a text.
#[repr(C)]
#[derive(Clone, Copy)]
pub struct CPen {
    /// The character's.
    pub code_point: u32,
    /// The unit's variation selector, 0 without one.
    pub selector: u32,
    /// 0 where the font has none for the unit.
    pub glyph: u32,
    /// The columns to the next unit's pen.
    pub advance: u32,
    /// The column of the picture at the pen, the margin included.
    pub pen: i64,
    /// Where the unit begins, in bytes from the start of the text.
    pub offset: u64,
}

/// The pens of a text, and the offset of the unit of each.
#[derive(Drop)]
struct PlacedPens {
    pens: Vec<Pen>,
    offsets: Vec<usize>,
}

fn layout_of(layout: &Layout) -> CLayout
    ensures { result ≡ layout_told layout.now }
{
    let size = layout.size;
    CLayout {
        width: size.width,
        height: size.height,
        baseline: layout.baseline,
        rise: i64::from(size.rise),
        depth: i64::from(size.depth),
        gap: u64::from(size.gap),
        step: u64::from(size.step),
        characters: layout.characters as u64,
    }
}

fn pen_of(pen: &Pen, offset: usize) -> CPen
    ensures { result ≡ pen_told (pen.now, offset) }
{
    CPen {
        code_point: pen.unit.character as u32,
        selector: selector_of(pen.unit.selector),
        glyph: u32::from(pen.glyph),
        advance: pen.advance,
        pen: i64::from(pen.pen),
        offset: offset as u64,
    }
}

/// The layout of a text by a font file. Errors, the first of: UnknownFit, AxesMany, NotUtf8; SizeRange, MarginRange, TextLong;
/// FontLarge; those of the tables that every text needs; those of `SizedFace::layout`.
#[tactic(auto, unfolding(crate::specs::Layouts::layout_wanted))]
fn laid_out(alloc: Global, request: &TextRequest) -> Result<Layout, CallFault>
    ensures exact { GivesUnless call_refusal (λ l. l) result (layout_wanted request.now.job.now request.now.text.now request.now.font.now) }
    ensures memory { request.now.job.now.fit ≢ 3 → job_instance request.now.job.now ≡ None → IfErr result (λ f. f ≢ call.Memory) }
    ensures defects { IfTold call_font_fault result (IsAskedDefect request.now.job.now request.now.text.now request.now.font.now) }
{
    let asked = job_of(request.job, request.text)?;
    test_job(&asked)?;
    let face = job_face(request.font, request.job, asked.fit)?;
    let mut sized = SizedFace::new(alloc, &face, asked.ppem, asked.fit)?;
    Ok(sized.layout(asked.text, asked.margin)?)
}

/// Lays out a text: the size of the picture that does not grow, its base line, and its distance from a next line.
/// Answers: done; the font is refused, too large, or the job refused; memory was refused; the text is not UTF-8. Unless
/// the answer is done, `told` is unchanged. Only with `Fit::Best` are glyphs made. Memory is taken with
/// `Fit::Best` and at an instance.
pub fn layout(alloc: Global, request: &TextRequest, told: &mut CLayout) -> CAnswer
    ensures { LaysOutText request.now.job.now request.now.text.now request.now.font.now told.old told.new result }
{
    match laid_out(alloc, request) {
        Ok(layout) => {
            *told = layout_of(&layout);
            sized(DONE, 0, 0)
        }
        Err(fault) => answer_of(fault),
    }
}

/// The pens of a text by a font file, and their offsets. Errors, the first of: UnknownFit, AxesMany, NotUtf8; SizeRange, MarginRange, TextLong;
/// FontLarge; those of the tables that every text needs; those of `SizedFace::pens`.
#[tactic(auto, unfolding(crate::specs::Layouts::pens_wanted))]
fn pens_of(alloc: Global, request: &TextRequest) -> Result<PlacedPens, CallFault>
    ensures exact { GivesUnless call_refusal (λ p. p.pens.items) result (pens_wanted request.now.job.now request.now.text.now request.now.font.now) }
    ensures offsets { IfOk result (λ p. p.offsets.items ≡ offsets_asked request.now.job.now request.now.text.now) }
    ensures count { IfOk result (λ p. length p.pens.items ≡ length p.offsets.items) }
    ensures defects { IfTold call_font_fault result (IsAskedDefect request.now.job.now request.now.text.now request.now.font.now) }
{
    let asked = job_of(request.job, request.text)?;
    test_job(&asked)?;
    let face = job_face(request.font, request.job, asked.fit)?;
    let mut sized = SizedFace::new(alloc, &face, asked.ppem, asked.fit)?;
    let placed = sized.pens(asked.text, asked.margin)?;
    let TextPens { pens, .. } = placed;
    match offsets_of(alloc, request.job.reads_widely(), asked.text) {
        Ok(offsets) => Ok(PlacedPens { pens, offsets }),
        Err(_) => Err(CallFault::Memory),
    }
}

/// Writes pens with their offsets at the front of a caller's room. Answers: done; or the room is too small, and nothing is written.
fn write_pens(pens: &[Pen], offsets: &[usize], room: &mut [CPen]) -> CAnswer
    requires { length pens.now ≡ length offsets.now }
    ensures done { result.status ≡ 0 → ArePensTold pens.now offsets.now room.old room.new result }
    ensures small { result.status ≢ 0 → IsEntriesSmall (length pens.now) (length room.old) result }
    ensures kept { result.status ≢ 0 → room.new ≡ room.old }
{
    let count = pens.len();
    if count > room.len() {
        return sized(ROOM, 0, count as u64);
    }
    for i in 0..count {
        room[i] = pen_of(&pens[i], offsets[i]);
    }
    sized(DONE, 0, count as u64)
}

/// Writes the pen of each unit of a text, in the order of the text. Answers: done, with the number of units; the font is
/// refused, too large, or the job refused; memory was refused; the text is not UTF-8; the room is too small. Unless the
/// answer is done, `room` is unchanged. Only with `Fit::Best` are glyphs made.
pub fn pens(alloc: Global, request: &TextRequest, room: &mut [CPen]) -> CAnswer
    ensures { PlacesPens request.now.job.now request.now.text.now request.now.font.now room.old room.new result }
{
    match pens_of(alloc, request) {
        Ok(placed) => write_pens(&placed.pens, &placed.offsets, room),
        Err(fault) => answer_of(fault),
    }
}
