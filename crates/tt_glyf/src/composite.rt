//! A composite glyph. OpenType, "The 'glyf' table", "Composite Glyph Description".

ghost use Rattle.std.specs.Prelude.{◌≡◌, ◌+◌, ◌*◌, ◌<◌, ◌≤◌, length, vec_len, All, IsTrue, IfOk, IfErr};
ghost use Rattle.tt_core.specs.Outcomes.{Gives};
ghost use Rattle.tt_glyf.specs.Composite.{records_of, has_program, program_of, composite_of};
ghost use Rattle.tt_glyf.specs.Format.{header_size};
ghost use Rattle.tt_glyf.specs.Meaning.{HasArguments, IfComposite};
ghost use Rattle.tt_glyf.specs.Raw.{raw_view};
ghost use Rattle.tt_core.specs.Outcomes.{FontGives};
ghost use Rattle.tt_glyf.specs.Views.{records_listing, program_view};

use crate::bytes::GlyphBytes;
use crate::component::{record_at, record_size};
use crate::component_flags::{ComponentFlags, has_flag};
use crate::format::{HEADER_SIZE, WORD_SIZE};
use crate::raw::{Raw, Record};
use tt_core::{COMPONENT_LIMIT, Fault, FontFault, Why};

/// The records of a glyph, and the offset after them.
#[derive(Drop)]
struct RecordList {
    records: Vec<Record>,
    next: usize,
}

/// The component records after the header. Errors: those of a record, ComponentCount, Memory.
fn read_records(glyph: &GlyphBytes, glyphs: u16) -> Result<RecordList, FontFault>
    requires { header_size ≤ length glyph.now.bytes }
    ensures exact { FontGives records_listing result (records_of glyphs glyph.now) }
    ensures arguments { IfOk result (λ r. All HasArguments r.records.items) }
    ensures room { IfOk result (λ r. r.next ≤ length glyph.now.bytes) }
{
    let mut records = Vec::new(glyph.alloc());
    let mut next = HEADER_SIZE;
    for i in 0..COMPONENT_LIMIT {
        let part = record_at(glyph, glyphs, next)?;
        next += record_size(part.flags);
        records.push(part)?;
        if !has_flag(part.flags, ComponentFlags::MORE_COMPONENTS) {
            return Ok(RecordList { records, next });
        }
    }
    Err(FontFault::Font(glyph.fault(next, Why::ComponentCount)))
}

/// Whether any record says that a program follows (profile).
fn has_program(records: &[Record]) -> bool
    ensures { result ≡ has_program records.now }
{
    for part in records {
        if has_flag(part.flags, ComponentFlags::WE_HAVE_INSTRUCTIONS) {
            return true;
        }
    }
    false
}

/// A program, and its offset in glyf.
#[derive(Drop)]
struct Program<'a> {
    code: &'a [u8],
    code_at: u32,
}

/// The program after the records, or an empty one if no record announces a program. Error: GlyphShort.
#[tactic(auto, unfolding(crate::specs::Composite::program_of))]
fn read_program<'a>(glyph: &GlyphBytes<'a>, list: &RecordList) -> Result<Program<'a>, Fault>
    requires { list.now.next ≤ length glyph.now.bytes }
    ensures exact { Gives program_view result (program_of glyph.now (records_listing list.now)) }
{
    if !has_program(&list.records) {
        return Ok(Program {
            code: &[],
            code_at: glyph.place(list.next),
        });
    }
    let size = usize::from(glyph.word(list.next)?);
    let code = glyph.slice(list.next + WORD_SIZE, size)?;
    Ok(Program {
        code,
        code_at: glyph.place(list.next + WORD_SIZE),
    })
}

impl<'a> GlyphBytes<'a> {
    /// The part of a composite glyph after its header. Errors: those of the records, GlyphShort, Memory.
    #[tactic(auto, unfolding(crate::specs::Composite::composite_of))]
    pub(crate) fn read_composite(&self, x_min: i16, glyphs: u16) -> Result<Raw<'a>, FontFault>
        requires { header_size ≤ length self.now.bytes }
        ensures exact { FontGives raw_view result (composite_of glyphs self.now x_min) }
        ensures arguments { IfOk result (λ r. IfComposite (raw_view r) (λ c. All HasArguments c.records)) }
    {
        let list = read_records(self, glyphs)?;
        let program = read_program(self, &list)?;
        Ok(Raw::Composite {
            x_min,
            records: list.records,
            code: program.code,
            code_at: program.code_at,
        })
    }
}
