//! The table gvar: its header, and the data of a glyph. OpenType, "gvar", "'gvar' header".

ghost use Rattle.std.specs.Prelude.{◌≡◌, ◌+◌, ◌*◌, ◌<◌, ◌≤◌, length, IfErr, IfOk, IfSome, IsTrue, OnOk};
ghost use Rattle.tt_core.specs.Directory.{HasNo, IsDefectIn};
ghost use Rattle.tt_core.specs.Faults.{fault_at};
ghost use Rattle.tt_core.specs.Limits.{font_limit};
ghost use Rattle.tt_core.specs.Outcomes.{Gives};
ghost use Rattle.tt_deltas.specs.Gvar.{IsGlyphDefect, IsGvar, IsShapeDefect, end_of, entry_place, glyph_count, glyph_data_of, gvar_in, gvar_of, gvar_tag, header_size, offset_at, offset_size, offsets_end, shared_bytes, shared_bytes_of, shared_end, shape_fault};
ghost use Rattle.tt_deltas.specs.Views.{data_view};

use std::marker::Model;
use tt_core::{Dir, Fault, Why, u16_at, u32_at};

const GVAR: [u8; 4] = *b"gvar";

const HEADER_SIZE: usize = 20;

/// The variations of a font's glyphs. Clauses see the bytes of gvar and the number of axes.
#[derive(Drop)]
pub struct Gvar<'a> {
    table: &'a [u8],
    axes: usize,
}

impl<'a> Model for Gvar<'a> {
    ghost use Rattle.tt_deltas.specs.Gvar.{IsGvar};
    ghost use Rattle.tt_deltas.specs.Gvar as tables;

    ghost Value = { tables.Gvar };

    ghost view = { λ g. record { table = g.table.now; axes = g.axes } };

    ghost invariant = { λ g. IsGvar (record { table = g.table.now; axes = g.axes }) };
}

/// The bytes of a glyph's variations, and their offset in gvar.
#[derive(Clone, Copy)]
pub struct GlyphData<'a> {
    pub start: usize,
    pub bytes: &'a [u8],
}

fn shape(at: usize) -> Fault
    requires { at ≤ font_limit }
    ensures { result ≡ shape_fault at }
{
    Fault::new(GVAR, at as u32, Why::VariationShape)
}

/// Bytes of an offset.
fn offset_size(table: &[u8]) -> usize
    requires { header_size ≤ length table.now }
    ensures exact { result ≡ offset_size table.now }
    ensures bound { result ≤ 4 }
{
    if u16_at(table, 14).unwrap() % 2 == 1 {
        4
    } else {
        2
    }
}

/// The end of the offsets: one for each glyph, and one more.
fn offsets_end(table: &[u8]) -> usize
    requires { header_size ≤ length table.now }
    ensures { result ≡ offsets_end table.now }
{
    let glyphs = usize::from(u16_at(table, 12).unwrap());
    HEADER_SIZE + offset_size(table) * (glyphs + 1)
}

/// Bytes of the shared tuples.
fn shared_size(table: &[u8], axes: usize) -> usize
    requires header { header_size ≤ length table.now }
    requires axes { axes ≤ 64 }
    ensures exact { result ≡ shared_bytes table.now axes }
    ensures bound { result < 2 * 65536 * 64 }
{
    let tuples = usize::from(u16_at(table, 6).unwrap());
    2 * axes * tuples
}

/// The end of the shared tuples.
fn shared_end(table: &[u8], axes: usize) -> usize
    requires header { header_size ≤ length table.now }
    requires axes { axes ≤ 64 }
    ensures { result ≡ shared_end table.now axes }
{
    u32_at(table, 8).unwrap() as usize + shared_size(table, axes)
}

impl<'a> Gvar<'a> {
    /// Opens gvar of a font with so many axes. Errors: TableRange, NoTable; VariationShape for a header that is cut, of
    /// another version or for another number of axes, then for offsets or shared tuples that do not fit.
    pub fn open(dir: &Dir<'a>, axes: usize) -> Result<Gvar<'a>, Fault>
        requires { axes ≤ 64 }
        ensures exact { Gives (λ g. g) result (gvar_of dir.now axes) }
        ensures valid { IfOk result IsGvar }
        ensures axes { IfOk result (λ g. g.axes ≡ axes) }
        ensures sound { OnOk result (HasNo (IsDefectIn dir.now gvar_tag (IsShapeDefect axes))) }
        ensures fault { IfErr result (IsDefectIn dir.now gvar_tag (IsShapeDefect axes)) }
    {
        let table = dir.needed(GVAR)?;
        Gvar::of(table, axes)
    }

    #[tactic(auto, unfolding(crate::specs::Gvar::gvar_in))]
    fn of(table: &'a [u8], axes: usize) -> Result<Gvar<'a>, Fault>
        requires size { length table.now ≤ font_limit }
        requires axes { axes ≤ 64 }
        ensures exact { Gives (λ g. g) result (gvar_in table.now axes) }
        ensures valid { IfOk result IsGvar }
        ensures axes { IfOk result (λ g. g.axes ≡ axes) }
        ensures sound { OnOk result (HasNo (IsShapeDefect axes table.now)) }
        ensures fault { IfErr result (IsShapeDefect axes table.now) }
    {
        if table.len() < HEADER_SIZE {
            return Err(shape(table.len()));
        }
        if u32_at(table, 0).unwrap() != 0x0001_0000 {
            return Err(shape(0));
        }
        if usize::from(u16_at(table, 4).unwrap()) != axes {
            return Err(shape(4));
        }
        if table.len() < offsets_end(table) {
            return Err(shape(12));
        }
        if table.len() < shared_end(table, axes) {
            return Err(shape(8));
        }
        Ok(Gvar { table, axes })
    }

    /// A copy. The bytes are not copied.
    pub fn copy(&self) -> Gvar<'a>
        ensures { result ≡ self.now }
    {
        Gvar {
            table: self.table,
            axes: self.axes,
        }
    }

    /// The number of axes.
    pub(crate) fn axes(&self) -> usize
        ensures exact { result ≡ self.now.axes }
        ensures few { result ≤ 64 }
    {
        self.axes
    }

    /// How many glyphs have an entry.
    fn glyphs(&self) -> u16
        ensures { result ≡ glyph_count self.now.table }
    {
        u16_at(self.table, 12).unwrap()
    }

    /// The offset from entry `i`. A short entry has half the offset.
    fn offset(&self, i: usize) -> usize
        requires { i ≤ glyph_count self.now.table }
        ensures exact { result ≡ offset_at self.now.table i }
        ensures bound { result < 4294967296 }
    {
        if offset_size(self.table) == 4 {
            u32_at(self.table, HEADER_SIZE + 4 * i).unwrap() as usize
        } else {
            2 * usize::from(u16_at(self.table, HEADER_SIZE + 2 * i).unwrap())
        }
    }

    /// The shared tuples.
    pub fn shared(&self) -> &'a [u8]
        ensures exact { result.now ≡ shared_bytes_of self.now }
        ensures size { length result.now ≤ font_limit }
    {
        let start = u32_at(self.table, 8).unwrap() as usize;
        &self.table[start..start + shared_size(self.table, self.axes)]
    }

    /// The data of a glyph, or none if it has no entry, or the same offset as the next one. The data are cut at the end
    /// of gvar (profile). Error: GlyphVariation at the entry.
    #[tactic(auto, unfolding(crate::specs::Gvar::glyph_data_of))]
    pub fn data(&self, g: u16) -> Result<Option<GlyphData<'a>>, Fault>
        ensures exact { Gives data_view result (glyph_data_of self.now g) }
        ensures size { IfOk result (λ o. IfSome o (λ d. d.start + length d.bytes.now ≤ font_limit)) }
        ensures sound { OnOk result (HasNo (IsGlyphDefect self.now g)) }
        ensures fault { IfErr result (IsGlyphDefect self.now g) }
    {
        if g >= self.glyphs() {
            return Ok(None);
        }
        let i = usize::from(g);
        let first = self.offset(i);
        let next = self.offset(i + 1);
        if first == next {
            return Ok(None);
        }
        let base = u32_at(self.table, 16).unwrap() as usize;
        let start = base + first;
        if next < first || self.table.len() < start {
            let place = HEADER_SIZE + offset_size(self.table) * i;
            return Err(Fault::new(GVAR, place as u32, Why::GlyphVariation));
        }
        let end = (base + next).min(self.table.len());
        Ok(Some(GlyphData {
            start,
            bytes: &self.table[start..end],
        }))
    }
}
