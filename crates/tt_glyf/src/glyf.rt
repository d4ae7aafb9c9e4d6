//! The glyph data of a font. Apple TrueType Reference Manual and OpenType, "The 'glyf' table".

ghost use Rattle.std.specs.Prelude.{◌≡◌, ◌+◌, ◌-◌, ◌<◌, ◌≤◌, IsTrue, IfOk, All, IfErr, OnOk, length, false};
ghost use Rattle.tt_core.specs.Limits.{font_limit, point_limit};
ghost use Rattle.tt_core.specs.Directory.{HasNo};
ghost use Rattle.tt_core.specs.Outcomes.{Gives};
ghost use Rattle.tt_glyf.specs.Bytes.{stretch_at};
ghost use Rattle.tt_glyf.specs.GlyphData.{glyph_in, glyph_data_of};
ghost use Rattle.tt_glyf.specs.Loca.{glyph_tables_of, tables_with, with_glyf, glyph_offset, has_no_bytes, glyph_bytes_of, IsLocaDefect, IsRangeDefect, AreTables};
ghost use Rattle.tt_glyf.specs.Meaning.{IfSimple, IfComposite, HasArguments, HasProgram, AreEnds, AreRecords, IsAsWritten};
ghost use Rattle.tt_glyf.specs.Raw.{raw_view};
ghost use Rattle.tt_core.specs.Outcomes.{FontGives, IfTold, font_fault};
ghost use Rattle.tt_glyf.specs.Defects.{IsGlyphDefect};

use crate::bytes::GlyphBytes;
use crate::format::{HEADER_SIZE, NUMBER_OF_CONTOURS_OFFSET, X_MIN_OFFSET};
use crate::loca::Loca;
use crate::raw::Raw;
use std::alloc::Global;
use std::marker::Model;
use tt_core::{Fault, FontFault, Why};
use tt_metrics::Metrics;

/// The glyph data of a font. Clauses see the bytes of loca and glyf, loca's format and the number of glyphs.
#[derive(Drop)]
pub struct Glyf<'a> {
    loca: Loca<'a>,
    glyf: &'a [u8],
}

impl<'a> Model for Glyf<'a> {
    ghost use Rattle.std.specs.Prelude.{◌≤◌, length};
    ghost use Rattle.tt_core.specs.Limits.{font_limit};
    ghost use Rattle.tt_glyf.specs.Loca.{with_glyf};
    ghost use Rattle.tt_glyf.specs.Loca as tables;

    ghost Value = { tables.Glyf };

    ghost view = { λ t. with_glyf t.loca t.glyf.now };

    ghost invariant = { λ t. length t.glyf.now ≤ font_limit };
}

impl<'a> Glyf<'a> {
    /// Opens loca and glyf of the font with these metrics. Error: LocaShort. This call is for users that open both at
    /// once; tt_face opens loca first and then calls `of`.
    pub fn open(loca: &'a [u8], glyf: &'a [u8], metrics: &Metrics) -> Result<Glyf<'a>, Fault>
        requires loca { length loca.now ≤ font_limit }
        requires glyf { length glyf.now ≤ font_limit }
        ensures exact { Gives (λ t. t) result (glyph_tables_of loca.now glyf.now metrics.now) }
        ensures whole { IfOk result (λ t. t ≡ tables_with loca.now glyf.now metrics.now) }
        ensures tables { IfOk result AreTables }
        ensures sound { OnOk result (HasNo (IsLocaDefect loca.now metrics.now)) }
        ensures fault { IfErr result (IsLocaDefect loca.now metrics.now) }
    {
        let loca = Loca::open(loca, metrics)?;
        Ok(Glyf::of(loca, glyf))
    }

    /// A font's loca together with its glyf.
    pub fn of(loca: Loca<'a>, glyf: &'a [u8]) -> Glyf<'a>
        requires { length glyf.now ≤ font_limit }
        ensures { result ≡ with_glyf loca.entry glyf.now }
    {
        Glyf { loca, glyf }
    }

    /// The offset of a glyph in glyf, from loca.
    pub fn start(&self, g: u16) -> u32
        requires { g < self.now.glyphs }
        ensures { result ≡ glyph_offset self.now g }
    {
        self.loca.offset(usize::from(g))
    }

    /// The bytes of a glyph, none if loca's entries are equal. Error: GlyphRange.
    #[tactic(auto, unfolding(crate::specs::Loca::glyph_bytes_of))]
    pub fn bytes(&self, g: u16) -> Result<&'a [u8], Fault>
        requires { g < self.now.glyphs }
        ensures exact { Gives (λ b. b.now) result (glyph_bytes_of self.now g) }
        ensures size { IfOk result (λ b. length b.now ≤ font_limit) }
        ensures place { has_no_bytes self.now g ≡ false → IfOk result (λ b. glyph_offset self.now g + length b.now ≤ length self.now.glyf) }
        ensures limit { length self.now.glyf ≤ font_limit }
        ensures sound { OnOk result (HasNo (IsRangeDefect self.now g)) }
        ensures fault { IfErr result (IsRangeDefect self.now g) }
    {
        let start = self.loca.offset(usize::from(g)) as usize;
        let next = self.loca.offset(usize::from(g) + 1) as usize;
        if start == next {
            return Ok(&[]);
        }
        if next < start || self.glyf.len() < start {
            return Err(self.loca.fault(g, Why::GlyphRange));
        }
        Ok(&self.glyf[start..next.min(self.glyf.len())])
    }

    /// The data of a glyph as in the file. Errors: GlyphRange, those of a simple glyph or of a composite, Memory. Apart
    /// from `read_whole` (for the prover): the other clauses follow from what `read_whole` gives.
    pub fn read(&self, alloc: Global, g: u16) -> Result<Raw<'a>, FontFault>
        requires { g < self.now.glyphs }
        ensures exact { FontGives raw_view result (glyph_data_of self.now g) }
        // On Ok the glyph has no defect; a fault names a defect that exists.
        ensures sound { OnOk result (HasNo (IsGlyphDefect self.now g)) }
        ensures fault { IfTold font_fault result (IsGlyphDefect self.now g) }
        // The words, points and component records are as written. Without an outline there are no bytes or no contours.
        ensures written { IfOk result (λ r. IsAsWritten self.now g (raw_view r)) }
        // A simple glyph has at most 16,384 points, and its contours end in order at the last one.
        ensures few { IfOk result (λ r. IfSimple (raw_view r) (λ s. length s.points ≤ point_limit)) }
        ensures ends { IfOk result (λ r. IfSimple (raw_view r) (λ s. AreEnds (length s.points) s.ends)) }
        // Each record of a composite glyph names a glyph of the font and has arguments within their ranges.
        ensures records { IfOk result (λ r. IfComposite (raw_view r) (λ c. AreRecords self.now.glyphs c.records)) }
        ensures arguments { IfOk result (λ r. IfComposite (raw_view r) (λ c. All HasArguments c.records)) }
        // The program is the bytes of glyf at its offset.
        ensures program { IfOk result (λ r. HasProgram self.now.glyf (raw_view r)) }
        ensures limit { length self.now.glyf ≤ font_limit }
    {
        self.read_whole(alloc, g)
    }

    #[tactic(auto, unfolding(crate::specs::GlyphData::glyph_data_of))]
    fn read_whole(&self, alloc: Global, g: u16) -> Result<Raw<'a>, FontFault>
        requires { g < self.now.glyphs }
        ensures exact { FontGives raw_view result (glyph_data_of self.now g) }
        ensures arguments { IfOk result (λ r. IfComposite (raw_view r) (λ c. All HasArguments c.records)) }
        ensures limit { length self.now.glyf ≤ font_limit }
    {
        if self.loca.offset(usize::from(g)) == self.loca.offset(usize::from(g) + 1) {
            return Ok(Raw::Empty);
        }
        let bytes = self.bytes(g)?;
        let glyph = GlyphBytes::new(alloc, self.start(g) as usize, bytes);
        read_glyph(&glyph, self.loca.glyphs())
    }
}

/// The glyph that bytes of glyf describe.
#[tactic(auto, unfolding(crate::specs::GlyphData::header_of, crate::specs::GlyphData::described))]
fn read_glyph<'a>(glyph: &GlyphBytes<'a>, glyphs: u16) -> Result<Raw<'a>, FontFault>
    ensures exact { FontGives raw_view result (glyph_in glyphs glyph.now) }
    ensures arguments { IfOk result (λ r. IfComposite (raw_view r) (λ c. All HasArguments c.records)) }
{
    if glyph.len() < HEADER_SIZE {
        return Err(FontFault::Font(glyph.short()));
    }
    let contours = glyph.signed(NUMBER_OF_CONTOURS_OFFSET)?;
    let x_min = glyph.signed(X_MIN_OFFSET)?;
    if contours < 0 {
        return glyph.read_composite(x_min, glyphs);
    }
    if contours == 0 {
        return Ok(Raw::Empty);
    }
    glyph.read_simple(x_min, usize::from(contours.unsigned_abs()))
}
