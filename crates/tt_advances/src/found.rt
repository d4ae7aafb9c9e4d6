//! The advances of some glyphs, each found once. OpenType, "gvar" (phantom points).

ghost use Rattle.std.specs.Prelude.{◌≡◌, ◌<◌, ◌^◌, true, map, All, IfOk, OnOk};
ghost use Rattle.tt_advances.specs.Defects.{IsAdvanceDefect};
ghost use Rattle.tt_advances.specs.Found.{advances_tested, all_found, glyph_units, or_zero, units_of};
ghost use Rattle.tt_core.specs.Directory.{HasNo};
ghost use Rattle.tt_core.specs.Outcomes.{FontGives, IfTold, font_fault};
ghost use Rattle.tt_face.specs.Defects.{IsGlyphTableDefect};
ghost use Rattle.tt_face.specs.Faces.{finds_advances, glyphs_in};
ghost use Rattle.tt_metrics.specs.Metrics.{glyphs_of};

use crate::units::glyph_units;
use std::alloc::Global;
use std::marker::Model;
use tt_core::FontFault;
use tt_face::Face;
use tt_glyf::Glyf;

/// The advances of a face at its instance, by the data of its glyphs. Each glyph is read once. Clauses see the face and
/// its glyph data.
#[derive(Drop)]
pub struct FoundAdvances<'f, 'a> {
    alloc: Global,
    face: &'f Face<'a>,
    glyf: Glyf<'a>,
    /// For each glyph of the font 0, or one more than its advance in font units.
    known: Vec<u32>,
}

impl<'f, 'a> Model for FoundAdvances<'f, 'a> {
    ghost use Rattle.std.specs.Prelude.{◌≡◌, length};
    ghost use Rattle.tt_face.specs.Faces.{glyphs_in};
    ghost use Rattle.tt_metrics.specs.Metrics.{glyphs_of};
    ghost use Rattle.tt_advances.specs.Views.{AreFound, Finder};

    ghost Value = { Finder };

    ghost view = { λ f. record { face = f.face.now; tables = f.glyf } };

    ghost invariant = { λ f. (f.glyf.glyphs ≡ glyphs_of f.face.now.metrics) × (length f.known.items ≡ f.glyf.glyphs)
        × AreFound (record { face = f.face.now; tables = f.glyf }) f.known.items };
}

impl<'f, 'a> FoundAdvances<'f, 'a> {
    /// No advance is found so far. Errors: those of loca and glyf, Memory.
    pub fn open(alloc: Global, face: &'f Face<'a>) -> Result<FoundAdvances<'f, 'a>, FontFault>
        ensures tables { FontGives (λ f. f.tables) result (glyphs_in face.now) }
        ensures face { IfOk result (λ f. f.face ≡ face.now) }
        ensures fault { IfTold font_fault result (IsGlyphTableDefect face.now) }
    {
        let glyf = face.glyf()?;
        let known = vec![in alloc; 0u32; usize::from(face.metrics().glyphs())]?;
        Ok(FoundAdvances {
            alloc,
            face,
            glyf,
            known,
        })
    }

    /// The advance of a glyph in font units. Errors: those of reading the glyph, GlyphVariation, Memory.
    pub fn units(&mut self, glyph: u16) -> Result<u16, FontFault>
        requires { glyph < glyphs_of self.old.face.metrics }
        ensures exact { FontGives (λ n. n) result (glyph_units self.old.face.instance self.old.face.metrics self.old.tables glyph) }
        ensures same { self.new ≡ self.old }
    {
        let place = usize::from(glyph);
        let kept = self.known[place];
        if kept == 0 {
            let units = glyph_units(self.alloc, self.face, &self.glyf, glyph)?;
            self.known[place] = u32::from(units) + 1;
            return Ok(units);
        }
        Ok((kept - 1) as u16)
    }

    /// Puts its advance in font units beside each glyph of a line. Errors, of the first glyph that has one: those of
    /// reading the glyph, GlyphVariation; Memory.
    pub fn put(&mut self, line: &mut [(u16, u32)]) -> Result<(), FontFault>
        requires { All (λ g. g.0 < glyphs_of self.old.face.metrics) line.old }
        ensures exact { FontGives (λ u. u) result (all_found (glyph_units self.old.face.instance self.old.face.metrics self.old.tables) (map (λ g. g.0) line.old)) }
        ensures units { OnOk result (line.new ≡ map (λ g. (g, or_zero (glyph_units self.old.face.instance self.old.face.metrics self.old.tables g))) (map (λ g. g.0) line.old)) }
        ensures bound { OnOk result (All (λ g. g.1 < 2 ^ 16) line.new) }
        ensures same { self.new ≡ self.old }
    {
        for i in 0..line.len() {
            let units = self.units(line[i].0)?;
            line[i].1 = u32::from(units);
        }
        Ok(())
    }
}

/// Puts its advance in font units beside each glyph of a line, at an instance without HVAR. Errors: those of loca and
/// glyf; of the first glyph that has one: those of reading the glyph, GlyphVariation; Memory.
#[tactic(auto, unfolding(crate::specs::Found::advances_tested))]
pub fn find_units(alloc: Global, face: &Face, line: &mut [(u16, u32)]) -> Result<(), FontFault>
    requires known { All (λ g. g.0 < glyphs_of face.now.metrics) line.old }
    requires finds { finds_advances face.now ≡ true }
    ensures exact { FontGives (λ u. u) result (advances_tested face.now (map (λ g. g.0) line.old)) }
    ensures units { OnOk result (line.new ≡ map (λ g. (g, units_of face.now g)) (map (λ g. g.0) line.old)) }
    ensures bound { OnOk result (All (λ g. g.1 < 2 ^ 16) line.new) }
    ensures sound { OnOk result (HasNo (IsAdvanceDefect face.now (map (λ g. g.0) line.old))) }
    ensures fault { IfTold font_fault result (IsAdvanceDefect face.now (map (λ g. g.0) line.old)) }
{
    let mut found = FoundAdvances::open(alloc, face)?;
    found.put(line)
}
