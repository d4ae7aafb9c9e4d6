//! The entries of loca. Apple TrueType Reference Manual, "The 'loca' table".

ghost use Rattle.std.specs.Prelude.{◌≡◌, ◌<◌, ◌≤◌, IfOk, IfErr, IsTrue, OnOk, length};
ghost use Rattle.tt_core.specs.Directory.{HasNo};
ghost use Rattle.tt_core.specs.Faults.{fault_at};
ghost use Rattle.tt_core.specs.Limits.{font_limit};
ghost use Rattle.tt_core.specs.Outcomes.{Gives};
ghost use Rattle.tt_glyf.specs.Loca.{IsLoca, IsLocaDefect, entry_at, entry_place, entry_size, loca_of, loca_tag, loca_with};

use std::marker::Model;
use tt_core::{Fault, Why, u16_at, u32_at};
use tt_metrics::{LocaFormat, Metrics};

const LOCA: [u8; 4] = *b"loca";

/// The offsets of glyphs in glyf. Clauses see the bytes of loca, their format and the number of glyphs.
#[derive(Drop)]
pub struct Loca<'a> {
    loca: &'a [u8],
    format: LocaFormat,
    glyphs: u16,
}

impl<'a> Model for Loca<'a> {
    ghost use Rattle.tt_glyf.specs.Loca.{IsLoca};
    ghost use Rattle.tt_glyf.specs.Loca as tables;

    ghost Value = { tables.Loca };

    ghost view = { λ l. record { loca = l.loca.now; format = l.format; glyphs = l.glyphs } };

    ghost invariant = { λ l. IsLoca (record { loca = l.loca.now; format = l.format; glyphs = l.glyphs }) };
}

impl<'a> Loca<'a> {
    /// Opens loca of the font with these metrics. Error: LocaShort.
    #[tactic(auto, unfolding(crate::specs::Loca::loca_of))]
    pub fn open(loca: &'a [u8], metrics: &Metrics) -> Result<Loca<'a>, Fault>
        requires { length loca.now ≤ font_limit }
        ensures exact { Gives (λ l. l) result (loca_of loca.now metrics.now) }
        ensures whole { IfOk result (λ l. l ≡ loca_with loca.now metrics.now) }
        ensures entries { IfOk result IsLoca }
        ensures sound { OnOk result (HasNo (IsLocaDefect loca.now metrics.now)) }
        ensures fault { IfErr result (IsLocaDefect loca.now metrics.now) }
    {
        let format = metrics.loca_format();
        let glyphs = metrics.glyphs();
        if loca.len() < entry_size(format) * (usize::from(glyphs) + 1) {
            return Err(Fault::new(LOCA, loca.len() as u32, Why::LocaShort));
        }
        Ok(Loca {
            loca,
            format,
            glyphs,
        })
    }

    pub(crate) fn glyphs(&self) -> u16
        ensures { result ≡ self.now.glyphs }
    {
        self.glyphs
    }

    /// The offset in glyf from entry `i`. A short entry has half the offset.
    pub(crate) fn offset(&self, i: usize) -> u32
        requires { i ≤ self.now.glyphs }
        ensures { result ≡ entry_at self.now.format self.now.loca i }
    {
        match self.format {
            LocaFormat::Short => 2 * u32::from(u16_at(self.loca, 2 * i).unwrap()),
            LocaFormat::Long => u32_at(self.loca, 4 * i).unwrap(),
        }
    }

    /// A fault at the entry of a glyph.
    pub(crate) fn fault(&self, g: u16, why: Why) -> Fault
        ensures { result ≡ fault_at loca_tag (entry_place self.now.format g) why }
    {
        let place = entry_size(self.format) * usize::from(g);
        Fault::new(LOCA, place as u32, why)
    }
}

/// Bytes of an entry.
fn entry_size(format: LocaFormat) -> usize
    ensures exact { result ≡ entry_size format }
    ensures bound { result ≤ 4 }
{
    match format {
        LocaFormat::Short => 2,
        LocaFormat::Long => 4,
    }
}
