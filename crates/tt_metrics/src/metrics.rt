//! The four tables together.

ghost use Rattle.std.specs.Prelude.{◌≡◌, ◌^◌, ◌<◌, ◌≤◌, is_some, IsTrue, IfOk, IfErr, OnOk, unsigned_abs};
ghost use Rattle.tt_core.specs.Directory.{HasNo};
ghost use Rattle.tt_core.specs.Outcomes.{Gives};
ghost use Rattle.tt_metrics.specs.Head.{smallest_em, largest_em};
ghost use Rattle.tt_metrics.specs.Metrics.{metrics_of, units_per_em_of, loca_format_of, glyphs_of, twilight_of, storage_of, ascent_of, descent_of, line_gap_of, advance_of, left_side_bearing_of, kerning_of, varied_metrics, IsInRange, IsMetricsDefect};
ghost use Rattle.tt_metrics.specs.Hmtx.{advance_in};
ghost use Rattle.tt_metrics.specs.Varied.{advances_by};

use crate::advances::VariedAdvances;
use crate::head::{HEAD, Head, LocaFormat};
use crate::heights::Heights;
use crate::hhea::{HHEA, Hhea};
use crate::maxp::{MAXP, Maxp};
use crate::table::{Fields, test_length};
use std::marker::Model;
use tt_axes::InstanceCoordinates;
use tt_core::{Dir, Fault, i16_at, u16_at};
use tt_kern::Kerning;
use tt_variation_store::{Hvar, Mvar};

const HMTX: [u8; 4] = *b"hmtx";

/// The fields of head, maxp and hhea, and the bytes of hmtx; how heights are rounded, and the tables of the kerning where
/// pairs are kerned; and how an instance's advances vary, if HVAR says so. Clauses see all of these.
#[derive(Drop)]
pub struct Metrics<'a> {
    head: Head,
    maxp: Maxp,
    hhea: Hhea,
    hmtx: &'a [u8],
    heights: Heights,
    kerning: Option<Kerning<'a>>,
    advances: Option<VariedAdvances<'a>>,
}

impl<'a> Model for Metrics<'a> {
    ghost use Rattle.std.specs.Prelude.{◌<◌, ◌≤◌, ◌*◌, length};
    ghost use Rattle.tt_metrics.specs.Metrics.{IsInRange};
    ghost use Rattle.tt_metrics.specs.Metrics as metrics;

    ghost Value = { metrics.Metrics };

    ghost view = { λ m. record { head = m.head; maxp = m.maxp; hhea = m.hhea; hmtx = m.hmtx.now; heights = m.heights; kerning = m.kerning; advances = m.advances } };

    ghost invariant = { λ m. IsInRange (record { head = m.head; maxp = m.maxp; hhea = m.hhea; hmtx = m.hmtx.now; heights = m.heights; kerning = m.kerning; advances = m.advances }) };
}

fn copied<'a>(kerning: &Option<Kerning<'a>>) -> Option<Kerning<'a>>
    ensures { result ≡ kerning.now }
{
    match kerning {
        Some(kerning) => Some(kerning.copy()),
        None => None,
    }
}

fn copied_advances<'a>(advances: &Option<VariedAdvances<'a>>) -> Option<VariedAdvances<'a>>
    ensures { result ≡ advances.now }
{
    match advances {
        Some(advances) => Some(advances.copy()),
        None => None,
    }
}

fn advances_by<'a>(
    hvar: Option<Hvar<'a>>,
    coordinates: &InstanceCoordinates,
) -> Option<VariedAdvances<'a>>
    ensures { result ≡ advances_by hvar.entry coordinates.now }
{
    match hvar {
        Some(hvar) => Some(VariedAdvances::new(hvar, coordinates)),
        None => None,
    }
}

impl<'a> Metrics<'a> {
    /// Reads head, maxp, hhea and hmtx, in this order. Heights are exact, and no pair is kerned. Errors: NoTable, TableRange, those of each table.
    #[tactic(auto, unfolding(crate::specs::Metrics::metrics_of, crate::specs::Head::head_of, crate::specs::Maxp::maxp_of, crate::specs::Hhea::hhea_of, crate::specs::Hmtx::hmtx_of))]
    pub fn open(dir: &Dir<'a>) -> Result<Metrics<'a>, Fault>
        ensures exact { Gives (λ m. m) result (metrics_of dir.now) }
        ensures ranges { IfOk result IsInRange }
        ensures sound { OnOk result (HasNo (IsMetricsDefect dir.now)) }
        ensures fault { IfErr result (IsMetricsDefect dir.now) }
    {
        let head = Head::read(dir.needed(HEAD)?)?;
        let maxp = Maxp::read(dir.needed(MAXP)?)?;
        let hhea = Hhea::read(dir.needed(HHEA)?)?;
        let hmtx = dir.needed(HMTX)?;
        test_length(HMTX, 4 * usize::from(hhea.long_metrics), hmtx)?;
        Ok(Metrics {
            head,
            maxp,
            hhea,
            hmtx,
            heights: Heights::Exact,
            kerning: None,
            advances: None,
        })
    }

    /// Rounds heights like this from now on.
    pub fn set_heights(&mut self, heights: Heights)
        ensures { self.new ≡ record self.old { heights = heights } }
    {
        self.heights = heights;
    }

    /// Kerns neighbouring glyphs by these tables from now on, or kerns none.
    pub fn set_kerning(&mut self, kerning: Option<Kerning<'a>>)
        ensures { self.new ≡ record self.old { kerning = kerning.entry } }
    {
        self.kerning = kerning;
    }

    /// Has the heights and the advances of an instance from now on, where MVAR and HVAR are there. Heights are moved here,
    /// so that the instance is given once.
    pub fn set_instance(
        &mut self,
        mvar: &Option<Mvar<'a>>,
        hvar: Option<Hvar<'a>>,
        coordinates: &InstanceCoordinates,
    )
        ensures { self.new ≡ varied_metrics mvar.now hvar.entry coordinates.now self.old }
    {
        self.hhea = self.hhea.moved_by(mvar, coordinates);
        self.advances = advances_by(hvar, coordinates);
    }

    /// Whether HVAR gives the advances of an instance.
    pub fn has_varied_advances(&self) -> bool
        ensures { result ≡ is_some self.now.advances }
    {
        self.advances.is_some()
    }

    /// A copy of the metrics. The tables' bytes are not copied.
    pub fn copy(&self) -> Metrics<'a>
        ensures { result ≡ self.now }
    {
        Metrics {
            head: self.head,
            maxp: self.maxp,
            hhea: self.hhea,
            hmtx: self.hmtx,
            heights: self.heights,
            kerning: copied(&self.kerning),
            advances: copied_advances(&self.advances),
        }
    }

    /// Font units in an em.
    pub fn units_per_em(&self) -> u16
        ensures exact { result ≡ units_per_em_of self.now }
        ensures low { smallest_em ≤ result }
        ensures high { result ≤ largest_em }
    {
        self.head.units_per_em
    }

    /// The number of glyphs in the font.
    pub fn glyphs(&self) -> u16
        ensures exact { result ≡ glyphs_of self.now }
        ensures some { 0 < result }
    {
        self.maxp.glyphs
    }

    /// The ascent: font units above the base line.
    pub fn ascent(&self) -> i16
        ensures { result ≡ ascent_of self.now }
    {
        self.hhea.ascent
    }

    /// The descent: font units above the base line, so usually negative.
    pub fn descent(&self) -> i16
        ensures { result ≡ descent_of self.now }
    {
        self.hhea.descent
    }

    /// The line gap: font units between the descent of a line and the ascent of the next.
    pub fn line_gap(&self) -> i16
        ensures { result ≡ line_gap_of self.now }
    {
        self.hhea.line_gap
    }

    /// The format of loca's offsets.
    pub fn loca_format(&self) -> LocaFormat
        ensures { result ≡ loca_format_of self.now }
    {
        self.head.loca_format
    }

    /// Places of the storage area.
    pub fn storage(&self) -> u16
        ensures { result ≡ storage_of self.now }
    {
        self.maxp.storage
    }

    /// Points of the twilight zone.
    pub fn twilight(&self) -> u16
        ensures { result ≡ twilight_of self.now }
    {
        self.maxp.twilight
    }

    /// The advance of a glyph in hmtx, in font units.
    fn long_advance(&self, g: u16) -> u16
        ensures { result ≡ advance_in self.now.hmtx self.now.hhea.long_metrics g }
    {
        let last = self.hhea.long_metrics - 1;
        u16_at(self.hmtx, 4 * usize::from(g.min(last))).unwrap()
    }

    /// The advance of a glyph, in font units: that of hmtx, and at an instance by HVAR where HVAR is there.
    pub fn advance(&self, g: u16) -> u16
        requires { g < glyphs_of self.now }
        ensures { result ≡ advance_of self.now g }
    {
        let advance = self.long_advance(g);
        match &self.advances {
            Some(advances) => advances.advance(g, advance),
            None => advance,
        }
    }

    /// The left side bearing of a glyph, in font units.
    pub fn lsb(&self, g: u16) -> i16
        requires { g < glyphs_of self.now }
        ensures { result ≡ left_side_bearing_of self.now g }
    {
        let n = self.hhea.long_metrics;
        let place = if g < n {
            4 * usize::from(g) + 2
        } else {
            4 * usize::from(n) + 2 * usize::from(g - n)
        };
        i16_at(self.hmtx, place).unwrap_or(0)
    }

    /// How a line's ascent and descent are rounded.
    pub fn heights(&self) -> Heights
        ensures { result ≡ self.now.heights }
    {
        self.heights
    }

    /// Whether neighbouring glyphs are kerned.
    pub fn has_kerning(&self) -> bool
        ensures { result ≡ is_some self.now.kerning }
    {
        self.kerning.is_some()
    }

    /// The kerning of two neighbouring glyphs, in font units: 0 where pairs are not kerned.
    pub fn kerning(&self, left: u16, right: u16) -> i32
        ensures exact { result ≡ kerning_of self.now left right }
        ensures bound { unsigned_abs result ≤ 2 ^ 20 }
    {
        match &self.kerning {
            Some(kerning) => kerning.kerning(left, right),
            None => 0,
        }
    }
}
