//! The horizontal header. Apple TrueType Reference Manual, "The 'hhea' table".

use crate::table::{Fields, test_length};
use tt_axes::InstanceCoordinates;
use tt_core::{Fault, Why, i16_at, u16_at};
use tt_variation_store::{Height, Mvar};

pub(crate) const HHEA: [u8; 4] = *b"hhea";

#[derive(Clone, Copy)]
pub struct Hhea {
    /// Font units above the base line.
    pub ascent: i16,
    /// Font units above the base line, so usually negative.
    pub descent: i16,
    /// Font units between the descent of a line and the ascent of the next.
    pub line_gap: i16,
    /// The number of pairs at the start of hmtx.
    pub long_metrics: u16,
}

impl Fields for Hhea {
    ghost use Rattle.std.specs.Prelude.{◌<◌};
    ghost use Rattle.tt_metrics.specs.Hhea.{hhea_in, IsBadHhea};

    ghost fields_in = { hhea_in };

    ghost IsBad = { IsBadHhea };

    ghost HasRanges = { λ hhea. 0 < hhea.long_metrics };

    /// Error: MetricsShort.
    #[tactic(auto, unfolding(crate::specs::Hhea::hhea_in))]
    fn read(hhea: &[u8]) -> Result<Hhea, Fault> {
        test_length(HHEA, 36, hhea)?;
        let long_metrics = u16_at(hhea, 34).unwrap();
        if long_metrics == 0 {
            return Err(Fault::new(HHEA, 34, Why::MetricsShort));
        }
        Ok(Hhea {
            ascent: i16_at(hhea, 4).unwrap(),
            descent: i16_at(hhea, 6).unwrap(),
            line_gap: i16_at(hhea, 8).unwrap(),
            long_metrics,
        })
    }
}

impl Hhea {
    ghost use Rattle.std.specs.Prelude.{◌≡◌};
    ghost use Rattle.tt_metrics.specs.Varied.{hhea_by, moved_hhea};

    /// The same with the heights of an instance.
    fn moved(self, mvar: &Mvar, coordinates: &InstanceCoordinates) -> Hhea
        ensures { result ≡ moved_hhea mvar.now coordinates.now self }
    {
        Hhea {
            ascent: mvar.height(Height::Ascent, self.ascent, coordinates),
            descent: mvar.height(Height::Descent, self.descent, coordinates),
            line_gap: mvar.height(Height::LineGap, self.line_gap, coordinates),
            long_metrics: self.long_metrics,
        }
    }

    /// The same with the heights of an instance, where MVAR is there.
    pub(crate) fn moved_by(self, mvar: &Option<Mvar>, coordinates: &InstanceCoordinates) -> Hhea
        ensures exact { result ≡ hhea_by mvar.now coordinates.now self }
        ensures kept { result.long_metrics ≡ self.long_metrics }
    {
        match mvar {
            Some(mvar) => self.moved(mvar, coordinates),
            None => self,
        }
    }
}
