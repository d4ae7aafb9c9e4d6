//! The maximum profile. Apple TrueType Reference Manual, "The 'maxp' table".

use crate::table::{Fields, test_length};
use tt_core::{Fault, Why, u16_at, u32_at};

pub(crate) const MAXP: [u8; 4] = *b"maxp";

#[derive(Clone, Copy)]
pub struct Maxp {
    pub glyphs: u16,
    /// Points of the twilight zone.
    pub twilight: u16,
    /// Places of the storage area.
    pub storage: u16,
}

impl Fields for Maxp {
    ghost use Rattle.std.specs.Prelude.{◌<◌};
    ghost use Rattle.tt_metrics.specs.Maxp.{maxp_in, IsBadMaxp};

    ghost fields_in = { maxp_in };

    ghost IsBad = { IsBadMaxp };

    ghost HasRanges = { λ maxp. 0 < maxp.glyphs };

    /// Errors: MetricsShort, MaxpVersion.
    #[tactic(auto, unfolding(crate::specs::Maxp::maxp_in))]
    fn read(maxp: &[u8]) -> Result<Maxp, Fault> {
        test_length(MAXP, 4, maxp)?;
        if u32_at(maxp, 0).unwrap() != 0x0001_0000 {
            return Err(Fault::new(MAXP, 0, Why::MaxpVersion));
        }
        test_length(MAXP, 32, maxp)?;
        let glyphs = u16_at(maxp, 4).unwrap();
        if glyphs == 0 {
            return Err(Fault::new(MAXP, 4, Why::MetricsShort));
        }
        Ok(Maxp {
            glyphs,
            twilight: u16_at(maxp, 16).unwrap(),
            storage: u16_at(maxp, 18).unwrap(),
        })
    }
}
