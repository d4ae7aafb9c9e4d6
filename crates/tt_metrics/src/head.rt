//! The font header. Apple TrueType Reference Manual, "The 'head' table".

use crate::table::{Fields, test_length};
use tt_core::{Fault, Why, u16_at, u32_at};

pub(crate) const HEAD: [u8; 4] = *b"head";

/// The smallest unitsPerEm.
const SMALLEST_EM: u16 = 16;

/// The largest unitsPerEm.
const LARGEST_EM: u16 = 16_384;

/// The format of loca's offsets.
#[derive(Clone, Copy, Debug, PartialEq, Eq)]
pub enum LocaFormat {
    /// Half the offset, as a u16.
    Short,
    /// The offset, as a u32.
    Long,
}

#[derive(Clone, Copy)]
pub struct Head {
    /// Font units in an em.
    pub units_per_em: u16,
    pub loca_format: LocaFormat,
}

impl Fields for Head {
    ghost use Rattle.std.specs.Prelude.{◌≤◌};
    ghost use Rattle.tt_metrics.specs.Head.{head_in, IsBadHead, smallest_em, largest_em};

    ghost fields_in = { head_in };

    ghost IsBad = { IsBadHead };

    ghost HasRanges = { λ head. (smallest_em ≤ head.units_per_em) × (head.units_per_em ≤ largest_em) };

    /// Errors: MetricsShort, HeadMagic, EmRange, LocaFormat.
    #[tactic(auto, unfolding(crate::specs::Head::head_in))]
    fn read(head: &[u8]) -> Result<Head, Fault> {
        test_length(HEAD, 54, head)?;
        if u32_at(head, 12).unwrap() != 0x5F0F_3CF5 {
            return Err(Fault::new(HEAD, 12, Why::HeadMagic));
        }
        let units_per_em = u16_at(head, 18).unwrap();
        if !(SMALLEST_EM..=LARGEST_EM).contains(&units_per_em) {
            return Err(Fault::new(HEAD, 18, Why::EmRange));
        }
        let loca_format = match u16_at(head, 50).unwrap() {
            0 => LocaFormat::Short,
            1 => LocaFormat::Long,
            _ => return Err(Fault::new(HEAD, 50, Why::LocaFormat)),
        };
        Ok(Head {
            units_per_em,
            loca_format,
        })
    }
}
