//! Rounding by the round state. Apple TrueType Reference Manual, "Graphics State" (round state) and "Instruction Set"
//! (RTG, RTHG, RTDG, RDTG, RUTG, ROFF, SROUND, S45ROUND).

ghost use Rattle.std.specs.Prelude.{◌≡◌, ◌+◌, ◌^◌, ◌<◌, ◌≤◌, pos, ◌+ℤ◌, ◌<ℤ◌, ◌≤ℤ◌, unsigned_abs};
ghost use Rattle.tt_state.specs.Rounding.{super_state, super_state_at_45, rounded_magnitude, rounded};

use crate::magnitude::Magnitude;
use crate::sround::{GridPeriod, Super, cut};

/// The round state: how instructions round.
#[derive(Clone, Copy, Debug, PartialEq, Eq)]
pub enum Round {
    /// RTG: to the nearest whole pixel.
    Grid,
    /// RTHG: to the nearest half between two whole pixels.
    Half,
    /// RTDG: to the nearest half of a pixel.
    Double,
    /// RDTG: down to a whole pixel.
    Down,
    /// RUTG: up to a whole pixel.
    Up,
    /// ROFF: not at all.
    Off,
    /// SROUND and S45ROUND: by a period, a phase and a threshold.
    Super(Super),
}

impl Round {
    /// The state set by SROUND, from the low byte of the popped value.
    pub fn from_byte(byte: u8) -> Round
        ensures { result ≡ super_state byte }
    {
        Round::Super(Super::from_byte(GridPeriod::Pixel, byte))
    }

    /// The state set by S45ROUND, from the low byte of the popped value.
    pub fn from_byte_at_45(byte: u8) -> Round
        ensures { result ≡ super_state_at_45 byte }
    {
        Round::Super(Super::from_byte(GridPeriod::HalfDiagonal, byte))
    }

    /// A rounded magnitude.
    fn rounded_magnitude(&self, m: Magnitude) -> i64
        ensures exact { result ≡ rounded_magnitude self.now m.size }
        ensures low { pos 0 ≤ℤ result }
        ensures high { result ≤ℤ (m.size +ℤ pos 256) }
    {
        match self {
            Round::Grid => cut(m.size + 32, 64),
            Round::Half => cut(m.size, 64) + 32,
            Round::Double => cut(m.size + 16, 32),
            Round::Down => cut(m.size, 64),
            Round::Up => cut(m.size + 63, 64),
            Round::Off => m.size,
            Round::Super(state) => state.rounded(m),
        }
    }

    /// A rounded distance in 26.6 pixels: the rounded magnitude with the distance's sign.
    pub fn round(&self, v: i64) -> i64
        requires { unsigned_abs v < 2 ^ 40 }
        ensures exact { result ≡ rounded self.now v }
        ensures bound { unsigned_abs result ≤ unsigned_abs v + 256 }
    {
        if v < 0 {
            -self.rounded_magnitude(Magnitude { size: -v })
        } else {
            self.rounded_magnitude(Magnitude { size: v })
        }
    }
}
