//! The states of SROUND and S45ROUND. Apple TrueType Reference Manual, "Instruction Set" (SROUND, S45ROUND).

ghost use Rattle.std.specs.Prelude.{◌≡◌, ◌+◌, ◌*◌, ◌^◌, ◌<◌, ◌≤◌, pos, ◌+ℤ◌, ◌-ℤ◌, ◌*ℤ◌, ◌<ℤ◌, ◌≤ℤ◌, unsigned_abs};
ghost use Rattle.tt_state.specs.Sround.{a_pixel, half_a_diagonal, length_of, cut_to, fine_period_of, period_of, phase_of, threshold_of, super_of, rounded_by};

use crate::fine_period::FinePeriod;
use crate::magnitude::Magnitude;
use std::marker::Model;

/// The distance between the grid lines of SROUND and S45ROUND.
#[derive(Clone, Copy)]
pub(crate) enum GridPeriod {
    /// SROUND's: one pixel.
    Pixel,
    /// S45ROUND's: half the diagonal of a pixel, for distances at 45 degrees to the axes.
    HalfDiagonal,
}

impl GridPeriod {
    /// The distance in 2.14 pixels. Half the root of 2 is cut (profile).
    fn length(self) -> u32
        ensures exact { result ≡ length_of self }
        ensures low { half_a_diagonal ≤ result }
        ensures high { result ≤ a_pixel }
    {
        match self {
            GridPeriod::Pixel => 16384,
            GridPeriod::HalfDiagonal => 11585,
        }
    }
}

/// The round state of SROUND and S45ROUND, in 26.6 pixels. `period` is the distance between rounded magnitudes, and
/// `phase` is the least of them. `threshold` is added to a magnitude before it is cut. A state comes from a byte and
/// one of two grids, so its period is 22 to 128.
#[derive(Clone, Copy, Debug, PartialEq, Eq)]
pub struct Super {
    period: u32,
    phase: u32,
    threshold: i32,
}

impl Model for Super {
    ghost use Rattle.tt_state.specs.Sround as sround;

    ghost Value = { sround.Super };

    ghost view = { λ s. record { period = s.period; phase = s.phase; threshold = s.threshold } };

    ghost invariant = { λ s. sround.IsSuper s.period s.phase s.threshold };

    ghost inverse = { λ s. record { period = s.period; phase = s.phase; threshold = s.threshold } };
}

/// The greatest multiple of `k` that is at most `n`.
pub(crate) fn cut(n: i64, k: u32) -> i64
    requires positive { 0 < k }
    requires small { unsigned_abs n < 2 ^ 42 }
    ensures exact { result ≡ cut_to k n }
    ensures below { result ≤ℤ n }
    ensures near { n <ℤ (result +ℤ pos k) }
{
    n - n.rem_euclid(i64::from(k))
}

/// The period in 2.14 pixels, from bits 7 and 6 of the byte. The fourth code, reserved in the standard, counts as the
/// second (profile).
fn fine_period_of(grid: GridPeriod, byte: u8) -> FinePeriod
    ensures { result.length ≡ fine_period_of (length_of grid) byte }
{
    let grid = grid.length();
    if byte / 64 == 0 {
        return FinePeriod { length: grid / 2 };
    }
    if byte / 64 == 2 {
        return FinePeriod { length: 2 * grid };
    }
    FinePeriod { length: grid }
}

/// The phase, from bits 5 and 4: quarters of the period.
fn phase_of(fine: FinePeriod, byte: u8) -> u32
    ensures exact { result ≡ phase_of fine.length byte }
    ensures within { result < period_of fine.length }
{
    fine.length * (u32::from(byte) / 16 % 4) / 4 / 256
}

/// `n - 4` times a period.
fn eighths(fine: FinePeriod, n: u8) -> i32
    requires { n < 16 }
    ensures exact { result ≡ pos fine.length *ℤ (pos n -ℤ pos 4) }
    ensures low { pos 0 ≤ℤ (result +ℤ pos (4 * fine.length)) }
    ensures high { result ≤ℤ pos (12 * fine.length) }
{
    fine.length as i32 * (i32::from(n) - 4)
}

/// The threshold, from bits 3 to 0. For 0 it is the period less one. For any other n it is n - 4 eighths of the
/// period, rounded down.
fn threshold_of(fine: FinePeriod, byte: u8) -> i32
    ensures exact { result ≡ threshold_of fine.length byte }
    ensures low { pos 0 ≤ℤ (result +ℤ pos (period_of fine.length)) }
    ensures high { result ≤ℤ pos (2 * period_of fine.length) }
{
    let n = byte % 16;
    if n == 0 {
        (fine.length / 256) as i32 - 1
    } else {
        eighths(fine, n).div_euclid(2048)
    }
}

impl Super {
    /// The state set by a byte on a grid. SROUND and S45ROUND use the low byte of the popped value.
    pub(crate) fn from_byte(grid: GridPeriod, byte: u8) -> Super
        ensures { result ≡ super_of (length_of grid) byte }
    {
        let fine = fine_period_of(grid, byte);
        Super {
            period: fine.length / 256,
            phase: phase_of(fine, byte),
            threshold: threshold_of(fine, byte),
        }
    }

    /// A magnitude before it is cut.
    fn lifted(&self, m: Magnitude) -> i64
        ensures exact { result ≡ (m.size -ℤ pos self.now.phase) +ℤ self.now.threshold }
        ensures low { pos 0 ≤ℤ (result +ℤ pos 256) }
        ensures high { (result +ℤ pos self.now.phase) ≤ℤ (m.size +ℤ pos 256) }
    {
        m.size - i64::from(self.phase) + i64::from(self.threshold)
    }

    /// A rounded magnitude, or the phase if the result would be below 0.
    pub(crate) fn rounded(&self, m: Magnitude) -> i64
        ensures exact { result ≡ rounded_by self.now m.size }
        ensures low { pos 0 ≤ℤ result }
        ensures high { result ≤ℤ (m.size +ℤ pos 256) }
    {
        let phase = i64::from(self.phase);
        let rounded = cut(self.lifted(m), self.period) + phase;
        if rounded < 0 { phase } else { rounded }
    }

    /// The distance between rounded magnitudes, in 26.6 pixels. Only tests call this, `phase` and `threshold`.
    pub fn period(&self) -> u32
        ensures { result ≡ self.now.period }
    {
        self.period
    }

    /// The least rounded magnitude, in 26.6 pixels.
    pub fn phase(&self) -> u32
        ensures { result ≡ self.now.phase }
    {
        self.phase
    }

    /// The number added to a magnitude before it is cut, in 26.6 pixels.
    pub fn threshold(&self) -> i32
        ensures { result ≡ self.now.threshold }
    {
        self.threshold
    }
}
