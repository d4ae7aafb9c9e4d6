//! Periods of SROUND and S45ROUND in 2.14 pixels.

ghost use Rattle.std.specs.Prelude.{◌≤◌};

/// A period in 2.14 pixels: half a grid period, one or two.
#[derive(Clone, Copy)]
pub(crate) struct FinePeriod {
    pub(crate) length: u32,
    ghost low: { 5792 ≤ length },
    ghost high: { length ≤ 32768 },
}
