//! The size of a machine's runs.

ghost use Rattle.std.specs.Prelude.{◌≡◌, ◌<◌, ◌≤◌, ◌^◌, ◌*◌, IfErr, IfOk, unsigned_abs};
ghost use Rattle.tt_core.specs.Limits.{size_limit};
ghost use Rattle.tt_core.specs.Scales.{IsScale};
ghost use Rattle.tt_core.specs.Outcomes.{Gives};
ghost use Rattle.tt_core.specs.declared.fault.Why.TheVariants as is;
ghost use Rattle.tt_exec_state.specs.Size.{in_pixels};

use tt_core::{Scale, Why};

/// Pixels per em, and the scale from font units to 26.6 pixels.
#[derive(Clone, Copy)]
pub struct Size {
    pub ppem: u32,
    pub scale: Scale,
    pub ghost few: { ppem ≤ size_limit },
    pub ghost valid: { IsScale scale },
}

impl Size {
    pub fn new(ppem: u32, scale: Scale) -> Size
        requires few { ppem ≤ size_limit }
        requires scale { IsScale scale }
        ensures ppem { result.ppem ≡ ppem }
        ensures scale { result.scale ≡ scale }
    {
        Size { ppem, scale }
    }

    /// Font units as 26.6 pixels. Error: ValueRange outside 32 bits.
    pub(crate) fn in_pixels(self, units: i32) -> Result<i32, Why>
        ensures exact { Gives (λ v. v) result (in_pixels self.scale units) }
        ensures fault { IfErr result (λ why. why ≡ is.ValueRange) }
    {
        i32::try_from(self.scale.scaled(units)).map_err(|_| Why::ValueRange)
    }
}
