//! From font units to 26.6 pixels. Apple TrueType Reference Manual, "Digitizing Letterform Designs".

ghost use Rattle.std.specs.Prelude.{◌≡◌, ◌*◌, ◌≤◌, unsigned_abs};
ghost use Rattle.tt_core.specs.Limits.{size_limit};
ghost use Rattle.tt_core.specs.Scales.{IsScale, control_value_scale, exact_scale, rounded_scale, scaled_by};

use crate::halves::{Halves, quotient};
use crate::number::rq;

/// A scale from font units to 26.6 pixels: `pixels` 64ths of a pixel for every `units` font units.
#[derive(Clone, Copy, Debug, PartialEq, Eq)]
pub struct Scale {
    pub pixels: u32,
    pub units: u32,
    pub halves: Halves,
}

impl Scale {
    /// The exact scale at `ppem` pixels per em of `em` font units, with halves upwards.
    pub fn exact(ppem: u32, em: u16) -> Scale
        requires size { ppem ≤ size_limit }
        requires units { 16 ≤ em }
        ensures exact { result ≡ exact_scale ppem em }
        ensures valid { IsScale result }
    {
        Scale {
            pixels: 64 * ppem,
            units: u32::from(em),
            halves: Halves::Up,
        }
    }

    /// A distance in font units, converted to 26.6 pixels.
    #[inline(always)]
    pub fn scaled(self, v: i32) -> i64
        requires { IsScale self }
        ensures exact { result ≡ scaled_by self v }
        ensures bound { unsigned_abs result ≤ 1200 * unsigned_abs v }
    {
        quotient(
            self.halves,
            i64::from(v) * i64::from(self.pixels),
            i64::from(self.units),
        )
    }

    /// The scale by the factor 64 `ppem` / `em` in 16.16, which is rounded once, with halves away from zero.
    pub fn rounded(ppem: u32, em: u16) -> Scale
        requires size { ppem ≤ size_limit }
        requires units { 16 ≤ em }
        ensures exact { result ≡ rounded_scale ppem em }
        ensures valid { IsScale result }
    {
        Scale {
            pixels: rq(i64::from(ppem) << 22, i64::from(em)) as u32,
            units: 65536,
            halves: Halves::AwayFromZero,
        }
    }

    /// The scale for control values at the start of a program: whole 64ths of that factor.
    pub fn of_control_values(ppem: u32, em: u16) -> Scale
        requires size { ppem ≤ size_limit }
        requires units { 16 ≤ em }
        ensures exact { result ≡ control_value_scale ppem em }
        ensures valid { IsScale result }
    {
        let scale = Scale::rounded(ppem, em);
        Scale {
            pixels: scale.pixels / 64,
            units: 1024,
            ..scale
        }
    }
}
