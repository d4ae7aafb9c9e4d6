//! The size of outlines.

ghost use Rattle.std.specs.Prelude.{◌≡◌, ◌<◌, ◌≤◌, ◌*◌, ◌*ℤ◌, ◌^◌, pos, unsigned_abs, IfSome};
ghost use Rattle.tt_core.specs.Limits.{coordinate_limit, size_limit};
ghost use Rattle.tt_core.specs.Numbers.{nearest_quotient};
ghost use Rattle.tt_core.specs.Scales.{IsScale, quotient, scaled_by};
ghost use Rattle.tt_fit_outline.specs.Outline.{IsCoordinate};

use crate::rules::Scaling;
use tt_core::{COORDINATE_LIMIT, Halves, Scale};
use tt_metrics::Metrics;

/// Pixels per em, and the scales from font units to 26.6 pixels.
#[derive(Clone, Copy)]
pub struct FontSize {
    pub ppem: u32,
    /// The scale of points, phantom points and offsets, and of distances in programs.
    pub scale: Scale,
    /// The scale of control values at the start of a program.
    pub control_values: Scale,
    pub ghost limit: { ppem ≤ size_limit },
    pub ghost valid: { IsScale scale },
    pub ghost valid_values: { IsScale control_values },
}

impl FontSize {
    ghost use Rattle.tt_metrics.specs.Metrics.{units_per_em_of};
    ghost use Rattle.tt_fit_outline.specs.Size.{size_by};
    ghost use Rattle.tt_fit_outline.specs.Views.{size_view};

    /// A font's size, by its units per em and the pixels per em.
    pub fn of(metrics: &Metrics, ppem: u32, scaling: Scaling) -> FontSize
        requires { ppem ≤ size_limit }
        ensures { size_view result ≡ size_by scaling ppem (units_per_em_of metrics.now) }
    {
        let em = metrics.units_per_em();
        match scaling {
            Scaling::Exact => FontSize {
                ppem,
                scale: Scale::exact(ppem, em),
                control_values: Scale::exact(ppem, em),
            },
            Scaling::Rounded => FontSize {
                ppem,
                scale: Scale::rounded(ppem, em),
                control_values: Scale::of_control_values(ppem, em),
            },
        }
    }

    /// The scale as a shift. None where the font units are no power of two, or where a coordinate of 16 bits could
    /// exceed the limit.
    pub(crate) fn shift(self) -> Option<PowerScale>
        ensures { IfSome result (λ s. s.scale ≡ self.scale) }
    {
        let units = u64::from(self.scale.units);
        let by = self.scale.units.trailing_zeros() + 1;
        let limit = units * u64::from(COORDINATE_LIMIT.unsigned_abs());
        if 1u64 << by != 2 * units || u64::from(self.scale.pixels) * 32768 > limit {
            return None;
        }
        Some(PowerScale {
            scale: self.scale,
            by,
        })
    }
}

/// A scale whose font units are a power of two, by which no coordinate of 16 bits exceeds the limit.
#[derive(Clone, Copy)]
pub(crate) struct PowerScale {
    scale: Scale,
    by: u32,
    pub(crate) ghost valid: { IsScale scale },
    pub(crate) ghost power: { 2 ^ by ≡ 2 * scale.units },
    pub(crate) ghost few: { by < 64 },
    pub(crate) ghost within: { 32768 * scale.pixels ≤ scale.units * coordinate_limit },
}

/// `v` times `pixels`.
#[inline(always)]
fn product(v: i16, pixels: u32) -> i64
    requires { pixels < 2 ^ 27 }
    ensures exact { result ≡ v *ℤ pos pixels }
    ensures bound { unsigned_abs result ≤ 32768 * pixels }
{
    i64::from(v) * i64::from(pixels)
}

impl PowerScale {
    /// `n` divided by the font units, rounded to the nearest whole number, a half upwards.
    #[inline(always)]
    fn nearest(self, n: i64) -> i64
        requires { unsigned_abs n < 2 ^ 46 }
        ensures exact { result ≡ nearest_quotient n (pos self.scale.units) }
        ensures bound { unsigned_abs result < 2 ^ 60 }
    {
        (2 * n + i64::from(self.scale.units)) >> self.by
    }

    /// `n` divided by the font units, rounded as `scale` says. Where halves round away from zero, the magnitude of `n`
    /// is divided.
    #[inline(always)]
    fn quotient(self, n: i64) -> i64
        requires { unsigned_abs n < 2 ^ 46 }
        ensures { result ≡ quotient self.scale.halves n (pos self.scale.units) }
    {
        match self.scale.halves {
            Halves::Up => self.nearest(n),
            Halves::AwayFromZero => {
                if n < 0 {
                    -self.nearest(-n)
                } else {
                    self.nearest(n)
                }
            }
        }
    }

    /// A coordinate in font units as 26.6.
    #[inline(always)]
    pub(crate) fn scaled(self, v: i16) -> i32
        ensures exact { result ≡ scaled_by self.scale v }
        ensures within { IsCoordinate result }
    {
        self.quotient(product(v, self.scale.pixels)) as i32
    }
}
