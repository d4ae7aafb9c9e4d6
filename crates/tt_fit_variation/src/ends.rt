//! The ends of an advance, the ascent and the descent at an instance. OpenType, "gvar" (phantom points).

ghost use Rattle.std.specs.Prelude.{◌≡◌, ◌+◌, ◌^◌, ◌≤◌, ◌+ℤ◌, true, false, length, unsigned_abs, All, IfErr, IfOk};
ghost use Rattle.tt_core.specs.Outcomes.{Gives};
ghost use Rattle.tt_core.specs.Scales.{IsScale};
ghost use Rattle.tt_axes.specs.Rounding.{whole_units};
ghost use Rattle.tt_deltas.specs.Along.{IsWithin};
ghost use Rattle.tt_fit_outline.specs.Scaling.{coordinate_fault};
ghost use Rattle.tt_fit_outline.specs.Views.{phantom_units_view, phantom_view};
ghost use Rattle.tt_fit_variation.specs.Ends.{advance_by_ends, are_ends, end_deltas, end_limit, ends_in_units, fine_end, fine_ends, is_end, moved_ends};
ghost use Rattle.tt_fit_variation.specs.Views.{deltas_view};

use crate::end::EndDeltas;
use crate::fine::fine_scaled;
use tt_axes::{sixty_fourths, whole_units};
use tt_core::{Fault, Scale, Why};
use tt_deltas::Varied;
use tt_fit_outline::{Phantom, PhantomUnits, glyf_fault};

/// The greatest coordinate of a phantom point in font units (profile).
const END_LIMIT: i64 = 131_071;

/// The deltas of the phantom points, which follow so many points or components. Where HVAR gives the advance, its right
/// end does not move by gvar.
pub(crate) fn end_deltas(by_hvar: bool, n: usize, xs: &[Varied], ys: &[Varied]) -> EndDeltas
    requires xs { n + 4 ≤ length xs.now }
    requires ys { n + 4 ≤ length ys.now }
    requires x_near { All (IsWithin (2 ^ 46)) xs.now }
    requires y_near { All (IsWithin (2 ^ 46)) ys.now }
    ensures { deltas_view result ≡ end_deltas by_hvar n (record { xs = xs.now; ys = ys.now }) }
{
    let right = xs[n + 1].delta;
    EndDeltas {
        left: xs[n].delta,
        right: if by_hvar { 0 } else { right },
        ascent: ys[n + 2].delta,
        descent: ys[n + 3].delta,
    }
}

/// A phantom point's coordinate in font units. Error: CoordRange, at this offset in glyf.
fn end(at: u32, v: i64) -> Result<i32, Fault>
    ensures ok { IfOk result (λ w. (w ≡ v) × (is_end v ≡ true)) }
    ensures within { IfOk result (λ w. unsigned_abs w ≤ end_limit) }
    ensures err { IfErr result (λ f. (f ≡ coordinate_fault at) × (is_end v ≡ false)) }
{
    if v < -END_LIMIT || END_LIMIT < v {
        return Err(glyf_fault(at, Why::CoordRange));
    }
    Ok(v as i32)
}

/// The sum of a coordinate and its delta, in whole font units.
fn moved_end(v: i32, delta: i64) -> i64
    requires { unsigned_abs delta ≤ 2 ^ 46 }
    ensures exact { result ≡ v +ℤ whole_units delta }
{
    i64::from(v) + whole_units(delta)
}

impl EndDeltas {
    /// The phantom points in whole font units, of a glyph that begins at this offset in glyf. Error: CoordRange.
    #[tactic(auto, unfolding(crate::specs::Ends::ends_in_units))]
    pub fn in_units(self, at: u32, ends: PhantomUnits) -> Result<PhantomUnits, Fault>
        ensures exact { Gives phantom_units_view result (ends_in_units at (phantom_units_view ends) (deltas_view self)) }
        ensures sound { IfOk result (λ _. are_ends (moved_ends (phantom_units_view ends) (deltas_view self)) ≡ true) }
    {
        let left = end(at, moved_end(ends.left, self.left))?;
        let right = end(at, moved_end(ends.right, self.right))?;
        let ascent = end(at, moved_end(ends.ascent, self.ascent))?;
        let descent = end(at, moved_end(ends.descent, self.descent))?;
        Ok(PhantomUnits {
            left,
            right,
            ascent,
            descent,
        })
    }

    /// The phantom points of a simple glyph in 26.6 pixels, scaled from 64ths of a font unit.
    pub fn in_pixels(self, scale: Scale, ends: PhantomUnits) -> Phantom
        requires scale { IsScale scale }
        requires near { are_ends (moved_ends (phantom_units_view ends) (deltas_view self)) ≡ true }
        ensures { phantom_view result ≡ fine_ends scale (phantom_units_view ends) (deltas_view self) }
    {
        Phantom {
            left: fine_end(scale, ends.left, self.left),
            right: fine_end(scale, ends.right, self.right),
            ascent: fine_end(scale, ends.ascent, self.ascent),
            descent: fine_end(scale, ends.descent, self.descent),
        }
    }

    /// A glyph's advance where the font lacks HVAR, in font units, by the advance that hmtx has: from end to end, a half
    /// up, kept within 0 to 65535 (profile).
    pub fn advance(self, advance: u16) -> u16
        ensures { result ≡ advance_by_ends advance (deltas_view self) }
    {
        let fine = 64 * i64::from(advance) + sixty_fourths(self.right) - sixty_fourths(self.left);
        (fine + 32).div_euclid(64).clamp(0, 65535) as u16
    }
}

/// A phantom point's coordinate in 26.6 pixels.
#[tactic(auto, using(crate::proofs::Near::end_near))]
fn fine_end(scale: Scale, v: i32, delta: i64) -> i64
    requires scale { IsScale scale }
    requires delta { unsigned_abs delta ≤ 2 ^ 46 }
    requires near { unsigned_abs (v +ℤ whole_units delta) ≤ end_limit }
    ensures { result ≡ fine_end scale v delta }
{
    fine_scaled(scale, 64 * i64::from(v) + sixty_fourths(delta))
}
