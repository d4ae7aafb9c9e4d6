//! How much of a variation holds on one axis. OpenType, "OpenType Font Variations Common Table Formats".

ghost use Rattle.std.specs.Prelude.{◌≡◌, ◌≢◌, ◌<◌, ◌≤◌, pos};
ghost use Rattle.tt_axes.specs.Shares.{has_effect, portion, share_between, share_to_peak, share_of_tuple_axis, share_of_region_axis, whole_share};

use crate::share::Share;

/// The ends of a region on one axis, as coordinates in 1/65536.
#[derive(Clone, Copy)]
pub struct RegionEnds {
    pub start: i32,
    pub end: i32,
}

/// A share times `part / whole`, rounded to the nearest whole number, a half up.
pub(crate) fn portion(share: Share, part: u32, whole: u32) -> Share
    requires part { part ≤ whole }
    requires some { 0 < whole }
    ensures exact { result.parts ≡ portion share.parts part whole }
    ensures less { result.parts ≤ share.parts }
{
    let product = u64::from(share.parts) * u64::from(part);
    let whole = u64::from(whole);
    Share {
        parts: ((2 * product + whole) / (2 * whole)) as u32,
    }
}

/// The share in a region: nothing at its ends, and all at its peak.
fn share_between(share: Share, coordinate: i32, peak: i32, ends: RegionEnds) -> Share
    ensures exact { result.parts ≡ share_between share.parts coordinate peak ends }
    ensures less { result.parts ≤ share.parts }
{
    if coordinate <= ends.start || ends.end <= coordinate {
        return Share::none();
    }
    let end = if coordinate < peak {
        ends.start
    } else {
        ends.end
    };
    portion(share, coordinate.abs_diff(end), peak.abs_diff(end))
}

/// The share without a region: nothing at 0, all at the peak, and nothing past the peak.
fn share_to_peak(share: Share, coordinate: i32, peak: i32) -> Share
    requires { peak ≢ pos 0 }
    ensures exact { result.parts ≡ share_to_peak share.parts coordinate peak }
    ensures less { result.parts ≤ share.parts }
{
    if coordinate < peak.min(0) || peak.max(0) < coordinate {
        return Share::none();
    }
    portion(share, coordinate.unsigned_abs(), peak.unsigned_abs())
}

impl Share {
    /// Everything.
    pub fn whole() -> Share
        ensures { result.parts ≡ whole_share }
    {
        Share { parts: 65536 }
    }

    /// Nothing.
    pub fn none() -> Share
        ensures { result.parts ≡ 0 }
    {
        Share { parts: 0 }
    }

    /// What an axis with a coordinate leaves of a tuple's share. A tuple has a peak on the axis, and may have a region
    /// of its own. Coordinates are in 1/65536.
    #[tactic(auto, unfolding(crate::specs::Shares::share_of_tuple_axis))]
    pub fn on_tuple_axis(self, coordinate: i32, peak: i32, ends: Option<RegionEnds>) -> Share
        ensures exact { result.parts ≡ share_of_tuple_axis self.parts coordinate peak ends }
        ensures less { result.parts ≤ self.parts }
    {
        if peak == 0 {
            return self;
        }
        if coordinate == 0 {
            return Share::none();
        }
        if coordinate == peak {
            return self;
        }
        match ends {
            Some(ends) => share_between(self, coordinate, peak, ends),
            None => share_to_peak(self, coordinate, peak),
        }
    }

    /// What an axis with a coordinate leaves of the share of a region in a store. Coordinates are in 1/65536.
    #[tactic(auto, unfolding(crate::specs::Shares::share_of_region_axis))]
    pub fn on_region_axis(self, coordinate: i32, peak: i32, ends: RegionEnds) -> Share
        ensures exact { result.parts ≡ share_of_region_axis self.parts coordinate peak ends }
        ensures less { result.parts ≤ self.parts }
    {
        if !has_effect(peak, ends) || coordinate == peak {
            return self;
        }
        share_between(self, coordinate, peak, ends)
    }
}

/// Whether a region of a store has an effect.
fn has_effect(peak: i32, ends: RegionEnds) -> bool
    ensures { result ≡ has_effect peak ends }
{
    let crosses = ends.start < 0 && 0 < ends.end;
    ends.start <= peak && peak <= ends.end && !crosses && peak != 0
}
