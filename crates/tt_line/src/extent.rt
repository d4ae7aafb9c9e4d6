//! The size of a line's picture.

ghost use Rattle.std.specs.Prelude.{◌≡◌, ◌+◌, ◌*◌, ◌<◌, ◌≤◌, ◌^◌, ◌+ℤ◌, pos, unsigned_abs, IfOk, IfErr};
ghost use Rattle.tt_core.specs.Limits.{margin_limit};
ghost use Rattle.tt_core.specs.Outcomes.{Gives};
ghost use Rattle.tt_line.specs.Layout.{within_limits, IsRefusal, IsWithinLimits};

use tt_core::{HEIGHT_LIMIT, JobFault, WIDTH_LIMIT};

/// Width and height of a picture, in pixels, before the limits are tested. The height may be negative.
#[derive(Clone, Copy)]
pub struct PictureExtent {
    pub width: u64,
    pub height: i32,
}

/// The extent of a line with its margins: the sum of steps, and the rise plus the depth.
pub(crate) fn with_margins(steps: u64, rise: i32, depth: i32, margin: u32) -> PictureExtent
    requires steps { steps < 2 ^ 45 }
    requires rise { unsigned_abs rise < 2 ^ 20 }
    requires depth { unsigned_abs depth < 2 ^ 20 }
    requires margin { margin ≤ margin_limit }
    ensures width { result.width ≡ steps + 2 * margin }
    ensures height { result.height ≡ rise +ℤ depth +ℤ pos (2 * margin) }
{
    let margins = 2 * margin;
    PictureExtent {
        width: steps + u64::from(margins),
        height: rise + depth + margins as i32,
    }
}

/// Refuses a picture without a pixel, and then one that is too large.
///
/// Errors: EmptyPicture, PictureLarge.
#[tactic(auto, unfolding(crate::specs::Layout::within_limits))]
pub(crate) fn test_limits(extent: PictureExtent) -> Result<PictureExtent, JobFault>
    ensures exact { Gives (λ e. e) result (within_limits extent) }
    ensures same { IfOk result (λ e. e ≡ extent) }
    ensures within { IfOk result IsWithinLimits }
    ensures fault { IfErr result (IsRefusal extent) }
{
    if extent.width < 1 || extent.height < 1 {
        return Err(JobFault::EmptyPicture);
    }
    if extent.width > u64::from(WIDTH_LIMIT) || extent.height > HEIGHT_LIMIT as i32 {
        return Err(JobFault::PictureLarge);
    }
    Ok(extent)
}
