//! A line through two places, in 26.6 pixels.

ghost use Rattle.tt_points_zones.specs.Meeting.{IsPlace};

use crate::meeting::Place;

/// The line through two places, endless on both sides.
#[derive(Clone, Copy)]
pub struct StraightLine {
    pub from: Place,
    pub to: Place,
    pub ghost starts: { IsPlace from },
    pub ghost ends: { IsPlace to },
}
