//! A line that is laid out, with its margin.

ghost use Rattle.std.specs.Prelude.{◌≡◌, ◌≤◌};
ghost use Rattle.tt_core.specs.Limits.{margin_limit};
ghost use Rattle.tt_line.specs.Outcome.{placement_of};
ghost use Rattle.tt_picture.specs.Pictures.{IsPictureFrame};
ghost use Rattle.tt_strike.specs.Picture.{frame_of};

use tt_line::Line;
use tt_picture::PlacedLine;
use tt_scan::Frame;

/// A line that is laid out, and the margin of its picture.
#[derive(Drop)]
pub struct Laid {
    pub line: Line,
    /// Pixels round the line.
    pub margin: u32,
    pub ghost within: { margin ≤ margin_limit },
}

impl Laid {
    /// The frame of the line's picture.
    pub fn frame(&self) -> Frame
        ensures exact { result ≡ frame_of (placement_of self.now.line) self.now.margin }
        ensures fits { IsPictureFrame result }
    {
        Frame {
            width: self.line.width,
            height: self.line.height,
            margin: self.margin,
            rise: self.line.rise,
        }
    }

    /// The line as one of its picture.
    pub fn placed(&self) -> PlacedLine<'_>
        ensures frame { result.frame ≡ frame_of (placement_of self.now.line) self.now.margin }
        ensures glyphs { result.glyphs.now ≡ self.now.line.glyphs.items }
    {
        PlacedLine {
            frame: self.frame(),
            glyphs: &self.line.glyphs,
        }
    }
}
