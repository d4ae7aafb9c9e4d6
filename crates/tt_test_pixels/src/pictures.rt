//! Frames and pictures.

ghost use Rattle.std.specs.Prelude.{◌≡◌};
ghost use Rattle.tt_scan_edges.specs.Winding.{FrameFits};

use tt_core::{HEIGHT_LIMIT, MARGIN_LIMIT, WIDTH_LIMIT};
use tt_scan::{Frame, Tape};
use tt_test_words::{Line, MOST};

/// The rise of a frame stays less than this from 0.
const RISE: i32 = 1 << 20;

/// More crossings than any question requests.
pub(crate) const MOST_CROSSES: u64 = 1 << 40;

/// The next four words, a frame in pixels.
pub fn frame_in(line: &mut Line) -> Frame
    ensures { FrameFits result }
{
    Frame {
        width: line.natural(1, WIDTH_LIMIT),
        height: line.natural(1, HEIGHT_LIMIT),
        margin: line.natural(0, MARGIN_LIMIT),
        rise: line.near_zero(RISE),
    }
}

/// Puts a picture from the top, with `end` after each row.
pub fn put_picture(line: &mut Line, tape: &mut Tape, frame: Frame, end: u8)
    requires { tape.old.frame ≡ frame }
{
    for r in 0..frame.height {
        for c in 0..frame.width {
            if tape.crosses() > MOST_CROSSES || tape.edges() > MOST {
                line.refuse("too many crossings");
                return;
            }
            if tape.pixel(i64::from(c), i64::from(r)) {
                line.put_byte(b'#');
            } else {
                line.put_byte(b'.');
            }
        }
        line.put_byte(end);
    }
}
