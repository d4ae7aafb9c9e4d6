//! What tt_scan says of outlines. A line of standard input is a question; the frame is in pixels, and the ends of the
//! COUNT edges in 1/8192 pixel:
//!
//!     pixels WIDTH HEIGHT MARGIN RISE COUNT AX AY BX BY ..
//!     edges WIDTH HEIGHT MARGIN RISE COUNT AX AY BX BY ..
//!
//! Its answer is a line too. For `pixels` it is the picture from the top, '#' for a black pixel and '.' for a white
//! one, and '/' after each row. For `edges` it is for each edge `rows FIRST END`, or `rows none`, then for each row of
//! the frame `|TURN FIRST`, or `|TURN FIRST touch FIRST LAST` where the edge touches centres, and '/' after each edge.
//! Where memory is refused for an edge, a note on standard error says so, and the edge is put on the tape again.

ghost use Rattle.std.specs.Prelude.{◌≡◌, ◌≤ℤ◌, ◌<ℤ◌, ◌<◌, ◌^◌, pos, length};
ghost use Rattle.tt_scan_edges.specs.Winding.{EdgeFits, FrameFits};

use crate::pictures::{MOST_CROSSES, frame_in, put_picture};
use std::alloc::Global;
use tt_scan::{Edge, Frame, Tape};
use tt_test_words::Line;

/// The ends of an edge stay less than this from 0.
pub(crate) const REACH: i32 = 1 << 30;

/// Answers a question.
pub fn answer(alloc: Global, line: &mut Line) {
    let what = line.word();
    let frame = frame_in(line);
    let mut tape = Tape::new(alloc, frame);
    push_all(line, &mut tape);
    line.end();
    if line.is_refused() {
        return;
    }
    match what {
        "pixels" => put_picture(line, &mut tape, frame, b'/'),
        "edges" => put_edges(line, &mut tape, frame),
        _ => line.refuse("no such question"),
    }
    line.put_byte(b'\n');
}

pub(crate) fn edge_in(line: &mut Line) -> Edge
    ensures { EdgeFits result }
{
    Edge {
        ax: line.near_zero(REACH),
        ay: line.near_zero(REACH),
        bx: line.near_zero(REACH),
        by: line.near_zero(REACH),
    }
}

/// Puts the edges of a question on a tape, each once more where memory was refused.
fn push_all(line: &mut Line, tape: &mut Tape)
    ensures { tape.new.frame ≡ tape.old.frame }
{
    for _ in 0..line.count() {
        let edge = edge_in(line);
        if tape.push(edge).is_err() {
            line.note("an edge: out of memory\n");
            if tape.push(edge).is_err() {
                line.refuse("out of memory");
            }
        }
    }
}

fn put_edges(line: &mut Line, tape: &mut Tape, frame: Frame)
    requires { tape.old.frame ≡ frame }
{
    for i in 0..tape.edges() {
        let (first, end) = tape.rows_of(i);
        if first < end {
            line.put("rows");
            line.put_fields(&[first, end]);
        } else {
            line.put("rows none");
        }
        for r in 0..frame.height {
            if tape.crosses() > MOST_CROSSES {
                line.refuse("too many crossings");
                return;
            }
            put_cross(line, tape, i, i64::from(r));
        }
        line.put_byte(b'/');
    }
}

/// Puts the crossing of an edge with a row.
fn put_cross(line: &mut Line, tape: &mut Tape, edge: usize, row: i64)
    requires within { edge < length tape.old.edges }
    requires row_low { pos 0 ≤ℤ row }
    requires row_high { row <ℤ pos tape.old.frame.height }
    requires few { tape.old.crosses < 2 ^ 63 }
    ensures frame { tape.new.frame ≡ tape.old.frame }
    ensures edges { tape.new.edges ≡ tape.old.edges }
{
    let cross = tape.cross(edge, row);
    line.put_byte(b'|');
    line.put_number(i64::from(cross.turn));
    line.put_field(cross.first);
    if let Some((from, to)) = cross.touch {
        line.put(" touch");
        line.put_fields(&[from, to]);
    }
}
