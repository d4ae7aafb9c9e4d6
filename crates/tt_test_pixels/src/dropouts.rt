//! Prints the dropouts of outlines, to be compared with those of another program. A line of standard input is a
//! question, in whole numbers with blanks between:
//!
//!     STUBS SMART DOTS LEFT BOTTOM WIDTH HEIGHT COLUMNS ROWS MARGIN RISE COUNT AX AY BX BY .. CONTOURS END .. BOX
//!
//! STUBS, SMART and DOTS, each 0 or 1, are the rules. The next four numbers are the window, in pixels. The four after them are the
//! frame of the tape that holds the edges, in pixels too. No answer depends on this frame. The ends of the COUNT edges
//! are in 1/8192 pixel. END is for each contour the count of its edges and of all edges before it. BOX is the glyph's
//! box, which holds all edges: LEAST_X LEAST_Y MOST_X MOST_Y, in 1/8192 pixel.
//!
//! The answer is a line too: the window from its top row down, '#' for a dropout and '.' for any other pixel, and '/'
//! after each row.

ghost use Rattle.std.specs.Int.{int_max, int_min};
ghost use Rattle.std.specs.Prelude.{◌≡◌, ◌≤◌, ◌^◌, length, true, ◌≤ℤ◌, IfSome};
ghost use Rattle.tt_scan.specs.Contours.{AreEnds};
ghost use Rattle.tt_scan_dropouts.specs.Windows.{WindowFits, widened};
ghost use Rattle.tt_scan_gaps.specs.Boxes.{EdgeWithin, ExtentsFit, HoldsEdges};

use crate::pictures::frame_in;
use crate::pixels::{REACH, edge_in};
use std::alloc::Global;
use tt_core::{HEIGHT_LIMIT, WIDTH_LIMIT};
use tt_scan::{Edge, Tape};
use tt_scan_dropouts::{
    BoxedRules, Extent, Extents, Outlined, Pixel, Rules, Window, dropouts, may_have_dropouts,
};
use tt_test_words::{Line, MOST};

/// The left and the lower side of a window stay less than this from 0, in pixels.
const FAR: i32 = 1 << 18;

fn window_in(line: &mut Line) -> Window
    ensures { WindowFits (widened 2 result) }
{
    Window {
        left: line.near_zero(FAR),
        bottom: line.near_zero(FAR),
        width: line.natural(1, WIDTH_LIMIT),
        height: line.natural(1, HEIGHT_LIMIT),
    }
}

/// The edges, on a tape with a frame.
fn tape_in(alloc: Global, line: &mut Line) -> Tape {
    let mut tape = Tape::new(alloc, frame_in(line));
    for _ in 0..line.count() {
        if tape.push(edge_in(line)).is_err() {
            line.refuse("out of memory");
        }
    }
    tape
}

/// Where a contour ends among the edges. It ends where the contour before it does, or behind.
fn end_in(line: &mut Line, from: usize, edges: usize) -> usize
    requires order { from ≤ edges }
    requires few { edges ≤ 2 ^ 32 }
    ensures low { from ≤ result }
    ensures high { result ≤ edges }
{
    line.number(from as i64, edges as i64) as usize
}

/// Where the contours end. The last contour ends behind all edges. Else the line is refused, and where memory runs out.
fn ends_in(alloc: Global, line: &mut Line, edges: usize) -> Option<Vec<usize>>
    requires { edges ≤ 2 ^ 32 }
    ensures { IfSome result (λ v. AreEnds edges v.items) }
{
    let mut ends = Vec::new(alloc);
    let mut from = 0;
    'contours: for _ in 0..line.count() {
        let end = end_in(line, from, edges);
        if ends.push(end).is_err() {
            line.refuse("out of memory");
            return None;
        }
        from = end;
    }
    if from != edges {
        line.refuse("the contours have");
        line.note_field(from as i64);
        line.note(" edges, and there are");
        line.note_field(edges as i64);
        return None;
    }
    Some(ends)
}

/// The next four words, a glyph's box.
fn box_in(line: &mut Line) -> Extents
    ensures { ExtentsFit result }
{
    let (left, bottom) = (line.near_zero(REACH), line.near_zero(REACH));
    let (right, top) = (line.near_zero(REACH), line.near_zero(REACH));
    Extents {
        across: Extent {
            low: left,
            high: right,
        },
        up: Extent {
            low: bottom,
            high: top,
        },
    }
}

/// Whether an extent holds two coordinates.
fn holds_both(extent: Extent, a: i32, b: i32) -> bool
    ensures { result ≡ true → (extent.low ≤ℤ int_min a b) × (int_max a b ≤ℤ extent.high) }
{
    if a.min(b) < extent.low {
        return false;
    }
    a.max(b) <= extent.high
}

/// Whether a box holds an edge.
fn holds(extents: Extents, edge: &Edge) -> bool
    ensures { result ≡ true → EdgeWithin extents.across.low extents.across.high extents.up.low extents.up.high edge.now }
{
    if !holds_both(extents.across, edge.ax, edge.bx) {
        return false;
    }
    holds_both(extents.up, edge.ay, edge.by)
}

/// Whether a box holds all of some edges.
fn holds_all(extents: Extents, edges: &[Edge]) -> bool
    ensures { result ≡ true → HoldsEdges extents edges.now }
{
    for edge in edges {
        if !holds(extents, edge) {
            return false;
        }
    }
    true
}

/// Whether a pixel is among some.
fn is_among(pixels: &[Pixel], column: i64, row: i64) -> bool {
    for pixel in pixels {
        if pixel.column == column && pixel.row == row {
            return true;
        }
    }
    false
}

/// Puts a window from its top row down.
fn put_window(line: &mut Line, pixels: &[Pixel], window: Window)
    requires { WindowFits (widened 2 window) }
{
    for r in 0..window.height {
        let row = i64::from(window.bottom) + i64::from(window.height) - 1 - i64::from(r);
        for c in 0..window.width {
            if is_among(pixels, i64::from(window.left) + i64::from(c), row) {
                line.put_byte(b'#');
            } else {
                line.put_byte(b'.');
            }
        }
        line.put_byte(b'/');
    }
    line.put_byte(b'\n');
}

/// Answers a question.
pub fn answer(alloc: Global, line: &mut Line) {
    let rules = Rules {
        stubs: line.number(0, 1) == 1,
        smart: line.number(0, 1) == 1,
        dots: line.number(0, 1) == 1,
    };
    let window = window_in(line);
    let tape = tape_in(alloc, line);
    if tape.edges() > MOST {
        line.refuse("too many edges");
        return;
    }
    let Some(ends) = ends_in(alloc, line, tape.edges()) else {
        return;
    };
    let extents = box_in(line);
    line.end();
    if line.is_refused() {
        return;
    }
    if !holds_all(extents, tape.lend()) {
        line.refuse("the box does not hold the edges");
        return;
    }
    if !may_have_dropouts(rules, tape.lend(), &ends) {
        put_window(line, &[], window);
        return;
    }
    match dropouts(
        alloc,
        Outlined {
            rules: BoxedRules { rules, extents },
            tape: &tape,
            ends: &ends,
        },
        window,
    ) {
        Ok(pixels) => put_window(line, &pixels, window),
        Err(_) => line.refuse("out of memory"),
    }
}
