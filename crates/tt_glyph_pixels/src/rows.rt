//! The lines of a window, cut from edges.

ghost use Rattle.std.specs.Prelude.{◌≡◌, ℤ, true, false, ◌&&◌, ◌||◌, ◌+◌, ◌^◌, ◌≤◌, length, IfOk, OnOk};
ghost use Rattle.std.specs.Ordering.{int_eq};
ghost use Rattle.tt_bitmap.specs.Bitmaps.{has, is_black};
ghost use Rattle.tt_scan_dropouts.specs.Windows as windows;
ghost use Rattle.tt_scan_dropouts.specs.Windows.{WindowFits, frame_of};
ghost use Rattle.tt_scan_edges.specs.Marks.{covers};
ghost use Rattle.tt_scan_edges.specs.Winding as winding;
ghost use Rattle.tt_scan_edges.specs.Winding.{FrameFits};
ghost use Rattle.tt_scan_gaps.specs.Crossings.{centre};

use std::alloc::{AllocError, Global};
use tt_bitmap::BoxBitmap;
use tt_scan::{Frame, Span, Sweep, Tape};
use tt_scan_dropouts::Window;

/// The highest line of a window.
#[inline(always)]
fn top_of(window: Window) -> i64
    requires { WindowFits window }
    ensures { result ≡ windows.row_from_top window 0 }
{
    i64::from(window.bottom) + i64::from(window.height) - 1
}

/// A white bitmap with the pixels of a window. Error: memory ran out.
pub(crate) fn white(alloc: Global, window: Window) -> Result<BoxBitmap, AllocError>
    requires { WindowFits window }
    ensures has { IfOk result (λ b. (c j : ℤ) → has b c j ≡ windows.has window c j) }
    ensures white { IfOk result (λ b. (c j : ℤ) → is_black b c j ≡ false) }
    ensures width { IfOk result (λ b. b.width ≡ window.width) }
    ensures height { IfOk result (λ b. b.height ≡ window.height) }
{
    BoxBitmap::new(
        alloc,
        i64::from(window.left),
        top_of(window),
        window.width,
        window.height,
    )
}

/// A frame with the lines of a window, from the highest down.
fn frame_of(window: Window) -> Frame
    requires { WindowFits window }
    ensures exact { result ≡ frame_of window }
    ensures fits { FrameFits result }
{
    Frame {
        width: 1,
        height: window.height,
        margin: 0,
        rise: window.bottom + window.height as i32,
    }
}

/// Whether a frame has exactly the lines of a window.
fn is_frame_of(frame: Frame, window: Window) -> bool
    requires { WindowFits window }
    ensures { result ≡ true → frame ≡ frame_of window }
{
    (frame.width == 1 && frame.margin == 0)
        && (frame.height == window.height && frame.rise == window.bottom + window.height as i32)
}

/// Blackens the pixels of a line that spans cover, as far as the bitmap has them.
fn blacken_spans(bitmap: &mut BoxBitmap, line: i64, spans: &[Span])
    ensures black { (c j : ℤ) → is_black bitmap.new c j
        ≡ (is_black bitmap.old c j || (has bitmap.old c j && (int_eq j line && covers spans.now c))) }
    ensures place { bitmap.new ≡ record bitmap.old { words = bitmap.new.words } }
{
    for span in spans {
        bitmap.blacken_span(line, span.first, span.last);
    }
}

/// Blackens the pixels of a line that a sweep has as one word, if the bitmap has them all, and in one word. Returns whether
/// it has; else nothing is changed.
#[inline(always)]
fn blacken_stamp(bitmap: &mut BoxBitmap, line: i64, sweep: &Sweep) -> bool
    ensures black { result ≡ true → (c j : ℤ) → is_black bitmap.new c j
        ≡ (is_black bitmap.old c j || (int_eq j line && covers sweep.now.spans c)) }
    ensures kept { result ≡ false → bitmap.new ≡ bitmap.old }
    ensures place { bitmap.new ≡ record bitmap.old { words = bitmap.new.words } }
{
    match sweep.stamp() {
        Some(stamp) => bitmap.blacken_word(line, stamp.low, stamp.columns, stamp.word),
        None => false,
    }
}

/// Blackens the pixels of a line that a sweep has, as far as the bitmap has them.
#[inline(always)]
fn blacken_swept(bitmap: &mut BoxBitmap, line: i64, sweep: &Sweep)
    ensures black { (c j : ℤ) → is_black bitmap.new c j
        ≡ (is_black bitmap.old c j || (has bitmap.old c j && (int_eq j line && covers sweep.now.spans c))) }
    ensures place { bitmap.new ≡ record bitmap.old { words = bitmap.new.words } }
{
    // Most lines of a glyph are one word.
    if blacken_stamp(bitmap, line, sweep) {
        return;
    }
    blacken_spans(bitmap, line, sweep.spans());
}

/// Blackens the pixels of a window that the edges of a tape blacken by rules 1 and 2. The bitmap has the window's pixels,
/// and the tape's frame its lines. The sweep has memory for the edges.
fn blacken_rows(bitmap: &mut BoxBitmap, tape: &mut Tape, sweep: &mut Sweep, window: Window)
    requires window { WindowFits window }
    requires has { (c j : ℤ) → has bitmap.old c j ≡ windows.has window c j }
    requires few { length tape.old.edges ≤ 2 ^ 32 }
    requires frame { tape.old.frame ≡ frame_of window }
    requires fresh { tape.old.crosses ≡ 0 }
    requires room { length tape.old.edges ≤ sweep.old.room }
    ensures black { (c j : ℤ) → is_black bitmap.new c j
        ≡ (is_black bitmap.old c j || (windows.has window c j && winding.is_black tape.old.edges (centre c) (centre j))) }
    ensures place { bitmap.new ≡ record bitmap.old { words = bitmap.new.words } }
    ensures tape { tape.new ≡ record tape.old { crosses = tape.new.crosses } }
{
    let top = top_of(window);
    for r in 0..window.height {
        let row = i64::from(r);
        sweep.cut(tape, row);
        blacken_swept(bitmap, top - row, sweep);
    }
}

/// Blackens the pixels of a window that the edges of a tape blacken by rules 1 and 2. The bitmap has the window's pixels.
/// Where the tape's frame has other lines than the window, a second tape is made. Error: memory ran out.
pub(crate) fn blacken_inked(
    alloc: Global,
    bitmap: &mut BoxBitmap,
    tape: &mut Tape,
    window: Window,
) -> Result<(), AllocError>
    requires window { WindowFits window }
    requires has { (c j : ℤ) → has bitmap.old c j ≡ windows.has window c j }
    requires few { length tape.old.edges ≤ 2 ^ 32 }
    requires fresh { tape.old.crosses ≡ 0 }
    ensures black { OnOk result ((c j : ℤ) → is_black bitmap.new c j
        ≡ (is_black bitmap.old c j || (windows.has window c j && winding.is_black tape.old.edges (centre c) (centre j)))) }
    ensures place { OnOk result (bitmap.new ≡ record bitmap.old { words = bitmap.new.words }) }
    ensures edges { OnOk result (tape.new.edges ≡ tape.old.edges) }
{
    let mut sweep = Sweep::new(alloc, tape.edges())?;
    if is_frame_of(tape.frame(), window) {
        blacken_rows(bitmap, tape, &mut sweep, window);
        return Ok(());
    }
    let list = tape.copied()?.into_list();
    let mut own = Tape::of(alloc, frame_of(window), list)?;
    blacken_rows(bitmap, &mut own, &mut sweep, window);
    Ok(())
}
