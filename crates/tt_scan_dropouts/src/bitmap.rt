//! The black pixels of a glyph in a window. Pixels outside count as black, so that no gap there is free.

ghost use Rattle.std.specs.Prelude.{◌≡◌, not, ℕ, ℤ, true, false, length, ◌+◌, ◌*◌, ◌^◌, ◌<◌, ◌≤◌, ◌&&◌, ◌||◌, ◌⊎◌, ◌+ℤ◌, pos, unsigned_abs, All, IfOk, OnOk};
ghost use Rattle.std.specs.Ordering.{int_eq};
ghost use Rattle.tt_bitmap.specs.Bitmaps as bitmaps;
ghost use Rattle.tt_core.specs.Bits.{bit, stride};
ghost use Rattle.tt_scan_edges.specs.Winding.{EdgeFits, FrameFits, is_black};
ghost use Rattle.tt_scan_gaps.specs.Crossings.{centre};
ghost use Rattle.tt_scan_gaps.specs.Gaps.{is_free};
ghost use Rattle.tt_scan_dropouts.specs.Passes.{has_pixel};
ghost use Rattle.tt_scan_dropouts.specs.Windows.{WindowFits, first_row, frame_of, has, has_rows, is_black_in, is_black_by, place, row_from_top};

use crate::pixel::Pixel;
use crate::window::{Window, has, offset};
use std::alloc::{AllocError, Global};
use std::marker::Model;
use tt_bitmap::BoxBitmap;
use tt_scan::{Edge, Frame, Sweep, Tape, blacken};
use tt_scan_gaps::Over;

/// The rows of a window from the bottom up, each a whole number of bytes, the leftmost pixel in the highest bit.
#[derive(Drop)]
pub(crate) struct Bitmap {
    window: Window,
    bits: Vec<u8>,
}

impl Model for Bitmap {
    ghost use Rattle.std.specs.Prelude.{◌≡◌, ◌*◌, length};
    ghost use Rattle.tt_core.specs.Bits.{stride};
    ghost use Rattle.tt_scan_dropouts.specs.Windows as windows;
    ghost use Rattle.tt_scan_dropouts.specs.Windows.{WindowFits};

    ghost Value = { windows.Bitmap };

    ghost view = { λ b. record { window = b.window; bits = b.bits.items } };

    ghost invariant = { λ b. WindowFits b.window × (length b.bits.items ≡ stride b.window.width * b.window.height) };
}

/// The number of bytes in a row of the window.
fn stride(window: Window) -> usize
    ensures { result ≡ stride window.width }
{
    (window.width as usize).div_ceil(8)
}

/// The edges on a tape with the rows of the window, from the top down. Error: memory ran out.
fn tape_of(alloc: Global, edges: &[Edge], window: Window) -> Result<Tape, AllocError>
    requires edges { All EdgeFits edges.now }
    requires window { WindowFits window }
    ensures { IfOk result (λ t. t ≡ record { frame = frame_of window; edges = edges.now; crosses = 0 }) }
{
    let frame = Frame {
        width: 1,
        height: window.height,
        margin: 0,
        rise: window.bottom + window.height as i32,
    };
    let mut tape = Tape::new(alloc, frame);
    tape.reserve(edges.len())?;
    for edge in edges {
        tape.push(*edge)?;
    }
    Ok(tape)
}

/// The row of a frame that is the topmost of a window; the frame may lack it.
fn first_row(frame: Frame, window: Window) -> i64
    requires frame { FrameFits frame }
    requires window { WindowFits window }
    ensures exact { result ≡ first_row frame window }
    ensures small { unsigned_abs result < 2 ^ 32 }
{
    i64::from(frame.rise) + i64::from(frame.margin)
        - i64::from(window.bottom)
        - i64::from(window.height)
}

/// Whether a frame has all rows of a window.
fn has_rows(frame: Frame, window: Window) -> bool
    requires frame { FrameFits frame }
    requires window { WindowFits window }
    ensures { result ≡ has_rows frame window }
{
    let first = first_row(frame, window);
    0 <= first && first + i64::from(window.height) <= i64::from(frame.height)
}

/// The edges of a glyph on a tape with the rows of a window: a copy, if the glyph's own tape has them. Error: memory
/// ran out.
fn tape_for(alloc: Global, tape: &Tape, window: Window) -> Result<Tape, AllocError>
    requires window { WindowFits window }
    ensures edges { IfOk result (λ t. t.edges ≡ tape.now.edges) }
    ensures rows { IfOk result (λ t. has_rows t.frame window ≡ true) }
    ensures crosses { IfOk result (λ t. t.crosses ≡ 0) }
{
    if has_rows(tape.frame(), window) {
        tape.copied()
    } else {
        tape_of(alloc, tape.lend(), window)
    }
}

/// The rows of a window that edges on a tape may meet: the first, and one past the last. Rows count from the top. The
/// tape's frame has them all.
fn rows_met(tape: &Tape, window: Window) -> (u32, u32)
    requires window { WindowFits window }
    requires rows { has_rows tape.now.frame window ≡ true }
    ensures within { result.1 ≤ window.height }
    ensures blank { (r : ℕ) (c : ℤ) → r < window.height → (r < result.0) ⊎ (result.1 ≤ r)
        → is_black tape.now.edges (centre c) (centre (row_from_top window r)) ≡ false }
{
    let (first, past) = tape.rows();
    let top = first_row(tape.frame(), window);
    let height = i64::from(window.height);
    (
        (first - top).clamp(0, height) as u32,
        (past - top).clamp(0, height) as u32,
    )
}

/// Blackens the columns of row `r` of the window that edges blacken; `r` counts from the top. `bits` has the bits of all
/// rows of the window.
fn ink_row(sweep: &mut Sweep, tape: &mut Tape, window: Window, r: u32, bits: &mut [u8])
    requires window { WindowFits window }
    requires rows { has_rows tape.old.frame window ≡ true }
    requires within { r < window.height }
    requires count { tape.old.crosses + length tape.old.edges ≤ 2 ^ 63 }
    requires room { length tape.old.edges ≤ sweep.old.room }
    requires len { length bits.old ≡ stride window.width * window.height }
    ensures black { (c j : ℤ) → has window c j ≡ true → bit bits.new (place window c j)
        ≡ (bit bits.old (place window c j)
        || (int_eq (row_from_top window r) j && is_black tape.old.edges (centre c) (centre j))) }
    ensures len { length bits.new ≡ length bits.old }
    ensures room { sweep.new.room ≡ sweep.old.room }
    ensures tape { tape.new ≡ record tape.old { crosses = tape.new.crosses } }
    ensures crosses { tape.new.crosses ≤ tape.old.crosses + length tape.old.edges }
{
    let bytes = stride(window);
    let start = bytes * (window.height - 1 - r) as usize;
    let frame = tape.frame();
    sweep.cut(tape, first_row(frame, window) + i64::from(r));
    let shift = -i64::from(window.left) - i64::from(frame.margin);
    // The bytes of the rows above are unchanged. With eight bytes and more a row is painted at once.
    sweep.paint(shift, window.width, &mut bits[start..]);
}

/// Blackens the pixels of line `s` of the window that a bitmap of a box has; `s` counts from the bottom. `bits` has the
/// bits of all rows of the window.
fn paint_line(inked: &BoxBitmap, window: Window, s: u32, bits: &mut [u8])
    requires window { WindowFits window }
    requires within { s < window.height }
    requires len { length bits.old ≡ stride window.width * window.height }
    ensures black { (c j : ℤ) → has window c j ≡ true → bit bits.new (place window c j)
        ≡ (bit bits.old (place window c j)
        || (int_eq (window.bottom +ℤ pos s) j && bitmaps.is_black inked.now c j)) }
    ensures len { length bits.new ≡ length bits.old }
{
    let bytes = stride(window);
    let start = bytes * s as usize;
    inked.paint(
        -i64::from(window.left),
        i64::from(window.bottom) + i64::from(s),
        1,
        window.width,
        bytes,
        &mut bits[start..start + bytes],
    );
}

/// The number of a pixel of the window among the bits.
#[inline(always)]
fn place(window: Window, column: i64, row: i64) -> usize
    requires window { WindowFits window }
    requires within { has window column row ≡ true }
    ensures exact { result ≡ place window column row }
    ensures within { result < 8 * (stride window.width * window.height) }
{
    let above = offset(window.bottom, window.height, row);
    8 * (stride(window) * above) + offset(window.left, window.width, column)
}

impl Bitmap {
    /// The pixels of a window that the edges of a tape blacken by the scan converter's rules 1 and 2. The tape's frame
    /// has all rows of the window, and the sweep has memory for its edges. Error: memory ran out.
    fn cut(
        alloc: Global,
        tape: &mut Tape,
        sweep: &mut Sweep,
        window: Window,
    ) -> Result<Bitmap, AllocError>
        requires few { length tape.old.edges ≤ 2 ^ 32 }
        requires window { WindowFits window }
        requires rows { has_rows tape.old.frame window ≡ true }
        requires fresh { tape.old.crosses ≡ 0 }
        requires room { length tape.old.edges ≤ sweep.old.room }
        ensures window { IfOk result (λ b. b.window ≡ window) }
        ensures black { IfOk result (λ b. (c j : ℤ) → has window c j ≡ true
            → is_black_in b c j ≡ is_black tape.old.edges (centre c) (centre j)) }
        ensures tape { OnOk result (tape.new ≡ record tape.old { crosses = tape.new.crosses }) }
        ensures room { OnOk result (sweep.new.room ≡ sweep.old.room) }
    {
        let mut bits = vec![in alloc; 0u8; stride(window) * window.height as usize]?;
        let (from, to) = rows_met(tape, window);
        for r in from..to {
            ink_row(sweep, tape, window, r, &mut bits);
        }
        Ok(Bitmap { window, bits })
    }

    /// The pixels of a window that the edges of a tape blacken by the scan converter's rules 1 and 2. The tape is
    /// unchanged. Error: memory ran out.
    pub(crate) fn inked(alloc: Global, tape: &Tape, window: Window) -> Result<Bitmap, AllocError>
        requires few { length tape.now.edges ≤ 2 ^ 32 }
        requires window { WindowFits window }
        ensures window { IfOk result (λ b. b.window ≡ window) }
        ensures black { IfOk result (λ b. (c j : ℤ) → has window c j ≡ true
            → is_black_in b c j ≡ is_black tape.now.edges (centre c) (centre j)) }
    {
        let mut tape = tape_for(alloc, tape, window)?;
        let mut sweep = Sweep::new(alloc, tape.edges())?;
        Bitmap::cut(alloc, &mut tape, &mut sweep, window)
    }

    /// The pixels of a window that are black in a bitmap of a box. Error: memory ran out.
    pub(crate) fn painted(
        alloc: Global,
        inked: &BoxBitmap,
        window: Window,
    ) -> Result<Bitmap, AllocError>
        requires window { WindowFits window }
        ensures window { IfOk result (λ b. b.window ≡ window) }
        ensures black { IfOk result (λ b. (c j : ℤ) → has window c j ≡ true
            → is_black_in b c j ≡ bitmaps.is_black inked.now c j) }
    {
        let mut bits = vec![in alloc; 0u8; stride(window) * window.height as usize]?;
        for s in 0..window.height {
            paint_line(inked, window, s, &mut bits);
        }
        Ok(Bitmap { window, bits })
    }

    /// One of the bits.
    #[inline(always)]
    fn bit(&self, at: usize) -> bool
        requires { at < 8 * length self.now.bits }
        ensures { result ≡ bit self.now.bits at }
    {
        (self.bits[at / 8] >> (7 - at % 8)) % 2 == 1
    }

    /// Whether two pixels are white. A pixel outside the window is not.
    #[inline(always)]
    pub(crate) fn are_white(&self, column: i64, row: i64, other_column: i64, other_row: i64) -> bool
        ensures { result ≡ (not (is_black_in self.now column row) && not (is_black_in self.now other_column other_row)) }
    {
        if !has(self.window, column, row) {
            return false;
        }
        if !has(self.window, other_column, other_row) {
            return false;
        }
        if self.bit(place(self.window, column, row)) {
            return false;
        }
        !self.bit(place(self.window, other_column, other_row))
    }

    /// Whether both pixels of a gap of a line are white.
    #[inline(always)]
    pub(crate) fn is_free(&self, over: Over, gap: i64, line: i64) -> bool
        requires { unsigned_abs gap < 2 ^ 32 }
        ensures { result ≡ is_free (is_black_by over self.now) gap line }
    {
        match over {
            Over::Rows => self.are_white(gap, line, gap + 1, line),
            Over::Columns => self.are_white(line, gap, line, gap + 1),
        }
    }

    /// Blackens a pixel, if the window has it.
    fn blacken(&mut self, column: i64, row: i64)
        ensures window { self.new.window ≡ self.old.window }
        ensures black { (c j : ℤ) → is_black_in self.new c j
            ≡ (is_black_in self.old c j || (int_eq column c && int_eq row j)) }
    {
        if has(self.window, column, row) {
            blacken(&mut self.bits, place(self.window, column, row));
        }
    }

    /// Blackens some pixels, as far as the window has them.
    pub(crate) fn blacken_all(&mut self, pixels: &[Pixel])
        ensures window { self.new.window ≡ self.old.window }
        ensures black { (c j : ℤ) → is_black_in self.new c j ≡ (is_black_in self.old c j || has_pixel pixels.now c j) }
    {
        for pixel in pixels {
            self.blacken(pixel.column, pixel.row);
        }
    }
}
