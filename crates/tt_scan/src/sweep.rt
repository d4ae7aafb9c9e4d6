//! The sweep of a row: its black columns, cut once from the edges of a tape, then painted wherever the glyph is.

ghost use Rattle.std.specs.Prelude.{◌≡◌, ℕ, ℤ, ◌+◌, ◌-ℤ◌, ◌*◌, ◌^◌, ◌<◌, ◌≤◌, ◌<ℤ◌, ◌≤ℤ◌, ◌&&◌, ◌||◌, nat_lt, pos, [], length, unsigned_abs, IfOk, IfSome};
ghost use Rattle.tt_core.specs.Bits.{bit};
ghost use Rattle.tt_scan_edges.specs.Marks.{covers, covers_from};
ghost use Rattle.tt_scan_edges.specs.Winding.{is_black, column_x, row_y, rows_met};
ghost use Rattle.tt_scan.specs.Stamps.{IsStampOf};

use crate::paint::paint_spans;
use crate::stamp::{paint_columns, paint_stamp, stamped};
use crate::tape::Tape;
use crate::word::Stamp;
use std::alloc::{AllocError, Global};
use std::marker::Model;
use tt_scan_edges::{RowLeft, Span};

/// The black columns of a row, and memory for the rows of a tape.
#[derive(Drop)]
pub struct Sweep {
    left: RowLeft,
    /// The columns of the spans as one word, where they are few.
    stamp: Option<Stamp>,
}

impl Model for Sweep {
    ghost use Rattle.std.specs.Prelude.{IfSome};
    ghost use Rattle.tt_scan_edges.specs.Marks.{Swept};
    ghost use Rattle.tt_scan.specs.Stamps.{IsStampOf};

    ghost Value = { Swept };

    ghost view = { λ s. record { spans = s.left.black; room = s.left.most } };

    ghost invariant = { λ s. IfSome s.stamp (IsStampOf s.left.black) };
}

impl Sweep {
    /// A sweep with memory for the rows of a tape with at most `most` edges. No column is black yet.
    pub fn new(alloc: Global, most: usize) -> Result<Sweep, AllocError>
        ensures { IfOk result (λ sweep. sweep ≡ record { spans = []; room = most }) }
    {
        Ok(Sweep {
            left: RowLeft::new(alloc, most)?,
            stamp: None,
        })
    }

    /// Finds the black columns of a row, inside and outside its picture. It takes no memory: the sweep has it.
    pub fn cut(&mut self, tape: &mut Tape, r: i64)
        requires row_low { pos 0 ≤ℤ r }
        requires row_high { r <ℤ pos tape.old.frame.height }
        requires count { tape.old.crosses + length tape.old.edges ≤ 2 ^ 63 }
        requires room { length tape.old.edges ≤ self.old.room }
        ensures black { (c : ℤ) → c <ℤ pos (2 ^ 63) → covers self.new.spans c
            ≡ is_black tape.old.edges (column_x tape.old.frame.margin c) (row_y tape.old.frame r) }
        ensures room { self.new.room ≡ self.old.room }
        ensures tape { tape.new ≡ record tape.old { crosses = tape.new.crosses } }
        // Each edge that meets the row is crossed once, and no other edge is.
        ensures crosses { tape.new.crosses ≡ tape.old.crosses + rows_met tape.old.edges (row_y tape.old.frame r) }
    {
        self.left.clear();
        tape.collect(r, &mut self.left);
        self.left.wind();
        self.stamp = stamped(self.left.black());
    }

    /// Blackens the pixels of the black columns, moved by `shift` columns to the right. The row has `width` pixels, the
    /// leftmost in the highest bit of the first byte. All other bits are unchanged.
    pub fn paint(&self, shift: i64, width: u32, row: &mut [u8])
        requires shift { unsigned_abs shift < 2 ^ 40 }
        requires width { width ≤ 8 * length row.old }
        ensures bits { (k : ℕ) → bit row.new k
            ≡ (bit row.old k || (nat_lt k width && covers self.now.spans (pos k -ℤ shift))) }
        ensures len { length row.new ≡ length row.old }
    {
        match self.stamp {
            Some(stamp) => paint_stamp(stamp, self.left.black(), shift, width, row),
            None => paint_spans(self.left.black(), shift, width, row),
        }
    }

    /// Blackens the pixels of the black columns from each pen of a glyph, moved to the right by the pen's columns. The
    /// row has `width` pixels. It takes no memory.
    #[inline(never)]
    pub fn paint_all(&self, pens: &[u32], width: u32, row: &mut [u8])
        requires width { width ≤ 8 * length row.old }
        ensures bits { (k : ℕ) → bit row.new k
            ≡ (bit row.old k || (nat_lt k width && covers_from self.now.spans pens.now k)) }
        ensures len { length row.new ≡ length row.old }
    {
        paint_columns(self.stamp, self.left.black(), pens, width, row);
    }

    /// The black columns of the row cut last, in no order; some may occur twice. `paint_columns` paints them.
    pub fn spans(&self) -> &[Span]
        ensures exact { result.now ≡ self.now.spans }
        ensures few { length result.now ≤ 2 * self.now.room + 1 }
    {
        self.left.black()
    }

    /// The black columns of the row cut last as one word, where they are few.
    pub fn stamp(&self) -> Option<Stamp>
        ensures { IfSome result (IsStampOf self.now.spans) }
    {
        self.stamp
    }
}
