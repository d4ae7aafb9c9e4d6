//! What the edges that meet a row leave there: black spans where they touch centres (rule 2), and marks of their turns
//! (rule 1).

ghost use Rattle.std.specs.Prelude.{◌≡◌, ◌≢◌, ℤ, ◌+◌, ◌*◌, ◌^◌, ◌<◌, ◌≤◌, ◌+ℤ◌, ◌<ℤ◌, ◌||◌, not, int_le, pos, [], length, if◌then◌else◌, vec_capacity, IfOk};
ghost use Rattle.std.specs.List.Sorted.{IsPermutation};
ghost use Rattle.tt_scan_edges.specs.Crossing.{spans};
ghost use Rattle.tt_scan_edges.specs.Left.{HasCross, IsBlank};
ghost use Rattle.tt_scan_edges.specs.Marks.{covers, turns, IsRising};
ghost use Rattle.tt_scan_edges.specs.Winding.{is_zero};

use crate::edge::Cross;
use crate::insertion::sink;
use crate::mark::{Span, TurnMark};
use crate::stretch::{is_rising, settle, wind};
use std::alloc::{AllocError, Global};
use std::marker::Model;

/// The marks and black spans of a row, with memory for a number of edges.
#[derive(Drop)]
pub struct RowLeft {
    marks: Vec<TurnMark>,
    black: Vec<Span>,
    most: usize,
}

impl Model for RowLeft {
    ghost use Rattle.std.specs.Prelude.{◌+◌, ◌-◌, ◌*◌, ◌/◌, ◌^◌, ◌<◌, ◌≤◌, length};
    ghost use Rattle.std.specs.Vec.{vec_capacity};
    ghost use Rattle.tt_scan_edges.specs.Left.{Left, least};

    ghost Value = { Left };

    ghost view = { λ l. record {
      marks = l.marks.items;
      black = l.black.items;
      most = l.most;
      room = least (l.most - length l.marks.items) ((2 * l.most - (length l.black.items + length l.marks.items)) / 2);
    } };

    // An edge adds at most a mark and a span. A span for each mark and one more are added last, when no mark remains.
    ghost invariant = { λ l. (l.most < 2 ^ 61) × (l.most ≤ vec_capacity l.marks) × (2 * l.most + 1 ≤ vec_capacity l.black)
        × (length l.marks.items ≤ l.most) × (length l.black.items ≤ 2 * l.most + 1)
        × (0 < length l.marks.items → length l.black.items + length l.marks.items ≤ 2 * l.most) };
}

/// Adds the columns that an edge touches as a black span.
#[inline(always)]
fn leave_touch(touch: Option<(i64, i64)>, black: &mut Vec<Span>)
    requires { length black.old.items < vec_capacity black.old }
    ensures black { (c : ℤ) → covers black.new.items c ≡ (covers black.old.items c || spans touch c) }
    ensures count { length black.new.items ≤ length black.old.items + 1 }
    ensures capacity { vec_capacity black.new ≡ vec_capacity black.old }
{
    if let Some((first, last)) = touch {
        black.push_reserved(Span { first, last });
    }
}

/// Adds an edge's turn as a mark.
#[inline(always)]
fn leave_mark(cross: Cross, marks: &mut Vec<TurnMark>)
    requires some { cross.turn ≢ pos 0 }
    requires room { length marks.old.items < vec_capacity marks.old }
    ensures turns { (c : ℤ) → turns marks.new.items c
        ≡ turns marks.old.items c +ℤ (if int_le cross.first c then cross.turn else pos 0) }
    ensures count { length marks.new.items ≡ length marks.old.items + 1 }
    ensures capacity { vec_capacity marks.new ≡ vec_capacity marks.old }
{
    marks.push_reserved(TurnMark {
        first: cross.first as i32,
        sign: i32::from(cross.turn),
    });
}

/// Adds an edge's turn, if it has one, as a mark at its place in the order of columns.
#[inline(always)]
fn leave_turn(cross: Cross, marks: &mut Vec<TurnMark>)
    requires room { length marks.old.items < vec_capacity marks.old }
    ensures turns { (c : ℤ) → turns marks.new.items c
        ≡ turns marks.old.items c +ℤ (if int_le cross.first c then cross.turn else pos 0) }
    ensures count { length marks.new.items ≤ length marks.old.items + 1 }
    ensures capacity { vec_capacity marks.new ≡ vec_capacity marks.old }
{
    if cross.turn != 0 {
        leave_mark(cross, marks);
        sink(marks);
    }
}

impl RowLeft {
    /// No marks and spans, with memory for those of `most` edges.
    pub fn new(alloc: Global, most: usize) -> Result<RowLeft, AllocError>
        ensures white { IfOk result (λ l. l.black ≡ []) }
        ensures most { IfOk result (λ l. l.most ≡ most) }
    {
        let marks = Vec::with_capacity(alloc, most)?;
        Ok(RowLeft {
            marks,
            black: Vec::with_capacity(alloc, 2 * most + 1)?,
            most,
        })
    }

    /// Removes all marks and spans.
    #[inline(always)]
    pub fn clear(&mut self)
        ensures blank { IsBlank self.new }
        ensures most { self.new.most ≡ self.old.most }
    {
        self.marks.clear();
        self.black.clear();
    }

    /// Adds an edge's span, and its turn, if it has one, as a mark at its place in the order of columns.
    #[inline(always)]
    pub fn leave(&mut self, cross: Cross)
        requires { 0 < self.old.room }
        ensures { HasCross cross self.old self.new }
    {
        leave_touch(cross.touch, &mut self.black);
        leave_turn(cross, &mut self.marks);
    }

    /// Adds an edge's span, and its turn as the last mark. Walks are in order of their columns, so that their marks are
    /// mostly in order too.
    #[inline(always)]
    pub fn leave_last(&mut self, cross: Cross)
        requires some { cross.turn ≢ pos 0 }
        requires room { 0 < self.old.room }
        ensures { HasCross cross self.old self.new }
    {
        leave_touch(cross.touch, &mut self.black);
        leave_mark(cross, &mut self.marks);
    }

    /// Sorts the marks by column. Returns whether they were in order.
    #[inline(always)]
    pub fn settle(&mut self) -> bool
        ensures permutation { IsPermutation self.old.marks self.new.marks }
        ensures order { IsRising self.new.marks }
        ensures rest { self.new ≡ record self.old { marks = self.new.marks } }
    {
        if is_rising(&self.marks) {
            return true;
        }
        settle(&mut self.marks);
        false
    }

    /// Blackens the columns between marks where the sum of the marks so far is not 0, and removes the marks.
    #[inline(always)]
    pub fn wind(&mut self)
        requires { IsRising self.old.marks }
        ensures black { (c : ℤ) → c <ℤ pos (2 ^ 63) → covers self.new.black c
            ≡ (covers self.old.black c || not (is_zero (turns self.old.marks c))) }
        ensures most { self.new.most ≡ self.old.most }
    {
        if !self.marks.is_empty() {
            wind(&self.marks, &mut self.black);
            self.marks.clear();
        }
    }

    /// The black spans, in no order; some columns may be in several.
    #[inline(always)]
    pub fn black(&self) -> &[Span]
        ensures exact { result.now ≡ self.now.black }
        ensures few { length result.now ≤ 2 * self.now.most + 1 }
    {
        &self.black
    }
}
