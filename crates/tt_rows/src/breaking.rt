//! Breaks a line into rows.

ghost use Rattle.std.specs.Prelude.{◌≡◌, ◌+◌, ◌<◌, ◌≤◌, drop, length, All, IfOk};
ghost use Rattle.tt_core.specs.Limits.{text_limit};
ghost use Rattle.tt_rows.specs.Rows.{one_at_least, row_between, row_from, rows, whole_words};
ghost use Rattle.tt_rows.specs.Widths.{drawn};

use crate::breaks::breaks_before;
use crate::classes::is_blank;
use crate::fitting::fitting;
use crate::row::LineRow;
use crate::unit::RowUnit;
use std::alloc::{AllocError, Global};

/// The greatest number of units from unit `from` on, at most `most`, after which a row may end; 0 if there is none.
fn whole_words(line: &[RowUnit], from: usize, most: usize) -> usize
    requires { from + most < length line.now }
    ensures exact { result ≡ whole_words line.now from most }
    ensures within { result ≤ most }
{
    let mut count = most;
    while 0 < count {
        if breaks_before(line, from + count) {
            return count;
        }
        count -= 1;
    }
    0
}

/// The number of a row's units that are drawn: blanks at its end are not.
fn drawn_count(units: &[RowUnit]) -> usize
    ensures exact { result ≡ length (drawn units.now) }
    ensures within { result ≤ length units.now }
{
    let mut count = units.len();
    while 0 < count {
        if !is_blank(units[count - 1].character) {
            return count;
        }
        count -= 1;
    }
    0
}

/// The row of the units from `from` up to before `next`.
fn row_between(line: &[RowUnit], from: usize, next: usize, broken: bool) -> LineRow
    requires order { from ≤ next }
    requires within { next ≤ length line.now }
    ensures exact { result ≡ row_between line.now from next broken }
    ensures next { result.next ≡ next }
    ensures drawn { (result.from ≤ result.until) × (result.until ≤ result.next) }
{
    LineRow {
        from,
        until: from + drawn_count(&line[from..next]),
        next,
        broken,
    }
}

/// One in place of none.
fn one_at_least(n: usize) -> usize
    ensures { result ≡ one_at_least n }
{
    if n == 0 { 1 } else { n }
}

/// The row from a unit of a line on. The row ends at the last place where it may end and fits the room. Where there is
/// no such place, the row has as many units as fit, and at least one.
#[tactic(auto, unfolding(crate::specs::Rows::row_from))]
pub fn row_from(line: &[RowUnit], room: u32, from: usize) -> LineRow
    requires few { length line.now ≤ text_limit }
    requires within { from < length line.now }
    ensures exact { result ≡ row_from line.now room from }
    ensures after { from < result.next }
    ensures bound { result.next ≤ length line.now }
    ensures drawn { (result.from ≤ result.until) × (result.until ≤ result.next) }
{
    let count = fitting(&line[from..], room);
    if from + count == line.len() {
        return row_between(line, from, from + count, false);
    }
    let whole = whole_words(line, from, count);
    if 0 < whole {
        return row_between(line, from, from + whole, false);
    }
    row_between(line, from, from + one_at_least(count), true)
}

/// The rows of a line. Work is linear in its units: each is read for at most three rows. Error: Memory.
pub fn rows(alloc: Global, line: &[RowUnit], room: u32) -> Result<Vec<LineRow>, AllocError>
    requires few { length line.now ≤ text_limit }
    ensures exact { IfOk result (λ v. v.items ≡ rows line.now room) }
    ensures within { IfOk result (λ v. All (λ r. (r.from ≤ r.until) × (r.until ≤ length line.now)) v.items) }
    ensures count { IfOk result (λ v. length v.items ≤ one_at_least (length line.now)) }
{
    let mut made = Vec::new(alloc);
    if line.is_empty() {
        made.push(LineRow {
            from: 0,
            until: 0,
            next: 0,
            broken: false,
        })?;
        return Ok(made);
    }
    let mut from = 0;
    while from < line.len() {
        let row = row_from(line, room, from);
        made.push(row)?;
        from = row.next;
    }
    Ok(made)
}
