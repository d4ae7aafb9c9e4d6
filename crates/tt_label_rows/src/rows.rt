//! The rows of a text.

ghost use Rattle.std.specs.List.{list_any, sum_by};
ghost use Rattle.tt_rows.specs.Rows.{one_at_least};
ghost use Rattle.std.specs.Prelude.{◌≡◌, ℕ, ◌+◌, ◌<◌, ◌≤◌, ◌^◌, ◌++◌, ◌||◌, length, map, All, IfOk, OnOk};
ghost use Rattle.tt_core.specs.Limits.{text_limit};
ghost use Rattle.tt_label_rows.specs.Rows.{breaks_line, breaks_word, line_rows, row_glyphs, text_rows};
ghost use Rattle.tt_line.specs.Labels.{greater, widest, width_of};

use std::alloc::{AllocError, Global};
use tt_rows::{LineRow, RowUnit, row_steps, rows};

/// The rows of a text.
#[derive(Drop)]
pub struct TextRows {
    /// For each row the glyphs that are drawn, with their steps.
    pub rows: Vec<Vec<(u16, u32)>>,
    /// Whether a row ends within a word.
    pub broken: bool,
}

/// Whether one of some rows ends within a word.
fn breaks(rows: &[LineRow]) -> bool
    ensures { result ≡ list_any (λ r. r.broken) rows.now }
{
    for row in rows {
        if row.broken {
            return true;
        }
    }
    false
}

/// Whether one of two facts holds.
fn either(a: bool, b: bool) -> bool
    ensures { result ≡ (a || b) }
{
    a || b
}

/// The glyphs of a row that are drawn, with their steps. Error: Memory.
fn row_glyphs(alloc: Global, units: &[RowUnit], row: LineRow) -> Result<Vec<(u16, u32)>, AllocError>
    requires order { row.from ≤ row.until }
    requires within { row.until ≤ length units.now }
    requires few { length units.now ≤ text_limit }
    ensures exact { IfOk result (λ v. v.items ≡ row_glyphs units.now row) }
    ensures short { IfOk result (λ v. length v.items ≤ text_limit) }
{
    row_steps(alloc, &units[row.from..row.until])
}

/// Adds the rows of a line. Error: Memory.
fn push_rows(
    alloc: Global,
    made: &mut TextRows,
    units: &[RowUnit],
    room: u32,
) -> Result<(), AllocError>
    requires { length units.now ≤ text_limit }
    ensures rows { OnOk result (map (λ l. l.items) made.new.rows.items ≡ map (λ l. l.items) made.old.rows.items ++ line_rows room units.now) }
    ensures broken { OnOk result (made.new.broken ≡ (made.old.broken || breaks_line room units.now)) }
    ensures count { OnOk result (length made.new.rows.items ≤ length made.old.rows.items + one_at_least (length units.now)) }
    ensures short { OnOk result (All (λ l. length l.items ≤ text_limit) made.old.rows.items → All (λ l. length l.items ≤ text_limit) made.new.rows.items) }
{
    let line = rows(alloc, units, room)?;
    for row in &line {
        let glyphs = row_glyphs(alloc, units, *row)?;
        made.rows.push(glyphs)?;
    }
    made.broken = either(made.broken, breaks(&line));
    Ok(())
}

/// The rows of some lines in a room of so many columns, from above. Error: Memory.
pub fn text_rows(alloc: Global, lines: &[Vec<RowUnit>], room: u32) -> Result<TextRows, AllocError>
    requires { All (λ l. length l.items ≤ text_limit) lines.now }
    ensures rows { IfOk result (λ t. map (λ l. l.items) t.rows.items ≡ text_rows room (map (λ l. l.items) lines.now)) }
    ensures broken { IfOk result (λ t. t.broken ≡ breaks_word room (map (λ l. l.items) lines.now)) }
    ensures count { IfOk result (λ t. length t.rows.items ≤ sum_by (λ l. one_at_least (length l.items)) lines.now) }
    ensures short { IfOk result (λ t. All (λ l. length l.items ≤ text_limit) t.rows.items) }
{
    let mut made = TextRows {
        rows: Vec::new(alloc),
        broken: false,
    };
    for line in lines {
        push_rows(alloc, &mut made, line, room)?;
    }
    Ok(made)
}

/// The greater of two numbers.
fn greater(a: u64, b: u64) -> u64
    ensures exact { result ≡ greater a b }
    ensures first { a ≤ result }
    ensures second { b ≤ result }
    ensures least { (n : ℕ) → a ≤ n → b ≤ n → result ≤ n }
{
    if a < b { b } else { a }
}

/// The sum of the steps of some glyphs, which can exceed 32 bits.
pub(crate) fn width_of(glyphs: &[(u16, u32)]) -> u64
    requires few { length glyphs.now ≤ text_limit }
    ensures exact { result ≡ width_of glyphs.now }
    ensures bound { result < 2 ^ 45 }
{
    let mut sum = 0;
    for glyph in glyphs {
        sum += u64::from(glyph.1);
    }
    sum
}

/// The width of the widest of some rows.
pub fn widest(rows: &[Vec<(u16, u32)>]) -> u64
    requires few { All (λ l. length l.items ≤ text_limit) rows.now }
    ensures exact { result ≡ widest (map (λ l. l.items) rows.now) }
    ensures bound { result < 2 ^ 45 }
    ensures least { All (λ l. width_of l.items ≤ result) rows.now }
{
    let mut most = 0;
    for row in rows {
        most = greater(most, width_of(row));
    }
    most
}
