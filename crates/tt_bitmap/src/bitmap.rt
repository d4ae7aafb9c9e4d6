//! The bitmap of a box.

ghost use Rattle.std.specs.Prelude.{◌≡◌, ℕ, ℤ, true, false, ◌+◌, ◌-◌, ◌*◌, ◌%◌, ◌^◌, ◌<◌, ◌≤◌, ◌&&◌, ◌||◌, ◌+ℤ◌, ◌-ℤ◌, ◌≤ℤ◌, int_le, nat_le, nat_lt, pos, length, slice_range, unsigned_abs, IfOk, IfSome};
ghost use Rattle.std.specs.Int.{bit_at};
ghost use Rattle.std.specs.Ordering.{int_eq};
ghost use Rattle.tt_bitmap.specs.Bands.{IsBandBlackened};
ghost use Rattle.tt_bitmap.specs.Bitmaps.{BoxFits, has, has_box, in_line, is_black, is_column, is_line, number, number_at, strips};
ghost use Rattle.tt_bitmap.specs.Inks.{IsInk, IsNear};

use crate::ink::{LeastBox, box_by, sides_of};
use crate::place::RowPlace;
use crate::run::{blacken_run, or_word};
use crate::shared::rows_shared;
use crate::strip::{paint_shared, strips_of};
use std::alloc::{AllocError, Global};
use std::marker::Model;

/// The black pixels of a box: `width` columns rightwards from the first, and `height` lines from the top line down.
/// Columns count rightwards from the pen, lines upwards from the base line.
#[derive(Drop)]
pub struct BoxBitmap {
    left: i64,
    top: i64,
    width: u32,
    height: u32,
    /// The rows from the top line down, each a whole number of words of 56 columns, the leftmost in the highest bit. A
    /// word moved by up to seven columns still fits in eight bytes.
    words: Vec<u64>,
}

impl Model for BoxBitmap {
    ghost use Rattle.std.specs.Prelude.{◌≡◌, ◌*◌, length};
    ghost use Rattle.tt_bitmap.specs.Bitmaps as bitmaps;
    ghost use Rattle.tt_bitmap.specs.Bitmaps.{BoxFits, strips};

    ghost Value = { bitmaps.BoxBitmap };

    ghost view = { λ b. record { left = b.left; top = b.top; width = b.width; height = b.height; words = b.words.items } };

    ghost invariant = { λ b. BoxFits b.left b.top b.width b.height × (length b.words.items ≡ strips b.width * b.height) };
}

/// Whether a column is one of `count` columns from the first rightwards.
#[inline(always)]
fn is_column(first: i64, count: u32, column: i64) -> bool
    requires { unsigned_abs first < 2 ^ 21 }
    ensures { result ≡ is_column first count column }
{
    first <= column && column < first + i64::from(count)
}

/// Whether a line is one of `count` lines from the first down.
#[inline(always)]
fn is_line(first: i64, count: u32, line: i64) -> bool
    requires { unsigned_abs first < 2 ^ 21 }
    ensures { result ≡ is_line first count line }
{
    first - i64::from(count) < line && line <= first
}

/// The number of a line's first word.
#[inline(always)]
fn row_word(top: i64, width: u32, height: u32, line: i64) -> usize
    requires top { unsigned_abs top < 2 ^ 21 }
    requires width { width < 2 ^ 20 }
    requires height { height < 2 ^ 20 }
    requires has { is_line top height line ≡ true }
    ensures exact { result ≡ strips width * unsigned_abs (top -ℤ line) }
    ensures within { result + strips width ≤ strips width * height }
    ensures small { result < 2 ^ 41 }
{
    strips_of(width) * (top - line) as usize
}

/// The number of the first pixel of a line, 56 to a word.
#[inline(always)]
fn row_number(top: i64, width: u32, height: u32, line: i64) -> usize
    requires top { unsigned_abs top < 2 ^ 21 }
    requires width { width < 2 ^ 20 }
    requires height { height < 2 ^ 20 }
    requires has { is_line top height line ≡ true }
    ensures exact { result ≡ number_at width (unsigned_abs (top -ℤ line)) 0 }
    ensures within { result + 56 * strips width ≤ 56 * (strips width * height) }
    ensures small { result < 2 ^ 50 }
{
    56 * row_word(top, width, height, line)
}

/// The column of a row of `width` columns where `columns` columns begin. None where the row lacks one of them, or they are
/// in two of its words. Column `begin` is to be one of the row's, even if `columns` is 0.
#[inline(always)]
fn word_column(begin: i64, columns: u32, width: u32) -> Option<u32>
    requires begin { unsigned_abs begin < 2 ^ 41 }
    requires columns { columns ≤ 57 }
    ensures at { IfSome result (λ at. pos at ≡ begin) }
    ensures has { IfSome result (λ at. at < width) }
    ensures within { IfSome result (λ at. at + columns ≤ width) }
    ensures one { IfSome result (λ at. at % 56 + columns ≤ 56) }
{
    if begin < 0 || i64::from(width) < begin + i64::from(columns.max(1)) {
        return None;
    }
    let at = begin as u32;
    if 56 < at % 56 + columns {
        return None;
    }
    Some(at)
}

/// How far a column is right of another.
#[inline(always)]
fn offset(left: i64, column: i64) -> usize
    requires left { unsigned_abs left < 2 ^ 21 }
    requires order { left ≤ℤ column }
    requires near { unsigned_abs (column -ℤ left) < 2 ^ 21 }
    ensures { result ≡ unsigned_abs (column -ℤ left) }
{
    (column - left) as usize
}

/// How many of `count` columns from `low` on come before a column.
#[inline(always)]
fn columns_before(column: i64, low: i64, count: u32) -> u32
    requires { unsigned_abs low < 2 ^ 21 }
    ensures exact { (k : ℕ) → k < count → int_le column (low +ℤ pos k) ≡ nat_le result k }
    ensures most { result ≤ count }
{
    (column.clamp(low, low + i64::from(count)) - low) as u32
}

/// How many of `count` columns from `low` on come before a column or are this column.
#[inline(always)]
fn columns_up_to(column: i64, low: i64, count: u32) -> u32
    requires { unsigned_abs low < 2 ^ 21 }
    ensures exact { (k : ℕ) → k < count → int_le (low +ℤ pos k) column ≡ nat_lt k result }
    ensures most { result ≤ count }
{
    let before = low - 1;
    (column.clamp(before, before + i64::from(count)) - before) as u32
}

/// The bytes that the words of a box take.
pub fn bytes_of(width: u32, height: u32) -> usize
    requires width { width < 2 ^ 20 }
    requires height { height < 2 ^ 20 }
    ensures { result ≡ 8 * (strips width * height) }
{
    8 * (strips_of(width) * height as usize)
}

/// The words of `height` rows from row `own` on, where a row has `strips` words.
fn rows_of(words: &[u64], strips: usize, own: usize, height: u32) -> &[u64]
    requires strips { strips < 2 ^ 20 }
    requires own { own < 2 ^ 20 }
    requires height { height < 2 ^ 20 }
    requires within { strips * (own + height) ≤ length words.now }
    ensures { result.now ≡ slice_range words.now (strips * own) (strips * (own + height)) }
{
    &words[strips * own..strips * (own + height as usize)]
}

/// A copy of words. Error: memory ran out.
fn copied(alloc: Global, words: &[u64]) -> Result<Vec<u64>, AllocError>
    ensures { IfOk result (λ copy. copy.items ≡ words.now) }
{
    let mut copy = Vec::with_capacity(alloc, words.len())?;
    copy.extend_from_slice(words)?;
    Ok(copy)
}

impl BoxBitmap {
    /// A bitmap whose pixels are all white. Error: memory ran out.
    pub fn new(
        alloc: Global,
        left: i64,
        top: i64,
        width: u32,
        height: u32,
    ) -> Result<BoxBitmap, AllocError>
        requires { BoxFits left top width height }
        ensures has { IfOk result (λ b. (c j : ℤ) → has b c j ≡ has_box left top width height c j) }
        ensures white { IfOk result (λ b. (c j : ℤ) → is_black b c j ≡ false) }
        ensures place { IfOk result (λ b. b ≡ record { left = left; top = top; width = width; height = height; words = b.words }) }
    {
        let words = vec![in alloc; 0u64; strips_of(width) * height as usize]?;
        Ok(BoxBitmap {
            left,
            top,
            width,
            height,
            words,
        })
    }

    /// The bitmap of some of the lines: `height` lines from line `top` down. Error: memory ran out.
    pub fn cropped(&self, alloc: Global, top: i64, height: u32) -> Result<BoxBitmap, AllocError>
        requires near { unsigned_abs top < 2 ^ 20 }
        requires above { top ≤ℤ self.now.top }
        requires below { unsigned_abs (self.now.top -ℤ top) + height ≤ self.now.height }
        ensures black { IfOk result (λ b. (c j : ℤ) → is_black b c j ≡ (is_line top height j && is_black self.now c j)) }
        ensures place { IfOk result (λ b. b ≡ record self.now { top = top; height = height; words = b.words }) }
    {
        let own = offset(top, self.top);
        let rows = rows_of(&self.words, strips_of(self.width), own, height);
        let words = copied(alloc, rows)?;
        Ok(BoxBitmap {
            left: self.left,
            top,
            width: self.width,
            height,
            words,
        })
    }

    /// Whether a pixel lies in the box.
    #[inline(always)]
    pub fn has(&self, column: i64, line: i64) -> bool
        ensures { result ≡ has self.now column line }
    {
        is_column(self.left, self.width, column) && is_line(self.top, self.height, line)
    }

    /// The number of a pixel of the box, 56 to a word.
    #[inline(always)]
    fn number(&self, column: i64, line: i64) -> usize
        requires { has self.now column line ≡ true }
        ensures exact { result ≡ number self.now column line }
        ensures within { result < 56 * length self.now.words }
        ensures small { result < 2 ^ 51 }
    {
        row_number(self.top, self.width, self.height, line) + offset(self.left, column)
    }

    /// Whether a pixel is black. No pixel outside of the box is.
    #[inline(always)]
    pub fn is_black(&self, column: i64, line: i64) -> bool
        ensures { result ≡ is_black self.now column line }
    {
        if !self.has(column, line) {
            return false;
        }
        let at = self.number(column, line);
        (self.words[at / 56] >> (63 - at % 56)) % 2 == 1
    }

    /// Blackens a pixel, if the box has it.
    pub fn blacken(&mut self, column: i64, line: i64)
        ensures black { (c j : ℤ) → is_black self.new c j
            ≡ (is_black self.old c j || (has self.old c j && (int_eq c column && int_eq j line))) }
        ensures place { self.new ≡ record self.old { words = self.new.words } }
    {
        if !self.has(column, line) {
            return;
        }
        let at = self.number(column, line);
        blacken_run(&mut self.words, at, at + 1);
    }

    /// Blackens the pixels of a line from a first column to a last, as far as the box has them. It takes no memory.
    pub fn blacken_span(&mut self, line: i64, first: i64, last: i64)
        ensures black { (c j : ℤ) → is_black self.new c j
            ≡ (is_black self.old c j || (has self.old c j && (int_eq j line && (int_le first c && int_le c last)))) }
        ensures place { self.new ≡ record self.old { words = self.new.words } }
    {
        if !is_line(self.top, self.height, line) {
            return;
        }
        let begin = row_number(self.top, self.width, self.height, line);
        let from = columns_before(first, self.left, self.width);
        let past = columns_up_to(last, self.left, self.width).max(from);
        blacken_run(
            &mut self.words,
            begin + from as usize,
            begin + past as usize,
        );
    }

    /// Blackens the columns of a word in a line: `columns` columns from column `low` on, the leftmost in the highest bit. The
    /// bitmap is unchanged where the box lacks one of these columns, or has them in two words of the row. Returns whether
    /// they were blackened. It takes no memory.
    #[inline(always)]
    pub fn blacken_word(&mut self, line: i64, low: i64, columns: u32, word: u64) -> bool
        requires columns { columns ≤ 57 }
        requires low { unsigned_abs low ≤ 2 ^ 40 }
        requires free { (i : ℕ) → i < 64 - columns → bit_at word i ≡ 0 }
        ensures black { result ≡ true → (c j : ℤ) → is_black self.new c j ≡ (is_black self.old c j || in_line line low word c j) }
        ensures kept { result ≡ false → self.new ≡ self.old }
        ensures place { self.new ≡ record self.old { words = self.new.words } }
    {
        if !is_line(self.top, self.height, line) {
            return false;
        }
        let Some(at) = word_column(low - self.left, columns, self.width) else {
            return false;
        };
        let begin = row_word(self.top, self.width, self.height, line);
        or_word(&mut self.words, begin + at as usize / 56, word >> (at % 56));
        true
    }

    /// Blackens the bitmap's black pixels in a band, moved by `column` columns to the right. The band has `rows` rows of
    /// `bytes` bytes. Its first row has the line `line`, and each row is one line below the row before. A row has `width`
    /// pixels, the leftmost in the highest bit of the first byte. All other bits are unchanged. It takes no memory.
    pub fn paint(
        &self,
        column: i64,
        line: i64,
        rows: u32,
        width: u32,
        bytes: usize,
        band: &mut [u8],
    )
        requires column { unsigned_abs column < 2 ^ 40 }
        requires line { unsigned_abs line < 2 ^ 40 }
        requires width { width ≤ 8 * bytes }
        requires bytes { bytes < 2 ^ 32 }
        requires band { length band.old ≡ bytes * rows }
        ensures { IsBandBlackened bytes rows
            (λ i c. nat_lt c width && is_black self.now (pos c -ℤ column) (line -ℤ pos i)) band.old band.new }
    {
        let shared = rows_shared(self.top, self.height, line, rows);
        let row = RowPlace {
            at: column + self.left,
            columns: self.width,
            width,
            bytes,
        };
        paint_shared(&self.words, row, shared, band);
    }

    /// The least box that holds all black pixels; None where no pixel is black.
    pub fn ink(&self) -> Option<LeastBox>
        ensures exact { IsInk (is_black self.now) result }
        ensures near { IfSome result IsNear }
    {
        let sides = sides_of(&self.words, self.width, self.height)?;
        Some(box_by(self.left, self.top, sides))
    }

    /// The bytes of its words: as many as `bytes_of` its box.
    pub fn bytes(&self) -> usize
        ensures words { result ≡ 8 * length self.now.words }
        ensures exact { result ≡ 8 * (strips self.now.width * self.now.height) }
    {
        8 * self.words.len()
    }
}
