//! The words of all rows of a bitmap at their places in the rows of a band. Word `strip` of all rows is painted before
//! the next word of any row, since all these words have one place.

ghost use Rattle.std.specs.Prelude.{◌≡◌, ℕ, true, pos, ◌+ℤ◌, unsigned_abs, ◌+◌, ◌-◌, ◌*◌, ◌^◌, ◌<◌, ◌≤◌, ◌&&◌, min, nat_le, nat_lt, length, slice_index};
ghost use Rattle.tt_bitmap.specs.Bands.{IsBandBlackened};
ghost use Rattle.tt_bitmap.specs.Bitmaps.{shown_in, strips};
ghost use Rattle.tt_bitmap.specs.Words.{is_whole, stamped};

use crate::clip::{place_of, whole_place};
use crate::eight::{or_eight, or_few, turned};
use crate::place::{RowPlace, StripPlace};
use crate::shared::SharedRows;

/// The words of a row of `columns` columns.
#[inline(always)]
pub(crate) fn strips_of(columns: u32) -> usize
    ensures { result ≡ strips columns }
{
    (columns as usize + 55) / 56
}

/// The columns that word `strip` has of a row of `columns` columns.
#[inline(always)]
pub(crate) fn room_of(columns: u32, strip: usize) -> u32
    requires { strip < strips columns }
    ensures { result ≡ min 56 (columns - 56 * strip) }
{
    (columns - 56 * strip as u32).min(56)
}

/// The column where word `strip` begins, if the first word begins at column `at`.
#[inline(always)]
fn strip_at(at: i64, strip: usize) -> i64
    requires at { unsigned_abs at < 2 ^ 40 + 2 ^ 20 }
    requires strip { strip < 2 ^ 20 }
    ensures exact { result ≡ at +ℤ pos (56 * strip) }
    ensures small { unsigned_abs result < 2 ^ 41 }
{
    at + (56 * strip) as i64
}

/// Paints one word of each row, where a row of the band has fewer than eight bytes.
#[inline(always)]
fn paint_few(words: &[u64], at: StripPlace, band: &mut [u8])
    requires words { at.strips * at.rows ≤ length words.now }
    requires few { at.bytes < 8 }
    requires band { length band.old ≡ at.bytes * at.rows }
    ensures { IsBandBlackened at.bytes at.rows
        (λ i c. stamped at.place (slice_index words.now (at.strips * i + at.strip)) c) band.old band.new }
{
    for i in 0..at.rows {
        let eight = turned(words[at.strips * i + at.strip], at.place);
        let begin = at.bytes * i;
        or_few(&mut band[begin..begin + at.bytes], eight);
    }
}

/// Paints one word of each row, where a row of the band has eight bytes or more.
#[inline(always)]
fn paint_eight(words: &[u64], at: StripPlace, band: &mut [u8])
    requires words { at.strips * at.rows ≤ length words.now }
    requires many { 8 ≤ at.bytes }
    requires band { length band.old ≡ at.bytes * at.rows }
    ensures { IsBandBlackened at.bytes at.rows
        (λ i c. stamped at.place (slice_index words.now (at.strips * i + at.strip)) c) band.old band.new }
{
    for i in 0..at.rows {
        let eight = turned(words[at.strips * i + at.strip], at.place);
        let begin = at.bytes * i;
        or_eight(&mut band[begin..begin + at.bytes], at.place.start, eight);
    }
}

/// Paints one word of each row.
#[inline(always)]
fn paint_strip(words: &[u64], at: StripPlace, band: &mut [u8])
    requires words { at.strips * at.rows ≤ length words.now }
    requires band { length band.old ≡ at.bytes * at.rows }
    ensures { IsBandBlackened at.bytes at.rows
        (λ i c. stamped at.place (slice_index words.now (at.strips * i + at.strip)) c) band.old band.new }
{
    if at.place.mask == 0 {
        return;
    }
    if at.bytes < 8 {
        paint_few(words, at, band);
    } else {
        paint_eight(words, at, band);
    }
}

/// Whether the band's rows have eight bytes or more, and all columns of rows of one word.
#[inline(always)]
fn is_whole(row: RowPlace) -> bool
    ensures { result ≡ is_whole row.at row.columns row.width row.bytes }
{
    (0 < row.columns && row.columns <= 56)
        && (8 <= row.bytes
            && (0 <= row.at && row.at + i64::from(row.columns) <= i64::from(row.width)))
}

/// Paints rows of one word in a band of as many rows that has all their columns.
#[inline(always)]
fn paint_whole(words: &[u64], row: RowPlace, rows: usize, band: &mut [u8])
    requires whole { is_whole row.at row.columns row.width row.bytes ≡ true }
    requires words { rows ≤ length words.now }
    requires band { length band.old ≡ row.bytes * rows }
    ensures { IsBandBlackened row.bytes rows
        (λ i c. nat_lt c row.width && shown_in words.now row.columns row.at row.columns i c) band.old band.new }
{
    let place = whole_place(row.at, row.columns, row.width, row.bytes);
    let at = StripPlace {
        strips: 1,
        strip: 0,
        rows,
        bytes: row.bytes,
        place,
    };
    paint_eight(words, at, band);
}

/// Paints rows of words in a band of as many rows, as far as the band has their columns.
#[inline(never)]
fn paint_words(words: &[u64], row: RowPlace, rows: usize, band: &mut [u8])
    requires words { strips row.columns * rows ≤ length words.now }
    requires band { length band.old ≡ row.bytes * rows }
    ensures { IsBandBlackened row.bytes rows
        (λ i c. nat_lt c row.width && shown_in words.now row.columns row.at row.columns i c) band.old band.new }
{
    let strips = strips_of(row.columns);
    for strip in 0..strips {
        let place = place_of(
            strip_at(row.at, strip),
            room_of(row.columns, strip),
            row.width,
            row.bytes,
        );
        let at = StripPlace {
            strips,
            strip,
            rows,
            bytes: row.bytes,
            place,
        };
        paint_strip(words, at, band);
    }
}

/// Paints the rows of words that a band shares.
#[inline(always)]
pub(crate) fn paint_shared(words: &[u64], row: RowPlace, shared: SharedRows, band: &mut [u8])
    requires words { strips row.columns * (shared.own + shared.count) ≤ length words.now }
    requires band { row.bytes * (shared.first + shared.count) ≤ length band.old }
    ensures { (rows : ℕ) → IsBandBlackened row.bytes rows (λ i c. (nat_le shared.first i && nat_lt i (shared.first + shared.count))
        && (nat_lt c row.width && shown_in words.now row.columns row.at row.columns (shared.own + (i - shared.first)) c)) band.old band.new }
{
    let count = shared.count as usize;
    let first = row.bytes * shared.first as usize;
    if is_whole(row) {
        // Most glyphs are so narrow, and lie in their picture.
        paint_whole(
            &words[shared.own as usize..],
            row,
            count,
            &mut band[first..first + row.bytes * count],
        );
        return;
    }
    let own = strips_of(row.columns) * shared.own as usize;
    paint_words(
        &words[own..],
        row,
        count,
        &mut band[first..first + row.bytes * count],
    );
}
