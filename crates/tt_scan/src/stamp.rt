//! Stamps: how the black columns of a narrow row become one word, which is painted by eight bytes at once.

ghost use Rattle.std.specs.Prelude.{◌≡◌, ℕ, ℤ, ◌+◌, ◌-◌, ◌*◌, ◌/◌, ◌%◌, ◌^◌, ◌<◌, ◌≤◌, ◌+ℤ◌, ◌-ℤ◌, ◌<ℤ◌, ◌≤ℤ◌, ◌&&◌, ◌||◌, ◌==◌, true, false, nat_le, nat_lt, int_le, pos, [], ◌∷◌, length, take, slice_index, unsigned_abs, IfSome};
ghost use Rattle.std.specs.Int.{bit_at};
ghost use Rattle.tt_scan.specs.Blackened.{IsBlackened};
ghost use Rattle.tt_scan_edges.specs.Marks.{covers, covers_from};
ghost use Rattle.tt_scan.specs.Stamps.{in_word, shows, IsStampOf};

use crate::paint::{paint_spans, paint_spans_at};
use crate::word::Stamp;
use tt_scan_edges::Span;

/// A word with the columns from `from` up to `to`.
#[inline(always)]
fn ones(from: u32, to: u32) -> u64
    requires order { from ≤ to }
    requires fits { to ≤ 57 }
    ensures { (j : ℕ) → j < 64 → (bit_at result (63 - j) == 1) ≡ (nat_le from j && nat_lt j to) }
{
    (u64::MAX >> from) - (u64::MAX >> to)
}

/// Eight bits of a word, from bit `by` on.
#[inline(always)]
fn word_byte(word: u64, by: usize) -> u8
    requires { by < 64 }
    ensures { (i : ℕ) → i < 8 → bit_at result i ≡ bit_at word (by + i) }
{
    ((word >> by) % 256) as u8
}

/// Blackens the columns of one byte that a mask sets.
#[inline(always)]
fn or_byte(row: &mut [u8], byte: usize, mask: u8)
    requires { byte < length row.old }
    ensures { IsBlackened (λ k. (k / 8 == byte) && (bit_at mask (7 - k % 8) == 1)) row.old row.new }
{
    row[byte] |= mask;
}

/// Blackens the columns of a stamp byte by byte, the first of them at column `at` of the row.
#[cold]
#[inline(never)]
fn or_bytes(row: &mut [u8], at: usize, stamp: Stamp)
    requires within { at + stamp.columns ≤ 8 * length row.old }
    ensures { IsBlackened (λ k. nat_le at k && in_word stamp.word (k - at)) row.old row.new }
{
    let start = at / 8;
    let by = 56 + at % 8;
    for i in 0..(at % 8 + stamp.columns as usize + 7) / 8 {
        or_byte(row, start + i, word_byte(stamp.word, by - 8 * i));
    }
}

/// Eight bytes of a row from `start` on as one number, the first byte the lowest.
fn read_eight(row: &[u8], start: usize) -> u64
    requires { start + 8 ≤ length row.now }
    ensures { (i : ℕ) → i < 8 → (b : ℕ) → b < 8 → bit_at result (8 * i + b) ≡ bit_at (slice_index row.now (start + i)) b }
{
    u64::from_le_bytes(*row[start..start + 8].as_array::<8>().unwrap())
}

/// Writes a number in the place of eight bytes of a row, the lowest byte first.
fn write_eight(row: &mut [u8], start: usize, eight: u64)
    requires { start + 8 ≤ length row.old }
    ensures within { (i : ℕ) → i < 8 → (b : ℕ) → b < 8 → bit_at (slice_index row.new (start + i)) b ≡ bit_at eight (8 * i + b) }
    ensures before { (at : ℕ) → at < start → slice_index row.new at ≡ slice_index row.old at }
    ensures after { (at : ℕ) → start + 8 ≤ at → slice_index row.new at ≡ slice_index row.old at }
    ensures len { length row.new ≡ length row.old }
{
    row[start..start + 8].copy_from_slice(&eight.to_le_bytes());
}

/// Blackens the columns of a word in eight bytes of a row, from byte `start` on.
#[inline(always)]
fn or_eight(row: &mut [u8], start: usize, word: u64)
    requires { start + 8 ≤ length row.old }
    ensures { IsBlackened (λ k. (nat_le (8 * start) k && nat_lt k (8 * start + 64))
        && (bit_at word (63 - (k - 8 * start)) == 1)) row.old row.new }
{
    let old = read_eight(row, start);
    write_eight(row, start, old | word.swap_bytes());
}

/// Blackens the columns of a stamp, the first of them at column `at` of the row.
#[inline(always)]
fn or_word(row: &mut [u8], at: usize, stamp: Stamp)
    requires within { at + stamp.columns ≤ 8 * length row.old }
    ensures { IsBlackened (λ k. nat_le at k && in_word stamp.word (k - at)) row.old row.new }
{
    if row.len() < 8 {
        or_bytes(row, at, stamp);
    } else {
        // Near the row's end the last eight bytes hold the word, since eight bytes from the word's own byte would pass
        // the end.
        let start = (at / 8).min(row.len() - 8);
        or_eight(row, start, stamp.word >> ((at - 8 * start) % 64));
    }
}

/// Blackens the columns of a stamp, where the row has eight bytes from the byte of its first column on.
#[inline(always)]
fn or_inside(row: &mut [u8], at: usize, stamp: Stamp)
    requires within { at + stamp.columns ≤ 8 * length row.old }
    requires inside { at / 8 + 8 ≤ length row.old }
    ensures { IsBlackened (λ k. nat_le at k && in_word stamp.word (k - at)) row.old row.new }
{
    or_eight(row, at / 8, stamp.word >> (at % 8));
}

/// A stamp with a span's columns added; None where the stamp has no room for them.
#[inline(always)]
fn with_span(stamp: Stamp, span: Span) -> Option<Stamp>
    ensures low { IfSome result (λ s. s.low ≡ stamp.low) }
    ensures shows { IfSome result (λ s. (c : ℤ) → shows s.low s.word c
        ≡ (shows stamp.low stamp.word c || (int_le span.first c && int_le c span.last))) }
{
    if span.first < stamp.low || span.last < span.first || stamp.low + 56 < span.last {
        return None;
    }
    let from = (span.first - stamp.low) as u32;
    let to = (span.last + 1 - stamp.low) as u32;
    Some(Stamp {
        low: stamp.low,
        columns: stamp.columns.max(to),
        word: stamp.word | ones(from, to),
    })
}

/// The lesser first column of the first span and the last, if it isn't far off. Mostly no span begins left of it,
/// because stretches are in order and few columns are touched.
#[inline(always)]
fn lowest(spans: &[Span]) -> i64
    ensures small { unsigned_abs result ≤ 2 ^ 40 }
{
    if spans.is_empty() {
        return 0;
    }
    spans[0]
        .first
        .min(spans[spans.len() - 1].first)
        .clamp(-(1 << 40), 1 << 40)
}

/// Whether the last span ends too far right of `low` for a stamp. Where stretches are in order, no span ends further
/// right.
#[inline(always)]
fn is_far(spans: &[Span], low: i64) -> bool
    requires { unsigned_abs low ≤ 2 ^ 40 }
{
    !spans.is_empty() && low + 56 < spans[spans.len() - 1].last
}

/// The columns of all spans as a stamp; None where a stamp has no room for them.
pub(crate) fn stamped(spans: &[Span]) -> Option<Stamp>
    ensures { IfSome result (λ s. IsStampOf spans.now s) }
{
    let low = lowest(spans);
    if is_far(spans, low) {
        return None;
    }
    let mut stamp = Stamp {
        low,
        columns: 0,
        word: 0,
    };
    for i in 0..spans.len() {
        stamp = with_span(stamp, spans[i])?;
    }
    Some(stamp)
}

/// The place of a stamp's first column in a row of `width` pixels, if the row has all of the stamp's columns.
#[inline(always)]
fn place_of(stamp: Stamp, shift: i64, width: u32) -> Option<usize>
    requires { unsigned_abs shift < 2 ^ 40 }
    ensures at { IfSome result (λ at. pos at ≡ stamp.low +ℤ shift) }
    ensures within { IfSome result (λ at. at + stamp.columns ≤ width) }
{
    let at = stamp.low + shift;
    let room = width.saturating_sub(stamp.columns.saturating_sub(1));
    if 0 <= at && at < i64::from(room) {
        Some(at as usize)
    } else {
        None
    }
}

/// The first column of a row of `width` pixels that is too far right for a stamp. A stamp that begins before this
/// column fits in the row, and the row has eight bytes from that of the stamp's first column on.
#[inline(always)]
fn inside(width: u32) -> i64
    ensures low { pos 0 ≤ℤ result }
    ensures within { (at : ℕ) → pos at <ℤ result → at + 64 ≤ width }
{
    i64::from(width.saturating_sub(63))
}

/// Blackens the columns of all spans from a pen, if the row has all of them; else does nothing. Returns whether it has.
#[inline(always)]
fn paint_fit(
    stamp: Stamp,
    spans: &[Span],
    pen: u32,
    inside: i64,
    width: u32,
    row: &mut [u8],
) -> bool
    requires stamp { IsStampOf spans.now stamp }
    requires low { pos 0 ≤ℤ inside }
    requires inside { (at : ℕ) → pos at <ℤ inside → at + 64 ≤ width }
    requires width { width ≤ 8 * length row.old }
    ensures painted { result ≡ true → IsBlackened (λ k. nat_lt k width && covers spans.now (pos k -ℤ pos pen)) row.old row.new }
    ensures none { result ≡ false → row.new ≡ row.old }
{
    let at = stamp.low + i64::from(pen);
    if (0 <= at) & (at < inside) {
        or_inside(row, at as usize, stamp);
        return true;
    }
    match place_of(stamp, i64::from(pen), width) {
        Some(at) => {
            or_word(row, at, stamp);
            true
        }
        None => false,
    }
}

/// Blackens the columns of all spans, moved by `shift` columns to the right: by their stamp, or span by span at a
/// border.
#[inline(always)]
pub(crate) fn paint_stamp(stamp: Stamp, spans: &[Span], shift: i64, width: u32, row: &mut [u8])
    requires stamp { IsStampOf spans.now stamp }
    requires shift { unsigned_abs shift < 2 ^ 40 }
    requires width { width ≤ 8 * length row.old }
    ensures { IsBlackened (λ k. nat_lt k width && covers spans.now (pos k -ℤ shift)) row.old row.new }
{
    match place_of(stamp, shift, width) {
        Some(at) => or_word(row, at, stamp),
        None => paint_spans(spans, shift, width, row),
    }
}

/// Paints the stamp at one pen after another, up to the first where it does not fit. Returns the number of these pens.
/// The number is 0 if the row has fewer than eight bytes.
#[inline(always)]
fn paint_fitting(stamp: Stamp, spans: &[Span], pens: &[u32], width: u32, row: &mut [u8]) -> usize
    requires stamp { IsStampOf spans.now stamp }
    requires width { width ≤ 8 * length row.old }
    ensures painted { IsBlackened (λ k. nat_lt k width && covers_from spans.now (take result pens.now) k) row.old row.new }
    ensures within { result ≤ length pens.now }
{
    if row.len() < 8 {
        return 0;
    }
    let inside = inside(width);
    for i in 0..pens.len() {
        if !paint_fit(stamp, spans, pens[i], inside, width, row) {
            return i;
        }
    }
    pens.len()
}

/// Blackens the columns of all spans from each pen, moved to the right by the pen's columns.
#[inline(always)]
fn paint_stamps(stamp: Stamp, spans: &[Span], pens: &[u32], width: u32, row: &mut [u8])
    requires stamp { IsStampOf spans.now stamp }
    requires width { width ≤ 8 * length row.old }
    ensures { IsBlackened (λ k. nat_lt k width && covers_from spans.now pens.now k) row.old row.new }
{
    let done = paint_fitting(stamp, spans, pens, width, row);
    if done < pens.len() {
        paint_spans_at(spans, &pens[done..], width, row);
    }
}

/// The columns of one span as a stamp; None where a stamp has no room for them.
#[inline(always)]
fn stamp_of(span: Span) -> Option<Stamp>
    ensures { IfSome result (λ s. IsStampOf (span ∷ []) s) }
{
    if span.first < -(1 << 40) || 1 << 40 < span.first {
        return None;
    }
    let start = Stamp {
        low: span.first,
        columns: 0,
        word: 0,
    };
    let stamp = with_span(start, span)?;
    Some(stamp)
}

/// Blackens the columns of one span from each pen.
#[inline(always)]
fn paint_one(span: Span, pens: &[u32], width: u32, row: &mut [u8])
    requires width { width ≤ 8 * length row.old }
    ensures { IsBlackened (λ k. nat_lt k width && covers_from (span ∷ []) pens.now k) row.old row.new }
{
    match stamp_of(span) {
        Some(stamp) => paint_stamps(stamp, &[span], pens, width, row),
        None => paint_spans_at(&[span], pens, width, row),
    }
}

/// Blackens the columns of all spans from each pen, span by span.
fn paint_each(spans: &[Span], pens: &[u32], width: u32, row: &mut [u8])
    requires width { width ≤ 8 * length row.old }
    ensures { IsBlackened (λ k. nat_lt k width && covers_from spans.now pens.now k) row.old row.new }
{
    for i in 0..spans.len() {
        paint_one(spans[i], pens, width, row);
    }
}

/// Blackens the pixels that spans cover from each pen of a glyph, moved to the right by the pen's columns: by their
/// stamp, or span by span where they have no stamp. The row has `width` pixels, the leftmost in the highest bit of the
/// first byte. All other bits are unchanged. It takes no memory.
#[inline(always)]
pub fn paint_columns(stamp: Option<Stamp>, spans: &[Span], pens: &[u32], width: u32, row: &mut [u8])
    requires stamp { IfSome stamp (IsStampOf spans.now) }
    requires width { width ≤ 8 * length row.old }
    ensures { IsBlackened (λ k. nat_lt k width && covers_from spans.now pens.now k) row.old row.new }
{
    match stamp {
        Some(stamp) => paint_stamps(stamp, spans, pens, width, row),
        None => paint_each(spans, pens, width, row),
    }
}
