//! The least box that holds black pixels.

ghost use Rattle.std.specs.Prelude.{◌≡◌, ℕ, Bool, ◌+◌, ◌*◌, ◌^◌, ◌<◌, ◌≤◌, ◌&&◌, ◌||◌, ◌==◌, nat_lt, min, max, length, unsigned_abs};
ghost use Rattle.tt_bitmap.specs.Bitmaps.{strips};
ghost use Rattle.tt_bitmap.specs.Inks.{AreAbove, AreSides, IsNarrowInk, box_by, has_column, in_row, joined, joined_boxes, row_has};
ghost use Rattle.tt_bitmap.specs.Words.{in_word};

use crate::run::ones;
use crate::strip::{room_of, strips_of};

/// The least box that holds black pixels; all four sides are included. Columns count rightwards, lines upwards.
#[derive(Clone, Copy, Debug, PartialEq, Eq)]
pub struct LeastBox {
    pub left: i64,
    pub bottom: i64,
    pub right: i64,
    pub top: i64,
}

/// The first and the last row, and the first and the last column, that have a black pixel.
#[derive(Clone, Copy)]
pub(crate) struct InkSides {
    pub(crate) first_row: u32,
    pub(crate) last_row: u32,
    pub(crate) first: u32,
    pub(crate) last: u32,
}

/// The black pixels of rows of one word: their columns, and the first and the last row that have one.
#[derive(Clone, Copy)]
pub(crate) struct NarrowInk {
    pub(crate) columns: u64,
    pub(crate) first_row: u32,
    pub(crate) last_row: u32,
}

/// The least box that holds two boxes.
fn joined_boxes(a: LeastBox, b: LeastBox) -> LeastBox
    ensures { result ≡ joined_boxes a b }
{
    LeastBox {
        left: a.left.min(b.left),
        bottom: a.bottom.min(b.bottom),
        right: a.right.max(b.right),
        top: a.top.max(b.top),
    }
}

/// The least box that holds two boxes, where None is the empty box.
pub fn joined(a: Option<LeastBox>, b: Option<LeastBox>) -> Option<LeastBox>
    ensures { result ≡ joined a b }
{
    match (a, b) {
        (Some(a), Some(b)) => Some(joined_boxes(a, b)),
        (Some(a), None) => Some(a),
        (None, b) => b,
    }
}

/// The least sides that hold two.
#[inline(always)]
fn joined_sides(a: InkSides, b: InkSides) -> InkSides
    ensures { result ≡ record {
      first_row = min a.first_row b.first_row;
      last_row = max a.last_row b.last_row;
      first = min a.first b.first;
      last = max a.last b.last;
    } }
{
    InkSides {
        first_row: a.first_row.min(b.first_row),
        last_row: a.last_row.max(b.last_row),
        first: a.first.min(b.first),
        last: a.last.max(b.last),
    }
}

/// The sides of the black pixels so far, and of a word that begins at column `begin` of row `row`.
#[inline(always)]
fn with_word(sides: Option<InkSides>, word: u64, row: u32, begin: u32) -> Option<InkSides>
    requires { begin < 2 ^ 21 }
    ensures { (black : ℕ → ℕ → Bool) → AreSides black sides → AreSides (λ r m. black r m || in_row word row begin r m) result }
{
    if word == 0 {
        return sides;
    }
    let own = InkSides {
        first_row: row,
        last_row: row,
        first: begin + word.leading_zeros(),
        last: begin + 63 - word.trailing_zeros(),
    };
    match sides {
        None => Some(own),
        Some(others) => Some(joined_sides(others, own)),
    }
}

/// The first `room` columns of a word.
#[inline(always)]
fn first_columns(word: u64, room: u32) -> u64
    requires { room ≤ 56 }
    ensures { (j : ℕ) → has_column result j ≡ (nat_lt j room && in_word word j) }
{
    word & ones(0, room)
}

/// The sides of the black pixels so far, and of row `row` of words of `columns` columns.
fn with_row(sides: Option<InkSides>, words: &[u64], columns: u32, row: u32) -> Option<InkSides>
    requires columns { columns < 2 ^ 20 }
    requires words { strips columns * (row + 1) ≤ length words.now }
    ensures { (black : ℕ → ℕ → Bool) → AreSides black sides
        → AreSides (λ r m. black r m || ((r == row) && row_has words.now columns columns r m)) result }
{
    let strips = strips_of(columns);
    let mut sides = sides;
    for strip in 0..strips {
        let word = words[strips * row as usize + strip];
        sides = with_word(
            sides,
            first_columns(word, room_of(columns, strip)),
            row,
            56 * strip as u32,
        );
    }
    sides
}

/// The black pixels so far, and of the word of row `row`, which is below them.
#[inline(always)]
fn with_narrow(ink: NarrowInk, word: u64, row: u32) -> NarrowInk
    ensures { (black : ℕ → ℕ → Bool) → AreAbove row black → IsNarrowInk black ink
        → IsNarrowInk (λ r m. black r m || ((r == row) && has_column word m)) result }
{
    if word == 0 {
        return ink;
    }
    if ink.columns == 0 {
        return NarrowInk {
            columns: word,
            first_row: row,
            last_row: row,
        };
    }
    NarrowInk {
        columns: ink.columns | word,
        first_row: ink.first_row,
        last_row: row,
    }
}

/// The sides of the black pixels of rows of one word; None where there is no black pixel.
#[inline(always)]
fn narrow_sides(ink: NarrowInk) -> Option<InkSides>
    ensures { (black : ℕ → ℕ → Bool) → IsNarrowInk black ink → AreSides black result }
{
    if ink.columns == 0 {
        return None;
    }
    Some(InkSides {
        first_row: ink.first_row,
        last_row: ink.last_row,
        first: ink.columns.leading_zeros(),
        last: 63 - ink.columns.trailing_zeros(),
    })
}

/// The sides of the black pixels of `height` rows of one word, with `columns` columns; None where there is no black pixel.
fn sides_of_narrow(words: &[u64], columns: u32, height: u32) -> Option<InkSides>
    requires columns { strips columns ≡ 1 }
    requires words { height ≤ length words.now }
    ensures { AreSides (λ r m. nat_lt r height && row_has words.now columns columns r m) result }
{
    let mut ink = NarrowInk {
        columns: 0,
        first_row: 0,
        last_row: 0,
    };
    for r in 0..height {
        ink = with_narrow(ink, first_columns(words[r as usize], columns), r);
    }
    narrow_sides(ink)
}

/// The sides of the black pixels of words, `height` rows of `columns` columns; None where there is no black pixel.
pub(crate) fn sides_of(words: &[u64], columns: u32, height: u32) -> Option<InkSides>
    requires columns { columns < 2 ^ 20 }
    requires words { strips columns * height ≤ length words.now }
    ensures { AreSides (λ r m. nat_lt r height && row_has words.now columns columns r m) result }
{
    let strips = strips_of(columns);
    if strips == 1 {
        // Most glyphs are so narrow.
        return sides_of_narrow(words, columns, height);
    }
    let mut sides = None;
    for row in 0..height {
        sides = with_row(sides, words, columns, row);
    }
    sides
}

/// The box that has these sides, where column 0 is `left` and row 0 is line `top`.
#[inline(always)]
pub(crate) fn box_by(left: i64, top: i64, sides: InkSides) -> LeastBox
    requires left { unsigned_abs left < 2 ^ 20 }
    requires top { unsigned_abs top < 2 ^ 20 }
    ensures { result ≡ box_by left top sides }
{
    LeastBox {
        left: left + i64::from(sides.first),
        bottom: top - i64::from(sides.last_row),
        right: left + i64::from(sides.last),
        top: top - i64::from(sides.first_row),
    }
}
