//! The places of a label's rows in a picture of a given size.

ghost use Rattle.std.specs.Prelude.{◌≡◌, ◌*◌, ◌^◌, ◌<◌, ◌≤◌, ◌-ℤ◌, pos, unsigned_abs};
ghost use Rattle.tt_core.specs.Limits.{height_limit, margin_limit, text_limit, width_limit};
ghost use Rattle.tt_rows.specs.Places.{base_line, first_base_line, half, indent_by, left_of, rows_height};

use tt_line::Align;

/// Half of a number, rounded down.
fn half(n: i64) -> i64
    requires { unsigned_abs n ≤ 2 ^ 50 }
    ensures exact { result ≡ half n }
    ensures bound { unsigned_abs result ≤ 2 ^ 50 }
{
    n.div_euclid(2)
}

/// The columns before a row that leaves so many of its room: fewer than none for a row that is wider.
fn indent(align: Align, rest: i64) -> i64
    requires { unsigned_abs rest ≤ 2 ^ 50 }
    ensures exact { result ≡ indent_by align rest }
    ensures bound { unsigned_abs result ≤ 2 ^ 50 }
{
    match align {
        Align::Left => 0,
        Align::Centre => half(rest),
        Align::Right => rest,
    }
}

/// The first column of a row of this width, in a picture whose room is between two margins.
pub fn left_of(align: Align, margin: u32, room: u32, width: u64) -> i64
    requires margin { margin ≤ margin_limit }
    requires room { room ≤ width_limit }
    requires width { width < 2 ^ 45 }
    ensures { result ≡ left_of align margin room width }
{
    i64::from(margin) + indent(align, i64::from(room) - width as i64)
}

/// Pixels from the base line of a row to that of another, `more` rows below.
fn descent(more: usize, step: u32) -> u64
    requires more { more ≤ text_limit }
    requires step { step < 2 ^ 21 }
    ensures exact { result ≡ more * step }
    ensures bound { result ≤ 2 ^ 33 }
{
    more as u64 * u64::from(step)
}

/// Pixels from the top of a row to the bottom of another, `more` rows below.
pub fn rows_height(more: usize, step: u32, rise: i32, depth: i32) -> i64
    requires more { more ≤ text_limit }
    requires step { step < 2 ^ 21 }
    requires rise { unsigned_abs rise ≤ 614400 }
    requires depth { unsigned_abs depth ≤ 614400 }
    ensures exact { result ≡ rows_height more step rise depth }
    ensures bound { unsigned_abs result ≤ 2 ^ 34 }
{
    descent(more, step) as i64 + i64::from(rise) + i64::from(depth)
}

/// The rows of pixels that rows of text leave of a picture between two margins: fewer than none where they do not fit.
fn free_rows(height: u32, margin: u32, rows: i64) -> i64
    requires height { height ≤ height_limit }
    requires margin { margin ≤ margin_limit }
    requires rows { unsigned_abs rows ≤ 2 ^ 34 }
    ensures exact { result ≡ pos height -ℤ pos (2 * margin) -ℤ rows }
    ensures bound { unsigned_abs result ≤ 2 ^ 35 }
{
    i64::from(height) - i64::from(2 * margin) - rows
}

/// The base line of the first row, where rows of this height stand in the middle between two margins.
pub fn first_base_line(height: u32, margin: u32, rows: i64, rise: i32) -> i64
    requires height { height ≤ height_limit }
    requires margin { margin ≤ margin_limit }
    requires rows { unsigned_abs rows ≤ 2 ^ 34 }
    requires rise { unsigned_abs rise ≤ 614400 }
    ensures { result ≡ first_base_line height margin rows rise }
{
    i64::from(margin) + half(free_rows(height, margin, rows)) + i64::from(rise)
}

/// The base line of a row, by that of the first.
pub fn base_line(first: i64, step: u32, row: usize) -> i64
    requires first { unsigned_abs first ≤ 2 ^ 51 }
    requires step { step < 2 ^ 21 }
    requires row { row ≤ text_limit }
    ensures { result ≡ base_line first step row }
{
    first + descent(row, step) as i64
}
