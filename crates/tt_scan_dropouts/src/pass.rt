//! A pass over the gaps of all rows, or of all columns: which pixels it adds.

ghost use Rattle.std.specs.Prelude.{◌≡◌, ℤ, ◌<◌, not, ◌&&◌, ◌||◌, ◌+ℤ◌, pos, length, get_or, IfOk, OnOk};
ghost use Rattle.std.specs.Ordering.{int_eq};
ghost use Rattle.tt_scan_gaps.specs.Gaps.{IsInOrder, asked_by, is_added, is_odd};
ghost use Rattle.tt_scan_dropouts.specs.Passes.{asked_before, has_pixel};
ghost use Rattle.tt_scan_dropouts.specs.Seen.{is_black_to};
ghost use Rattle.tt_scan_gaps.specs.declared.mark.Mark.{Mark};

use crate::marks::{Pass, is_free};
use crate::pixel::Pixel;
use std::alloc::{AllocError, Global};
use tt_scan_gaps::{Columns, Mark, group_end, pixel_of, some_asks};

/// The pixel that the gap of these marks needs.
fn asked(pass: Pass, columns: Columns, marks: &[Mark]) -> Option<i64>
    requires { 0 < length marks.now }
    ensures { (d : Mark) → result ≡ asked_by pass.entry.rules columns (is_black_to pass.entry)
        (get_or marks.now 0 d).at.line (get_or marks.now 0 d).at.gap marks.now }
{
    let at = marks[0].at;
    if is_free(pass, at) && some_asks(marks) {
        Some(pixel_of(pass.rules, columns, at.gap, marks))
    } else {
        None
    }
}

/// A gap that needs a pixel.
#[derive(Clone, Copy)]
struct Wish {
    line: i32,
    gap: i32,
    pixel: i64,
    /// How many gaps side by side, the last of them left of this one, need the pixel at their right; counted to four.
    before: u8,
}

/// Whether a gap left of another needs the pixel in common.
fn shares(left: Wish, gap: i32) -> bool
    ensures { result ≡ (int_eq (left.gap +ℤ pos 1) gap && int_eq left.pixel gap) }
{
    let gap = i64::from(gap);
    i64::from(left.gap) + 1 == gap && left.pixel == gap
}

/// How many gaps side by side, the last of them left of a gap, need the pixel at their right; counted to four. `last` is
/// the gap before it that needed a pixel last.
fn asked_before(last: Option<Wish>, line: i32, gap: i32) -> u8
    ensures { result ≡ asked_before last line gap }
{
    match last {
        Some(l) => {
            if l.line == line && shares(l, gap) {
                l.before.min(3) + 1
            } else {
                0
            }
        }
        None => 0,
    }
}

/// Adds the pixel that a gap needs, unless the gap left of it takes the pixel in common. Error: memory ran out.
fn grant(added: &mut Vec<Pixel>, wish: Wish) -> Result<(), AllocError>
    ensures { OnOk result ((p j : ℤ) → has_pixel added.new.items p j
        ≡ (has_pixel added.old.items p j
        || (not (is_odd wish.before) && (int_eq wish.pixel p && int_eq wish.line j)))) }
{
    if wish.before % 2 != 1 {
        added.push(Pixel {
            column: wish.pixel,
            row: i64::from(wish.line),
        })?;
    }
    Ok(())
}

/// The pixels that a pass adds, by marks in order and the columns of the glyph's box. Error: memory ran out.
pub(crate) fn added_by(
    alloc: Global,
    pass: Pass,
    columns: Columns,
    marks: &[Mark],
) -> Result<Vec<Pixel>, AllocError>
    requires { IsInOrder marks.now }
    ensures { IfOk result (λ v. (p j : ℤ)
        → has_pixel v.items p j ≡ is_added pass.entry.rules columns marks.now (is_black_to pass.entry) p j) }
{
    let mut added = Vec::new(alloc);
    let mut last = None;
    let mut start = 0;
    while start < marks.len() {
        let end = group_end(marks, start);
        if let Some(pixel) = asked(pass, columns, &marks[start..end]) {
            let at = marks[start].at;
            let wish = Wish {
                line: at.line,
                gap: at.gap,
                pixel,
                before: asked_before(last, at.line, at.gap),
            };
            grant(&mut added, wish)?;
            last = Some(wish);
        }
        start = end;
    }
    Ok(added)
}
