//! Where the edges of an outline cross the centre lines of rows. OpenType, "TrueType Fundamentals". Lengths are in
//! 1/8192 pixel.

ghost use Rattle.std.specs.Prelude.{◌≡◌, ◌∷◌, [], pos, ◌^◌, ◌<◌, ◌≤◌, ◌≤ℤ◌, ◌<ℤ◌, ◌-ℤ◌, ◌*ℤ◌, unsigned_abs, IfNone, IfSome};
ghost use Rattle.std.specs.Int.{int_div_euclid};
ghost use Rattle.tt_scan_edges.specs.Winding.{EdgeFits};
ghost use Rattle.tt_scan_gaps.specs.Crossings.{centre, crossing, crossing_at, edge_x, gap_at, has_end_on_line, is_on_line, line_crossed, line_from, lines_crossed, meets_line, touches, upward};

use crate::mark::Crossing;
use tt_scan_edges::Edge;

/// A pixel, and from its border to its centre.
pub(crate) const PIXEL: i64 = 8192;

pub(crate) const HALF: i64 = 4096;

/// The whole pixels in a length: the floor.
#[inline(always)]
pub(crate) fn whole_pixels(length: i64) -> i64
    requires { unsigned_abs length < 2 ^ 34 }
    ensures exact { result ≡ int_div_euclid length (pos 8192) }
    ensures small { unsigned_abs result < 2 ^ 22 }
{
    length >> 13
}

/// The height of a line, and the place of a column's centre.
#[inline(always)]
pub(crate) fn centre(line: i64) -> i64
    requires { unsigned_abs line < 2 ^ 40 }
    ensures { result ≡ centre line }
{
    PIXEL * line + HALF
}

/// The first line that is not below a height.
#[inline(always)]
pub(crate) fn line_from(y: i32) -> i64
    requires { unsigned_abs y < 2 ^ 31 }
    ensures exact { result ≡ line_from y }
    ensures small { unsigned_abs result < 2 ^ 19 }
{
    whole_pixels(i64::from(y) + (HALF - 1))
}

/// The whole pixels in a short length: the floor. In 32 bits the compiler takes several edges at once.
#[inline(always)]
fn whole_of_short(length: i32) -> i32
    requires { unsigned_abs length < 2 ^ 31 }
    ensures exact { result ≡ int_div_euclid length (pos 8192) }
    ensures small { unsigned_abs result < 2 ^ 19 }
{
    length >> 13
}

/// The first line that is not below the height of an edge's end.
#[inline(always)]
fn line_of_end(y: i32) -> i32
    requires { unsigned_abs y < 2 ^ 30 }
    ensures exact { result ≡ line_from y }
    ensures small { unsigned_abs result < 2 ^ 19 }
{
    whole_of_short(y + 4095)
}

/// The gap of a place: the last centre that is not right of it.
#[inline(always)]
pub(crate) fn gap_at(x: i32) -> i64
    requires { unsigned_abs x < 2 ^ 30 }
    ensures exact { result ≡ gap_at x }
    ensures small { unsigned_abs result < 2 ^ 19 }
{
    i64::from(whole_of_short(x - 4096))
}

/// The edge from its lower end to its upper.
#[inline(always)]
fn upward(edge: Edge) -> Edge
    requires { EdgeFits edge }
    ensures exact { result ≡ upward edge }
    ensures fits { EdgeFits result }
    ensures order { result.ay ≤ℤ result.by }
{
    if edge.by < edge.ay {
        Edge {
            ax: edge.bx,
            ay: edge.by,
            bx: edge.ax,
            by: edge.ay,
        }
    } else {
        edge
    }
}

/// The number of lines that an edge crosses.
#[inline(always)]
pub fn lines_crossed(edge: Edge) -> u64
    requires { EdgeFits edge }
    ensures exact { result ≡ lines_crossed edge }
    ensures small { result < 2 ^ 20 }
{
    u64::from(line_of_end(edge.by).abs_diff(line_of_end(edge.ay)))
}

/// Whether a height is that of a line.
#[inline(always)]
pub(crate) fn is_on_line(y: i32) -> bool
    requires { unsigned_abs y < 2 ^ 30 }
    ensures { result ≡ is_on_line y }
{
    (i64::from(y) - HALF).rem_euclid(PIXEL) == 0
}

/// Whether an end of an edge lies on a line, of rows or of columns.
#[inline(always)]
pub fn has_end_on_line(edge: Edge) -> bool
    requires { EdgeFits edge }
    ensures { result ≡ has_end_on_line edge }
{
    (is_on_line(edge.ax) || is_on_line(edge.ay)) || (is_on_line(edge.bx) || is_on_line(edge.by))
}

/// Whether an edge from one height to another crosses a line or, where that counts, has an end on one.
#[inline(always)]
pub(crate) fn meets_line(ends_count: bool, a: i32, b: i32) -> bool
    requires a { unsigned_abs a < 2 ^ 30 }
    requires b { unsigned_abs b < 2 ^ 30 }
    ensures { result ≡ meets_line ends_count a b }
{
    line_of_end(a) != line_of_end(b) || (ends_count && (is_on_line(a) || is_on_line(b)))
}

/// The line that an edge crosses after `k` others.
#[inline(always)]
pub fn line_crossed(edge: Edge, k: u64) -> i64
    requires edge { EdgeFits edge }
    requires within { k < lines_crossed edge }
    ensures exact { result ≡ line_crossed edge k }
    ensures small { unsigned_abs result < 2 ^ 19 }
    ensures low { (upward edge).ay ≤ℤ centre result }
    ensures high { centre result <ℤ (upward edge).by }
{
    let from = line_from(edge.ay);
    if edge.ay < edge.by {
        from + k as i64
    } else {
        from - 1 - k as i64
    }
}

/// How far an edge is right of its lower end at a height that it crosses.
#[inline(always)]
fn run_to(up: Edge, y: i64) -> i64
    requires edge { EdgeFits up }
    requires low { up.ay ≤ℤ y }
    requires high { y <ℤ up.by }
    ensures exact { result ≡ int_div_euclid ((up.bx -ℤ up.ax) *ℤ (y -ℤ up.ay)) (up.by -ℤ up.ay) }
    ensures small { unsigned_abs result ≤ 2 ^ 31 }
{
    (up.run() * (y - i64::from(up.ay))).div_euclid(up.rise())
}

/// The place of an edge at a height that it crosses.
#[inline(always)]
fn edge_x(edge: Edge, y: i64) -> i64
    requires edge { EdgeFits edge }
    requires low { (upward edge).ay ≤ℤ y }
    requires high { y <ℤ (upward edge).by }
    ensures exact { result ≡ edge_x edge y }
    ensures small { unsigned_abs result < 2 ^ 33 }
{
    let up = upward(edge);
    i64::from(up.ax) + run_to(up, y)
}

/// The gap where an edge crosses a line, after `k` other lines. Where both ends lie in one gap no division is needed.
#[inline(always)]
pub fn gap_crossed(edge: Edge, k: u64) -> i64
    requires edge { EdgeFits edge }
    requires within { k < lines_crossed edge }
    ensures exact { result ≡ (crossing edge (line_crossed edge k)).gap }
    ensures small { unsigned_abs result < 2 ^ 22 }
{
    let gap = gap_at(edge.ax);
    if gap == gap_at(edge.bx) {
        return gap;
    }
    whole_pixels(edge_x(edge, centre(line_crossed(edge, k))) - HALF)
}

/// The crossing of a line at a place.
#[inline(always)]
fn crossing_at(up: bool, line: i64, x: i64) -> Crossing
    requires line { unsigned_abs line < 2 ^ 30 }
    requires place { unsigned_abs x < 2 ^ 33 }
    ensures { result ≡ crossing_at up line x }
{
    let from = x - HALF;
    Crossing {
        line: line as i32,
        gap: whole_pixels(from) as i32,
        place: from.rem_euclid(PIXEL) as u16,
        up,
    }
}

/// The crossing of an edge after `k` others.
#[inline(always)]
pub fn crossing(edge: Edge, k: u64) -> Crossing
    requires edge { EdgeFits edge }
    requires within { k < lines_crossed edge }
    ensures { result ≡ crossing edge (line_crossed edge k) }
{
    let line = line_crossed(edge, k);
    crossing_at(edge.ay < edge.by, line, edge_x(edge, centre(line)))
}

/// The upper end of an edge that is not level, where it lies on a line.
#[inline]
pub fn touch(edge: Edge) -> Option<Crossing>
    requires { EdgeFits edge }
    ensures some { IfSome result (λ c. touches edge ≡ c ∷ []) }
    ensures none { IfNone result (touches edge ≡ []) }
{
    let up = upward(edge);
    let from = i64::from(up.by) - HALF;
    if up.ay < up.by && from.rem_euclid(PIXEL) == 0 {
        Some(crossing_at(edge.ay < edge.by, from.div_euclid(PIXEL), i64::from(up.bx)))
    } else {
        None
    }
}
