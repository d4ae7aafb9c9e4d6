//! A count of looks at the gaps of a glyph. By its clauses `look` takes one of the remaining looks, and without any its
//! answer is true. No clause counts how often edges are read.

ghost use Rattle.std.specs.Prelude.{◌≡◌, true, false, ◌+◌, ◌^◌, ◌<◌, ◌≤◌, map, unsigned_abs, All};
ghost use Rattle.tt_scan_edges.specs.Winding.{EdgeFits};
ghost use Rattle.tt_scan_gaps.specs.BothWays.{NoneFreeBothWays, is_black_seen, look_limit};
ghost use Rattle.tt_scan_gaps.specs.Gaps.{is_free};
ghost use Rattle.tt_scan_gaps.specs.Seen.{seen_by};
ghost use Rattle.tt_scan_gaps.specs.declared.seen.Over.TheVariants as over;

use crate::both_ways::mark_edges;
use crate::crossings::centre;
use crate::point::winding;
use crate::seen::{Over, PassEdges};
use std::marker::Model;
use tt_scan_edges::Edge;

/// The looks that a glyph begins with.
const LOOKS: u32 = 16;

/// The remaining looks of a glyph. Clauses see the number.
#[derive(Drop)]
pub(crate) struct Looks {
    left: u32,
}

impl Model for Looks {
    ghost use Rattle.std.specs.Prelude.{ℕ, ◌≤◌};
    ghost use Rattle.tt_scan_gaps.specs.BothWays.{look_limit};

    ghost Value = { ℕ };

    ghost view = { λ l. l.left };

    ghost invariant = { λ l. l.left ≤ look_limit };
}

impl Looks {
    /// The looks of a glyph.
    fn all() -> Looks
        ensures { result ≡ look_limit }
    {
        Looks { left: LOOKS }
    }
}

/// Whether edges wind round the centre of a pixel of a line, as a pass sees it. If so, the pixel is black.
fn is_wound_round(pass: PassEdges, pixel: i64, line: i64) -> bool
    requires pixel { unsigned_abs pixel < 2 ^ 18 }
    requires line { unsigned_abs line < 2 ^ 18 }
    ensures { result ≡ true → is_black_seen pass.entry.over pass.entry.edges.now pixel line ≡ true }
{
    match pass.over {
        Over::Rows => winding(pass.edges, centre(pixel), centre(line)) != 0,
        Over::Columns => winding(pass.edges, centre(line), centre(pixel)) != 0,
    }
}

/// Whether a gap of a line may be free, as a pass sees it. It is not free where edges wind round a pixel beside it. The
/// test does not look for edges through such a pixel's centre.
fn may_be_free(pass: PassEdges, gap: i64, line: i64) -> bool
    requires gap { unsigned_abs gap + 1 < 2 ^ 18 }
    requires line { unsigned_abs line < 2 ^ 18 }
    ensures { result ≡ false → is_free (is_black_seen pass.entry.over pass.entry.edges.now) gap line ≡ false }
{
    !is_wound_round(pass, gap, line) && !is_wound_round(pass, gap + 1, line)
}

/// Whether a gap may be free. True where no looks remain; else one of them is taken. Few gaps need a look, so the code is
/// outside the loop that calls it.
#[cold]
#[inline(never)]
pub(crate) fn look(pass: PassEdges, looks: &mut Looks, gap: i64, line: i64) -> bool
    requires gap { unsigned_abs gap + 1 < 2 ^ 18 }
    requires line { unsigned_abs line < 2 ^ 18 }
    ensures free { result ≡ false → is_free (is_black_seen pass.entry.over pass.entry.edges.now) gap line ≡ false }
    ensures none { looks.old ≡ 0 → (result ≡ true) × (looks.new ≡ 0) }
    ensures one { 0 < looks.old → looks.new + 1 ≡ looks.old }
    ensures fewer { looks.new ≤ looks.old }
{
    if looks.left == 0 {
        return true;
    }
    looks.left -= 1;
    may_be_free(pass, gap, line)
}

/// Whether edges may cross some free gap of a row or of a column both rising and falling. False means that they do not.
/// True may also come where they do not.
pub fn may_cross_both_ways(edges: &[Edge]) -> bool
    requires { All EdgeFits edges.now }
    ensures rows { result ≡ false
        → NoneFreeBothWays (is_black_seen over.Rows edges.now) (map (seen_by over.Rows) edges.now) }
    ensures columns { result ≡ false
        → NoneFreeBothWays (is_black_seen over.Columns edges.now) (map (seen_by over.Columns) edges.now) }
{
    let mut looks = Looks::all();
    mark_edges(edges, &mut looks)
}
