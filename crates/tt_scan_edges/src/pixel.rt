//! Whether a pixel is black, by all edges of a glyph: slow, and the rule itself.

ghost use Rattle.std.specs.Prelude.{◌≡◌, ◌+◌, ◌^◌, ◌≤◌, int_le, pos, length, if◌then◌else◌, unsigned_abs};
ghost use Rattle.tt_scan_edges.specs.Crossing.{spans};
ghost use Rattle.tt_scan_edges.specs.Winding.{is_black, column_x};

use crate::counted::CountedEdges;
use crate::edge::Cross;
use crate::row_at::RowAt;

impl CountedEdges {
    /// Whether the centre of a column of a row is black: it lies on an edge, or the edges wind round it. Only tests need
    /// this function: the program draws whole rows.
    pub fn is_black(&mut self, c: i64, at: RowAt) -> bool
        requires { self.old.crosses + length self.old.edges ≤ 2 ^ 63 }
        ensures black { result ≡ is_black self.old.edges (column_x at.frame.margin c) at.y }
        ensures kept { self.new ≡ record self.old { crosses = self.new.crosses } }
        ensures count { self.new.crosses ≤ self.old.crosses + length self.old.edges }
    {
        let mut winding = 0;
        for i in 0..self.len() {
            let cross = self.cross(i, at);
            if touches(cross, c) {
                return true;
            }
            winding += turn_before(cross, c);
        }
        winding != 0
    }
}

/// Whether a column's centre lies on the edge.
fn touches(cross: Cross, c: i64) -> bool
    ensures { result ≡ spans cross.touch c }
{
    match cross.touch {
        Some((first, last)) => first <= c && c <= last,
        None => false,
    }
}

/// How much the edge adds to the winding of a column's centre.
fn turn_before(cross: Cross, c: i64) -> i64
    ensures small { unsigned_abs result ≤ 1 }
    ensures exact { result ≡ (if int_le cross.first c then cross.turn else pos 0) }
{
    if cross.first <= c {
        i64::from(cross.turn)
    } else {
        0
    }
}
