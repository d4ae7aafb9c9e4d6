//! The results of an edge in a row: its turn, and its black columns.

ghost use Rattle.std.specs.Prelude.{◌≡◌, ◌≤◌, unsigned_abs};
ghost use Rattle.tt_scan_edges.specs.Marks.{turn_of};

use crate::insertion::HasColumn;

/// An edge turns left of the centres from this column on.
#[derive(Clone, Copy)]
pub(crate) struct TurnMark {
    pub(crate) first: i32,
    /// Not below 0 where the edge rises: the edge adds 1 to the winding of those centres. Below 0 where it falls: it
    /// subtracts 1.
    pub(crate) sign: i32,
}

impl HasColumn for TurnMark {
    #[inline(always)]
    fn column(&self) -> i32 {
        self.first
    }
}

impl TurnMark {
    /// The edge's turn.
    #[inline(always)]
    pub(crate) fn turn(self) -> i64
        ensures exact { result ≡ turn_of self }
        ensures small { unsigned_abs result ≤ 1 }
    {
        if self.sign >= 0 { 1 } else { -1 }
    }
}

/// Black columns of a row, from the first to the last, both included. Columns count from the left border of the
/// edges' own picture, and may be negative.
#[derive(Clone, Copy, Debug, PartialEq, Eq)]
pub struct Span {
    pub first: i64,
    pub last: i64,
}
