//! An entry of an edge table: the number of an edge, and the rows that the edge meets.

ghost use Rattle.std.specs.Prelude.{◌≡◌, ◌+ℤ◌, ◌<ℤ◌, ◌^◌, pos, int_lt};

/// An edge by its number on the tape, and the rows of the frame whose centre line meets it: the first, and one past the
/// last. The type is small, because there are many entries and a sort moves them.
#[derive(Clone, Copy)]
pub struct Entry {
    pub first: i16,
    pub past: i16,
    pub edge: u32,
}

impl Entry {
    /// Whether the edge continues below row `r`, if it meets that row.
    #[inline(always)]
    pub fn goes_below(self, r: i32) -> bool
        requires { r <ℤ pos (2 ^ 30) }
        ensures { result ≡ int_lt (r +ℤ pos 1) self.past }
    {
        r + 1 < i32::from(self.past)
    }

    /// Whether the edge begins below row `r`.
    #[inline(always)]
    pub fn begins_below(self, r: i32) -> bool
        ensures { result ≡ int_lt r self.first }
    {
        r < i32::from(self.first)
    }

    /// Whether the edge ends in row `r` or below it.
    #[inline(always)]
    pub fn reaches(self, r: i32) -> bool
        ensures { result ≡ int_lt r self.past }
    {
        r < i32::from(self.past)
    }

    /// Whether the edge has more than one row.
    #[inline(always)]
    pub fn is_long(self) -> bool
        ensures { result ≡ int_lt (self.first +ℤ pos 1) self.past }
    {
        self.goes_below(i32::from(self.first))
    }
}
