//! The numbers of a table, at offsets where they fit.

ghost use Rattle.std.specs.Prelude.{◌≡◌, ◌+◌, ◌≤◌, length, slice_range};
ghost use Rattle.tt_core.specs.Numbers.{unsigned_at};
ghost use Rattle.tt_axes.specs.Axes.{fixed_at};

use tt_core::{i32_at, u16_at, u32_at};

pub(crate) fn word(table: &[u8], at: usize) -> u16
    requires { at + 2 ≤ length table.now }
    ensures { result ≡ unsigned_at table.now at 2 }
{
    u16_at(table, at).unwrap()
}

pub(crate) fn long(table: &[u8], at: usize) -> u32
    requires { at + 4 ≤ length table.now }
    ensures { result ≡ unsigned_at table.now at 4 }
{
    u32_at(table, at).unwrap()
}

/// A signed number of 16.16.
pub(crate) fn fixed(table: &[u8], at: usize) -> i32
    requires { at + 4 ≤ length table.now }
    ensures { result ≡ fixed_at table.now at }
{
    i32_at(table, at).unwrap()
}

pub(crate) fn tag(table: &[u8], at: usize) -> [u8; 4]
    requires { at + 4 ≤ length table.now }
    ensures { result ≡ slice_range table.now at (at + 4) }
{
    [table[at], table[at + 1], table[at + 2], table[at + 3]]
}
