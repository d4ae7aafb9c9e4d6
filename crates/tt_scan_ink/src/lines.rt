//! The number of columns or lines of a box.

ghost use Rattle.std.specs.Prelude.{◌≡◌, ◌^◌, ◌≤◌};
ghost use Rattle.tt_scan_ink.specs.Least.{AreNear};
ghost use Rattle.tt_scan_ink.specs.Ink.{count_of};

use tt_scan_dropouts::Columns;

/// The count of numbers from a first to a last.
pub(crate) fn count_of(numbers: Columns) -> u32
    requires { AreNear numbers }
    ensures exact { result ≡ count_of numbers }
    ensures small { result ≤ 2 ^ 19 }
{
    (numbers.last - numbers.first).unsigned_abs() as u32 + 1
}
