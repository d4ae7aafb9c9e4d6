//! What head, maxp and hhea have in common.

ghost use Rattle.std.specs.Prelude.{◌≤◌, ℕ, List, Result, length, IsTrue, IfOk, OnOk, IfErr};
ghost use Rattle.tt_core.specs.Limits.{font_limit};
ghost use Rattle.tt_core.specs.Faults.{Fault, is_ascii};
ghost use Rattle.tt_core.specs.Outcomes.{Gives};
ghost use Rattle.tt_metrics.specs.Tables.{or_short, IsShort};

use tt_core::{Fault, Why};

/// The fields of a table.
pub(crate) trait Fields: Copy {
    // The fields in bytes, or the first fault of the bytes.
    ghost fields_in: { List ℕ → Result Self Fault };

    // A defect of bytes.
    ghost IsBad: { List ℕ → Fault → Type 0 };

    // The ranges of the fields.
    ghost HasRanges: { Self → Type 0 };

    /// The fields in bytes of a table.
    fn read(table: &[u8]) -> Result<Self, Fault>
        requires { length table.now ≤ font_limit }
        ensures exact { Gives (λ t. t) result (fields_in table.now) }
        ensures ranges { IfOk result HasRanges }
        ensures fault { IfErr result (IsBad table.now) };
}

/// Refuses a table of fewer than `least` bytes, at its length. Error: MetricsShort.
pub(crate) fn test_length(tag: [u8; 4], least: usize, table: &[u8]) -> Result<(), Fault>
    requires ascii { IsTrue (is_ascii tag) }
    requires size { length table.now ≤ font_limit }
    ensures exact { Gives (λ _. table.now) result (or_short tag least table.now) }
    ensures long { OnOk result (least ≤ length table.now) }
    ensures fault { IfErr result (IsShort tag least table.now) }
{
    if table.len() < least {
        return Err(Fault::new(tag, table.len() as u32, Why::MetricsShort));
    }
    Ok(())
}
