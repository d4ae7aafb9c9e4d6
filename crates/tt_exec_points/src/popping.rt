//! The values that an instruction on points takes from the stack, and what a tolerant machine passes over. Apple
//! TrueType Reference Manual, "Instructing TrueType Glyphs".

ghost use Rattle.std.specs.Prelude.{◌≡◌};
ghost use Rattle.tt_core.specs.Outcomes.{Gives};
ghost use Rattle.tt_exec_points.specs.Popping as popping;

use tt_core::Why;
use tt_exec_stack::Stack;
use tt_state::Tolerance;

/// The result, or `$instead` if a tolerant machine passes over its refusal.
macro_rules! unless_missing {
    ($tolerance:expr, $done:expr, $instead:expr) => {
        match $done {
            Err(why) if $tolerance.passes_over(why) => Ok($instead),
            done => done,
        }
    };
}

/// Pops the values that an instruction takes, the top first, and does its work with them. A tolerant machine passes over
/// a missing thing. The caller imports `unless_missing` too.
macro_rules! popped {
    ($tolerance:ident, $stack:ident, $($value:ident),+ => $done:expr) => {{
        $(let $value = $stack.pop()?;)+
        unless_missing!($tolerance, $done, ())
    }};
}

pub(crate) use popped;
pub(crate) use unless_missing;

/// Pops a count of pairs, and gives their count of entries. Errors: StackShort, BadArgument below 0.
pub(crate) fn pairs_counted(stack: &mut Stack) -> Result<usize, Why>
    ensures { Gives (λ n. (n, stack.new)) result (popping.pairs_counted stack.old) }
{
    let n = stack.pop()?;
    if n < 0 {
        return Err(Why::BadArgument);
    }
    Ok(2 * n as usize)
}

/// The count of entries to take in pairs: `many`, or on a tolerant machine those of the whole pairs that exist.
pub(crate) fn pairs_there(tolerance: Tolerance, many: usize, stack: &Stack) -> usize
    ensures { result ≡ popping.pairs_there tolerance many stack.now }
{
    if tolerance.is_tolerant() && stack.len() < many {
        return stack.len() / 2 * 2;
    }
    many
}
