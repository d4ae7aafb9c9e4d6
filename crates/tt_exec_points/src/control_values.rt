//! DELTAC1 to DELTAC3: exceptions for control values. Apple TrueType Reference Manual, "Instruction set".

ghost use Rattle.std.specs.Prelude.{◌≡◌, IfErr, ◌+ℤ◌};
ghost use Rattle.tt_core.specs.Outcomes.{Gives};
ghost use Rattle.tt_exec_points.specs.ControlValues as is;
ghost use Rattle.tt_exec_stack.specs.Stack.{Does};

use crate::popping::{pairs_counted, pairs_there};
use tt_core::Why;
use tt_exec_stack::Stack;
use tt_points_loops::deltas::{Deltas, Pair, delta_of, pair_at};
use tt_state::GraphicsState;

/// A sum that fits 32 bits. Error: ValueRange.
fn sum(a: i32, b: i32) -> Result<i32, Why>
    ensures { Gives (λ v. v) result (is.value_of (a +ℤ b)) }
{
    i32::try_from(i64::from(a) + i64::from(b)).map_err(|_| Why::ValueRange)
}

/// Adds `d`, if there is one, to control value `n`. Errors: CvtRange, ValueRange.
fn change_by(d: Option<i32>, n: i32, cvt: &mut [i32]) -> Result<(), Why>
    ensures exact { Gives (λ u. cvt.new) result (is.change_by d n cvt.old) }
    ensures kept { IfErr result (λ why. cvt.new ≡ cvt.old) }
{
    let Some(d) = d else {
        return Ok(());
    };
    if n < 0 || n as usize >= cvt.len() {
        return Err(Why::CvtRange);
    }
    cvt[n as usize] = sum(cvt[n as usize], d)?;
    Ok(())
}

/// Changes the control value of a pair as its argument requests. Errors: BadArgument, CvtRange, ValueRange.
fn change_pair(by: Deltas, state: &GraphicsState, pair: Pair, cvt: &mut [i32]) -> Result<(), Why>
    ensures exact { let given = is.change_pair by.tolerance by.range by.ppem state.now (pair.argument, pair.number) in
        Does (given cvt.old) cvt.new result }
    ensures kept { IfErr result (λ why. cvt.new ≡ cvt.old) }
{
    let d = delta_of(by, pair.argument, state)?;
    change_by(d, pair.number, cvt)
}

/// Changes the control value of every pair, the last pair first. A tolerant machine passes over a missing one. Errors:
/// BadArgument, CvtRange, ValueRange.
fn change_all(by: Deltas, state: &GraphicsState, pairs: &[i32], cvt: &mut [i32]) -> Result<(), Why>
    ensures { let given = is.changes by.tolerance by.range by.ppem state.now (is.popped pairs.now) cvt.old in
        Does given cvt.new result }
{
    for i in (0..pairs.len() / 2).rev() {
        match change_pair(by, state, pair_at(pairs, i), cvt) {
            Ok(()) => {}
            Err(why) if by.tolerance.passes_over(why) => {}
            Err(why) => return Err(why),
        }
    }
    Ok(())
}

/// DELTAC1[] to DELTAC3[], 0x73 to 0x75: n pairs of an argument and a control value's number, n -> nothing. Errors:
/// BadArgument, CvtRange, ValueRange.
pub(crate) fn deltac(
    by: Deltas,
    stack: &mut Stack,
    graphics: &GraphicsState,
    cvt: &mut [i32],
) -> Result<(), Why>
    ensures { let given = is.deltac by.tolerance by.range by.ppem stack.old graphics.now cvt.old in
        Does given (stack.new, cvt.new) result }
{
    let many = pairs_counted(stack)?;
    let there = pairs_there(by.tolerance, many, stack);
    let pairs = stack.top(there)?;
    change_all(by, graphics, pairs, cvt)?;
    stack.discard(many.min(stack.len()));
    Ok(())
}
