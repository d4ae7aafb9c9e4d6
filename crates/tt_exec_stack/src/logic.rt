//! Logical functions. Apple TrueType Reference Manual, "Instruction set".

ghost use Rattle.std.specs.Prelude.{◌≡◌, ◌^◌, ◌<◌, unsigned_abs};
ghost use Rattle.tt_exec_stack.specs.Stack.{Does};
ghost use Rattle.tt_exec_stack.specs.Logic as is;

use crate::instruction::Logic;
use crate::stack::Stack;
use tt_core::Why;
use tt_state::Round;

fn truth(holds: bool) -> i64
    ensures { result ≡ is.truth holds }
{
    i64::from(holds)
}

/// LT[], 0x50: a, b -> a < b.
fn lt(stack: &mut Stack) -> Result<(), Why>
    ensures { Does (is.lt stack.old) stack.new result }
{
    let b = stack.pop()?;
    let a = stack.pop()?;
    stack.push(truth(a < b))
}

/// LTEQ[], 0x51: a, b -> a <= b.
fn lteq(stack: &mut Stack) -> Result<(), Why>
    ensures { Does (is.lteq stack.old) stack.new result }
{
    let b = stack.pop()?;
    let a = stack.pop()?;
    stack.push(truth(a <= b))
}

/// GT[], 0x52: a, b -> a > b.
fn gt(stack: &mut Stack) -> Result<(), Why>
    ensures { Does (is.gt stack.old) stack.new result }
{
    let b = stack.pop()?;
    let a = stack.pop()?;
    stack.push(truth(a > b))
}

/// GTEQ[], 0x53: a, b -> a >= b.
fn gteq(stack: &mut Stack) -> Result<(), Why>
    ensures { Does (is.gteq stack.old) stack.new result }
{
    let b = stack.pop()?;
    let a = stack.pop()?;
    stack.push(truth(a >= b))
}

/// EQ[], 0x54: a, b -> a = b.
fn eq(stack: &mut Stack) -> Result<(), Why>
    ensures { Does (is.eq stack.old) stack.new result }
{
    let b = stack.pop()?;
    let a = stack.pop()?;
    stack.push(truth(a == b))
}

/// NEQ[], 0x55: a, b -> a is not b.
fn neq(stack: &mut Stack) -> Result<(), Why>
    ensures { Does (is.neq stack.old) stack.new result }
{
    let b = stack.pop()?;
    let a = stack.pop()?;
    stack.push(truth(a != b))
}

/// Whether a distance in 26.6 is within an odd pixel.
fn is_odd(v: i64) -> bool
    ensures { result ≡ is.is_odd v }
{
    v.div_euclid(64).rem_euclid(2) == 1
}

/// ODD[], 0x56: e -> e rounded is an odd number of pixels.
fn odd(round: Round, stack: &mut Stack) -> Result<(), Why>
    ensures { Does (is.odd round stack.old) stack.new result }
{
    let e = stack.pop()?;
    let rounded = round.round(i64::from(e));
    stack.push(truth(is_odd(rounded)))
}

/// EVEN[], 0x57: e -> e rounded is an even number of pixels.
fn even(round: Round, stack: &mut Stack) -> Result<(), Why>
    ensures { Does (is.even round stack.old) stack.new result }
{
    let e = stack.pop()?;
    let rounded = round.round(i64::from(e));
    stack.push(truth(!is_odd(rounded)))
}

/// AND[], 0x5A: a, b -> neither is 0.
fn and(stack: &mut Stack) -> Result<(), Why>
    ensures { Does (is.and stack.old) stack.new result }
{
    let b = stack.pop()?;
    let a = stack.pop()?;
    stack.push(truth(a != 0 && b != 0))
}

/// OR[], 0x5B: a, b -> at least one is not 0.
fn or(stack: &mut Stack) -> Result<(), Why>
    ensures { Does (is.or stack.old) stack.new result }
{
    let b = stack.pop()?;
    let a = stack.pop()?;
    stack.push(truth(a != 0 || b != 0))
}

/// NOT[], 0x5C: e -> e is 0.
fn not(stack: &mut Stack) -> Result<(), Why>
    ensures { Does (is.negated stack.old) stack.new result }
{
    let e = stack.pop()?;
    stack.push(truth(e == 0))
}

/// Executes a logical instruction. Error: StackShort.
#[inline(always)]
pub fn evaluate(op: Logic, round: Round, stack: &mut Stack) -> Result<(), Why>
    ensures { Does (is.evaluated op round stack.old) stack.new result }
{
    match op {
        Logic::Lt => lt(stack),
        Logic::Lteq => lteq(stack),
        Logic::Gt => gt(stack),
        Logic::Gteq => gteq(stack),
        Logic::Eq => eq(stack),
        Logic::Neq => neq(stack),
        Logic::Odd => odd(round, stack),
        Logic::Even => even(round, stack),
        Logic::And => and(stack),
        Logic::Or => or(stack),
        Logic::Not => not(stack),
    }
}
