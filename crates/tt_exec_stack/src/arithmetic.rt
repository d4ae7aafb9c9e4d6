//! Arithmetic and mathematical functions. Apple TrueType Reference Manual, "Instruction set". Numbers are in 26.6.

ghost use Rattle.std.specs.Prelude.{◌≡◌, ◌≢◌, ◌^◌, ◌<◌, ◌≤◌, pos, neg_ℤ, unsigned_abs};
ghost use Rattle.tt_exec_stack.specs.Stack.{Does};
ghost use Rattle.tt_exec_stack.specs.Arithmetic as is;

use crate::instruction::Arithmetic;
use crate::stack::Stack;
use tt_core::Why;
use tt_state::Round;

/// ADD[], 0x60: a, b -> a + b. Errors: StackShort, ValueRange.
#[inline(always)]
fn add(stack: &mut Stack) -> Result<(), Why>
    ensures { Does (is.add stack.old) stack.new result }
{
    let b = stack.pop()?;
    let a = stack.pop()?;
    stack.push(i64::from(a) + i64::from(b))
}

/// SUB[], 0x61: a, b -> a - b. Errors: StackShort, ValueRange.
#[inline(always)]
fn sub(stack: &mut Stack) -> Result<(), Why>
    ensures { Does (is.sub stack.old) stack.new result }
{
    let b = stack.pop()?;
    let a = stack.pop()?;
    stack.push(i64::from(a) - i64::from(b))
}

/// `a / b` in 26.6, cut toward zero.
fn quotient(a: i32, b: i32) -> i64
    requires { b ≢ pos 0 }
    ensures { result ≡ is.quotient a b }
{
    i64::from(a) * 64 / i64::from(b)
}

/// DIV[], 0x62: a, b -> a / b, cut toward zero. Errors: StackShort, DivZero, ValueRange.
fn div(stack: &mut Stack) -> Result<(), Why>
    ensures { Does (is.div stack.old) stack.new result }
{
    let b = stack.pop()?;
    let a = stack.pop()?;
    if b == 0 {
        return Err(Why::DivZero);
    }
    stack.push(quotient(a, b))
}

/// `a * b` as whole numbers.
fn whole_product(a: i32, b: i32) -> i64
    ensures exact { result ≡ is.whole_product a b }
    ensures bound { unsigned_abs result ≤ 2 ^ 62 }
{
    i64::from(a) * i64::from(b)
}

/// `v / 64` rounded to the nearest whole number, a half away from zero.
fn nearest_64th(v: i64) -> i64
    requires { unsigned_abs v ≤ 2 ^ 62 }
    ensures { result ≡ is.nearest_64th v }
{
    let m = ((v.unsigned_abs() + 32) / 64) as i64;
    if v < 0 { -m } else { m }
}

/// `a * b` in 26.6, to the nearest 64th, a half away from zero.
fn product(a: i32, b: i32) -> i64
    ensures { result ≡ is.product a b }
{
    nearest_64th(whole_product(a, b))
}

/// MUL[], 0x63: a, b -> a * b, to the nearest 64th, a half away from zero. Errors: StackShort, ValueRange.
fn mul(stack: &mut Stack) -> Result<(), Why>
    ensures { Does (is.mul stack.old) stack.new result }
{
    let b = stack.pop()?;
    let a = stack.pop()?;
    stack.push(product(a, b))
}

/// ABS[], 0x64: n -> its magnitude.
fn abs(stack: &mut Stack) -> Result<(), Why>
    ensures { Does (is.abs stack.old) stack.new result }
{
    let n = stack.pop()?;
    stack.push(i64::from(n).abs())
}

fn negative(n: i32) -> i64
    ensures { result ≡ neg_ℤ n }
{
    -i64::from(n)
}

/// NEG[], 0x65: n -> -n.
fn neg(stack: &mut Stack) -> Result<(), Why>
    ensures { Does (is.neg stack.old) stack.new result }
{
    let n = stack.pop()?;
    stack.push(negative(n))
}

/// FLOOR[], 0x66: n -> the greatest whole pixel not above n.
fn floor(stack: &mut Stack) -> Result<(), Why>
    ensures { Does (is.floor stack.old) stack.new result }
{
    let n = stack.pop()?;
    stack.push(i64::from(n).div_euclid(64) * 64)
}

/// The least whole pixel not below n.
fn pixel_above(n: i32) -> i64
    ensures { result ≡ is.pixel_above n }
{
    let turned = -i64::from(n);
    -(turned.div_euclid(64) * 64)
}

/// CEILING[], 0x67: n -> the least whole pixel not below n.
fn ceiling(stack: &mut Stack) -> Result<(), Why>
    ensures { Does (is.ceiling stack.old) stack.new result }
{
    let n = stack.pop()?;
    stack.push(pixel_above(n))
}

/// ROUND[ab], 0x68 to 0x6B: n -> n rounded by the round state. Engine compensation is 0 (profile).
fn round(state: Round, stack: &mut Stack) -> Result<(), Why>
    ensures { Does (is.round state stack.old) stack.new result }
{
    let n = stack.pop()?;
    stack.push(state.round(i64::from(n)))
}

/// NROUND[ab], 0x6C to 0x6F: n -> n. Engine compensation is 0 (profile).
fn nround(stack: &mut Stack) -> Result<(), Why>
    ensures { Does (is.nround stack.old) stack.new result }
{
    let n = stack.pop()?;
    stack.push(i64::from(n))
}

/// MAX[], 0x8B: a, b -> the greater of the two.
fn max(stack: &mut Stack) -> Result<(), Why>
    ensures { Does (is.max stack.old) stack.new result }
{
    let b = stack.pop()?;
    let a = stack.pop()?;
    stack.push(i64::from(a.max(b)))
}

/// MIN[], 0x8C: a, b -> the lesser of the two.
fn min(stack: &mut Stack) -> Result<(), Why>
    ensures { Does (is.min stack.old) stack.new result }
{
    let b = stack.pop()?;
    let a = stack.pop()?;
    stack.push(i64::from(a.min(b)))
}

/// Executes an arithmetic instruction. Errors: StackShort; DivZero; ValueRange outside 32 bits.
#[inline(always)]
pub fn compute(op: Arithmetic, round_state: Round, stack: &mut Stack) -> Result<(), Why>
    ensures { Does (is.computed op round_state stack.old) stack.new result }
{
    match op {
        Arithmetic::Add => add(stack),
        Arithmetic::Sub => sub(stack),
        Arithmetic::Div => div(stack),
        Arithmetic::Mul => mul(stack),
        Arithmetic::Abs => abs(stack),
        Arithmetic::Neg => neg(stack),
        Arithmetic::Floor => floor(stack),
        Arithmetic::Ceiling => ceiling(stack),
        Arithmetic::Round => round(round_state, stack),
        Arithmetic::Nround => nround(stack),
        Arithmetic::Max => max(stack),
        Arithmetic::Min => min(stack),
    }
}
