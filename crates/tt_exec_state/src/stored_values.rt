//! Managing the storage area and the control value table. Apple TrueType Reference Manual, "Instruction set".

ghost use Rattle.std.specs.Prelude.{◌≡◌, ◌<◌, length, IfOk};
ghost use Rattle.tt_core.specs.Outcomes.{Gives};
ghost use Rattle.tt_exec_stack.specs.Stack.{Does};
ghost use Rattle.tt_exec_state.specs.StoredValues as is;

use crate::instruction::StoredValues;
use crate::size::Size;
use tt_core::Why;
use tt_exec_stack::Stack;
use tt_state::Tolerance;

/// `n` as an index below `len`. Error: `why`, for any other number.
fn place(n: i32, len: usize, why: Why) -> Result<usize, Why>
    ensures exact { Gives (λ i. i) result (is.place n len why) }
    ensures within { IfOk result (λ i. i < len) }
{
    if n < 0 || n as usize >= len {
        return Err(why);
    }
    Ok(n as usize)
}

/// The value at place `n`. A tolerant machine reads 0 for a missing place. Error: `why`.
#[inline(always)]
fn value_at(tolerance: Tolerance, n: i32, values: &[i32], why: Why) -> Result<i32, Why>
    ensures { Gives (λ v. v) result (is.value_at tolerance n values.now why) }
{
    match place(n, values.len(), why) {
        Ok(i) => Ok(values[i]),
        Err(why) if tolerance.passes_over(why) => Ok(0),
        Err(why) => Err(why),
    }
}

/// Sets the value at place `n`. A tolerant machine ignores a missing place. Error: `why`.
#[inline(always)]
fn set_value(
    tolerance: Tolerance,
    n: i32,
    value: i32,
    values: &mut [i32],
    why: Why,
) -> Result<(), Why>
    ensures { Does (is.value_set tolerance n value values.old why) values.new result }
{
    match place(n, values.len(), why) {
        Ok(i) => values[i] = value,
        Err(why) if tolerance.passes_over(why) => {}
        Err(why) => return Err(why),
    }
    Ok(())
}

/// WS[], 0x42: place, value -> nothing; writes the value to storage. Error: StorageRange.
fn ws(tolerance: Tolerance, stack: &mut Stack, storage: &mut [i32]) -> Result<(), Why>
    ensures { Does (is.ws tolerance stack.old storage.old) (stack.new, storage.new) result }
{
    let value = stack.pop()?;
    let n = stack.pop()?;
    set_value(tolerance, n, value, storage, Why::StorageRange)
}

/// RS[], 0x43: place -> the value in storage. Error: StorageRange.
fn rs(tolerance: Tolerance, stack: &mut Stack, storage: &[i32]) -> Result<(), Why>
    ensures { Does (is.rs tolerance stack.old storage.now) stack.new result }
{
    let n = stack.pop()?;
    let value = value_at(tolerance, n, storage, Why::StorageRange)?;
    stack.push(i64::from(value))
}

/// WCVTP[], 0x44: place, value -> nothing; sets the control value, in 26.6. Error: CvtRange.
fn wcvtp(tolerance: Tolerance, stack: &mut Stack, cvt: &mut [i32]) -> Result<(), Why>
    ensures { Does (is.wcvtp tolerance stack.old cvt.old) (stack.new, cvt.new) result }
{
    let value = stack.pop()?;
    let n = stack.pop()?;
    set_value(tolerance, n, value, cvt, Why::CvtRange)
}

/// WCVTF[], 0x70: place, value -> nothing; sets the control value to `value` font units, scaled. Errors: CvtRange,
/// ValueRange.
fn wcvtf(size: Size, tolerance: Tolerance, stack: &mut Stack, cvt: &mut [i32]) -> Result<(), Why>
    ensures { Does (is.wcvtf size.scale tolerance stack.old cvt.old) (stack.new, cvt.new) result }
{
    let units = stack.pop()?;
    let n = stack.pop()?;
    match place(n, cvt.len(), Why::CvtRange) {
        Ok(i) => cvt[i] = size.in_pixels(units)?,
        Err(why) if tolerance.passes_over(why) => {}
        Err(why) => return Err(why),
    }
    Ok(())
}

/// RCVT[], 0x45: place -> the control value. Error: CvtRange.
fn rcvt(tolerance: Tolerance, stack: &mut Stack, cvt: &[i32]) -> Result<(), Why>
    ensures { Does (is.rcvt tolerance stack.old cvt.now) stack.new result }
{
    let n = stack.pop()?;
    let value = value_at(tolerance, n, cvt, Why::CvtRange)?;
    stack.push(i64::from(value))
}

/// Executes an instruction on stored values. Errors: StackShort; CvtRange and StorageRange of a strict machine;
/// ValueRange of WCVTF.
#[inline(always)]
pub fn access_values(
    op: StoredValues,
    size: Size,
    tolerance: Tolerance,
    stack: &mut Stack,
    storage: &mut [i32],
    cvt: &mut [i32],
) -> Result<(), Why>
    ensures { let given = is.values_accessed op size.scale tolerance stack.old storage.old cvt.old in
        Does given (stack.new, storage.new, cvt.new) result }
{
    match op {
        StoredValues::Ws => ws(tolerance, stack, storage),
        StoredValues::Rs => rs(tolerance, stack, storage),
        StoredValues::Wcvtp => wcvtp(tolerance, stack, cvt),
        StoredValues::Wcvtf => wcvtf(size, tolerance, stack, cvt),
        StoredValues::Rcvt => rcvt(tolerance, stack, cvt),
    }
}
