//! Managing the stack. Apple TrueType Reference Manual, "Instruction set".

ghost use Rattle.tt_exec_stack.specs.Stack.{Does};
ghost use Rattle.tt_exec_stack.specs.Managing as is;

use crate::instruction::Managing;
use crate::stack::Stack;
use tt_core::Why;
use tt_state::Tolerance;

/// DUP[], 0x20: e -> e, e.
fn dup(stack: &mut Stack) -> Result<(), Why>
    ensures { Does (is.dup stack.old) stack.new result }
{
    let e = stack.pop()?;
    stack.put(e);
    stack.push(i64::from(e))
}

/// POP[], 0x21: e -> nothing. A function (for the prover): it shows that `Stack::pop` does what the definition says.
fn pop(stack: &mut Stack) -> Result<(), Why>
    ensures { Does (is.pop stack.old) stack.new result }
{
    stack.pop()?;
    Ok(())
}

/// CLEAR[], 0x22: all entries -> nothing.
fn clear(stack: &mut Stack) -> Result<(), Why>
    ensures { Does (is.clear stack.old) stack.new result }
{
    stack.clear();
    Ok(())
}

/// SWAP[], 0x23: a, b -> b, a.
fn swap(stack: &mut Stack) -> Result<(), Why>
    ensures { Does (is.swap stack.old) stack.new result }
{
    let b = stack.pop()?;
    let a = stack.pop()?;
    stack.put(b);
    stack.put(a);
    Ok(())
}

/// DEPTH[], 0x24: -> the count of entries before it.
fn depth(stack: &mut Stack) -> Result<(), Why>
    ensures { Does (is.depth stack.old) stack.new result }
{
    let depth = stack.len();
    stack.push(depth as i64)
}

/// CINDEX[], 0x25: k -> a copy of the k-th entry, or 0 for a missing one on a tolerant machine (profile).
fn cindex(tolerance: Tolerance, stack: &mut Stack) -> Result<(), Why>
    ensures { Does (is.cindex tolerance stack.old) stack.new result }
{
    let k = stack.pop()?;
    let e = match stack.kth(k) {
        Ok(e) => e,
        Err(_) if tolerance.is_tolerant() => 0,
        Err(why) => return Err(why),
    };
    stack.push(i64::from(e))
}

/// MINDEX[], 0x26: k -> the k-th entry, moved to the top. For a missing entry a tolerant machine pops k alone
/// (profile).
fn mindex(tolerance: Tolerance, stack: &mut Stack) -> Result<(), Why>
    ensures { Does (is.mindex tolerance stack.old) stack.new result }
{
    let k = stack.pop()?;
    let e = match stack.kth(k) {
        Ok(e) => e,
        Err(_) if tolerance.is_tolerant() => return Ok(()),
        Err(why) => return Err(why),
    };
    stack.remove(k as usize);
    stack.put(e);
    Ok(())
}

/// ROLL[], 0x8A: a, b, c -> b, c, a.
fn roll(stack: &mut Stack) -> Result<(), Why>
    ensures { Does (is.roll stack.old) stack.new result }
{
    let c = stack.pop()?;
    let b = stack.pop()?;
    let a = stack.pop()?;
    stack.put(b);
    stack.put(c);
    stack.put(a);
    Ok(())
}

/// Executes an instruction that manages the stack. Errors: StackShort; StackFull; of CINDEX and MINDEX also
/// BadArgument. On a tolerant machine, CINDEX and MINDEX have StackShort for an empty stack alone, and no BadArgument.
#[inline(always)]
pub fn manage(op: Managing, tolerance: Tolerance, stack: &mut Stack) -> Result<(), Why>
    ensures { Does (is.managed op tolerance stack.old) stack.new result }
{
    match op {
        Managing::Dup => dup(stack),
        Managing::Pop => pop(stack),
        Managing::Clear => clear(stack),
        Managing::Swap => swap(stack),
        Managing::Depth => depth(stack),
        Managing::Cindex => cindex(tolerance, stack),
        Managing::Mindex => mindex(tolerance, stack),
        Managing::Roll => roll(stack),
    }
}
