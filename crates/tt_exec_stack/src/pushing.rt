//! Pushing data onto the interpreter stack. Apple TrueType Reference Manual, "Instruction set".

ghost use Rattle.std.specs.Prelude.{◌≡◌, ◌+◌, ◌*◌, pos};
ghost use Rattle.tt_core.specs.Numbers.{signed16};
ghost use Rattle.tt_exec_stack.specs.Stack.{Does, pushed};
ghost use Rattle.tt_exec_stack.specs.Pushing.{pushed_bytes, pushed_words};

use crate::stack::Stack;
use tt_core::Why;

/// NPUSHB[], 0x40, and PUSHB[n], 0xB0 to 0xB7: -> bytes, in order. Error: StackFull.
#[inline(always)]
pub fn push_bytes(bytes: &[u8], stack: &mut Stack) -> Result<(), Why>
    ensures { Does (pushed_bytes bytes.now stack.old) stack.new result }
{
    for byte in bytes {
        stack.push(i64::from(*byte))?;
    }
    Ok(())
}

/// Pushes a signed word. Error: StackFull.
fn push_word(high: u8, low: u8, stack: &mut Stack) -> Result<(), Why>
    ensures { Does (pushed (signed16 (high * 256 + low)) stack.old) stack.new result }
{
    stack.push(i64::from(i16::from_be_bytes([high, low])))
}

/// NPUSHW[], 0x41, and PUSHW[n], 0xB8 to 0xBF: -> signed words, in order. Error: StackFull.
#[inline(always)]
pub fn push_words(bytes: &[u8], stack: &mut Stack) -> Result<(), Why>
    ensures { Does (pushed_words bytes.now stack.old) stack.new result }
{
    let mut at = 0;
    while at + 1 < bytes.len() {
        push_word(bytes[at], bytes[at + 1], stack)?;
        at += 2;
    }
    Ok(())
}
