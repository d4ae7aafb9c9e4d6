//! Reading data: the size and the engine. Apple TrueType Reference Manual, "Instruction set".

ghost use Rattle.std.specs.Prelude.{◌≡◌, ◌≤◌};
ghost use Rattle.tt_exec_stack.specs.Stack.{Does};
ghost use Rattle.tt_exec_state.specs.Instances.{instance_of};
ghost use Rattle.tt_exec_state.specs.Queries as is;

use crate::instance::Instance;
use crate::instruction::Query;
use crate::size::Size;
use tt_core::Why;
use tt_exec_stack::Stack;

/// MPPEM[], 0x4B: -> pixels per em.
fn mppem(size: Size, stack: &mut Stack) -> Result<(), Why>
    ensures { Does (is.mppem size.ppem stack.old) stack.new result }
{
    stack.push(i64::from(size.ppem))
}

/// MPS[], 0x4C: -> pixels per em in place of the point size (profile).
fn mps(size: Size, stack: &mut Stack) -> Result<(), Why>
    ensures { Does (is.mps size.ppem stack.old) stack.new result }
{
    stack.push(i64::from(size.ppem))
}

/// Whether a selector asks for the version: bit 0.
fn asks_version(selector: i32) -> bool
    ensures { result ≡ is.asks_version selector }
{
    selector.rem_euclid(2) == 1
}

/// Whether a selector asks for an instance of a variable font: bit 3.
fn asks_variation(selector: i32) -> bool
    ensures { result ≡ is.asks_variation selector }
{
    selector.div_euclid(8).rem_euclid(2) == 1
}

/// The answer of GETINFO.
fn information(varied: bool, selector: i32) -> u32
    ensures exact { result ≡ is.information varied selector }
    ensures few { result ≤ 1059 }
{
    let version = if asks_version(selector) { 35 } else { 0 };
    if varied && asks_variation(selector) {
        version + 1024
    } else {
        version
    }
}

/// GETINFO[], 0x88: selector -> version 35 if bit 0 is set (profile), and 1024 besides if bit 3 is set and there is an
/// instance.
fn getinfo(instance: &Instance, stack: &mut Stack) -> Result<(), Why>
    ensures { Does (is.getinfo (instance_of instance.now) stack.old) stack.new result }
{
    let selector = stack.pop()?;
    stack.push(i64::from(information(instance.is_some(), selector)))
}

/// Executes an instruction that reads the size or the engine. Errors: StackShort; StackFull.
#[inline(always)]
pub fn answer(op: Query, size: Size, instance: &Instance, stack: &mut Stack) -> Result<(), Why>
    ensures { Does (is.answered op size.ppem (instance_of instance.now) stack.old) stack.new result }
{
    match op {
        Query::Mppem => mppem(size, stack),
        Query::Mps => mps(size, stack),
        Query::Getinfo => getinfo(instance, stack),
    }
}
