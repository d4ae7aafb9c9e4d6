//! The work of each step, if its job has a budget (profile).

ghost use Rattle.std.specs.Prelude.{◌≡◌, ◌≢◌, ◌^◌, ◌<◌, ◌≤◌, length, slice_index, true};
ghost use Rattle.tt_core.specs.Faults.{Fault};
ghost use Rattle.tt_code.specs.Skips.{StaysIn};
ghost use Rattle.tt_exec_step.specs.Flow.{skips_if};
ghost use Rattle.tt_exec_step.specs.States.{state_of};
ghost use Rattle.tt_exec.specs.Work as is;
ghost use Rattle.tt_exec.specs.PaidSteps.{IsPaid};
ghost use Rattle.tt_exec.specs.Worked.{Pays};

use crate::work::Work;
use tt_code::{Halt, skip_def, skip_else, skip_if};
use tt_core::Why;
use tt_exec_step::{MachineState, Outcome, fixed_work};

/// How a step is paid for.
pub(crate) enum Payment {
    /// The step of this opcode is paid for, and is still to be executed.
    Paid(u8),
    /// The step is paid for and executed.
    Stepped(Outcome),
    /// The step needs more work than remains, so no work remains.
    Spent,
}

/// The extra work of an opcode that covers no point or stack entry.
#[tactic(auto, unfolding(crate::specs::Work::slowness))]
fn slowness(op: u8) -> u64
    ensures exact { result ≡ is.slowness op }
    ensures few { result ≤ 7 }
{
    match op {
        0x49 | 0x4A => 3,
        0x46 | 0x47 | 0x62 => 2,
        0xB0..=0xBF => u64::from(op % 8),
        0x00..=0x05 | 0x0E | 0x18 | 0x19 | 0x20..=0x23 | 0x59 | 0x61 | 0x78 => 0,
        _ => 1,
    }
}

/// The top of the stack; 0 for an empty stack.
fn top_of_stack(state: &MachineState<'_>) -> i32
    ensures { result ≡ is.top_of state.now.stack }
{
    state.stack.items().last().copied().unwrap_or(0)
}

/// The count `n`, or the count of stack entries if that is less.
fn of_stack(state: &MachineState<'_>, n: u32) -> u64
    ensures exact { result ≡ is.of_stack n (state_of state.now) }
    ensures few { result < 2 ^ 32 }
{
    (n as u64).min(state.stack.len() as u64)
}

/// The extra work of an opcode, which doesn't depend on the loop variable or the stack.
fn weight(state: &MachineState<'_>, op: u8) -> u64
    requires { state.now.frame.place < length state.now.frame.code.bytes.now }
    ensures exact { result ≡ is.weight op (state_of state.now) }
    ensures few { result < 2 ^ 8 }
{
    match op {
        0x2E | 0x2F | 0x3A | 0x3B | 0x3E | 0x3F | 0x48 | 0xE0..=0xFF => 4,
        0xC0..=0xDF => 7,
        0x27 => 8,
        0x06..=0x0B | 0x0F => 32,
        0x86 | 0x87 => 48,
        0x40 | 0x41 => match state.frame.code.bytes.get(state.frame.place + 1) {
            Some(count) => u64::from(*count),
            None => 0,
        },
        0x91 => (state.instance.coordinates().len() as u64).max(1),
        _ => slowness(op),
    }
}

/// The work for the points or stack entries that an opcode covers.
fn gone_over(state: &MachineState<'_>, op: u8) -> u64
    requires { state.now.frame.place < length state.now.frame.code.bytes.now }
    ensures exact { result ≡ is.gone_over op (state_of state.now) }
    ensures few { result < 2 ^ 63 }
{
    match op {
        0x32 | 0x33 | 0x38 | 0x3C | 0x80 => 4 * of_stack(state, state.graphics.loops),
        0x39 => 4 * of_stack(state, state.graphics.loops) + 4,
        0x26 | 0x5D | 0x71..=0x75 => 2 * of_stack(state, top_of_stack(state).unsigned_abs()),
        0x30 | 0x31 => 2 * state.points.glyph_count() as u64,
        0x34..=0x37 => 4 * (state.points.twilight_count() + state.points.glyph_count()) as u64,
        0x81 | 0x82 => state.points.glyph_count() as u64,
        _ => weight(state, op),
    }
}

/// The count of bytes skipped after the opcode at the frame's place.
fn passed_by(state: &MachineState<'_>, end: Result<usize, Halt>) -> u64
    requires stands { state.now.frame.place < length state.now.frame.code.bytes.now }
    requires stays { StaysIn state.now.frame.code.bytes.now state.now.frame.place end }
    ensures exact { result ≡ is.passed_by (state_of state.now) end }
    ensures few { result < 2 ^ 32 }
{
    let after = state.frame.place + 1;
    let to = match end {
        Ok(place) => place,
        Err(_) => state.frame.code.bytes.len(),
    };
    (to - after) as u64
}

/// The count of bytes that the opcode at the frame's place skips.
fn passed(state: &MachineState<'_>, op: u8) -> u64
    requires { state.now.frame.place < length state.now.frame.code.bytes.now }
    ensures exact { result ≡ is.passed op (state_of state.now) }
    ensures few { result < 2 ^ 32 }
{
    let bytes = state.frame.code.bytes;
    let at = state.frame.place;
    match op {
        0x58 if top_of_stack(state) == 0 => passed_by(state, skip_if(bytes, at)),
        0x1B => passed_by(state, skip_else(bytes, at)),
        0x2C | 0x89 => passed_by(state, skip_def(bytes, at)),
        _ => 0,
    }
}

/// The work of a step with this opcode.
#[inline(always)]
fn cost_by(state: &MachineState<'_>, op: u8) -> u64
    requires { state.now.frame.place < length state.now.frame.code.bytes.now }
    ensures { result ≡ is.cost_by op (state_of state.now) }
{
    match op {
        0x1B | 0x2C | 0x58 | 0x89 => 2 + passed(state, op),
        _ => 1 + gone_over(state, op),
    }
}

/// Takes a cost off the remaining work. False if the remaining work is less; then no work remains.
#[inline(always)]
fn charge(cost: u64, work: &mut Work) -> bool
    ensures { (told : Fault) → Pays told (is.charged told cost work.old.left) result work.new.left }
{
    let Some(left) = work.left else {
        return true;
    };
    if cost > left {
        work.left = Some(0);
        return false;
    }
    work.left = Some(left - cost);
    true
}

/// Pays for the IF at the frame's place, whose condition is false, and executes it. One skip serves both.
#[inline(never)]
fn paid_if(state: &mut MachineState<'_>, work: &mut Work) -> Payment
    requires there { state.old.frame.place < length state.old.frame.code.bytes.now }
    requires opcode { slice_index state.old.frame.code.bytes.now state.old.frame.place ≡ 0x58 }
    requires condition { skips_if state.old.stack ≡ true }
    ensures { IsPaid (state_of state.old) work.old.left result (state_of state.new) work.new.left }
{
    let end = skip_if(state.frame.code.bytes, state.frame.place);
    if !charge(2 + passed_by(state, end), work) {
        return Payment::Spent;
    }
    Payment::Stepped(state.step_if(end))
}

/// Pays for the ELSE at the frame's place, and executes it. One skip serves both.
#[inline(never)]
fn paid_else(state: &mut MachineState<'_>, work: &mut Work) -> Payment
    requires there { state.old.frame.place < length state.old.frame.code.bytes.now }
    requires opcode { slice_index state.old.frame.code.bytes.now state.old.frame.place ≡ 0x1B }
    ensures { IsPaid (state_of state.old) work.old.left result (state_of state.new) work.new.left }
{
    let end = skip_else(state.frame.code.bytes, state.frame.place);
    if !charge(2 + passed_by(state, end), work) {
        return Payment::Spent;
    }
    Payment::Stepped(state.step_else(end))
}

/// Pays for the step at the frame's place, whose work this opcode alone doesn't decide. An IF that skips and an ELSE are
/// executed too. Others are executed where all steps are, since the compiler writes out that code once.
#[inline(never)]
fn paid_apart(state: &mut MachineState<'_>, op: u8, work: &mut Work) -> Payment
    requires there { state.old.frame.place < length state.old.frame.code.bytes.now }
    requires opcode { op ≡ slice_index state.old.frame.code.bytes.now state.old.frame.place }
    ensures { IsPaid (state_of state.old) work.old.left result (state_of state.new) work.new.left }
{
    if op == 0x58 && top_of_stack(state) == 0 {
        return paid_if(state, work);
    }
    if op == 0x1B {
        return paid_else(state, work);
    }
    if !charge(cost_by(state, op), work) {
        return Payment::Spent;
    }
    Payment::Paid(op)
}

/// Pays for the step at the frame's place, the program's end inside a call: its work is 1, and it is refused.
#[cold]
fn paid_end(state: &MachineState<'_>, work: &mut Work) -> Payment
    requires { state.now.frame.place ≡ length state.now.frame.code.bytes.now }
    ensures { IsPaid (state_of state.now) work.old.left result (state_of state.now) work.new.left }
{
    if !charge(1, work) {
        return Payment::Spent;
    }
    Payment::Stepped(Outcome::Refused(Why::CodeShort))
}

/// Pays for the step at the frame's place. An IF that skips, an ELSE and the program's end are executed too. A run without
/// a budget spends one test on it.
#[inline(always)]
pub(crate) fn pay_step(state: &mut MachineState<'_>, work: &mut Work) -> Payment
    ensures { IsPaid (state_of state.old) work.old.left result (state_of state.new) work.new.left }
{
    let at = state.frame.place;
    let bytes = state.frame.code.bytes;
    if at == bytes.len() {
        return paid_end(state, work);
    }
    let op = bytes[at];
    let cost = fixed_work(op);
    if cost == 0 {
        return match work.left {
            Some(_) => paid_apart(state, op, work),
            None => Payment::Paid(op),
        };
    }
    if !charge(cost, work) {
        return Payment::Spent;
    }
    Payment::Paid(op)
}
