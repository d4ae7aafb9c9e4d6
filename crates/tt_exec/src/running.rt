//! A whole run: steps one after another, each paid for. Apple TrueType Reference Manual, "Instructing TrueType Glyphs".

ghost use Rattle.std.specs.Prelude.{◌≡◌, ◌≤◌, length, IfOk};
ghost use Rattle.tt_core.specs.Limits.{step_limit};
ghost use Rattle.tt_exec_step.specs.MachineState.{fault_in};
ghost use Rattle.tt_exec_step.specs.States.{state_of};
ghost use Rattle.tt_exec_step.specs.Views.{frame_of};
ghost use Rattle.tt_exec.specs.Halting as is;
ghost use Rattle.tt_exec.specs.Halting.{IsRefusal};
ghost use Rattle.tt_exec.specs.Work.{over_at, work_within};
ghost use Rattle.tt_exec.specs.Worked.{Paid, RunsTo, WorkIs};

use crate::fault::ExecFault;
use crate::paying::{Payment, pay_step};
use crate::work::{Work, WorkFault};
use tt_core::{Fault, STEP_LIMIT, Why};
use tt_exec_step::{MachineState, Outcome};

/// A fault at a place of the program with the instruction.
#[inline(always)]
fn fault(state: &MachineState<'_>, at: usize, why: Why) -> Fault
    requires { at ≤ length state.now.frame.code.bytes.now }
    ensures { result ≡ fault_in (frame_of state.now.frame) at why }
{
    let code = state.frame.code;
    Fault::new(code.table, code.base + at as u32, why)
}

/// The fault of a run that halts, from the outcome of the instruction at `at`.
#[cold]
fn halted(state: &MachineState<'_>, at: usize, outcome: Outcome) -> ExecFault
    requires { IsRefusal at (frame_of state.now.frame) outcome }
    ensures { result ≡ is.halted (frame_of state.now.frame) at outcome }
{
    match outcome {
        Outcome::Refused(why) => ExecFault::Font(fault(state, at, why)),
        Outcome::SkipRefused(why) => ExecFault::Font(fault(state, state.frame.place, why)),
        _ => ExecFault::Memory,
    }
}

/// StepLimit at the frame's place.
#[cold]
fn at_limit(state: &MachineState<'_>) -> Fault
    ensures { result ≡ over_at (state_of state.now) }
{
    fault(state, state.frame.place, Why::StepLimit)
}

/// Runs to the program's end, and pays for each step. Gives the count of steps. Errors: StepLimit; those of a step;
/// Spent for a step that needs more work than remains.
#[inline(never)]
pub(crate) fn go(state: &mut MachineState<'_>, work: &mut Work) -> Result<u32, WorkFault>
    ensures exact { RunsTo (state_of state.old) result (state_of state.new) }
    ensures work { WorkIs (work_within step_limit (state_of state.old)) work.old.left result work.new.left }
    ensures paid { IfOk result (λ n. Paid n work.old.left work.new.left) }
{
    let mut n = 0;
    'steps: loop {
        if state.is_ended() {
            return Ok(n);
        }
        if n == STEP_LIMIT {
            return Err(WorkFault::Run(ExecFault::Font(at_limit(state))));
        }
        let at = state.frame.place;
        let outcome = match pay_step(state, work) {
            Payment::Paid(op) => state.step_by(op, at),
            Payment::Stepped(outcome) => outcome,
            Payment::Spent => return Err(WorkFault::Spent(at_limit(state))),
        };
        match outcome {
            Outcome::Done => n += 1,
            outcome => return Err(WorkFault::Run(halted(state, at, outcome))),
        }
    }
}
