//! One step. Apple TrueType Reference Manual, "Instructing TrueType Glyphs".

ghost use Rattle.std.specs.Prelude.{◌≡◌, ◌<◌, length, slice_index, true};
ghost use Rattle.tt_code.specs.Skips.{if_end, else_end, StaysIn};
ghost use Rattle.tt_core.specs.Outcomes.{Gives};
ghost use Rattle.tt_exec_step.specs.Flow.{skips_if};
ghost use Rattle.tt_exec_step.specs.Opcodes.{operation_of};
ghost use Rattle.tt_exec_step.specs.States.{state_of};
ghost use Rattle.tt_exec_step.specs.Step as is;
ghost use Rattle.tt_exec_step.specs.Outcome.{ComesTo};

use crate::machine_state::MachineState;
use crate::outcome::Outcome;
use crate::table::{taken_by, takes_data};
use tt_code::{Halt, decode};
use tt_core::Why;

impl MachineState<'_> {
    /// On a tolerant machine, provides the stack values that an instruction takes.
    #[inline(always)]
    fn fill_stack(&mut self, op: u8)
        ensures exact { state_of self.new ≡ is.filled (operation_of op) (state_of self.old) }
        ensures frame { self.new.frame ≡ self.old.frame }
    {
        if self.tolerance.is_tolerant() {
            self.stack.pad(taken_by(op));
        }
    }

    /// Executes the instruction at the frame's place. Errors: CodeShort if its data passes the program's end or the
    /// place is that end; those of the instruction.
    #[inline(always)]
    pub fn step(&mut self) -> Outcome
        ensures { ComesTo (is.step (state_of self.old)) self.old.frame.place (state_of self.new) result }
    {
        let at = self.frame.place;
        let bytes = self.frame.code.bytes;
        if at == bytes.len() {
            return Outcome::Refused(Why::CodeShort);
        }
        self.step_by(bytes[at], at)
    }

    /// Executes the instruction with this opcode at the frame's place, which is `at`. Errors: those of the step.
    #[inline(always)]
    pub fn step_by(&mut self, op: u8, at: usize) -> Outcome
        requires place { at ≡ self.old.frame.place }
        requires there { at < length self.old.frame.code.bytes.now }
        requires opcode { op ≡ slice_index self.old.frame.code.bytes.now at }
        ensures { ComesTo (is.step (state_of self.old)) self.old.frame.place (state_of self.new) result }
    {
        if !takes_data(op) {
            self.frame.place = at + 1;
            self.fill_stack(op);
            return self.operate(op, at);
        }
        match decode(self.frame.code.bytes, at) {
            Ok(i) => {
                self.frame.place = at + i.len;
                self.push(i.op, i.args, at)
            }
            Err(halt) => Outcome::Refused(halt.why),
        }
    }

    /// Executes the IF at the frame's place, whose condition is false and whose skip ends at `end`. Errors: those of the
    /// step.
    pub fn step_if(&mut self, end: Result<usize, Halt>) -> Outcome
        requires there { self.old.frame.place < length self.old.frame.code.bytes.now }
        requires opcode { slice_index self.old.frame.code.bytes.now self.old.frame.place ≡ 0x58 }
        requires condition { skips_if self.old.stack ≡ true }
        requires end { Gives (λ j. j) end (if_end self.old.frame.code.bytes.now self.old.frame.place) }
        requires stays { StaysIn self.old.frame.code.bytes.now self.old.frame.place end }
        ensures { ComesTo (is.step (state_of self.old)) self.old.frame.place (state_of self.new) result }
    {
        let at = self.frame.place;
        self.frame.place = at + 1;
        self.fill_stack(0x58);
        self.if_to(at, end)
    }

    /// Executes the ELSE at the frame's place, whose skip ends at `end`. Errors: those of the step.
    pub fn step_else(&mut self, end: Result<usize, Halt>) -> Outcome
        requires there { self.old.frame.place < length self.old.frame.code.bytes.now }
        requires opcode { slice_index self.old.frame.code.bytes.now self.old.frame.place ≡ 0x1B }
        requires end { Gives (λ j. j) end (else_end self.old.frame.code.bytes.now self.old.frame.place) }
        requires stays { StaysIn self.old.frame.code.bytes.now self.old.frame.place end }
        ensures { ComesTo (is.step (state_of self.old)) self.old.frame.place (state_of self.new) result }
    {
        let at = self.frame.place;
        self.frame.place = at + 1;
        self.fill_stack(0x1B);
        self.else_to(at, end)
    }

    /// Whether the program has ended.
    #[inline(always)]
    pub fn is_ended(&self) -> bool
        ensures { result ≡ is.is_ended (state_of self.now) }
    {
        self.frame.place == self.frame.code.bytes.len() && self.callers.len() == 0
    }
}
