//! Managing the flow of control. Apple TrueType Reference Manual, "Instruction set". `at` is the instruction's place;
//! the frame's place is after it.

ghost use Rattle.std.specs.Prelude.{◌≡◌, ◌<◌, length, true, false};
ghost use Rattle.tt_code.specs.Skips.{if_end, else_end, StaysIn};
ghost use Rattle.tt_core.specs.Outcomes.{Gives};
ghost use Rattle.tt_exec_step.specs.Flow as flow;
ghost use Rattle.tt_exec_step.specs.Flags as flags;
ghost use Rattle.tt_exec_step.specs.States.{state_of};
ghost use Rattle.tt_exec_step.specs.Outcome.{ComesTo, wants_memory};

use crate::machine_state::{Kind, MachineState};
use crate::outcome::Outcome;
use tt_code::{Halt, skip_else, skip_if};
use tt_core::Why;

/// Continues at the end of a skip, or refuses it.
macro_rules! skipped {
    ($self:ident, $end:expr) => {
        match $end {
            Ok(place) => {
                $self.frame.place = place;
                Outcome::Done
            }
            Err(halt) => {
                $self.frame.place = halt.at;
                Outcome::SkipRefused(halt.why)
            }
        }
    };
}

impl MachineState<'_> {
    /// Takes the top of the stack. Error: StackShort. (For the prover: the clause is over the whole state, which callers
    /// so need not take apart.)
    #[inline(always)]
    pub(crate) fn popped(&mut self) -> Result<i32, Why>
        ensures { flow.TakesTop (state_of self.old) result (state_of self.new) }
    {
        self.stack.pop()
    }

    /// IF[], 0x58: e -> continues after its ELSE or EIF if e is 0. Errors: StackShort, and those of the skip.
    pub(crate) fn if_from(&mut self, at: usize) -> Outcome
        requires { at < length self.old.frame.code.bytes.now }
        ensures exact { ComesTo (flow.if_from self.old.stack at (state_of self.old)) at (state_of self.new) result }
        ensures memory { wants_memory result ≡ false }
    {
        let Ok(condition) = self.popped() else {
            return Outcome::Refused(Why::StackShort);
        };
        if condition != 0 {
            return Outcome::Done;
        }
        skipped!(self, skip_if(self.frame.code.bytes, at))
    }

    /// ELSE[], 0x1B: -> continues after its EIF. Reached at the end of a true IF's part. Errors: those of the skip.
    pub(crate) fn else_from(&mut self, at: usize) -> Outcome
        requires { at < length self.old.frame.code.bytes.now }
        ensures exact { ComesTo (flow.else_from at (state_of self.old)) at (state_of self.new) result }
        ensures memory { wants_memory result ≡ false }
    {
        skipped!(self, skip_else(self.frame.code.bytes, at))
    }

    /// An IF whose condition is false, by the end of its skip. Errors: StackShort, and that of the skip.
    #[inline(always)]
    pub(crate) fn if_to(&mut self, at: usize, end: Result<usize, Halt>) -> Outcome
        requires there { at < length self.old.frame.code.bytes.now }
        requires condition { flow.skips_if self.old.stack ≡ true }
        requires end { Gives (λ j. j) end (if_end self.old.frame.code.bytes.now at) }
        requires stays { StaysIn self.old.frame.code.bytes.now at end }
        ensures { ComesTo (flow.if_from self.old.stack at (state_of self.old)) at (state_of self.new) result }
    {
        match self.popped() {
            Ok(_) => skipped!(self, end),
            Err(_) => Outcome::Refused(Why::StackShort),
        }
    }

    /// An ELSE by the end of its skip. Errors: that of the skip.
    #[inline(always)]
    pub(crate) fn else_to(&mut self, at: usize, end: Result<usize, Halt>) -> Outcome
        requires there { at < length self.old.frame.code.bytes.now }
        requires end { Gives (λ j. j) end (else_end self.old.frame.code.bytes.now at) }
        requires stays { StaysIn self.old.frame.code.bytes.now at end }
        ensures { ComesTo (flow.else_from at (state_of self.old)) at (state_of self.new) result }
    {
        skipped!(self, end)
    }

    /// Continues at `at + offset`. Error: JumpRange.
    fn jump(&mut self, at: usize, offset: i32) -> Outcome
        requires { at < length self.old.frame.code.bytes.now }
        ensures exact { ComesTo (flow.jumped at offset (state_of self.old)) at (state_of self.new) result }
        ensures memory { wants_memory result ≡ false }
    {
        let target = at as i64 + i64::from(offset);
        if target < 0 || target > self.frame.code.bytes.len() as i64 {
            return Outcome::Refused(Why::JumpRange);
        }
        self.frame.place = target as usize;
        Outcome::Done
    }

    /// JMPR[], 0x1C: offset -> continues at this opcode's place plus the offset. Errors: StackShort, JumpRange.
    pub(crate) fn jmpr(&mut self, at: usize) -> Outcome
        requires { at < length self.old.frame.code.bytes.now }
        ensures exact { ComesTo (flow.jmpr self.old.stack at (state_of self.old)) at (state_of self.new) result }
        ensures memory { wants_memory result ≡ false }
    {
        let Ok(offset) = self.popped() else {
            return Outcome::Refused(Why::StackShort);
        };
        self.jump(at, offset)
    }

    /// JROT[], 0x78: offset, e -> jumps if e is not 0. Errors: StackShort, JumpRange.
    pub(crate) fn jrot(&mut self, at: usize) -> Outcome
        requires { at < length self.old.frame.code.bytes.now }
        ensures exact { ComesTo (flow.jrot self.old.stack at (state_of self.old)) at (state_of self.new) result }
        ensures memory { wants_memory result ≡ false }
    {
        let Ok(condition) = self.popped() else {
            return Outcome::Refused(Why::StackShort);
        };
        let Ok(offset) = self.popped() else {
            return Outcome::Refused(Why::StackShort);
        };
        if condition != 0 {
            self.jump(at, offset)
        } else {
            Outcome::Done
        }
    }

    /// JROF[], 0x79: offset, e -> jumps if e is 0. Errors: StackShort, JumpRange.
    pub(crate) fn jrof(&mut self, at: usize) -> Outcome
        requires { at < length self.old.frame.code.bytes.now }
        ensures exact { ComesTo (flow.jrof self.old.stack at (state_of self.old)) at (state_of self.new) result }
        ensures memory { wants_memory result ≡ false }
    {
        let Ok(condition) = self.popped() else {
            return Outcome::Refused(Why::StackShort);
        };
        let Ok(offset) = self.popped() else {
            return Outcome::Refused(Why::StackShort);
        };
        if condition != 0 {
            Outcome::Done
        } else {
            self.jump(at, offset)
        }
    }

    fn set_flag(&mut self, selector: i32, on: bool)
        ensures { state_of self.new ≡ flags.flagged self.old.kind selector on (state_of self.old) }
    {
        match self.kind {
            Kind::ControlValue => {
                if selector == 1 {
                    self.skip_glyphs = on;
                } else if selector == 2 {
                    self.default_state = on;
                }
            }
            Kind::Font | Kind::Glyph => {}
        }
    }

    /// INSTCTRL[], 0x8E: value, selector -> sets a flag, in the control value program alone. Error: StackShort.
    pub(crate) fn instctrl(&mut self, at: usize) -> Outcome
        requires { at < length self.old.frame.code.bytes.now }
        ensures exact { ComesTo (flags.instctrl self.old.stack at (state_of self.old)) at (state_of self.new) result }
        ensures memory { wants_memory result ≡ false }
    {
        let Ok(selector) = self.popped() else {
            return Outcome::Refused(Why::StackShort);
        };
        let Ok(value) = self.popped() else {
            return Outcome::Refused(Why::StackShort);
        };
        self.set_flag(selector, value != 0);
        Outcome::Done
    }
}
