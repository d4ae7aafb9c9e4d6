//! The instructions of each family, on the machine's state. Their code is in tt_exec_stack, tt_exec_state and
//! tt_exec_points. `at` is the instruction's place. Apple TrueType Reference Manual, "Instruction set".

ghost use Rattle.std.specs.Prelude.{◌≡◌, ◌<◌, ◌≤◌, length, false};
ghost use Rattle.tt_exec_state.specs.Instances.{instance_of};
ghost use Rattle.tt_exec_state.specs.Variations.{variation_answered};
ghost use Rattle.tt_exec_step.specs.OnPoints.{on_points};
ghost use Rattle.tt_exec_step.specs.Operation as operation;
ghost use Rattle.tt_exec_step.specs.States.{state_of};
ghost use Rattle.tt_exec_step.specs.Step.{on_stack, push, Operates};
ghost use Rattle.tt_exec_step.specs.Outcome.{ComesTo, wants_memory};

use crate::machine_state::MachineState;
use crate::outcome::Outcome;
use tt_exec_points::{OnPoints, on_points};
use tt_exec_stack::{
    Arithmetic, Logic, Managing, compute, evaluate, manage, push_bytes, push_words,
};
use tt_exec_state::{
    GraphicsSetting, Query, StoredValues, Variation, Vectors, access_values, access_vectors,
    answer, answer_variation, set_state,
};

/// The outcome of an instruction, from its result.
macro_rules! outcome {
    ($done:expr) => {
        match $done {
            Ok(()) => Outcome::Done,
            Err(why) => Outcome::Refused(why),
        }
    };
}

impl MachineState<'_> {
    /// NPUSHB[], 0x40; NPUSHW[], 0x41; PUSHB[n], 0xB0 to 0xB7; PUSHW[n], 0xB8 to 0xBF: -> pushes the opcode's data.
    #[inline(always)]
    pub(crate) fn push(&mut self, op: u8, args: &[u8], at: usize) -> Outcome
        requires { at ≤ length self.old.frame.code.bytes.now }
        ensures exact { ComesTo (push op args.now at (state_of self.old)) at (state_of self.new) result }
        ensures memory { wants_memory result ≡ false }
    {
        match op {
            0x41 | 0xB8..=0xBF => outcome!(push_words(args, &mut self.stack)),
            _ => outcome!(push_bytes(args, &mut self.stack)),
        }
    }

    pub(crate) fn access_vectors(&mut self, op: Vectors, at: usize) -> Outcome
        requires { at ≤ length self.old.frame.code.bytes.now }
        ensures exact { Operates (operation.access_vectors op) at (state_of self.old) (state_of self.new) result }
        ensures memory { wants_memory result ≡ false }
    {
        outcome!(access_vectors(op, &mut self.stack, &mut self.graphics))
    }

    #[inline(always)]
    pub(crate) fn set_state(&mut self, op: GraphicsSetting, at: usize) -> Outcome
        requires { at ≤ length self.old.frame.code.bytes.now }
        ensures exact { Operates (operation.set_state op) at (state_of self.old) (state_of self.new) result }
        ensures memory { wants_memory result ≡ false }
    {
        outcome!(set_state(
            op,
            self.size,
            self.tolerance,
            &mut self.stack,
            &mut self.graphics
        ))
    }

    #[inline(always)]
    pub(crate) fn manage(&mut self, op: Managing, at: usize) -> Outcome
        requires { at ≤ length self.old.frame.code.bytes.now }
        ensures exact { Operates (operation.manage op) at (state_of self.old) (state_of self.new) result }
        ensures memory { wants_memory result ≡ false }
    {
        outcome!(manage(op, self.tolerance, &mut self.stack))
    }

    #[inline(always)]
    pub(crate) fn evaluate(&mut self, op: Logic, at: usize) -> Outcome
        requires { at ≤ length self.old.frame.code.bytes.now }
        ensures exact { Operates (operation.evaluate op) at (state_of self.old) (state_of self.new) result }
        ensures memory { wants_memory result ≡ false }
    {
        let round = self.graphics.round;
        outcome!(evaluate(op, round, &mut self.stack))
    }

    #[inline(always)]
    pub(crate) fn compute(&mut self, op: Arithmetic, at: usize) -> Outcome
        requires { at ≤ length self.old.frame.code.bytes.now }
        ensures exact { Operates (operation.compute op) at (state_of self.old) (state_of self.new) result }
        ensures memory { wants_memory result ≡ false }
    {
        let round = self.graphics.round;
        outcome!(compute(op, round, &mut self.stack))
    }

    #[inline(always)]
    pub(crate) fn access_values(&mut self, op: StoredValues, at: usize) -> Outcome
        requires { at ≤ length self.old.frame.code.bytes.now }
        ensures exact { Operates (operation.access_values op) at (state_of self.old) (state_of self.new) result }
        ensures memory { wants_memory result ≡ false }
    {
        outcome!(access_values(
            op,
            self.size,
            self.tolerance,
            &mut self.stack,
            &mut self.storage,
            &mut self.cvt
        ))
    }

    #[inline(always)]
    pub(crate) fn answer(&mut self, op: Query, at: usize) -> Outcome
        requires { at ≤ length self.old.frame.code.bytes.now }
        ensures exact { Operates (operation.answer op) at (state_of self.old) (state_of self.new) result }
        ensures memory { wants_memory result ≡ false }
    {
        outcome!(answer(op, self.size, &self.instance, &mut self.stack))
    }

    /// An instruction that reads the instance of a variable font.
    pub(crate) fn answer_variation(&mut self, op: Variation, at: usize) -> Outcome
        requires { at ≤ length self.old.frame.code.bytes.now }
        ensures exact { let given = on_stack at (state_of self.old) (variation_answered op (instance_of self.old.instance) self.old.stack) in
            ComesTo given at (state_of self.new) result }
        ensures memory { wants_memory result ≡ false }
    {
        outcome!(answer_variation(op, &self.instance, &mut self.stack))
    }

    /// An instruction that works on points, or DELTAC[].
    #[inline(always)]
    #[tactic(auto, unfolding(crate::specs::OnPoints::on_points))]
    pub(crate) fn on_points(&mut self, op: OnPoints, at: usize) -> Outcome
        requires { at < length self.old.frame.code.bytes.now }
        ensures exact { ComesTo (on_points op at (state_of self.old)) at (state_of self.new) result }
        ensures memory { wants_memory result ≡ false }
    {
        outcome!(on_points(
            self.tolerance,
            op,
            self.size,
            &mut self.stack,
            &mut self.points,
            &mut self.graphics,
            &mut self.cvt
        ))
    }
}
