//! Defining and using functions. Apple TrueType Reference Manual, "Instruction set". `at` is the instruction's place;
//! the frame's place is after it.

ghost use Rattle.std.specs.Prelude.{◌≡◌, ◌+◌, ◌<◌, ◌≤◌, ◌^◌, pos, length, OnOk, false};
ghost use Rattle.tt_exec_state.specs.Instances.{instance_of};
ghost use Rattle.tt_exec_step.specs.Functions as is;
ghost use Rattle.tt_exec_step.specs.Numbered.{function_at};
ghost use Rattle.tt_exec_step.specs.Views.{body_of};
ghost use Rattle.tt_exec_step.specs.States.{state_of};
ghost use Rattle.tt_exec_step.specs.Outcome.{ComesTo, wants_memory};
ghost use Rattle.std.specs.Prelude.{Some};

use crate::machine_state::{Kind, MachineState};
use crate::outcome::Outcome;
use crate::program::{Body, CallFrame, Definition};
use std::alloc::AllocError;
use tt_code::skip_def;
use tt_core::{CALL_LIMIT, Why};

/// Whether the manual has no name for an opcode.
fn is_undefined(op: u8) -> bool
    ensures { result ≡ is.is_undefined op }
{
    match op {
        0x28 | 0x7B | 0x83 | 0x84 => true,
        _ => 0x8F <= op && op <= 0xAF,
    }
}

/// Whether an opcode is GETVARIATION or GETDATA.
fn is_of_instance(op: u8) -> bool
    ensures { result ≡ is.is_of_instance op }
{
    op == 0x91 || op == 0x92
}

impl<'a> MachineState<'a> {
    /// Whether functions and instructions may be defined.
    fn may_define(&self) -> bool
        ensures { result ≡ is.may_define self.now.kind self.now.callers }
    {
        match self.kind {
            Kind::Font | Kind::ControlValue => self.callers.len() == 0,
            Kind::Glyph => false,
        }
    }

    /// Whether an opcode has no name. A program may define such an opcode. GETVARIATION and GETDATA are names at an
    /// instance alone.
    fn has_no_name(&self, op: u8) -> bool
        ensures { result ≡ is.has_no_name (instance_of self.now.instance) op }
    {
        is_undefined(op) && !(self.instance.is_some() && is_of_instance(op))
    }

    /// Adds a definition. One of an opcode with a name is ignored. Error: Memory.
    fn keep(&mut self, definition: Definition, body: Body<'a>) -> Result<(), AllocError>
        ensures { OnOk result (state_of self.new ≡ is.with_definition definition (body_of body.entry) (state_of self.old)) }
    {
        match definition {
            Definition::Function(n) => self.functions.set(n, body),
            Definition::Instruction(op) if self.has_no_name(op) => {
                self.instructions.set(u16::from(op), body)
            }
            Definition::Instruction(_) => Ok(()),
        }
    }

    /// Defines the code after the FDEF or IDEF at `at`. Errors: CodeShort, NoEndf; Memory.
    fn define(&mut self, at: usize, definition: Definition) -> Outcome
        requires { at < length self.old.frame.code.bytes.now }
        ensures { ComesTo (is.define at definition (state_of self.old)) at (state_of self.new) result }
    {
        match skip_def(self.frame.code.bytes, at) {
            Ok(place) => {
                let code = self.frame.code;
                let body = Body {
                    code,
                    start: at + 1,
                };
                if self.keep(definition, body).is_err() {
                    return Outcome::NoMemory;
                }
                self.frame.place = place;
                Outcome::Done
            }
            Err(halt) => {
                self.frame.place = halt.at;
                Outcome::SkipRefused(halt.why)
            }
        }
    }

    /// FDEF[], 0x2C: n -> defines function n as the code after this opcode, and continues after its ENDF. Errors:
    /// DefinitionPlace outside fpgm and prep and in calls; StackShort; BadArgument of a number that is not 0 to 65535;
    /// CodeShort, NoEndf; Memory.
    pub(crate) fn fdef(&mut self, at: usize) -> Outcome
        requires { at < length self.old.frame.code.bytes.now }
        ensures { ComesTo (is.fdef at (state_of self.old)) at (state_of self.new) result }
    {
        if !self.may_define() {
            return Outcome::Refused(Why::DefinitionPlace);
        }
        let Ok(n) = self.popped() else {
            return Outcome::Refused(Why::StackShort);
        };
        match u16::try_from(n) {
            Ok(n) => self.define(at, Definition::Function(n)),
            Err(_) => Outcome::Refused(Why::BadArgument),
        }
    }

    /// IDEF[], 0x89: opcode -> defines an opcode without a name as the code after this one, and continues after its
    /// ENDF. Errors: DefinitionPlace outside fpgm and prep and in calls; StackShort; BadArgument of a number that is
    /// not 0 to 255; CodeShort, NoEndf; Memory.
    pub(crate) fn idef(&mut self, at: usize) -> Outcome
        requires { at < length self.old.frame.code.bytes.now }
        ensures { ComesTo (is.idef at (state_of self.old)) at (state_of self.new) result }
    {
        if !self.may_define() {
            return Outcome::Refused(Why::DefinitionPlace);
        }
        let Ok(n) = self.popped() else {
            return Outcome::Refused(Why::StackShort);
        };
        match u8::try_from(n) {
            Ok(op) => self.define(at, Definition::Instruction(op)),
            Err(_) => Outcome::Refused(Why::BadArgument),
        }
    }

    /// ENDF[], 0x2D: -> ends a call, or begins the next round of a LOOPCALL. Error: DefinitionPlace outside calls.
    pub(crate) fn endf(&mut self, at: usize) -> Outcome
        requires { at < length self.old.frame.code.bytes.now }
        ensures exact { ComesTo (is.endf self.old.callers at (state_of self.old)) at (state_of self.new) result }
        ensures memory { wants_memory result ≡ false }
    {
        if self.frame.left > 0 && self.callers.len() > 0 {
            self.frame.place = self.frame.start;
            self.frame.left -= 1;
            return Outcome::Done;
        }
        let Some(caller) = self.callers.pop() else {
            return Outcome::Refused(Why::DefinitionPlace);
        };
        self.frame = caller;
        Outcome::Done
    }

    /// Calls a function, and repeats it `again` times. Error: CallDepth.
    fn enter(&mut self, at: usize, body: Body<'a>, again: u32) -> Outcome
        requires { at < length self.old.frame.code.bytes.now }
        ensures exact { let f = body_of body.entry in
            ComesTo (is.called at again (state_of self.old) (Some f)) at (state_of self.new) result }
        ensures memory { wants_memory result ≡ false }
    {
        if self.callers.len() >= CALL_LIMIT {
            return Outcome::Refused(Why::CallDepth);
        }
        self.callers.push(self.frame);
        self.frame = CallFrame {
            code: body.code,
            place: body.start,
            start: body.start,
            left: again,
        };
        Outcome::Done
    }

    /// CALL[], 0x2B: n -> calls function n. Its ENDF returns here. Errors: StackShort, NoFunction, CallDepth.
    pub(crate) fn call(&mut self, at: usize) -> Outcome
        requires { at < length self.old.frame.code.bytes.now }
        ensures exact { ComesTo (is.call self.old.stack at (state_of self.old)) at (state_of self.new) result }
        ensures memory { wants_memory result ≡ false }
    {
        let Ok(n) = self.popped() else {
            return Outcome::Refused(Why::StackShort);
        };
        match self.functions.get(n) {
            Some(body) => self.enter(at, body, 0),
            None => Outcome::Refused(Why::NoFunction),
        }
    }

    /// LOOPCALL[], 0x2A: count, n -> calls function n `count` times. A count below 1 calls nothing. Errors: StackShort;
    /// NoFunction, whatever the count; CallDepth.
    pub(crate) fn loopcall(&mut self, at: usize) -> Outcome
        requires { at < length self.old.frame.code.bytes.now }
        ensures exact { ComesTo (is.loopcall self.old.stack at (state_of self.old)) at (state_of self.new) result }
        ensures memory { wants_memory result ≡ false }
    {
        let Ok(n) = self.popped() else {
            return Outcome::Refused(Why::StackShort);
        };
        let Ok(count) = self.popped() else {
            return Outcome::Refused(Why::StackShort);
        };
        let Some(body) = self.functions.get(n) else {
            return Outcome::Refused(Why::NoFunction);
        };
        if count < 1 {
            return Outcome::Done;
        }
        self.enter(at, body, (count - 1) as u32)
    }

    /// Calls the instruction that a program defined for an opcode without a name. Errors: BadOpcode without a
    /// definition, CallDepth.
    pub(crate) fn call_instruction(&mut self, op: u8, at: usize) -> Outcome
        requires { at < length self.old.frame.code.bytes.now }
        ensures exact { let given = is.instruction_called at (state_of self.old) (function_at (pos op) self.old.instructions) in
            ComesTo given at (state_of self.new) result }
        ensures memory { wants_memory result ≡ false }
    {
        match self.instructions.get(i32::from(op)) {
            Some(body) => self.enter(at, body, 0),
            None => Outcome::Refused(Why::BadOpcode),
        }
    }
}
