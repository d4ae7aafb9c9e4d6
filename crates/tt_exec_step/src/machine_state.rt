//! The state of a machine during a run. Apple TrueType Reference Manual, "Instructing TrueType Glyphs".

ghost use Rattle.std.specs.Prelude.{◌≡◌};
ghost use Rattle.tt_exec_step.specs.MachineState.{begun};
ghost use Rattle.tt_exec_step.specs.States.{state_of};
ghost use Rattle.tt_exec_step.specs.Views.{code_of};

use crate::callers::Callers;
use crate::function_table::Functions;
use crate::program::{CallFrame, Code};
use tt_exec_points::Points;
use tt_exec_stack::Stack;
use tt_exec_state::{Instance, Size};
use tt_state::{GraphicsState, Tolerance};

/// The kind of the running program. It decides whether functions may be defined and flags set.
#[derive(Clone, Copy)]
pub enum Kind {
    /// The program in the table fpgm.
    Font,
    /// The program in the table prep.
    ControlValue,
    Glyph,
}

/// The state of a machine during a run.
#[derive(Drop)]
pub struct MachineState<'a> {
    pub stack: Stack,
    /// The innermost open call, or the running program.
    pub frame: CallFrame<'a>,
    /// The frames that wait for it.
    pub callers: Callers<'a>,
    pub functions: Functions<'a>,
    /// By opcode.
    pub instructions: Functions<'a>,
    pub storage: Vec<i32>,
    pub cvt: Vec<i32>,
    pub graphics: GraphicsState,
    pub tolerance: Tolerance,
    pub points: Points,
    pub skip_glyphs: bool,
    pub default_state: bool,
    pub size: Size,
    pub instance: Instance,
    pub kind: Kind,
}

impl<'a> MachineState<'a> {
    /// Begins a run of a program.
    pub fn begin(&mut self, code: Code<'a>, kind: Kind)
        ensures { state_of self.new ≡ begun kind (code_of code.entry) (state_of self.old) }
    {
        self.stack.clear();
        self.callers.clear();
        self.frame = CallFrame::of(code);
        self.kind = kind;
    }
}
