//! Programs and the functions that they define. Apple TrueType Reference Manual, "Instructing TrueType Glyphs" and
//! "Instruction set" (defining and using functions).

ghost use Rattle.std.specs.Prelude.{◌≡◌, ◌+◌, ◌^◌, ◌<◌, ◌≤◌, length, IsTrue};
ghost use Rattle.tt_core.specs.Faults.{is_ascii};

/// A program: its table, the offset of its first byte there, and its bytes.
#[derive(Clone, Copy)]
pub struct Code<'a> {
    pub table: [u8; 4],
    pub base: u32,
    pub bytes: &'a [u8],
    pub ghost ascii: { IsTrue (is_ascii table) },
    pub ghost fits: { base + length bytes.now < 2 ^ 32 },
}

/// A function, or an instruction that a program defines: its program, and the place there after its FDEF or IDEF.
#[derive(Clone, Copy)]
pub struct Body<'a> {
    pub code: Code<'a>,
    pub start: usize,
    pub ghost within: { start ≤ length code.bytes.now },
}

/// The subject of a definition.
#[derive(Clone, Copy)]
pub enum Definition {
    /// FDEF: the function with this number.
    Function(u16),
    /// IDEF: the instruction with this opcode.
    Instruction(u8),
}

/// A running program or call: its program, the place of the next instruction, the place where it began, and the count
/// of repeats to come.
#[derive(Clone, Copy)]
pub struct CallFrame<'a> {
    pub code: Code<'a>,
    pub place: usize,
    pub start: usize,
    pub left: u32,
    pub ghost place_within: { place ≤ length code.bytes.now },
    pub ghost start_within: { start ≤ length code.bytes.now },
}

impl<'a> CallFrame<'a> {
    ghost use Rattle.tt_exec_step.specs.MachineState.{no_code, start_of};
    ghost use Rattle.tt_exec_step.specs.Views.{frame_of, code_of};

    /// The start of a program.
    pub(crate) fn of(code: Code<'a>) -> CallFrame<'a>
        ensures { frame_of result ≡ start_of (code_of code.entry) }
    {
        CallFrame {
            code,
            place: 0,
            start: 0,
            left: 0,
        }
    }

    /// The frame before the first run.
    pub fn idle() -> CallFrame<'a>
        ensures { frame_of result ≡ start_of no_code }
    {
        CallFrame::of(Code {
            table: *b"none",
            base: 0,
            bytes: &[],
        })
    }
}

impl Default for CallFrame<'_> {
    fn default() -> Self {
        CallFrame::idle()
    }
}
