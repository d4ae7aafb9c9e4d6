//! A machine and its runs. Apple TrueType Reference Manual, "Instructing TrueType Glyphs".

ghost use Rattle.std.specs.Prelude.{◌≡◌, ◌+◌, ◌≤◌, length, reverse, true, All, IfOk, OnErr, OnOk};
ghost use Rattle.std.specs.Option.{option_map};
ghost use Rattle.tt_core.specs.Limits.{stack_limit, step_limit};
ghost use Rattle.tt_exec_step.specs.on_points.Zones.{no_zones};
ghost use Rattle.tt_exec_step.specs.zones.Views.{zones_view};
ghost use Rattle.tt_exec_step.specs.zones.Zones.{IsPoint, IsZones, SameShape};
ghost use Rattle.tt_exec_step.specs.Runs.{run_outcome};
ghost use Rattle.tt_exec_step.specs.Sizes.{SameSizes};
ghost use Rattle.tt_exec_step.specs.States.{state_of};
ghost use Rattle.tt_exec_step.specs.Views.{code_of};
ghost use Rattle.tt_exec.specs.Machines.{begun_again, kind_of, run_from, GivesParts, OutcomeIs, RunGives};
ghost use Rattle.tt_exec.specs.Parts.{parts_of};
ghost use Rattle.tt_exec.specs.Work.{copied_of, run_work, work_within};
ghost use Rattle.tt_exec.specs.Worked.{OutcomeWithin, Paid, RunsWithin, WorkIs};

use crate::copies::{Copies, pay_copies};
use crate::fault::ExecFault;
use crate::laws;
use crate::parts::Parts;
use crate::running::go;
use crate::work::{Work, WorkFault};
use std::alloc::{AllocError, Global};
use std::marker::Model;
use std::mem::replace;
use tt_core::{Fault, Why};
use tt_exec_step::{CallFrame, Callers, Code, Kind, MachineState, Points, Size, Stack, Zones};
use tt_state::{Point, ScanControl};

/// A machine runs programs one after another. A clause sees its state, and whether a run failed.
#[derive(Drop)]
pub struct Machine<'a> {
    state: MachineState<'a>,
    failed: bool,
}

impl<'a> Model for Machine<'a> {
    ghost use Rattle.tt_exec.specs.Machines as held;

    ghost Value = { held.Machine };

    ghost use Rattle.tt_exec_step.specs.States.{state_of};

    ghost view = { λ m. record { state = state_of m.state; failed = m.failed } };
}

/// The kind of program in a table.
fn kind_of(table: [u8; 4]) -> Kind
    ensures { result ≡ kind_of table }
{
    if &table[..] == &b"fpgm"[..] {
        Kind::Font
    } else if &table[..] == &b"prep"[..] {
        Kind::ControlValue
    } else {
        Kind::Glyph
    }
}

impl<'a> Machine<'a> {
    /// A machine with these parts. It allocates the whole stack. Error: no memory.
    #[inline(never)]
    pub fn new(alloc: Global, parts: Parts<'a>) -> Result<Machine<'a>, AllocError>
        ensures { IfOk result (λ m. m ≡ begun_again (parts_of parts.entry)) }
    {
        let state = MachineState {
            stack: Stack::new(alloc)?,
            frame: CallFrame::idle(),
            callers: Callers::new(alloc),
            functions: parts.functions,
            instructions: parts.instructions,
            storage: parts.storage,
            cvt: parts.cvt,
            graphics: parts.state,
            tolerance: parts.tolerance,
            points: Points::new(parts.zones),
            skip_glyphs: parts.skip_glyphs,
            default_state: parts.default_state,
            size: Size::new(parts.ppem, parts.scale),
            instance: parts.instance,
            kind: Kind::Glyph,
        };
        Ok(Machine {
            state,
            failed: false,
        })
    }

    /// Takes the zones out, so that the next glyph's zones can have their memory. The machine then has none.
    pub fn take_zones(&mut self, alloc: Global) -> Zones
        ensures exact { zones_view result ≡ self.old.state.zones }
        ensures none { self.new ≡ record self.old { state = record self.old.state { zones = no_zones } } }
    {
        replace(&mut self.state.points, Points::none(alloc)).into_zones()
    }

    /// Becomes a new machine of these parts, with other zones, whatever earlier runs did. All else is copied, reusing
    /// the machine's memory. The copies were paid for, those of the twilight zone's points among them. If more memory is
    /// refused, the machine has failed until it is begun again.
    pub fn begin_again(
        &mut self,
        parts: &Parts<'a>,
        zones: Zones,
        copies: &mut Copies,
    ) -> Result<(), AllocError>
        requires zones { IsZones (zones_view zones) }
        requires paid { copies.old.left + length parts.now.zones.twilight.items ≡ copied_of (parts_of parts.now) }
        ensures exact { OnOk result (self.new ≡ begun_again (record (parts_of parts.now) { zones = zones_view zones })) }
        ensures refused { OnErr result (self.new.failed ≡ true) }
        ensures rest { copies.new.rest ≡ copies.old.rest }
    {
        self.failed = true;
        self.state.begin(CallFrame::idle().code, Kind::Glyph);
        copies.copy_table(&mut self.state.functions, &parts.functions)?;
        copies.copy_table(&mut self.state.instructions, &parts.instructions)?;
        copies.copy(&mut self.state.storage, &parts.storage)?;
        copies.copy(&mut self.state.cvt, &parts.cvt)?;
        self.state.graphics = parts.state;
        self.state.tolerance = parts.tolerance;
        self.state.points = Points::new(zones);
        self.state.skip_glyphs = parts.skip_glyphs;
        self.state.default_state = parts.default_state;
        self.state.size = Size::new(parts.ppem, parts.scale);
        self.state.instance = parts.instance;
        self.failed = false;
        Ok(())
    }

    /// Runs a program from its first byte, with an empty stack and all else unchanged. Gives the count of steps. The
    /// program's table decides whether it may define functions and set flags. Errors: Font with a defect of the
    /// program, Memory; from then on Failed.
    pub fn run(&mut self, code: Code<'a>) -> Result<u32, ExecFault>
        ensures exact { RunGives (code_of code.entry) self.old result self.new }
        // The result, by the function that computes a run.
        ensures outcome { OutcomeIs (run_outcome (run_from (code_of code.entry) self.old.state)) result self.new }
        // A run that ends adds or removes no point, storage place or control value, and leaves the contours unchanged.
        ensures shape { IfOk result (λ n. SameShape self.old.state.zones self.new.state.zones) }
        ensures sizes { IfOk result (λ n. SameSizes self.old.state self.new.state) }
    {
        laws::unbounded_work();
        match self.run_within(code, &mut Work::unbounded()) {
            Ok(steps) => Ok(steps),
            Err(WorkFault::Run(fault)) => Err(fault),
            Err(WorkFault::Spent(_)) => unreachable!(),
        }
    }

    /// Runs a program as `run` does, within a job's remaining work. The work pays for copies made for the run. It pays
    /// for each step, with the points and stack entries that the step covers and the bytes that it skips. Errors: Run,
    /// as without a budget; Spent, with StepLimit at the instruction that needs more than remains. After Spent no work
    /// remains, and the machine has failed.
    pub fn run_within(&mut self, code: Code<'a>, work: &mut Work) -> Result<u32, WorkFault>
        ensures exact { RunsWithin (code_of code.entry) self.old result self.new }
        ensures outcome { OutcomeWithin (run_outcome (run_from (code_of code.entry) self.old.state)) result self.new }
        ensures work { WorkIs (run_work (run_from (code_of code.entry) self.old.state)) work.old.left result work.new.left }
        // Each step used at least 1 of the work.
        ensures paid { IfOk result (λ n. Paid n work.old.left work.new.left) }
        ensures shape { IfOk result (λ n. SameShape self.old.state.zones self.new.state.zones) }
        ensures sizes { IfOk result (λ n. SameSizes self.old.state self.new.state) }
    {
        if self.failed {
            return Err(WorkFault::Run(ExecFault::Failed));
        }
        match pay_copies(&self.state, work) {
            Some(copies) => self.run_paid(code, copies, work),
            None => {
                self.failed = true;
                let fault = Fault::new(code.table, code.base, Why::StepLimit);
                Err(WorkFault::Spent(fault))
            }
        }
    }

    /// Runs a program as `run_within` does, on a machine whose copies are paid for. The allowance says so: the work is
    /// what remained after that payment.
    #[inline(always)]
    pub fn run_paid(
        &mut self,
        code: Code<'a>,
        copies: Copies,
        work: &mut Work,
    ) -> Result<u32, WorkFault>
        requires { copies.rest ≡ work.old.left }
        ensures exact { RunsWithin (code_of code.entry) self.old result self.new }
        ensures outcome { OutcomeWithin (run_outcome (run_from (code_of code.entry) self.old.state)) result self.new }
        ensures work { WorkIs (work_within step_limit (run_from (code_of code.entry) self.old.state)) work.old.left result work.new.left }
        // Each step used at least 1 of the work.
        ensures paid { IfOk result (λ n. Paid n work.old.left work.new.left) }
        ensures shape { IfOk result (λ n. SameShape self.old.state.zones self.new.state.zones) }
        ensures sizes { IfOk result (λ n. SameSizes self.old.state self.new.state) }
    {
        if self.failed {
            return Err(WorkFault::Run(ExecFault::Failed));
        }
        laws::sizes_are_kept();
        self.state.points.are_valid();
        self.state.begin(code, kind_of(code.table));
        match go(&mut self.state, work) {
            Ok(steps) => Ok(steps),
            Err(fault) => {
                self.failed = true;
                Err(fault)
            }
        }
    }

    /// The stack, the top last. Unspecified after a defect.
    pub fn stack(&self) -> &[i32]
        ensures exact { reverse result.now ≡ self.now.state.stack }
        ensures limit { length result.now ≤ stack_limit }
    {
        self.state.stack.items()
    }

    /// The points of the glyph.
    pub fn glyph_points(&self) -> &[Point]
        ensures exact { result.now ≡ self.now.state.zones.glyph }
        ensures valid { All IsPoint result.now }
    {
        self.state.points.glyph()
    }

    /// The setting of SCANCTRL and SCANTYPE.
    pub fn scan(&self) -> ScanControl
        ensures { result ≡ self.now.state.graphics.scan }
    {
        self.state.graphics.scan
    }

    /// The machine's parts after its runs; None if the machine has failed.
    pub fn into_parts(self) -> Option<Parts<'a>>
        ensures { GivesParts self.entry (option_map parts_of result) }
    {
        if self.failed {
            return None;
        }
        Some(Parts::of(self.state))
    }
}
