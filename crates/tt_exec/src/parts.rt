//! The parts of a machine, which exist between runs.

ghost use Rattle.std.specs.Prelude.{◌≡◌, ◌≤◌, IfOk};
ghost use Rattle.tt_core.specs.Limits.{size_limit};
ghost use Rattle.tt_core.specs.Scales.{IsScale};
ghost use Rattle.tt_exec.specs.OneProof.{zones-prop};
ghost use Rattle.tt_exec_step.specs.zones.Views.{zones_view};
ghost use Rattle.tt_exec_step.specs.zones.Zones.{IsZones};

use std::alloc::AllocError;
use tt_core::Scale;
use tt_exec_step::{Functions, Instance, MachineState, Zones};
use tt_state::{GraphicsState, Tolerance};

/// The parts of a machine, before and after runs. Distances are in 26.6 pixels.
#[derive(Drop)]
pub struct Parts<'a> {
    /// From font units to 26.6 pixels.
    pub scale: Scale,
    /// Pixels per em.
    pub ppem: u32,
    /// The control values.
    pub cvt: Vec<i32>,
    /// The storage area.
    pub storage: Vec<i32>,
    pub zones: Zones,
    pub functions: Functions<'a>,
    /// The instructions defined by IDEF, by opcode.
    pub instructions: Functions<'a>,
    pub state: GraphicsState,
    /// The instance of a variable font. No program sets it.
    pub instance: Instance,
    /// Whether a missing thing is refused or passed over. No program sets it.
    pub tolerance: Tolerance,
    /// Whether the control value program forbids glyph programs.
    pub skip_glyphs: bool,
    /// Whether the control value program wants the default graphics state for glyph programs.
    pub default_state: bool,
    pub ghost limit: { ppem ≤ size_limit },
    pub ghost scaled: { IsScale scale },
    pub ghost placed: { IsZones (zones_view zones) } by { zones-prop (zones_view zones) },
}

impl<'a> Parts<'a> {
    ghost use Rattle.tt_exec.specs.Machines.{parts_in};
    ghost use Rattle.tt_exec.specs.Parts.{parts_of};
    ghost use Rattle.tt_exec_step.specs.States.{state_of};

    /// The parts of a machine in this state.
    pub(crate) fn of(state: MachineState<'a>) -> Parts<'a>
        ensures { parts_of result ≡ parts_in (state_of state.entry) }
    {
        Parts {
            scale: state.size.scale,
            ppem: state.size.ppem,
            cvt: state.cvt,
            storage: state.storage,
            zones: state.points.into_zones(),
            functions: state.functions,
            instructions: state.instructions,
            state: state.graphics,
            instance: state.instance,
            tolerance: state.tolerance,
            skip_glyphs: state.skip_glyphs,
            default_state: state.default_state,
        }
    }

    /// A copy in memory of its own. Programs are not copied.
    pub fn copy(&self) -> Result<Parts<'a>, AllocError>
        ensures { IfOk result (λ p. parts_of p ≡ parts_of self.now) }
    {
        Ok(Parts {
            scale: self.scale,
            ppem: self.ppem,
            cvt: self.cvt.clone()?,
            storage: self.storage.clone()?,
            zones: self.zones.copy()?,
            functions: self.functions.copy()?,
            instructions: self.instructions.copy()?,
            state: self.state,
            instance: self.instance,
            tolerance: self.tolerance,
            skip_glyphs: self.skip_glyphs,
            default_state: self.default_state,
        })
    }
}
