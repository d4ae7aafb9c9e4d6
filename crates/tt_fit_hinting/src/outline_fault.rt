//! Why an outline is not made, where the work of programs may be bounded (profile).

ghost use Rattle.std.specs.Prelude.{◌≡◌, ◌≢◌};
ghost use Rattle.tt_exec.specs.declared.fault.ExecFault.TheVariants as exec;
ghost use Rattle.tt_exec.specs.declared.work.WorkFault.TheVariants as work;
ghost use Rattle.tt_fit_hinting.specs.declared.outline_fault.OutlineFault.TheVariants as outline;
ghost use Rattle.tt_fit_hinting.specs.Work.{IsUnbounded, outline_fault_of, work_fault};

use std::alloc::AllocError;
use tt_core::{Fault, FontFault};
use tt_exec::{ExecFault, WorkFault};

/// Why an outline is not made.
#[derive(Clone, Copy)]
pub enum OutlineFault {
    /// The font has this defect.
    Font(Fault),
    /// Memory ran out.
    Memory,
    /// An instruction needs more work than remains: StepLimit at this instruction.
    Spent(Fault),
}

impl From<Fault> for OutlineFault {
    ghost from_gives = { λ fault e. e ≡ outline.Font fault };

    fn from(fault: Fault) -> OutlineFault {
        OutlineFault::Font(fault)
    }
}

impl From<AllocError> for OutlineFault {
    ghost from_gives = { λ _ e. e ≡ outline.Memory };

    fn from(_error: AllocError) -> OutlineFault {
        OutlineFault::Memory
    }
}

impl From<FontFault> for OutlineFault {
    ghost from_gives = { λ fault e. e ≡ outline_fault_of fault };

    fn from(fault: FontFault) -> OutlineFault {
        match fault {
            FontFault::Font(fault) => OutlineFault::Font(fault),
            FontFault::Memory => OutlineFault::Memory,
        }
    }
}

/// A refusal where work is not bounded.
pub fn unbounded(refusal: OutlineFault) -> FontFault
    requires { IsUnbounded refusal }
    ensures { refusal ≡ outline_fault_of result }
{
    match refusal {
        OutlineFault::Font(fault) => FontFault::Font(fault),
        OutlineFault::Memory => FontFault::Memory,
        OutlineFault::Spent(_) => unreachable!(),
    }
}

/// A machine's refusal of a run, where the machine had not failed before.
pub(crate) fn refusal_of(fault: WorkFault) -> OutlineFault
    requires { fault ≢ work.Run exec.Failed }
    ensures { fault ≡ work_fault result }
{
    match fault {
        WorkFault::Run(refusal) => match refusal {
            ExecFault::Font(fault) => OutlineFault::Font(fault),
            ExecFault::Memory => OutlineFault::Memory,
            ExecFault::Failed => unreachable!(),
        },
        WorkFault::Spent(fault) => OutlineFault::Spent(fault),
    }
}
