//! Why a call fails.

ghost use Rattle.std.specs.Prelude.{◌≡◌};
ghost use Rattle.tt_render_streams.specs.declared.fault.RunFault.TheVariants.{Job, Write};
ghost use Rattle.tt_render_streams.specs.Views.{run_fault_of_font, run_fault_of_draw};

use thiserror::Error;
use tt_core::{DrawFault, Fault, FontFault, JobFault};
use tt_pbm::Cut;

/// Why `run` or `map` fails.
#[derive(Clone, Copy, Debug, PartialEq, Eq, Error)]
pub enum RunFault {
    /// The font has this defect; nothing was written.
    #[error("the font is refused")]
    Font(Fault),
    /// The job is refused; nothing was written.
    #[error("{0}")]
    Job(JobFault),
    /// The font could not be read to its end; nothing was written.
    #[error("cannot read the font")]
    Read,
    /// The font has more than 67,108,864 bytes; nothing was written.
    #[error("the font is too large")]
    FontLarge,
    /// Writing failed after `sent` bytes of this call.
    #[error("cannot write after {sent} bytes")]
    Write { sent: u64 },
    /// Memory was refused; nothing was written.
    #[error("out of memory")]
    Memory,
}

impl From<JobFault> for RunFault {
    ghost from_gives = { λ j e. e ≡ Job j };

    fn from(fault: JobFault) -> RunFault {
        RunFault::Job(fault)
    }
}

impl From<FontFault> for RunFault {
    ghost from_gives = { λ f e. e ≡ run_fault_of_font f };

    fn from(fault: FontFault) -> RunFault {
        match fault {
            FontFault::Font(fault) => RunFault::Font(fault),
            FontFault::Memory => RunFault::Memory,
        }
    }
}

impl From<DrawFault> for RunFault {
    ghost from_gives = { λ f e. e ≡ run_fault_of_draw f };

    fn from(fault: DrawFault) -> RunFault {
        match fault {
            DrawFault::Font(fault) => RunFault::Font(fault),
            DrawFault::Job(fault) => RunFault::Job(fault),
            DrawFault::Memory => RunFault::Memory,
        }
    }
}

impl From<Cut> for RunFault {
    ghost from_gives = { λ cut e. e ≡ Write cut.sent };

    fn from(cut: Cut) -> RunFault {
        RunFault::Write { sent: cut.sent }
    }
}
