//! Errors of calls that lay out or draw a line.

ghost use Rattle.std.specs.Prelude.{◌≡◌};
ghost use Rattle.tt_core.specs.declared.draw_fault.DrawFault.TheVariants as draw;
ghost use Rattle.tt_core.specs.Outcomes.{draw_fault_of_font};

use crate::fault::{Fault, JobFault};
use crate::font_fault::FontFault;
use std::alloc::AllocError;

/// Why a line was not laid out, or its picture was not made. No reader or writer is involved.
#[derive(Clone, Copy, Debug, PartialEq, Eq)]
pub enum DrawFault {
    /// The font has this defect.
    Font(Fault),
    /// The job is out of its limits, its picture would have no or too many pixels, or its glyphs would be too much
    /// work.
    Job(JobFault),
    /// Memory was refused.
    Memory,
}

impl From<Fault> for DrawFault {
    ghost from_gives = { λ f e. e ≡ draw.Font f };

    fn from(fault: Fault) -> DrawFault {
        DrawFault::Font(fault)
    }
}

impl From<JobFault> for DrawFault {
    ghost from_gives = { λ j e. e ≡ draw.Job j };

    fn from(fault: JobFault) -> DrawFault {
        DrawFault::Job(fault)
    }
}

impl From<AllocError> for DrawFault {
    ghost from_gives = { λ _ e. e ≡ draw.Memory };

    fn from(_error: AllocError) -> DrawFault {
        DrawFault::Memory
    }
}

impl From<FontFault> for DrawFault {
    ghost from_gives = { λ f e. e ≡ draw_fault_of_font f };

    fn from(fault: FontFault) -> DrawFault {
        match fault {
            FontFault::Font(fault) => DrawFault::Font(fault),
            FontFault::Memory => DrawFault::Memory,
        }
    }
}
