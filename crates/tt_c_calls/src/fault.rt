//! Why a call has no answer.

ghost use Rattle.std.specs.Prelude.{◌≡◌};
ghost use Rattle.tt_c_calls.specs.declared.fault.CallFault.TheVariants as call;
ghost use Rattle.tt_c_calls.specs.Refusals.{call_of_draw};

use tt_core::{Fault, JobFault};
use tt_strike::DrawFault;

/// Why a call has no answer.
#[derive(Clone, Copy)]
pub enum CallFault {
    /// The font has this defect.
    Font(Fault),
    /// The job is refused.
    Job(JobFault),
    /// The font has more than 67,108,864 bytes.
    FontLarge,
    /// The way to fit has an unknown number.
    UnknownFit,
    /// A line ends past the texts, or before it begins.
    LineEnds,
    /// A job has more than 16 values of axes.
    AxesMany,
    /// The alignment has an unknown number.
    UnknownAlign,
    /// The width of a label is out of its range, or leaves no column between the margins.
    WidthRange,
    /// The box of a label is out of its range, leaves no pixel between the margins, or stands beside a width.
    BoxRange,
    /// The text of a label fits into its box at no size.
    BoxSmall,
    /// The text is not UTF-8.
    NotUtf8,
    /// Memory was refused.
    Memory,
}

impl From<JobFault> for CallFault {
    ghost from_gives = { λ j e. e ≡ call.Job j };

    fn from(fault: JobFault) -> CallFault {
        CallFault::Job(fault)
    }
}

impl From<DrawFault> for CallFault {
    ghost from_gives = { λ f e. e ≡ call_of_draw f };

    fn from(fault: DrawFault) -> CallFault {
        match fault {
            DrawFault::Font(fault) => CallFault::Font(fault),
            DrawFault::Job(fault) => CallFault::Job(fault),
            DrawFault::Memory => CallFault::Memory,
        }
    }
}
