//! The work budget of a job (profile).

ghost use Rattle.std.specs.Prelude.{◌≡◌};

use crate::fault::ExecFault;
use tt_core::Fault;

/// The remaining work of a job; None without a budget.
#[derive(Clone, Copy, Debug, PartialEq, Eq)]
pub struct Work {
    pub left: Option<u64>,
}

impl Work {
    pub fn unbounded() -> Work
        ensures { result.left ≡ None }
    {
        Work { left: None }
    }

    pub fn of(left: u64) -> Work
        ensures { result.left ≡ Some left }
    {
        Work { left: Some(left) }
    }
}

/// The reason why a run within a budget has no result.
#[derive(Clone, Copy, Debug, PartialEq, Eq)]
pub enum WorkFault {
    /// A fault that the run has without a budget too.
    Run(ExecFault),
    /// An instruction needs more work than remains: StepLimit there.
    Spent(Fault),
}
