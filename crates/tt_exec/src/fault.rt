//! Reasons why a run has no result.

use tt_core::Fault;

/// The reason why a run has no result.
#[derive(Clone, Copy, Debug, PartialEq, Eq)]
pub enum ExecFault {
    /// The program has this defect, named by table and offset of the program with the instruction.
    Font(Fault),
    /// Memory ran out.
    Memory,
    /// An earlier run had a defect or no memory.
    Failed,
}
