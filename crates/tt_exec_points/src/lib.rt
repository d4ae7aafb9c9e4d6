//! The instructions on points, with the interpreter's stack. Apple TrueType Reference Manual, "Instruction set".
//!
//! ```text
//! points.rt          the zones after each instruction
//! popping.rt         values from the stack, and what a tolerant machine passes over
//! moving.rt          MDAP, MDRP, MSIRP, MIAP, MIRP, SCFS, UTP
//! measuring.rt       GC, MD
//! several.rt         ALIGNRP, IP, SHP, SHPIX, FLIPPT, FLIPRGON, FLIPRGOFF, SHC, SHZ, DELTAP, IUP
//! lines.rt           SPVTL, SFVTL, SDPVTL, ISECT, ALIGNPTS
//! control_values.rt  DELTAC
//! instruction.rt     the function of each family
//! laws.rt            laws of them
//! ```
#![tactic(auto)]

mod control_values;
mod instruction;
pub mod laws;
mod lines;
mod measuring;
mod moving;
mod points;
mod popping;
mod several;

pub use instruction::{OnPoints, on_points};
pub use lines::OnLines;
pub use measuring::Measuring;
pub use moving::OnOne;
pub use points::Points;
pub use several::{InTurn, OnRange};
pub use tt_points::measuring::Position;
pub use tt_points::{Keeping, Originals, Zones};
pub use tt_points_loops::deltas::DeltaRange;
pub use tt_points_loops::shifting::ReferencePoint;
