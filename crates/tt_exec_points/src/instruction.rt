//! The instructions on points, and those that change control values by exceptions, with the interpreter's stack. Their
//! effects on points are in tt_points, tt_points_loops and tt_points_iup, by the same names. If something is missing, a
//! tolerant machine pops the values of an instruction and does nothing else, but for what moving.rt and measuring.rt
//! say (profile). Apple TrueType Reference Manual, "Instruction set".

ghost use Rattle.std.specs.Prelude.{◌≡◌};
ghost use Rattle.tt_exec_points.specs.Instruction as is;
ghost use Rattle.tt_exec_stack.specs.Stack.{Does};

use crate::control_values::deltac;
use crate::lines::OnLines;
use crate::measuring::Measuring;
use crate::moving::OnOne;
use crate::points::Points;
use crate::several::{InTurn, OnRange};
use tt_core::Why;
use tt_exec_stack::Stack;
use tt_exec_state::Size;
use tt_points_loops::deltas::{DeltaRange, Deltas};
use tt_state::{Axis, GraphicsState, Tolerance};

/// An instruction on points, or DELTAC. Those of a family work on the same parts of a machine.
#[derive(Clone, Copy)]
pub enum OnPoints {
    OnOne(OnOne),
    OnLines(OnLines),
    InTurn(InTurn),
    OnRange(OnRange),
    Iup(Axis),
    Measuring(Measuring),
    Deltap(DeltaRange),
    Deltac(DeltaRange),
}

/// DELTAP or DELTAC on this machine.
fn deltas(range: DeltaRange, size: Size, tolerance: Tolerance) -> Deltas
    ensures range { result.range ≡ range }
    ensures ppem { result.ppem ≡ size.ppem }
    ensures tolerance { result.tolerance ≡ tolerance }
{
    Deltas {
        range,
        ppem: size.ppem,
        tolerance,
    }
}

/// Executes an instruction. Errors: StackShort; those of the instruction. A tolerant machine has none for a missing
/// thing. Inlined where an opcode is matched, because no second match remains there.
#[inline(always)]
pub fn on_points(
    tolerance: Tolerance,
    op: OnPoints,
    size: Size,
    stack: &mut Stack,
    points: &mut Points,
    graphics: &mut GraphicsState,
    cvt: &mut [i32],
) -> Result<(), Why>
    ensures { let given = is.on_points tolerance op size.ppem stack.old points.old graphics.old cvt.old in
        Does given (stack.new, points.new, graphics.new, cvt.new) result }
{
    match op {
        OnPoints::OnOne(one) => points.on_one(tolerance, one, cvt, stack, graphics),
        OnPoints::OnLines(lines) => points.on_lines(tolerance, lines, stack, graphics),
        OnPoints::InTurn(several) => points.in_turn(tolerance, several, stack, graphics),
        OnPoints::OnRange(range) => points.on_range(tolerance, range, stack, graphics),
        OnPoints::Iup(axis) => points.iup(axis),
        OnPoints::Measuring(measuring) => points.measure(tolerance, measuring, stack, graphics),
        OnPoints::Deltap(range) => points.deltap(deltas(range, size, tolerance), stack, graphics),
        OnPoints::Deltac(range) => deltac(deltas(range, size, tolerance), stack, graphics, cvt),
    }
}
