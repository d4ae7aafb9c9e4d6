//! The instructions on lines through points: SPVTL, SFVTL, SDPVTL, ISECT, ALIGNPTS. Apple TrueType Reference Manual,
//! "Instruction set": managing the graphics state, managing outlines.

ghost use Rattle.std.specs.Prelude.{◌≡◌};
ghost use Rattle.tt_exec_points.specs.Instruction as is;
ghost use Rattle.tt_exec_stack.specs.Stack.{Does};

use crate::points::Points;
use crate::popping::{popped, unless_missing};
use tt_core::Why;
use tt_exec_stack::Stack;
use tt_points::lines::{Ends, alignpts, isect, sdpvtl, sfvtl, spvtl};
use tt_state::{GraphicsState, Tolerance};

/// An instruction on lines through points.
#[derive(Clone, Copy)]
pub enum OnLines {
    /// SPVTL[a], 0x06 and 0x07: p2, p1 -> nothing.
    Spvtl { turned: bool },
    /// SFVTL[a], 0x08 and 0x09: p2, p1 -> nothing.
    Sfvtl { turned: bool },
    /// SDPVTL[a], 0x86 and 0x87: p2, p1 -> nothing.
    Sdpvtl { turned: bool },
    /// ISECT[], 0x0F: p, a0, a1, b0, b1 -> nothing.
    Isect,
    /// ALIGNPTS[], 0x27: p2, p1 -> nothing.
    Alignpts,
}

impl Points {
    /// Executes an instruction on lines. Errors: StackShort; PointRange of a strict machine; ValueRange of ISECT and
    /// ALIGNPTS; Perpendicular of ALIGNPTS.
    pub(crate) fn on_lines(
        &mut self,
        tolerance: Tolerance,
        op: OnLines,
        stack: &mut Stack,
        graphics: &mut GraphicsState,
    ) -> Result<(), Why>
        ensures { let given = is.on_lines tolerance op stack.old self.old graphics.old in
            Does given (stack.new, self.new, graphics.new) result }
    {
        match op {
            OnLines::Spvtl { turned } => popped!(tolerance, stack, p1, p2 =>
                spvtl(&self.zones, graphics, turned, Ends { from: p1, to: p2 })),
            OnLines::Sfvtl { turned } => popped!(tolerance, stack, p1, p2 =>
                sfvtl(&self.zones, graphics, turned, Ends { from: p1, to: p2 })),
            OnLines::Sdpvtl { turned } => popped!(tolerance, stack, p1, p2 =>
                sdpvtl(&self.zones, graphics, turned, Ends { from: p1, to: p2 })),
            OnLines::Isect => popped!(tolerance, stack, b1, b0, a1, a0, p => {
                let (a, b) = (Ends { from: a0, to: a1 }, Ends { from: b0, to: b1 });
                isect(&mut self.zones, graphics, p, a, b)
            }),
            OnLines::Alignpts => popped!(tolerance, stack, p1, p2 =>
                alignpts(&mut self.zones, graphics, p1, p2)),
        }
    }
}
