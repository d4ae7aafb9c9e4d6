//! The instructions that measure points: GC, MD. On a tolerant machine they measure 0 if a point is missing (profile).
//! Apple TrueType Reference Manual, "Instruction set": managing outlines.

ghost use Rattle.std.specs.Prelude.{◌≡◌};
ghost use Rattle.tt_exec_points.specs.Instruction as is;
ghost use Rattle.tt_exec_stack.specs.Stack.{Does};

use crate::points::Points;
use crate::popping::unless_missing;
use tt_core::Why;
use tt_exec_stack::Stack;
use tt_points::lines::Ends;
use tt_points::measuring::{Position, gc, md};
use tt_state::{GraphicsState, Tolerance};

/// An instruction that measures points.
#[derive(Clone, Copy)]
pub enum Measuring {
    /// GC[a], 0x46 and 0x47: p -> c.
    Gc(Position),
    /// MD[a], 0x49 and 0x4A: p2, p1 -> d.
    Md(Position),
}

impl Points {
    /// Executes an instruction that measures. Errors: StackShort; PointRange of a strict machine; StackFull.
    pub(crate) fn measure(
        &self,
        tolerance: Tolerance,
        op: Measuring,
        stack: &mut Stack,
        graphics: &GraphicsState,
    ) -> Result<(), Why>
        ensures { Does (is.measured tolerance op stack.old self.now graphics.now) stack.new result }
    {
        match op {
            Measuring::Gc(of) => {
                let p = stack.pop()?;
                let measured = unless_missing!(tolerance, gc(&self.zones, graphics, of, p), 0);
                stack.push(i64::from(measured?))
            }
            Measuring::Md(between) => {
                let p1 = stack.pop()?;
                let p2 = stack.pop()?;
                let measured = unless_missing!(
                    tolerance,
                    md(&self.zones, graphics, between, Ends { from: p1, to: p2 }),
                    0
                );
                stack.push(i64::from(measured?))
            }
        }
    }
}
