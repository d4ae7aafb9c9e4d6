//! The instructions that move one point or untouch it: MDAP, MDRP, MSIRP, MIAP, MIRP, SCFS, UTP. If something is
//! missing, MIAP, MDRP and MIRP of a tolerant machine still set the reference points (profile). Apple TrueType Reference
//! Manual, "Instruction set": managing outlines.

ghost use Rattle.std.specs.Prelude.{◌≡◌};
ghost use Rattle.tt_core.specs.Outcomes.{Gives};
ghost use Rattle.tt_exec_points.specs.Instruction as is;
ghost use Rattle.tt_exec_stack.specs.Stack.{Does};

use crate::points::Points;
use crate::popping::{popped, unless_missing};
use tt_core::Why;
use tt_exec_stack::Stack;
use tt_points::Keeping;
use tt_points::control_values::{miap, mirp};
use tt_points::measuring::{scfs, utp};
use tt_points::moving::{mdap, mdrp, msirp, refer};
use tt_state::{GraphicsState, Tolerance};

/// An instruction that moves one point or untouches it.
#[derive(Clone, Copy)]
pub enum OnOne {
    /// MDAP[r], 0x2E and 0x2F: p -> nothing.
    Mdap { round: bool },
    /// MDRP[abcde], 0xC0 to 0xDF: p -> nothing.
    Mdrp(Keeping),
    /// MSIRP[a], 0x3A and 0x3B: p, d -> nothing.
    Msirp { set_rp0: bool },
    /// MIAP[r], 0x3E and 0x3F: p, n -> nothing.
    Miap { round: bool },
    /// MIRP[abcde], 0xE0 to 0xFF: p, n -> nothing.
    Mirp(Keeping),
    /// SCFS[], 0x48: p, v -> nothing.
    Scfs,
    /// UTP[], 0x29: p -> nothing.
    Utp,
}

/// The control value with number `n`. Error: CvtRange.
fn control_value(n: i32, cvt: &[i32]) -> Result<i32, Why>
    ensures { Gives (λ c. c) result (is.control_value n cvt.now) }
{
    if n < 0 || n as usize >= cvt.len() {
        return Err(Why::CvtRange);
    }
    Ok(cvt[n as usize])
}

/// The control value with number `n`, for MIRP: 0 for -1 on a tolerant machine. Error: CvtRange.
fn mirp_value(tolerance: Tolerance, n: i32, cvt: &[i32]) -> Result<i32, Why>
    ensures { Gives (λ c. c) result (is.mirp_value tolerance n cvt.now) }
{
    if tolerance.is_tolerant() && n == -1 {
        return Ok(0);
    }
    control_value(n, cvt)
}

/// Sets the reference points after MIAP.
fn refer_to(graphics: &mut GraphicsState, p: i32)
    ensures { graphics.new ≡ is.referred_to p graphics.old }
{
    graphics.rp0 = p;
    graphics.rp1 = p;
}

impl Points {
    /// Executes an instruction on one point. Errors: StackShort; PointRange of a strict machine, and CvtRange of its
    /// MIAP and MIRP; Perpendicular and ValueRange of all but UTP.
    pub(crate) fn on_one(
        &mut self,
        tolerance: Tolerance,
        op: OnOne,
        cvt: &[i32],
        stack: &mut Stack,
        graphics: &mut GraphicsState,
    ) -> Result<(), Why>
        ensures { let given = is.on_one tolerance op cvt.now stack.old self.old graphics.old in
            Does given (stack.new, self.new, graphics.new) result }
    {
        match op {
            OnOne::Mdap { round } =>
                popped!(tolerance, stack, p => mdap(&mut self.zones, graphics, round, p)),
            OnOne::Mdrp(keeping) => {
                let p = stack.pop()?;
                let done = mdrp(&mut self.zones, graphics, keeping, p);
                unless_missing!(tolerance, done, refer(graphics, keeping.set_rp0, p))
            }
            OnOne::Msirp { set_rp0 } => popped!(tolerance, stack, d, p =>
                msirp(&mut self.zones, graphics, set_rp0, p, d)),
            OnOne::Miap { round } => {
                let n = stack.pop()?;
                let p = stack.pop()?;
                let done = match control_value(n, cvt) {
                    Ok(c) => miap(&mut self.zones, graphics, round, p, c),
                    Err(why) => Err(why),
                };
                unless_missing!(tolerance, done, refer_to(graphics, p))
            }
            OnOne::Mirp(keeping) => {
                let n = stack.pop()?;
                let p = stack.pop()?;
                let done = match mirp_value(tolerance, n, cvt) {
                    Ok(c) => mirp(&mut self.zones, graphics, keeping, p, c),
                    Err(why) => Err(why),
                };
                unless_missing!(tolerance, done, refer(graphics, keeping.set_rp0, p))
            }
            OnOne::Scfs => popped!(tolerance, stack, v, p => scfs(&mut self.zones, graphics, p, v)),
            OnOne::Utp => popped!(tolerance, stack, p => utp(&mut self.zones, graphics, p)),
        }
    }
}
