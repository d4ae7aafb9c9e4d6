//! The instructions on several points: ALIGNRP, IP, SHP, SHPIX, FLIPPT, FLIPRGON, FLIPRGOFF, SHC, SHZ, DELTAP1 to
//! DELTAP3, IUP. Apple TrueType Reference Manual, "Instruction set": managing outlines, managing exceptions.

ghost use Rattle.std.specs.Prelude.{◌≡◌};
ghost use Rattle.tt_core.specs.Outcomes.{Gives};
ghost use Rattle.tt_exec_points.specs.Instruction as is;
ghost use Rattle.tt_exec_points.specs.Popping as popping;
ghost use Rattle.tt_exec_stack.specs.Stack.{Does};
ghost use Rattle.tt_points_iup.specs.Interpolation as interpolation;

use crate::points::Points;
use crate::popping::{pairs_counted, pairs_there, popped, unless_missing};
use tt_core::Why;
use tt_exec_stack::Stack;
use tt_points_iup::iup;
use tt_points_loops::deltas::{Deltas, deltap};
use tt_points_loops::flipping::{flip_range, flippt};
use tt_points_loops::moving::{alignrp, ip, shpix};
use tt_points_loops::shifting::{ReferencePoint, reference_number, reference_zone, shc, shp, shz};
use tt_state::{Axis, GraphicsState, Tolerance};

/// An instruction on as many points as the loop variable says.
#[derive(Clone, Copy)]
pub enum InTurn {
    /// ALIGNRP[], 0x3C: loop points -> nothing.
    Alignrp,
    /// IP[], 0x39: loop points -> nothing.
    Ip,
    /// SHP[a], 0x32 and 0x33: loop points -> nothing.
    Shp(ReferencePoint),
    /// SHPIX[], 0x38: loop points, amount -> nothing.
    Shpix,
    /// FLIPPT[], 0x80: loop points -> nothing.
    Flippt,
}

/// An instruction on a range of points.
#[derive(Clone, Copy)]
pub enum OnRange {
    /// FLIPRGON[], 0x81, and FLIPRGOFF[], 0x82: low, high -> nothing.
    Flip { on: bool },
    /// SHC[a], 0x34 and 0x35: contour -> nothing.
    Shc(ReferencePoint),
    /// SHZ[a], 0x36 and 0x37: zone -> nothing.
    Shz(ReferencePoint),
}

/// Applies a change to the points whose numbers are on the stack. The loop variable is their count. A tolerant machine
/// takes no point if the reference point is missing or the stack has fewer. Error: StackShort.
macro_rules! looped {
    ($tolerance:ident, $referred:expr, $stack:ident, $graphics:ident, $numbers:ident => $change:expr) => {{
        if $tolerance.is_tolerant() && does_nothing($referred, $stack, $graphics) {
            $graphics.loops = 1;
            return Ok(());
        }
        let many = $graphics.loops as usize;
        let $numbers = $stack.top(many)?;
        $change?;
        $stack.discard(many);
        Ok(())
    }};
}

/// Whether no point is taken: the reference point is missing, or the stack has fewer points than the loop variable.
fn does_nothing(referred: bool, stack: &Stack, graphics: &GraphicsState) -> bool
    ensures { result ≡ popping.too_little referred stack.now graphics.now }
{
    !referred || stack.len() < graphics.loops as usize
}

impl Points {
    /// Whether the reference point that others follow exists.
    #[tactic(auto, unfolding(crate::specs::Instruction::has_reference))]
    fn has_reference(&self, which: ReferencePoint, graphics: &GraphicsState) -> bool
        ensures { result ≡ is.has_reference which self.now graphics.now }
    {
        self.zones.has(
            reference_zone(graphics, which),
            reference_number(graphics, which),
        )
    }

    /// Executes an instruction on points in turn. Errors: StackShort and PointRange of a strict machine; StackShort of
    /// SHPIX; ValueRange of all but FLIPPT; Perpendicular of ALIGNRP, IP and SHP.
    pub(crate) fn in_turn(
        &mut self,
        tolerance: Tolerance,
        op: InTurn,
        stack: &mut Stack,
        graphics: &mut GraphicsState,
    ) -> Result<(), Why>
        ensures { let given = is.in_turn tolerance op stack.old self.old graphics.old in
            Does given (stack.new, self.new, graphics.new) result }
    {
        match op {
            InTurn::Alignrp =>
                looped!(tolerance, self.zones.has(graphics.zp0, graphics.rp0), stack, graphics, numbers =>
                    alignrp(&mut self.zones, graphics, tolerance, numbers)),
            InTurn::Ip =>
                looped!(tolerance, self.zones.has(graphics.zp0, graphics.rp1), stack, graphics, numbers =>
                    ip(&mut self.zones, graphics, tolerance, numbers)),
            InTurn::Shp(which) =>
                looped!(tolerance, self.has_reference(which, graphics), stack, graphics, numbers =>
                    shp(&mut self.zones, graphics, tolerance, which, numbers)),
            InTurn::Shpix => {
                let amount = stack.pop()?;
                looped!(tolerance, true, stack, graphics, numbers =>
                    shpix(&mut self.zones, graphics, tolerance, numbers, amount))
            }
            InTurn::Flippt => looped!(tolerance, true, stack, graphics, numbers =>
                flippt(&mut self.zones, graphics, tolerance, numbers)),
        }
    }

    /// Executes an instruction on a range of points. Errors: StackShort; PointRange of a strict machine, ContourRange of
    /// its SHC and ZoneRange of its SHZ; Perpendicular and ValueRange of SHC and SHZ.
    pub(crate) fn on_range(
        &mut self,
        tolerance: Tolerance,
        op: OnRange,
        stack: &mut Stack,
        graphics: &GraphicsState,
    ) -> Result<(), Why>
        ensures { let given = is.on_range tolerance op stack.old self.old graphics.now in
            Does given (stack.new, self.new, graphics.now) result }
    {
        match op {
            OnRange::Flip { on } =>
                popped!(tolerance, stack, high, low => flip_range(&mut self.zones, low, high, on)),
            OnRange::Shc(which) => popped!(tolerance, stack, contour =>
                shc(&mut self.zones, graphics, which, contour)),
            OnRange::Shz(which) =>
                popped!(tolerance, stack, zone => shz(&mut self.zones, graphics, which, zone)),
        }
    }

    /// DELTAP1[], DELTAP2[] and DELTAP3[], 0x5D, 0x71 and 0x72: n pairs of an argument and a point, n -> nothing.
    /// Errors: BadArgument, PointRange, Perpendicular, ValueRange.
    pub(crate) fn deltap(
        &mut self,
        by: Deltas,
        stack: &mut Stack,
        graphics: &GraphicsState,
    ) -> Result<(), Why>
        ensures { let given = is.deltap by.tolerance by.range by.ppem stack.old self.old graphics.now in
            Does given (stack.new, self.new, graphics.now) result }
    {
        let many = pairs_counted(stack)?;
        let there = pairs_there(by.tolerance, many, stack);
        let pairs = stack.top(there)?;
        deltap(&mut self.zones, graphics, by, pairs)?;
        stack.discard(many.min(stack.len()));
        Ok(())
    }

    /// IUP[a], 0x30 along y and 0x31 along x: -> nothing. Error: ValueRange. A method (for the prover): only methods of
    /// `Points` open the zones, so `on_points` needs no fact of them.
    pub(crate) fn iup(&mut self, axis: Axis) -> Result<(), Why>
        ensures { Gives (λ u. self.new) result (interpolation.iup axis self.old) }
    {
        iup(&mut self.zones, axis)
    }
}
