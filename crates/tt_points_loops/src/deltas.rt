//! Exceptions at single sizes: DELTAP1 to DELTAP3, with rules that DELTAC1 to DELTAC3 share. Apple TrueType Reference
//! Manual, "Instruction set": managing exceptions. Distances are in 26.6 pixels, sizes in pixels per em.

ghost use Rattle.std.specs.Prelude.{◌≡◌, Some, get_or, ◌*◌, ◌+◌, ◌<◌, ◌≤◌, pos, ◌*ℤ◌, ◌≤ℤ◌, unsigned_abs};
ghost use Rattle.std.specs.Prelude.{IfErr, IfOk, IfSome, length};
ghost use Rattle.tt_core.specs.Outcomes.{Gives};
ghost use Rattle.tt_points_loops.specs.Deltas as is;
ghost use Rattle.tt_points_zones.specs.Views.{zones_view};

use tt_core::Why;
use tt_points_zones::{Motion, Zones, may_move};
use tt_state::{GraphicsState, Tolerance};

/// The 16 sizes of an instruction, counted from the delta base. DELTAP1 and DELTAC1 have the first ones.
#[derive(Clone, Copy)]
pub enum DeltaRange {
    First,
    Second,
    Third,
}

/// A DELTAP or a DELTAC on a machine.
#[derive(Clone, Copy)]
pub struct Deltas {
    pub range: DeltaRange,
    /// The machine's size, in pixels per em.
    pub ppem: u32,
    pub tolerance: Tolerance,
}

/// A pair on the stack: an argument, and the number of a point or of a control value.
#[derive(Clone, Copy)]
pub struct Pair {
    pub argument: i32,
    pub number: i32,
}

/// Pair `i` of a list of arguments and numbers.
pub fn pair_at(pairs: &[i32], i: usize) -> Pair
    requires { 2 * i + 1 < length pairs.now }
    ensures { (result.argument, result.number) ≡ get_or (is.pairs_of pairs.now) i (pos 0, pos 0) }
{
    Pair {
        argument: pairs[2 * i],
        number: pairs[2 * i + 1],
    }
}

/// The distance of a range's first size from the delta base, in pixels per em.
fn sizes_passed(range: DeltaRange) -> i64
    ensures exact { result ≡ is.sizes_passed range }
    ensures low { pos 0 ≤ℤ result }
    ensures high { result ≤ℤ pos 32 }
{
    match range {
        DeltaRange::First => 0,
        DeltaRange::Second => 16,
        DeltaRange::Third => 32,
    }
}

/// Bits 7 to 4 of an argument: the size.
fn size_of(range: DeltaRange, argument: u8, state: &GraphicsState) -> i64
    ensures { result ≡ is.size_of range argument state.now }
{
    i64::from(state.delta_base) + sizes_passed(range) + i64::from(argument / 16)
}

/// Bits 3 to 0: 0 to 7 are -8 to -1 steps, 8 to 15 are 1 to 8.
fn steps_of(argument: u8) -> i32
    ensures exact { result ≡ is.steps_of argument }
    ensures bound { unsigned_abs result ≤ 8 }
{
    let low = i32::from(argument % 16);
    if low < 8 { low - 8 } else { low - 7 }
}

/// One step.
fn step_of(state: &GraphicsState) -> i32
    ensures exact { result ≡ is.step_of state.now }
    ensures low { pos 1 ≤ℤ result }
    ensures high { result ≤ℤ pos 64 }
{
    match state.delta_shift {
        0 => 64,
        1 => 32,
        2 => 16,
        3 => 8,
        4 => 4,
        5 => 2,
        _ => 1,
    }
}

/// The move that a byte requests at its size.
fn exception(argument: u8, state: &GraphicsState) -> i32
    ensures exact { result ≡ is.steps_of argument *ℤ is.step_of state.now }
    ensures bound { unsigned_abs result ≤ 512 }
{
    steps_of(argument) * step_of(state)
}

/// An argument as a byte. A tolerant machine takes the low byte. Error: BadArgument, for an argument that is no byte.
fn byte_of(tolerance: Tolerance, argument: i32) -> Result<u8, Why>
    ensures { Gives (λ b. b) result (is.byte_of tolerance argument) }
{
    match tolerance {
        Tolerance::Strict => u8::try_from(argument).map_err(|_| Why::BadArgument),
        Tolerance::Tolerant => Ok(argument.rem_euclid(256) as u8),
    }
}

/// The move that an argument of DELTAP or DELTAC requests at the machine's size: 1 to 8 steps to either side, in 26.6
/// pixels. None where the argument is for another size. Error: BadArgument, for an argument that is no byte, unless the
/// machine is tolerant.
pub fn delta_of(by: Deltas, argument: i32, state: &GraphicsState) -> Result<Option<i32>, Why>
    ensures exact { Gives (λ d. d) result (is.delta_of by.tolerance by.range argument by.ppem state.now) }
    ensures bound { IfOk result (λ d. IfSome d (λ by. unsigned_abs by ≤ 512)) }
{
    let argument = byte_of(by.tolerance, argument)?;
    if size_of(by.range, argument, state) != i64::from(by.ppem) {
        return Ok(None);
    }
    Ok(Some(exception(argument, state)))
}

/// Moves a point of zp0 by `d`. Errors: PointRange, Perpendicular, ValueRange.
fn move_by(zones: &mut Zones, state: &GraphicsState, d: i32, n: i32) -> Result<(), Why>
    ensures exact { Gives (λ u. zones_view zones.new) result (is.move_by (Some d) state.now n (zones_view zones.old)) }
    ensures kept { IfErr result (λ why. zones_view zones.new ≡ zones_view zones.old) }
{
    let p = zones.point(state.zp0, n)?;
    may_move(state)?;
    let motion = Motion::of(state);
    let q = motion.moved(p, i64::from(d))?;
    zones.set(state.zp0, n, q);
    Ok(())
}

/// Moves the point of a pair as its argument requests. Errors: BadArgument, PointRange, Perpendicular, ValueRange.
fn except(zones: &mut Zones, state: &GraphicsState, by: Deltas, pair: Pair) -> Result<(), Why>
    ensures exact { Gives (λ u. zones_view zones.new) result
        (is.except by.tolerance by.range by.ppem state.now (pair.argument, pair.number) (zones_view zones.old)) }
    ensures kept { IfErr result (λ why. zones_view zones.new ≡ zones_view zones.old) }
{
    match delta_of(by, pair.argument, state)? {
        Some(d) => move_by(zones, state, d, pair.number),
        None => Ok(()),
    }
}

/// DELTAP1[], 0x5D; DELTAP2[], 0x71; DELTAP3[], 0x72: pairs of an argument and a point of zp0 -> moves each point as
/// requested. The last pair comes first. A tolerant machine passes over each missing point. Errors: BadArgument,
/// PointRange, Perpendicular, ValueRange.
pub fn deltap(
    zones: &mut Zones,
    state: &GraphicsState,
    by: Deltas,
    pairs: &[i32],
) -> Result<(), Why>
    ensures exact { Gives (λ u. zones_view zones.new) result
        (is.deltap by.tolerance by.range by.ppem pairs.now (zones_view zones.old) state.now) }
{
    for i in (0..pairs.len() / 2).rev() {
        match except(zones, state, by, pair_at(pairs, i)) {
            Ok(()) => {}
            Err(why) if by.tolerance.passes_over(why) => {}
            Err(why) => return Err(why),
        }
    }
    Ok(())
}
