//! Managing the graphics state: reference points, zone pointers, the round state, distances and deltas. Apple TrueType
//! Reference Manual, "Instruction set".

ghost use Rattle.std.specs.Prelude.{◌≡◌};
ghost use Rattle.tt_exec_stack.specs.Stack.{Does};
ghost use Rattle.tt_exec_state.specs.Settings as is;

use crate::instruction::GraphicsSetting;
use crate::size::Size;
use tt_core::Why;
use tt_exec_stack::Stack;
use tt_points_zones::zone_of;
use tt_state::{GraphicsState, Round, Tolerance};

/// SRP0[], 0x10: p -> nothing; sets reference point 0, which is tested at its use (profile).
fn srp0(stack: &mut Stack, graphics: &mut GraphicsState) -> Result<(), Why>
    ensures { Does (is.srp0 stack.old graphics.old) (stack.new, graphics.new) result }
{
    graphics.rp0 = stack.pop()?;
    Ok(())
}

/// SRP1[], 0x11: p -> nothing; sets reference point 1.
fn srp1(stack: &mut Stack, graphics: &mut GraphicsState) -> Result<(), Why>
    ensures { Does (is.srp1 stack.old graphics.old) (stack.new, graphics.new) result }
{
    graphics.rp1 = stack.pop()?;
    Ok(())
}

/// SRP2[], 0x12: p -> nothing; sets reference point 2.
fn srp2(stack: &mut Stack, graphics: &mut GraphicsState) -> Result<(), Why>
    ensures { Does (is.srp2 stack.old graphics.old) (stack.new, graphics.new) result }
{
    graphics.rp2 = stack.pop()?;
    Ok(())
}

/// SZP0[], 0x13: n -> nothing; sets zone pointer 0. Error: ZoneRange.
fn szp0(tolerance: Tolerance, stack: &mut Stack, graphics: &mut GraphicsState) -> Result<(), Why>
    ensures { Does (is.szp0 tolerance stack.old graphics.old) (stack.new, graphics.new) result }
{
    match zone_of(stack.pop()?) {
        Ok(zone) => graphics.zp0 = zone,
        Err(why) if tolerance.passes_over(why) => {}
        Err(why) => return Err(why),
    }
    Ok(())
}

/// SZP1[], 0x14: n -> nothing; sets zone pointer 1. Error: ZoneRange.
fn szp1(tolerance: Tolerance, stack: &mut Stack, graphics: &mut GraphicsState) -> Result<(), Why>
    ensures { Does (is.szp1 tolerance stack.old graphics.old) (stack.new, graphics.new) result }
{
    match zone_of(stack.pop()?) {
        Ok(zone) => graphics.zp1 = zone,
        Err(why) if tolerance.passes_over(why) => {}
        Err(why) => return Err(why),
    }
    Ok(())
}

/// SZP2[], 0x15: n -> nothing; sets zone pointer 2. Error: ZoneRange.
fn szp2(tolerance: Tolerance, stack: &mut Stack, graphics: &mut GraphicsState) -> Result<(), Why>
    ensures { Does (is.szp2 tolerance stack.old graphics.old) (stack.new, graphics.new) result }
{
    match zone_of(stack.pop()?) {
        Ok(zone) => graphics.zp2 = zone,
        Err(why) if tolerance.passes_over(why) => {}
        Err(why) => return Err(why),
    }
    Ok(())
}

/// SZPS[], 0x16: n -> nothing; sets all three zone pointers. Error: ZoneRange.
fn szps(tolerance: Tolerance, stack: &mut Stack, graphics: &mut GraphicsState) -> Result<(), Why>
    ensures { Does (is.szps tolerance stack.old graphics.old) (stack.new, graphics.new) result }
{
    match zone_of(stack.pop()?) {
        Ok(zone) => {
            graphics.zp0 = zone;
            graphics.zp1 = zone;
            graphics.zp2 = zone;
        }
        Err(why) if tolerance.passes_over(why) => {}
        Err(why) => return Err(why),
    }
    Ok(())
}

/// SLOOP[], 0x17: n -> nothing; sets the loop variable. Error: BadArgument if n is negative.
fn sloop(stack: &mut Stack, graphics: &mut GraphicsState) -> Result<(), Why>
    ensures { Does (is.sloop stack.old graphics.old) (stack.new, graphics.new) result }
{
    let loops = stack.pop()?;
    if loops < 0 {
        return Err(Why::BadArgument);
    }
    graphics.loops = loops as u32;
    Ok(())
}

/// RTG[], 0x18; RTHG[], 0x19; RTDG[], 0x3D; ROFF[], 0x7A; RUTG[], 0x7C; RDTG[], 0x7D: -> sets the round state.
fn round_to(round: Round, graphics: &mut GraphicsState)
    ensures { graphics.new ≡ is.round_to round graphics.old }
{
    graphics.round = round;
}

/// SROUND[], 0x76: n -> nothing; sets the round state from the low byte of n.
fn sround(stack: &mut Stack, graphics: &mut GraphicsState) -> Result<(), Why>
    ensures { Does (is.sround stack.old graphics.old) (stack.new, graphics.new) result }
{
    let n = stack.pop()?;
    round_to(Round::from_byte(n.rem_euclid(256) as u8), graphics);
    Ok(())
}

/// S45ROUND[], 0x77: n -> nothing; sets the round state from the low byte of n, with a grid of half a diagonal.
fn s45round(stack: &mut Stack, graphics: &mut GraphicsState) -> Result<(), Why>
    ensures { Does (is.s45round stack.old graphics.old) (stack.new, graphics.new) result }
{
    let n = stack.pop()?;
    round_to(Round::from_byte_at_45(n.rem_euclid(256) as u8), graphics);
    Ok(())
}

/// SMD[], 0x1A: d -> nothing; sets the minimum distance.
fn smd(stack: &mut Stack, graphics: &mut GraphicsState) -> Result<(), Why>
    ensures { Does (is.smd stack.old graphics.old) (stack.new, graphics.new) result }
{
    graphics.min_distance = stack.pop()?;
    Ok(())
}

/// SCVTCI[], 0x1D: n -> nothing; sets the control-value cut-in.
fn scvtci(stack: &mut Stack, graphics: &mut GraphicsState) -> Result<(), Why>
    ensures { Does (is.scvtci stack.old graphics.old) (stack.new, graphics.new) result }
{
    graphics.cut_in = stack.pop()?;
    Ok(())
}

/// SSWCI[], 0x1E: n -> nothing; sets the single-width cut-in.
fn sswci(stack: &mut Stack, graphics: &mut GraphicsState) -> Result<(), Why>
    ensures { Does (is.sswci stack.old graphics.old) (stack.new, graphics.new) result }
{
    graphics.single_cut_in = stack.pop()?;
    Ok(())
}

/// SSW[], 0x1F: n -> nothing; sets the single-width value to n font units, scaled. Error: ValueRange.
fn ssw(size: Size, stack: &mut Stack, graphics: &mut GraphicsState) -> Result<(), Why>
    ensures { Does (is.ssw size.scale stack.old graphics.old) (stack.new, graphics.new) result }
{
    let units = stack.pop()?;
    graphics.single_width = size.in_pixels(units)?;
    Ok(())
}

/// FLIPON[], 0x4D, and FLIPOFF[], 0x4E: -> sets auto flip.
fn flip(on: bool, graphics: &mut GraphicsState)
    ensures { graphics.new ≡ is.flip on graphics.old }
{
    graphics.auto_flip = on;
}

/// SDB[], 0x5E: n -> nothing; sets the delta base.
fn sdb(stack: &mut Stack, graphics: &mut GraphicsState) -> Result<(), Why>
    ensures { Does (is.sdb stack.old graphics.old) (stack.new, graphics.new) result }
{
    graphics.delta_base = stack.pop()?;
    Ok(())
}

/// SDS[], 0x5F: n -> nothing; sets the delta shift. Error: BadArgument if n is not 0 to 6.
fn sds(stack: &mut Stack, graphics: &mut GraphicsState) -> Result<(), Why>
    ensures { Does (is.sds stack.old graphics.old) (stack.new, graphics.new) result }
{
    let delta_shift = stack.pop()?;
    if delta_shift < 0 || delta_shift > 6 {
        return Err(Why::BadArgument);
    }
    graphics.delta_shift = delta_shift as u32;
    Ok(())
}

/// Whether scan control is on after SCANCTRL of v. The low byte of v is a size: up to it bit 8 switches on, above it
/// bit 11 switches off. A size of 255 is always on, one of 0 always off.
fn control_after(v: i32, ppem: u32, before: bool) -> bool
    ensures { result ≡ is.control_after v ppem before }
{
    let size = v.rem_euclid(256) as u32;
    if size == 255 {
        return true;
    }
    if size == 0 {
        return false;
    }
    if ppem <= size {
        before || v.rem_euclid(512) >= 256
    } else {
        before && v.rem_euclid(4096) < 2048
    }
}

/// SCANCTRL[], 0x85: v -> nothing; sets scan control.
fn scanctrl(size: Size, stack: &mut Stack, graphics: &mut GraphicsState) -> Result<(), Why>
    ensures { Does (is.scanctrl size.ppem stack.old graphics.old) (stack.new, graphics.new) result }
{
    let v = stack.pop()?;
    graphics.scan.on = control_after(v, size.ppem, graphics.scan.on);
    Ok(())
}

/// The scan type after SCANTYPE of v. A negative v changes nothing.
fn type_after(v: i32, before: u16) -> u16
    ensures { result ≡ is.type_after v before }
{
    if v < 0 {
        return before;
    }
    v.rem_euclid(65536) as u16
}

/// SCANTYPE[], 0x8D: v -> nothing; sets the scan type.
fn scantype(stack: &mut Stack, graphics: &mut GraphicsState) -> Result<(), Why>
    ensures { Does (is.scantype stack.old graphics.old) (stack.new, graphics.new) result }
{
    let v = stack.pop()?;
    graphics.scan.scan_type = type_after(v, graphics.scan.scan_type);
    Ok(())
}

/// SANGW[], 0x7E; AA[], 0x7F; DEBUG[], 0x4F: n -> nothing. A function (for the prover): it shows that `Stack::pop` does
/// what the definition says.
fn ignored(stack: &mut Stack) -> Result<(), Why>
    ensures { Does (is.ignored stack.old) stack.new result }
{
    stack.pop()?;
    Ok(())
}

/// Executes an instruction that sets a variable of the graphics state. Errors: StackShort; BadArgument of SLOOP and
/// SDS; ZoneRange of a strict machine; ValueRange of SSW.
#[inline(always)]
pub fn set_state(
    op: GraphicsSetting,
    size: Size,
    tolerance: Tolerance,
    stack: &mut Stack,
    graphics: &mut GraphicsState,
) -> Result<(), Why>
    ensures { let given = is.state_set op size.ppem size.scale tolerance stack.old graphics.old in
        Does given (stack.new, graphics.new) result }
{
    match op {
        GraphicsSetting::Srp0 => srp0(stack, graphics),
        GraphicsSetting::Srp1 => srp1(stack, graphics),
        GraphicsSetting::Srp2 => srp2(stack, graphics),
        GraphicsSetting::Szp0 => szp0(tolerance, stack, graphics),
        GraphicsSetting::Szp1 => szp1(tolerance, stack, graphics),
        GraphicsSetting::Szp2 => szp2(tolerance, stack, graphics),
        GraphicsSetting::Szps => szps(tolerance, stack, graphics),
        GraphicsSetting::Sloop => sloop(stack, graphics),
        GraphicsSetting::RoundTo(round) => {
            round_to(round, graphics);
            Ok(())
        }
        GraphicsSetting::Sround => sround(stack, graphics),
        GraphicsSetting::S45round => s45round(stack, graphics),
        GraphicsSetting::Smd => smd(stack, graphics),
        GraphicsSetting::Scvtci => scvtci(stack, graphics),
        GraphicsSetting::Sswci => sswci(stack, graphics),
        GraphicsSetting::Ssw => ssw(size, stack, graphics),
        GraphicsSetting::Flip(on) => {
            flip(on, graphics);
            Ok(())
        }
        GraphicsSetting::Sdb => sdb(stack, graphics),
        GraphicsSetting::Sds => sds(stack, graphics),
        GraphicsSetting::Scanctrl => scanctrl(size, stack, graphics),
        GraphicsSetting::Scantype => scantype(stack, graphics),
        GraphicsSetting::Ignored => ignored(stack),
    }
}
