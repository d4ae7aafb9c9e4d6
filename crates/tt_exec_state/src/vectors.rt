//! Managing the graphics state: the vectors. Apple TrueType Reference Manual, "Instruction set". Without the whole
//! instruction set, vectors are along the axes alone (profile).

ghost use Rattle.std.specs.Prelude.{◌≡◌, ◌<◌, ◌≤◌, unsigned_abs};
ghost use Rattle.tt_core.specs.Outcomes.{Gives};
ghost use Rattle.tt_exec_stack.specs.Stack.{Does};
ghost use Rattle.tt_exec_state.specs.Vectors as is;
ghost use Rattle.tt_state.specs.Axes.{pair_of};

use crate::instruction::Vectors;
use tt_core::Why;
use tt_exec_stack::Stack;
use tt_state::{Axis, GraphicsState, Vector};

/// The unit vector along an axis.
fn along(axis: Axis) -> Vector
    ensures { result ≡ is.along axis }
{
    match axis {
        Axis::X => Vector::X,
        Axis::Y => Vector::Y,
    }
}

/// Sets the projection vector and the dual one.
fn project_along(vector: Vector, graphics: &mut GraphicsState)
    ensures { graphics.new ≡ is.projects_along vector graphics.old }
{
    graphics.proj = vector;
    graphics.dual = graphics.proj;
}

/// SVTCA[a], 0x00 and 0x01: -> sets all vectors along y, x.
fn svtca(axis: Axis, graphics: &mut GraphicsState)
    ensures { graphics.new ≡ is.svtca axis graphics.old }
{
    project_along(along(axis), graphics);
    graphics.free = along(axis);
}

/// SPVTCA[a], 0x02 and 0x03: -> sets the projection vectors along y, x.
fn spvtca(axis: Axis, graphics: &mut GraphicsState)
    ensures { graphics.new ≡ is.spvtca axis graphics.old }
{
    project_along(along(axis), graphics);
}

/// SFVTCA[a], 0x04 and 0x05: -> sets the freedom vector along y, x.
fn sfvtca(axis: Axis, graphics: &mut GraphicsState)
    ensures { graphics.new ≡ is.sfvtca axis graphics.old }
{
    graphics.free = along(axis);
}

/// The low 16 bits of a stack value, in two's complement (profile).
#[tactic(auto, unfolding(crate::specs::Vectors::part))]
fn part(n: i32) -> i32
    ensures exact { result ≡ is.part n }
    ensures bound { unsigned_abs result ≤ 32768 }
{
    let low = n.rem_euclid(65536);
    if low < 32768 { low } else { low - 65536 }
}

/// The unit vector in the direction of a pair. Without the whole instruction set, only the pair of an axis, in 2.14, is
/// allowed. Error: OffProfile, for another pair then.
fn vector_given(x: i32, y: i32, whole: bool) -> Result<Vector, Why>
    ensures exact { Gives (λ v. v) result (is.vector_given x y whole) }
{
    if whole {
        return Ok(Vector::unit(part(x), part(y)));
    }
    if x == 16384 && y == 0 {
        return Ok(Vector::X);
    }
    if x == 0 && y == 16384 {
        return Ok(Vector::Y);
    }
    Err(Why::OffProfile)
}

/// SPVFS[], 0x0A: x, y -> nothing; sets the projection vectors. Errors: StackShort, OffProfile.
fn spvfs(stack: &mut Stack, graphics: &mut GraphicsState) -> Result<(), Why>
    ensures { Does (is.spvfs stack.old graphics.old) (stack.new, graphics.new) result }
{
    let y = stack.pop()?;
    let x = stack.pop()?;
    let vector = vector_given(x, y, graphics.whole)?;
    project_along(vector, graphics);
    Ok(())
}

/// SFVFS[], 0x0B: x, y -> nothing; sets the freedom vector. Errors: StackShort, OffProfile.
fn sfvfs(stack: &mut Stack, graphics: &mut GraphicsState) -> Result<(), Why>
    ensures { Does (is.sfvfs stack.old graphics.old) (stack.new, graphics.new) result }
{
    let y = stack.pop()?;
    let x = stack.pop()?;
    graphics.free = vector_given(x, y, graphics.whole)?;
    Ok(())
}

/// Pushes a vector: -> x, y in 2.14. Error: StackFull.
fn push_vector(vector: &Vector, stack: &mut Stack) -> Result<(), Why>
    ensures { Does (is.vector_pushed vector.now stack.old) stack.new result }
{
    stack.push(i64::from(vector.x()))?;
    stack.push(i64::from(vector.y()))
}

/// GPV[], 0x0C: -> the projection vector. A function (for the prover): it shows that the graphics state is unchanged.
fn gpv(stack: &mut Stack, graphics: &GraphicsState) -> Result<(), Why>
    ensures { Does (is.gpv stack.old graphics.now) (stack.new, graphics.now) result }
{
    push_vector(&graphics.proj, stack)
}

/// GFV[], 0x0D: -> the freedom vector. A function (for the prover): it shows that the graphics state is unchanged.
fn gfv(stack: &mut Stack, graphics: &GraphicsState) -> Result<(), Why>
    ensures { Does (is.gfv stack.old graphics.now) (stack.new, graphics.now) result }
{
    push_vector(&graphics.free, stack)
}

/// SFVTPV[], 0x0E: -> sets the freedom vector to the projection vector.
fn sfvtpv(graphics: &mut GraphicsState)
    ensures { graphics.new ≡ is.sfvtpv graphics.old }
{
    graphics.free = graphics.proj;
}

/// Executes an instruction that sets or reads vectors. Errors: StackShort; OffProfile of a vector off the axes without
/// the whole instruction set; StackFull.
#[inline(always)]
pub fn access_vectors(
    op: Vectors,
    stack: &mut Stack,
    graphics: &mut GraphicsState,
) -> Result<(), Why>
    ensures { Does (is.vectors_accessed op stack.old graphics.old) (stack.new, graphics.new) result }
{
    match op {
        Vectors::Svtca(axis) => svtca(axis, graphics),
        Vectors::Spvtca(axis) => spvtca(axis, graphics),
        Vectors::Sfvtca(axis) => sfvtca(axis, graphics),
        Vectors::Spvfs => return spvfs(stack, graphics),
        Vectors::Sfvfs => return sfvfs(stack, graphics),
        Vectors::Gpv => return gpv(stack, graphics),
        Vectors::Gfv => return gfv(stack, graphics),
        Vectors::Sfvtpv => sfvtpv(graphics),
    }
    Ok(())
}
