//! Joins a component with the points assembled so far. OpenType, "The 'glyf' table", "Composite Glyph Description".

ghost use Rattle.std.specs.Prelude.{◌≡◌, ◌+◌, ◌≤◌, ◌++◌, length, All, OnOk};
ghost use Rattle.tt_core.specs.Limits.{point_limit};
ghost use Rattle.tt_core.specs.Outcomes.{after_each, FontGives, Leaves};
ghost use Rattle.tt_glyf.specs.Meaning.{HasArguments};
ghost use Rattle.tt_fit_outline.specs.Component.{placed_point};
ghost use Rattle.tt_fit_outline.specs.Joining.{ends_after, scan_after, appended, placed};
ghost use Rattle.tt_fit_outline.specs.Outline.{IsPoint};
ghost use Rattle.tt_fit_outline.specs.Views.{outline_of, size_view, shift_view};

use crate::component::{landed, shift_of};
use crate::grid::Grid;
use crate::outline::Outline;
use crate::scaling::{glyf_fault, settled};
use crate::shift::Shift;
use crate::size::FontSize;
use std::alloc::AllocError;
use tt_core::{FontFault, Halves, POINT_LIMIT, Why};
use tt_glyf::{ComponentFlags, Record};
use tt_state::ScanControl;

/// Appends each point of a component in its place. Errors: CoordRange, Memory.
#[tactic(auto, using(crate::proofs::Lists::points))]
fn push_placed(
    points: &mut Vec<(i32, i32, bool)>,
    halves: Halves,
    part: Record,
    by: Shift,
    component: &[(i32, i32, bool)],
) -> Result<(), FontFault>
    requires { All IsPoint points.old.items }
    ensures exact { Leaves result points.new.items (after_each (placed_point halves part (shift_view by)) component.now points.old.items) }
    ensures count { OnOk result (length points.new.items ≡ length points.old.items + length component.now) }
    ensures coordinates { OnOk result (All IsPoint points.new.items) }
{
    points.reserve(component.len())?;
    for point in component {
        points.push(settled(part.at, landed(halves, part, by, *point))?)?;
    }
    Ok(())
}

/// Appends the ends of a component's contours, with `points` points before them.
fn push_ends(ends: &mut Vec<u32>, points: u32, component: &[u32]) -> Result<(), AllocError>
    requires points { points ≤ point_limit }
    requires component { All (λ e. e ≤ point_limit) component.now }
    ensures { OnOk result (ends.new.items ≡ ends.old.items ++ ends_after points component.now) }
{
    for end in component {
        ends.push(points + *end)?;
    }
    Ok(())
}

/// The scan control of the last program that was run, a component's or an earlier one's.
fn scan_after(component: Option<ScanControl>, so_far: Option<ScanControl>) -> Option<ScanControl>
    ensures { result ≡ scan_after component so_far }
{
    match component {
        Some(left) => Some(left),
        None => so_far,
    }
}

/// Appends a component, moved by a shift. Errors: CoordRange, PointLimit, Memory.
#[tactic(auto, unfolding(crate::specs::Joining::appended, crate::specs::Joining::within_point_limit))]
fn appended(
    halves: Halves,
    part: Record,
    by: Shift,
    component: &Outline,
    so_far: Outline,
) -> Result<Outline, FontFault>
    ensures exact { FontGives outline_of result (appended halves part (shift_view by) (outline_of component.now) (outline_of so_far)) }
{
    let Outline {
        mut points,
        mut ends,
        phantom,
        scan,
        ..
    } = so_far;
    let before = points.len();
    push_placed(&mut points, halves, part, by, &component.points)?;
    if points.len() > POINT_LIMIT {
        return Err(FontFault::Font(glyf_fault(part.at, Why::PointLimit)));
    }
    push_ends(&mut ends, before as u32, &component.ends)?;
    let phantom = if part.has(ComponentFlags::USE_MY_METRICS) {
        component.phantom
    } else {
        phantom
    };
    Ok(Outline {
        points,
        ends,
        phantom,
        unfitted: None,
        scan: scan_after(component.scan, scan),
    })
}

/// Places a component and appends it. Errors: MatchPoint, CoordRange, PointLimit, Memory.
#[tactic(auto, unfolding(crate::specs::Joining::placed))]
pub fn placed(
    grid: Grid,
    size: FontSize,
    part: Record,
    component: &Outline,
    so_far: Outline,
) -> Result<Outline, FontFault>
    requires arguments { HasArguments part }
    ensures exact { FontGives outline_of result (placed grid (size_view size) part (outline_of component.now) (outline_of so_far)) }
{
    let by = shift_of(grid, size, part, &component.points, &so_far.points)?;
    appended(size.scale.halves, part, by, component, so_far)
}
