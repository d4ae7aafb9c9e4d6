//! The walk along a contour: the crossings and the ends of its edges, in order.

ghost use Rattle.std.specs.Prelude.{◌≡◌, ◌++◌, All, IfOk, OnOk};
ghost use Rattle.tt_scan_edges.specs.Winding.{EdgeFits};
ghost use Rattle.tt_scan_gaps.specs.Walk.{steps_of, walk};

use crate::crossings::{crossing, lines_crossed};
use crate::mark::Step;
use std::alloc::{AllocError, Global};
use tt_scan_edges::Edge;

/// Adds the steps of an edge. Error: memory ran out.
fn push_steps(steps: &mut Vec<Step>, edge: Edge) -> Result<(), AllocError>
    requires { EdgeFits edge }
    ensures { OnOk result (steps.new.items ≡ steps.old.items ++ steps_of edge) }
{
    for k in 0..lines_crossed(edge) {
        steps.push(Step::Cross(crossing(edge, k)))?;
    }
    Ok(steps.push(Step::End(edge.by))?)
}

/// The steps of a contour. Error: memory ran out.
pub fn walk(alloc: Global, edges: &[Edge]) -> Result<Vec<Step>, AllocError>
    requires { All EdgeFits edges.now }
    ensures { IfOk result (λ v. v.items ≡ walk edges.now) }
{
    // Each edge has at least one step, its end.
    let mut steps = Vec::with_capacity(alloc, edges.len())?;
    for i in 0..edges.len() {
        push_steps(&mut steps, edges[i])?;
    }
    Ok(steps)
}
