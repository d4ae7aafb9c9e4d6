//! An edge as a pass sees it.

ghost use Rattle.std.specs.Prelude.{◌≡◌, map, All, IfOk};
ghost use Rattle.tt_scan_edges.specs.Winding.{EdgeFits};
ghost use Rattle.tt_scan_gaps.specs.Crossings.{meets_line};
ghost use Rattle.tt_scan_gaps.specs.Seen.{seen_by, turned_round};

use crate::crossings::meets_line;
use std::alloc::{AllocError, Global};
use tt_scan_edges::Edge;

/// The direction of a pass. In a pass over columns these are the lines, and a pixel's column and row are exchanged.
#[derive(Clone, Copy)]
pub enum Over {
    Rows,
    Columns,
}

/// The edges of a glyph, and the direction of a pass over them.
#[derive(Clone, Copy)]
pub(crate) struct PassEdges<'a> {
    pub(crate) over: Over,
    pub(crate) edges: &'a [Edge],
    pub(crate) ghost fit: { All EdgeFits edges.now },
}

/// An edge with x and y exchanged.
#[inline(always)]
pub fn turned_round(edge: Edge) -> Edge
    ensures { result ≡ turned_round edge }
{
    Edge {
        ax: edge.ay,
        ay: edge.ax,
        bx: edge.by,
        by: edge.bx,
    }
}

/// Edges with x and y exchanged. Error: memory ran out.
pub fn all_turned_round(alloc: Global, edges: &[Edge]) -> Result<Vec<Edge>, AllocError>
    requires { All EdgeFits edges.now }
    ensures exact { IfOk result (λ v. v.items ≡ map turned_round edges.now) }
    ensures fit { IfOk result (λ v. All EdgeFits v.items) }
{
    let mut turned = Vec::with_capacity(alloc, edges.len())?;
    for edge in edges {
        turned.push(turned_round(*edge))?;
    }
    Ok(turned)
}

/// An edge as a pass sees it: with x and y exchanged in a pass over columns.
#[inline(always)]
pub fn seen_by(over: Over, edge: Edge) -> Edge
    requires { EdgeFits edge }
    ensures exact { result ≡ seen_by over edge }
    ensures fits { EdgeFits result }
{
    match over {
        Over::Rows => edge,
        Over::Columns => turned_round(edge),
    }
}

/// Whether an edge, as a pass sees it, meets a line.
#[inline(always)]
pub fn meets(over: Over, stubs: bool, edge: &Edge) -> bool
    requires { EdgeFits edge.now }
    ensures { result ≡ meets_line stubs (seen_by over edge.now).ay (seen_by over edge.now).by }
{
    match over {
        Over::Rows => meets_line(stubs, edge.ay, edge.by),
        Over::Columns => meets_line(stubs, edge.ax, edge.bx),
    }
}
