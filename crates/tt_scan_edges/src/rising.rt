//! An edge that rises.

ghost use Rattle.std.specs.Prelude.{◌<ℤ◌};
ghost use Rattle.tt_scan_edges.specs.Winding.{EdgeFits};

use crate::edge::Edge;

/// An edge that rises from a to b.
#[derive(Clone, Copy)]
pub(crate) struct RisingEdge {
    pub(crate) edge: Edge,
    pub(crate) ghost fits: { EdgeFits edge },
    pub(crate) ghost rises: { edge.ay <ℤ edge.by },
}
