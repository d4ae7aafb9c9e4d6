//! The edges of one glyph while they are made. Their rows are not known yet: `Tape::of` finds the rows of all at once.

ghost use Rattle.std.specs.Prelude.{◌≡◌, ◌+◌, ◌^◌, ◌<◌, ◌≤◌, length, [], ◌∷◌, ◌++◌, OnOk};
ghost use Rattle.tt_scan_edges.specs.Winding.{EdgeFits};

use std::alloc::{AllocError, Global};
use std::marker::Model;
use tt_scan_edges::{CountedEdges, Edge};

/// The edges of one glyph, in the order of their addition.
#[derive(Drop)]
pub struct EdgeList {
    edges: CountedEdges,
}

impl Model for EdgeList {
    ghost use Rattle.std.specs.Prelude.{◌≡◌};
    ghost use Rattle.tt_scan.specs.EdgeList as list;

    ghost Value = { list.EdgeList };

    ghost view = { λ l. record { edges = l.edges.edges; capacity = l.edges.capacity } };

    ghost invariant = { λ l. l.edges.crosses ≡ 0 };
}

impl EdgeList {
    /// No edges. It takes no memory yet.
    pub fn new(alloc: Global) -> EdgeList
        ensures { result.edges ≡ [] }
    {
        EdgeList {
            edges: CountedEdges::new(alloc),
        }
    }

    /// Takes memory for `more` further edges. The edges are unchanged, whatever the result. A method (for the prover):
    /// it keeps the invariant, so no caller proves it.
    #[inline(always)]
    pub fn reserve(&mut self, more: usize) -> Result<(), AllocError>
        ensures edges { self.new.edges ≡ self.old.edges }
        ensures room { OnOk result (length self.new.edges + more ≤ self.new.capacity) }
    {
        self.edges.reserve(more)
    }

    /// Adds an edge; there is memory for it. A method (for the prover): it keeps the invariant, so no caller proves it.
    #[inline(always)]
    pub fn push_reserved(&mut self, edge: Edge)
        requires edge { EdgeFits edge }
        requires room { length self.old.edges < self.old.capacity }
        ensures { self.new ≡ record self.old { edges = self.old.edges ++ edge ∷ [] } }
    {
        self.edges.push_reserved(edge);
    }

    /// How many edges there are.
    #[inline(always)]
    pub fn len(&self) -> usize
        ensures exact { result ≡ length self.now.edges }
        ensures small { result < 2 ^ 63 }
    {
        self.edges.len()
    }

    /// The list of some edges, whose count of crossings is 0.
    pub(crate) fn of(edges: CountedEdges) -> EdgeList
        requires { edges.crosses ≡ 0 }
        ensures { result.edges ≡ edges.edges }
    {
        EdgeList { edges }
    }

    /// The edges, with a count of crossings of 0.
    #[inline(always)]
    pub(crate) fn into_edges(self) -> CountedEdges
        ensures edges { result.edges ≡ self.edges }
        ensures crosses { result.crosses ≡ 0 }
    {
        let EdgeList { edges } = self;
        edges
    }
}
