//! The edges of a tape, and the count of their crossings. Only `cross`, `cross_met`, `start` and `cross_below` give an
//! edge's columns at a height, and each call counts. `lend` lends the edges to those who need their rows, and to dropout
//! control.

ghost use Rattle.std.specs.Prelude.{◌≡◌, true, ◌+◌, ◌^◌, ◌≢◌, pos, ◌<◌, ◌≤◌, length, [], ◌∷◌, ◌++◌, All, IfOk, OnOk};
ghost use Rattle.tt_scan_edges.specs.Counted.{edge_at};
ghost use Rattle.tt_scan_edges.specs.Crossing.{IsCross};
ghost use Rattle.tt_scan_edges.specs.Entries.{edge_of};
ghost use Rattle.tt_scan_edges.specs.Walks.{GoesBelow, IsWalk};
ghost use Rattle.tt_scan_edges.specs.Winding.{EdgeFits, is_between};

use crate::crossing::{crossing, crossing_met};
use crate::edge::{Cross, Edge};
use crate::entry::Entry;
use crate::row_at::RowAt;
use crate::walk::Walk;
use std::alloc::{AllocError, Global};
use std::marker::Model;

/// Edges that only counted calls cross.
#[derive(Drop)]
pub struct CountedEdges {
    edges: Vec<Edge>,
    crosses: u64,
}

impl Model for CountedEdges {
    ghost use Rattle.std.specs.Prelude.{All};
    ghost use Rattle.std.specs.Vec.{vec_capacity};
    ghost use Rattle.tt_scan_edges.specs.Counted as counted;
    ghost use Rattle.tt_scan_edges.specs.Winding.{EdgeFits};

    ghost Value = { counted.CountedEdges };

    ghost view = { λ e. record { edges = e.edges.items; crosses = e.crosses; capacity = vec_capacity e.edges } };

    ghost invariant = { λ e. All EdgeFits e.edges.items };
}

impl CountedEdges {
    /// No edges, and a count of 0. It takes no memory yet.
    pub fn new(alloc: Global) -> CountedEdges
        ensures edges { result.edges ≡ [] }
        ensures crosses { result.crosses ≡ 0 }
    {
        CountedEdges {
            edges: Vec::new(alloc),
            crosses: 0,
        }
    }

    /// Takes memory for `more` further edges. The edges are unchanged, whatever the result.
    pub fn reserve(&mut self, more: usize) -> Result<(), AllocError>
        ensures edges { self.new.edges ≡ self.old.edges }
        ensures crosses { self.new.crosses ≡ self.old.crosses }
        ensures room { OnOk result (length self.new.edges + more ≤ self.new.capacity) }
    {
        self.edges.reserve(more)
    }

    /// Adds an edge; there is memory for it.
    #[inline(always)]
    pub fn push_reserved(&mut self, edge: Edge)
        requires edge { EdgeFits edge }
        requires room { length self.old.edges < self.old.capacity }
        ensures { self.new ≡ record self.old { edges = self.old.edges ++ edge ∷ [] } }
    {
        self.edges.push_reserved(edge);
    }

    /// A copy of the edges, with a count of 0. Error: memory ran out.
    pub fn copied(&self) -> Result<CountedEdges, AllocError>
        ensures edges { IfOk result (λ e. e.edges ≡ self.now.edges) }
        ensures crosses { IfOk result (λ e. e.crosses ≡ 0) }
    {
        let edges = self.edges.clone()?;
        Ok(CountedEdges { edges, crosses: 0 })
    }

    /// These edges for another tape, with a count of 0: the count belongs to the tape.
    pub fn anew(self) -> CountedEdges
        ensures edges { result.edges ≡ self.edges }
        ensures crosses { result.crosses ≡ 0 }
    {
        let CountedEdges { edges, .. } = self;
        CountedEdges { edges, crosses: 0 }
    }

    /// How many edges there are.
    #[inline(always)]
    pub fn len(&self) -> usize
        ensures exact { result ≡ length self.now.edges }
        ensures small { result < 2 ^ 63 }
    {
        self.edges.len()
    }

    /// The edges, for their rows and for dropout control.
    #[inline(always)]
    pub fn lend(&self) -> &[Edge]
        ensures exact { result.now ≡ self.now.edges }
        ensures fit { All EdgeFits result.now }
    {
        self.edges.as_slice()
    }

    /// Edge `i`.
    #[inline(always)]
    fn edge(&self, i: usize) -> Edge
        requires { i < length self.now.edges }
        ensures exact { result ≡ edge_at self.now.edges i }
        ensures fits { EdgeFits result }
    {
        self.edges[i]
    }

    /// The count of crossings.
    pub fn crosses(&self) -> u64
        ensures { result ≡ self.now.crosses }
    {
        self.crosses
    }

    /// Crosses edge `i` in a row.
    pub fn cross(&mut self, i: usize, at: RowAt) -> Cross
        requires within { i < length self.old.edges }
        requires count { self.old.crosses < 2 ^ 63 }
        ensures exact { IsCross (edge_at self.old.edges i) at.frame.margin at.y result }
        ensures count { self.new ≡ record self.old { crosses = self.old.crosses + 1 } }
    {
        self.crosses += 1;
        crossing(self.edges[i], at)
    }

    /// Crosses edge `i` in a row that it reaches.
    #[inline(always)]
    pub fn cross_met(&mut self, i: usize, at: RowAt) -> Cross
        requires within { i < length self.old.edges }
        requires met { is_between (edge_at self.old.edges i).ay (edge_at self.old.edges i).by at.y ≡ true }
        requires count { self.old.crosses < 2 ^ 63 }
        ensures exact { IsCross (edge_at self.old.edges i) at.frame.margin at.y result }
        ensures count { self.new ≡ record self.old { crosses = self.old.crosses + 1 } }
    {
        self.crosses += 1;
        crossing_met(self.edges[i], at)
    }

    /// Starts the walk of an edge in a row that it reaches, and crosses it there.
    #[inline(always)]
    pub fn start(&mut self, entry: Entry, at: RowAt) -> (Walk, Cross)
        requires within { entry.edge < length self.old.edges }
        requires sloped { (edge_of self.old.edges entry).ay ≢ (edge_of self.old.edges entry).by }
        requires met { is_between (edge_of self.old.edges entry).ay (edge_of self.old.edges entry).by at.y ≡ true }
        requires count { self.old.crosses < 2 ^ 63 }
        ensures walk { IsWalk (edge_of self.old.edges entry) at.frame.margin at.y result.0 }
        ensures entry { result.0.entry ≡ entry }
        ensures exact { IsCross (edge_of self.old.edges entry) at.frame.margin at.y result.1 }
        ensures count { self.new ≡ record self.old { crosses = self.old.crosses + 1 } }
    {
        let edge = self.edge(entry.edge as usize);
        self.crosses += 1;
        Walk::new(edge, entry, at)
    }

    /// Takes a walk one row down, and crosses its edge there.
    #[inline(always)]
    pub fn cross_below(&mut self, walk: &mut Walk, at: RowAt) -> Cross
        requires within { walk.old.entry.edge < length self.old.edges }
        requires below { GoesBelow (edge_of self.old.edges walk.old.entry) at.frame.margin at.y walk.old }
        requires count { self.old.crosses < 2 ^ 63 }
        ensures exact { IsCross (edge_of self.old.edges walk.old.entry) at.frame.margin at.y result }
        ensures some { result.turn ≢ pos 0 }
        ensures walk { IsWalk (edge_of self.old.edges walk.old.entry) at.frame.margin at.y walk.new }
        ensures entry { walk.new.entry ≡ walk.old.entry }
        ensures count { self.new ≡ record self.old { crosses = self.old.crosses + 1 } }
    {
        self.crosses += 1;
        walk.go_down();
        walk.cross()
    }
}
