//! The last edge of those joined so far, and whether the next is joined to it.

ghost use Rattle.std.specs.Prelude.{◌≡◌, ◌&&◌, ◌^◌, ◌<◌, ◌+ℤ◌, pos, int_lt, unsigned_abs, true};
ghost use Rattle.tt_scan_edges.specs.Winding.{EdgeFits, is_between};
ghost use Rattle.tt_scan_edges.specs.Joined.{IsTest, goes_on, is_clear, join, joins, leads_to, line_at, line_below};

use crate::edge::Edge;
use crate::quotient::{HALF, PIXEL};
use std::marker::Model;

/// Right of all places, and above all.
const FAR: i64 = 1 << 40;

/// The place of the last line at or below a place.
#[inline(always)]
fn line_below(v: i32) -> i64
    ensures exact { result ≡ line_at (line_below v) }
    ensures small { unsigned_abs result < 2 ^ 33 }
{
    PIXEL * ((i64::from(v) - HALF) >> 13) + HALF
}

/// The line below a place that is on no line. A far line for a place on a line.
#[inline(always)]
fn open_line(v: i32) -> i64
    ensures { IsTest v result }
{
    let line = line_below(v);
    if line < i64::from(v) { line } else { FAR }
}

/// Whether a place is past a line and before the next line.
#[inline(always)]
fn is_past(v: i32, line: i64) -> bool
    requires { unsigned_abs line < 2 ^ 41 }
    ensures { result ≡ (int_lt line v && int_lt v (line +ℤ pos 8192)) }
{
    let past = i64::from(v) - line;
    0 < past && past < PIXEL
}

/// Whether an edge ends where another begins.
#[inline(always)]
fn leads_to(edge: Edge, next: Edge) -> bool
    ensures { result ≡ leads_to edge next }
{
    edge.bx == next.ax && edge.by == next.ay
}

/// The edge from the start of an edge to the end of the next.
#[inline(always)]
fn join(edge: Edge, next: Edge) -> Edge
    ensures { result ≡ join edge next }
{
    Edge {
        ax: edge.ax,
        ay: edge.ay,
        bx: next.bx,
        by: next.by,
    }
}

/// Whether a place along an axis lies between two others, both included.
#[inline(always)]
fn lies_between(a: i32, b: i32, z: i32) -> bool
    ensures { result ≡ is_between a b z }
{
    a.min(b) <= z && z <= a.max(b)
}

/// Whether x and y of an edge's end lie between those of its start and those of the next edge's end.
#[inline(always)]
fn goes_on(edge: Edge, next: Edge) -> bool
    ensures { result ≡ goes_on edge next }
{
    lies_between(edge.ax, next.bx, edge.bx) && lies_between(edge.ay, next.by, edge.by)
}

/// An edge, with the lines below its start: two compares an axis then show whether the edge to another place meets none.
#[derive(Drop)]
pub struct Last {
    edge: Edge,
    across: i64,
    up: i64,
}

impl Model for Last {
    ghost use Rattle.tt_scan_edges.specs.Joined as joined;
    ghost use Rattle.tt_scan_edges.specs.Winding.{EdgeFits};
    ghost use Rattle.tt_scan_edges.specs.declared.edge.Edge as declared;

    ghost Value = { declared.Edge };

    ghost view = { λ l. l.edge };

    ghost invariant = { λ l. joined.IsTest l.edge.ax l.across × joined.IsTest l.edge.ay l.up × EdgeFits l.edge };
}

impl Last {
    /// An edge that the next one may be joined to.
    #[inline(always)]
    pub fn new(edge: Edge) -> Last
        requires { EdgeFits edge }
        ensures { result ≡ edge }
    {
        Last {
            edge,
            across: open_line(edge.ax),
            up: open_line(edge.ay),
        }
    }

    /// The edge.
    #[inline(always)]
    pub fn edge(&self) -> Edge
        ensures exact { result ≡ self.now }
        ensures fits { EdgeFits result }
    {
        self.edge
    }

    /// Whether the edge from the start of this one to the end of the next meets no line.
    #[inline(always)]
    fn is_clear(&self, next: Edge) -> bool
        ensures { result ≡ is_clear (join self.now next) }
    {
        is_past(next.bx, self.across) && is_past(next.by, self.up)
    }

    /// Whether the next edge is joined to this one.
    #[inline(always)]
    pub fn joins(&self, next: Edge) -> bool
        ensures { result ≡ joins self.now next }
    {
        self.is_clear(next) && (goes_on(self.edge, next) && leads_to(self.edge, next))
    }

    /// This edge with the next joined to it.
    #[inline(always)]
    pub fn joined(self, next: Edge) -> Last
        requires { EdgeFits next }
        ensures { result ≡ join self next }
    {
        Last {
            edge: join(self.edge, next),
            across: self.across,
            up: self.up,
        }
    }
}
