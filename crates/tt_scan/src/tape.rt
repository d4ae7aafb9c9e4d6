//! The edges of one glyph, in the frame of its picture. `CountedEdges` stores them, so that each crossing is counted.

ghost use Rattle.std.specs.Prelude.{◌≡◌, ℤ, false, int_lt, if◌then◌else◌, ◌+◌, ◌*◌, ◌^◌, ◌<◌, ◌≤◌, ◌<ℤ◌, ◌≤ℤ◌, pos, List, length, [], ◌∷◌, ◌++◌, unsigned_abs, All, IfOk, OnOk, OnErr};
ghost use Rattle.tt_core.specs.Limits.{height_limit};
ghost use Rattle.tt_scan.specs.EdgeList.{AreEntered};
ghost use Rattle.tt_scan.specs.EdgeTable.{HasRoom};
ghost use Rattle.tt_scan_edges.specs.Counted.{edge_at};
ghost use Rattle.tt_scan_edges.specs.Crossing.{IsCross, AreRows, AreAllRows, has_row};
ghost use Rattle.tt_scan_edges.specs.declared.edge.Edge.{Edge};
ghost use Rattle.tt_scan_edges.specs.Left.{IsBlank, IsLeftBy};
ghost use Rattle.tt_scan_edges.specs.Marks.{IsRising};
ghost use Rattle.tt_scan_edges.specs.Winding.{EdgeFits, FrameFits, is_black, column_x, row_y, rows_met, crossings_of};

use crate::edge_list::EdgeList;
use crate::edge_table::EdgeTable;
use crate::rows::{gap_at, gap_from, is_in, join, row_range, widened};
use std::alloc::{AllocError, Global};
use std::marker::Model;
use tt_scan_edges::{CountedEdges, Cross, Edge, Entry, Frame, RowAt, RowLeft};

/// The edges of one glyph, in the frame of its picture.
#[derive(Drop)]
pub struct Tape {
    frame: Frame,
    edges: CountedEdges,
    /// The rows of all edges: the first, and one past the last.
    rows: (i32, i32),
    /// The edges that meet some row, each with its rows.
    table: EdgeTable,
}

impl Model for Tape {
    ghost use Rattle.tt_scan_edges.specs.Crossing.{AreAllRows};
    ghost use Rattle.tt_scan.specs.EdgeTable.{IsReady};
    ghost use Rattle.tt_scan.specs.Tape as tape;
    ghost use Rattle.tt_scan_edges.specs.Winding.{FrameFits};

    ghost Value = { tape.Tape };

    ghost view = { λ t. record { frame = t.frame; edges = t.edges.edges; crosses = t.edges.crosses } };

    ghost invariant = { λ t. FrameFits t.frame × AreAllRows t.edges.edges t.frame t.rows
        × IsReady t.edges.edges t.frame t.table };
}

/// Adds the entry of an edge with these rows, if it has any. Errors: memory ran out, or the edge's number is 2^32 or
/// more, which no entry can hold. After an error the entries are unchanged.
#[inline(always)]
fn add_entry(table: &mut EdgeTable, rows: (i32, i32), edge: usize) -> Result<(), AllocError>
    requires low { pos 0 ≤ℤ rows.0 }
    requires high { rows.1 <ℤ pos (2 ^ 15) }
    requires room { HasRoom table.old }
    ensures added { OnOk result (table.new.entries.items ≡ table.old.entries.items ++ (if int_lt rows.0 rows.1
        then (record { first = rows.0; past = rows.1; edge = edge }) ∷ [] else [])) }
    ensures kept { OnErr result (table.new.entries.items ≡ table.old.entries.items) }
    ensures room { HasRoom table.new }
    ensures sorted { table.new.sorted ≡ false }
{
    table.forget();
    if rows.0 >= rows.1 {
        return Ok(());
    }
    let Ok(edge) = u32::try_from(edge) else {
        return Err(AllocError);
    };
    table.add(Entry {
        first: rows.0 as i16,
        past: rows.1 as i16,
        edge,
    })
}

/// Adds an edge's entry to the table, and its rows to the rows of all edges. The edge's number is the count of the
/// edges before it.
#[inline(always)]
fn enter(
    table: &mut EdgeTable,
    all: &mut (i32, i32),
    edge: Edge,
    frame: Frame,
    number: usize,
) -> Result<(), AllocError>
    requires edge { EdgeFits edge }
    requires frame { FrameFits frame }
    requires room { HasRoom table.old }
    ensures entered { OnOk result ((es : List Edge) → number ≡ length es → AreEntered es frame all.old table.old.entries.items
        → AreEntered (es ++ edge ∷ []) frame all.new table.new.entries.items) }
    ensures room { HasRoom table.new }
    ensures sorted { table.new.sorted ≡ false }
{
    let rows = row_range(edge, frame);
    add_entry(table, rows, number)?;
    join(all, rows);
    Ok(())
}

impl Tape {
    /// A tape without edges. It takes no memory yet.
    pub fn new(alloc: Global, frame: Frame) -> Tape
        requires { FrameFits frame }
        ensures { result ≡ record { frame = frame; edges = []; crosses = 0 } }
    {
        Tape {
            frame,
            edges: CountedEdges::new(alloc),
            rows: (0, 0),
            table: EdgeTable::new(alloc),
        }
    }

    /// Takes memory for `more` further edges. The edges are unchanged, whatever the result.
    pub fn reserve(&mut self, more: usize) -> Result<(), AllocError>
        ensures { self.new ≡ self.old }
    {
        self.edges.reserve(more)?;
        // Each of them may meet a row.
        self.table.reserve(more)
    }

    /// Adds an edge. Error: memory ran out, or there are 2^32 edges before it. After an error the tape is unchanged.
    #[inline(always)]
    pub fn push(&mut self, edge: Edge) -> Result<(), AllocError>
        requires { EdgeFits edge }
        ensures added { OnOk result (self.new ≡ record self.old { edges = self.old.edges ++ edge ∷ [] }) }
        ensures kept { OnErr result (self.new ≡ self.old) }
    {
        self.edges.reserve(1)?;
        let rows = row_range(edge, self.frame);
        add_entry(&mut self.table, rows, self.edges.len())?;
        join(&mut self.rows, rows);
        self.edges.push_reserved(edge);
        Ok(())
    }

    /// The tape of some edges. Edges that follow on each other between two rows cost little. Error: memory ran out, or
    /// there are more than 2^32 edges.
    pub fn of(alloc: Global, frame: Frame, list: EdgeList) -> Result<Tape, AllocError>
        requires { FrameFits frame }
        ensures { IfOk result (λ t. t ≡ record { frame = frame; edges = list.edges; crosses = 0 }) }
    {
        let edges = list.into_edges();
        let mut table = EdgeTable::new(alloc);
        // Each of them may meet a row.
        table.reserve(edges.len())?;
        let mut rows = (0, 0);
        let mut at = 0;
        let mut gap = gap_at(at);
        for i in 0..edges.len() {
            let edge = edges.lend()[i];
            gap = gap_from(gap, at, edge.ay);
            if !is_in(gap, edge.by) {
                enter(&mut table, &mut rows, edge, frame, i)?;
                gap = gap_at(edge.by);
            }
            at = edge.by;
        }
        Ok(Tape {
            frame,
            edges,
            rows,
            table,
        })
    }

    /// Gives back the edges, for a tape in another frame, with a count of crossings of 0: the count belongs to the
    /// tape. It takes no memory.
    pub fn into_list(self) -> EdgeList
        ensures { result.edges ≡ self.edges }
    {
        let Tape { edges, .. } = self;
        EdgeList::of(edges.anew())
    }

    /// A copy of the tape, with a count of crossings of 0. Error: memory ran out.
    pub fn copied(&self) -> Result<Tape, AllocError>
        ensures { IfOk result (λ t. t ≡ record self.now { crosses = 0 }) }
    {
        Ok(Tape {
            frame: self.frame,
            edges: self.edges.copied()?,
            rows: self.rows,
            table: self.table.copied()?,
        })
    }

    /// The frame of the picture.
    pub fn frame(&self) -> Frame
        ensures exact { result ≡ self.now.frame }
        ensures fits { FrameFits result }
    {
        self.frame
    }

    /// The number of edges.
    pub fn edges(&self) -> usize
        ensures exact { result ≡ length self.now.edges }
        ensures small { result < 2 ^ 63 }
    {
        self.edges.len()
    }

    /// The edges, for dropout control alone. Rows are cut by `Sweep::cut`, which counts each crossing.
    pub fn lend(&self) -> &[Edge]
        ensures exact { result.now ≡ self.now.edges }
        ensures fits { All EdgeFits result.now }
    {
        self.edges.lend()
    }

    /// The count of crossings. Only tests call this function.
    pub fn crosses(&self) -> u64
        ensures { result ≡ self.now.crosses }
    {
        self.edges.crosses()
    }

    /// The crossings that all rows of the picture need: in each row one of every edge that meets it. No crossing is
    /// made or counted here, so a caller can know the number before a row is cut.
    pub fn crossings(&self) -> u64
        // This bound makes the sum fit.
        requires few { length self.now.edges ≤ 2 ^ 32 }
        ensures exact { result ≡ crossings_of self.now.frame self.now.edges }
        ensures bound { result ≤ (height_limit + 4) * length self.now.edges }
    {
        self.table.rows()
    }

    /// The first of the frame's rows whose centre line meets some edge, and one past the last; two equal numbers where
    /// no row does. The other rows are blank.
    pub fn rows(&self) -> (i64, i64)
        ensures exact { AreAllRows self.now.edges self.now.frame result }
        ensures blank { (r c : ℤ) → pos 0 ≤ℤ r → r <ℤ pos self.now.frame.height → has_row result r ≡ false
            → is_black self.now.edges (column_x self.now.frame.margin c) (row_y self.now.frame r) ≡ false }
    {
        widened(self.rows)
    }

    /// The first of the frame's rows whose centre line meets edge `i`, its ends included, and one past the last; two
    /// equal numbers where no row does. Only tests call this function: a row finds its edges by the edge table.
    pub fn rows_of(&self, i: usize) -> (i64, i64)
        requires { i < length self.now.edges }
        ensures { AreRows (edge_at self.now.edges i) self.now.frame result }
    {
        widened(row_range(self.edges.lend()[i], self.frame))
    }

    /// Crosses edge `i` at the centre line of a row. Only tests call this function.
    pub fn cross(&mut self, i: usize, row: i64) -> Cross
        requires within { i < length self.old.edges }
        requires row_low { pos 0 ≤ℤ row }
        requires row_high { row <ℤ pos self.old.frame.height }
        requires count { self.old.crosses < 2 ^ 63 }
        ensures exact { IsCross (edge_at self.old.edges i) self.old.frame.margin (row_y self.old.frame row) result }
        ensures bound { unsigned_abs result.turn ≤ 1 }
        ensures count { self.new ≡ record self.old { crosses = self.old.crosses + 1 } }
    {
        self.edges.cross(i, RowAt::of(self.frame, row))
    }

    /// Whether the pixel of a column and a row is black: its centre lies on an edge, or the edges wind round it. Only
    /// tests call this function: the program draws rows by a `Sweep`.
    pub fn pixel(&mut self, c: i64, r: i64) -> bool
        requires row_low { pos 0 ≤ℤ r }
        requires row_high { r <ℤ pos self.old.frame.height }
        requires count { self.old.crosses + length self.old.edges ≤ 2 ^ 63 }
        ensures black { result ≡ is_black self.old.edges (column_x self.old.frame.margin c) (row_y self.old.frame r) }
        ensures kept { self.new ≡ record self.old { crosses = self.new.crosses } }
        ensures count { self.new.crosses ≤ self.old.crosses + length self.old.edges }
    {
        self.edges.is_black(c, RowAt::of(self.frame, r))
    }

    /// Adds the marks of the edges that meet a row, in order of their columns, and the spans that they touch. Each of
    /// these edges is crossed once, and no other edge is.
    pub(crate) fn collect(&mut self, r: i64, left: &mut RowLeft)
        requires row_low { pos 0 ≤ℤ r }
        requires row_high { r <ℤ pos self.old.frame.height }
        requires count { self.old.crosses + length self.old.edges ≤ 2 ^ 63 }
        requires blank { IsBlank left.old }
        requires room { length self.old.edges ≤ left.old.most }
        ensures left { IsLeftBy self.old.edges self.old.frame.margin (row_y self.old.frame r) left.old.most left.new }
        ensures order { IsRising left.new.marks }
        ensures tape { self.new ≡ record self.old { crosses = self.new.crosses } }
        ensures crosses { self.new.crosses ≡ self.old.crosses + rows_met self.old.edges (row_y self.old.frame r) }
    {
        let at = RowAt::of(self.frame, r);
        self.table.visit(&mut self.edges, at, left);
        self.table.settle(left);
    }
}
