//! A tuple that holds, and the memory that its data are read into.

ghost use Rattle.std.specs.Prelude.{◌≡◌, ◌<◌, ◌≤◌, ◌^◌, vec_len, vec_capacity, IfOk, OnOk};
ghost use Rattle.tt_core.specs.Limits.{font_limit};
ghost use Rattle.tt_core.specs.Outcomes.{Gives};
ghost use Rattle.tt_tuples.specs.Sources.{AreNumbers, IsTuple, second_count};
ghost use Rattle.tt_tuples.specs.Tuples.{second_deltas, tuple_at};
ghost use Rattle.tt_tuples.specs.Views.{HasRoom, store_of, named_points, points_of, read_into, room_points, room_tuple, source_of, tuple_header_of, tuple_of};

use crate::deltas::read_deltas;
use crate::header::TupleHeader;
use crate::point_numbers::{NumberList, TuplePoints};
use crate::source::{TupleSource, TupleTable};
use std::alloc::{AllocError, Global};
use tt_axes::Share;
use tt_core::Fault;

/// A tuple that holds. Deltas are in font units.
#[derive(Clone, Copy)]
pub struct Tuple<'a> {
    /// How much of the tuple holds, which is not nothing.
    pub share: Share,
    pub points: TuplePoints<'a>,
    /// The deltas along x of the named points, one for each; or of the named control values.
    pub xs: &'a [i16],
    /// The deltas along y, likewise. cvar has none.
    pub ys: &'a [i16],
}

/// Memory for the data of a tuple.
#[derive(Drop)]
pub(crate) struct TupleRoom {
    share: Share,
    /// Whether the tuple has point numbers of its own.
    own_points: bool,
    own: NumberList,
    xs: Vec<i16>,
    ys: Vec<i16>,
}

impl TupleRoom {
    /// Memory for tuples of a table, with so many points or control values.
    pub(crate) fn new(
        alloc: Global,
        table: TupleTable,
        points: usize,
    ) -> Result<TupleRoom, AllocError>
        ensures room { IfOk result (λ r. HasRoom r table points) }
    {
        let second = match table {
            TupleTable::Gvar => points,
            TupleTable::Cvar => 0,
        };
        Ok(TupleRoom {
            share: Share::none(),
            own_points: false,
            own: NumberList::new(alloc, points)?,
            xs: Vec::with_capacity(alloc, points)?,
            ys: Vec::with_capacity(alloc, second)?,
        })
    }

    /// The tuple that was read last.
    pub(crate) fn tuple<'a>(&'a self, shared: &'a NumberList) -> Tuple<'a>
        ensures { tuple_of result ≡ room_tuple self.now (points_of shared.now) }
    {
        Tuple {
            share: self.share,
            points: self.points(shared),
            xs: &self.xs,
            ys: &self.ys,
        }
    }

    /// The points of the tuple that was read last.
    fn points<'a>(&'a self, shared: &'a NumberList) -> TuplePoints<'a>
        ensures { named_points result ≡ room_points self.now (points_of shared.now) }
    {
        if self.own_points {
            self.own.points()
        } else {
            shared.points()
        }
    }

    /// Reads the data of a tuple that holds, from a place on.
    #[tactic(auto, unfolding(crate::specs::Tuples::tuple_at))]
    pub(crate) fn read(
        &mut self,
        source: &TupleSource,
        shared: &NumberList,
        header: TupleHeader,
        at: usize,
    ) -> Result<(), Fault>
        requires few { source.now.points ≤ font_limit }
        requires place { at < 2 ^ 32 }
        requires room { HasRoom self.old source.now.store.table source.now.points }
        requires shared { AreNumbers source.now.points (points_of shared.now) }
        ensures exact { Gives (λ _. room_tuple self.new (points_of shared.now)) result
            (tuple_at (source_of source.now) (points_of shared.now) (tuple_header_of header) at) }
        ensures room { HasRoom self.new source.now.store.table source.now.points }
        ensures tuple { OnOk result (0 < header.share.parts → IsTuple (source_of source.now) (room_tuple self.new (points_of shared.now))) }
    {
        self.share = header.share;
        self.own_points = header.own_points;
        let next = self.own.read_own(source, header.own_points, at)?;
        let count = self.points(shared).count(source.points);
        let next = read_deltas(&source.store, next, count, &mut self.xs)?;
        read_second(source, next, count, &mut self.ys)?;
        Ok(())
    }
}

/// Reads the second list of deltas, if the table has one. Returns the place after them.
fn read_second(
    source: &TupleSource,
    at: usize,
    count: usize,
    ys: &mut Vec<i16>,
) -> Result<usize, Fault>
    requires place { at < 2 ^ 32 }
    requires room { second_count source.now.store.table count ≤ vec_capacity ys.old }
    ensures exact { Gives (read_into ys.new.items) result (second_deltas source.now.store.table (store_of source.now.store) at count) }
    ensures count { OnOk result (vec_len ys.new ≡ second_count source.now.store.table count) }
    ensures capacity { vec_capacity ys.new ≡ vec_capacity ys.old }
{
    match source.store.table {
        TupleTable::Gvar => read_deltas(&source.store, at, count, ys),
        TupleTable::Cvar => {
            ys.clear();
            Ok(at)
        }
    }
}
