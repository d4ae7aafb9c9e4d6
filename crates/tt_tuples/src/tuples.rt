//! The tuples that hold at an instance. OpenType, "OpenType Font Variations Common Table Formats".

ghost use Rattle.std.specs.Prelude.{◌≡◌, ◌+◌, ◌-◌, ◌<◌, ◌≤◌, ◌^◌, length, IfOk, OnOk, OnErr, IsTrue};
ghost use Rattle.tt_core.specs.Limits.{font_limit};
ghost use Rattle.tt_core.specs.Outcomes.{FontGives};
ghost use Rattle.tt_tuples.specs.Sources.{AreNumbers, IsTuple};
ghost use Rattle.tt_tuples.specs.Tuples.{NextOf, Opens, StepOf, rest, shared_points_of, tuples_of};
ghost use Rattle.tt_tuples.specs.Views.{header_of, points_of, shared_of, source_of, tuple_of};

use crate::header::{TupleHeader, TupleStoreHeader, header_at};
use crate::point_numbers::NumberList;
use crate::source::TupleSource;
use crate::tuple::{Tuple, TupleRoom};
use std::alloc::Global;
use std::marker::Model;
use tt_core::{Fault, FontFault};

/// A reader of the tuples that hold, one after the other. Memory is taken once, when the reader is opened. Clauses see
/// the reader's place. OpenType, "Tuple Variation Store".
#[derive(Drop)]
pub struct Tuples<'a> {
    source: TupleSource<'a>,
    shared: NumberList,
    at: usize,
    data_at: usize,
    left: usize,
    room: TupleRoom,
}

impl<'a> Model for Tuples<'a> {
    ghost use Rattle.std.specs.Prelude.{◌≡◌, ◌+◌, ◌*◌, ◌≤◌, ◌<◌, ◌^◌, length};
    ghost use Rattle.tt_core.specs.Limits.{font_limit};
    ghost use Rattle.tt_tuples.specs.Sources.{AreNumbers};
    ghost use Rattle.tt_tuples.specs.Tuples.{TuplesLeft};
    ghost use Rattle.tt_tuples.specs.Views.{HasRoom, points_of, room_tuple, source_of};

    ghost Value = { TuplesLeft };

    ghost view = { λ t. record {
      source = source_of t.source;
      shared = points_of t.shared;
      at = t.at;
      data_at = t.data_at;
      left = t.left;
      tuple = room_tuple t.room (points_of t.shared);
    } };

    ghost invariant = { λ t. (t.source.points ≤ font_limit)
        × (t.at ≤ length t.source.store.bytes.now) × (t.data_at + 65536 * t.left ≤ 2 ^ 30) × (t.left < 4096)
        × HasRoom t.room t.source.store.table t.source.points × AreNumbers t.source.points (points_of t.shared) };
}

/// The points of all tuples without point numbers of their own, and the place where the tuples' data begin.
#[derive(Drop)]
struct SharedPoints {
    points: NumberList,
    next: usize,
}

/// Reads the shared point numbers, if there are any. No points where there are none.
#[tactic(auto, unfolding(crate::specs::Tuples::shared_points_of))]
fn shared_points(
    alloc: Global,
    source: &TupleSource,
    header: TupleStoreHeader,
) -> Result<SharedPoints, FontFault>
    requires data { header.data_at < 65536 }
    ensures exact { FontGives shared_of result (shared_points_of (source_of source.now) (header_of header)) }
    ensures numbers { IfOk result (λ s. AreNumbers source.now.points (points_of s.points)) }
    ensures next { IfOk result (λ s. s.next < 2 ^ 28) }
{
    if !header.shares_points {
        return Ok(SharedPoints {
            points: NumberList::new(alloc, 0)?,
            next: header.data_at,
        });
    }
    let mut points = NumberList::new(alloc, source.points)?;
    let next = points.read(&source.store, header.data_at, source.points)?;
    Ok(SharedPoints { points, next })
}

impl<'a> Tuples<'a> {
    /// Reads the header and the shared point numbers. Errors: a defect of these, Memory.
    #[tactic(auto, unfolding(crate::specs::Tuples::tuples_of))]
    pub fn open(alloc: Global, source: TupleSource<'a>) -> Result<Tuples<'a>, FontFault>
        requires points { source.points ≤ font_limit }
        ensures exact { Opens result (tuples_of (source_of source.entry)) }
        ensures source { IfOk result (λ t. t.source ≡ source_of source.entry) }
        ensures few { IfOk result (λ t. t.left < 4096) }
    {
        let place = source.store.table.header_place();
        let header = header_at(&source.store, place)?;
        let shared = shared_points(alloc, &source, header)?;
        let room = TupleRoom::new(alloc, source.store.table, source.points)?;
        Ok(Tuples {
            source,
            shared: shared.points,
            at: place + 4,
            data_at: shared.next,
            left: header.tuples,
            room,
        })
    }

    /// How many tuples remain, whether they hold or not.
    pub fn left(&self) -> usize
        ensures { result ≡ self.now.left }
    {
        self.left
    }

    /// Goes on to the tuple after the one that has this header.
    fn pass(&mut self, header: TupleHeader)
        requires some { 0 < self.old.left }
        requires size { header.size < 65536 }
        requires room { header.next ≤ length self.old.source.store.bytes }
        ensures { self.new ≡ record self.old {
          at = header.next;
          data_at = self.old.data_at + header.size;
          left = self.old.left - 1;
        } }
    {
        self.at = header.next;
        self.data_at += header.size;
        self.left -= 1;
    }

    /// Reads one tuple. Whether the tuple holds.
    fn step(&mut self) -> Result<bool, Fault>
        requires { 0 < self.old.left }
        ensures exact { StepOf result self.old self.new }
        ensures fewer { OnOk result (self.new.left < self.old.left) }
        ensures source { self.new.source ≡ self.old.source }
        ensures failed { OnErr result (rest self.new ≡ rest self.old) }
        ensures tuple { IfOk result (λ found. IsTrue found → IsTuple self.new.source self.new.tuple) }
    {
        let header = self.source.tuple_header_at(self.at)?;
        if header.share.parts == 0 {
            self.pass(header);
            return Ok(false);
        }
        self.room
            .read(&self.source, &self.shared, header, self.data_at)?;
        self.pass(header);
        Ok(true)
    }

    /// Reads the next tuple that holds; false where there is none. Error: a defect of a header, of the tuple's points or
    /// of its deltas, whichever is read first. Later calls have the same error.
    pub fn next(&mut self) -> Result<bool, Fault>
        ensures exact { NextOf result self.old self.new }
        ensures fewer { IfOk result (λ found. IsTrue found → self.new.left < self.old.left) }
        ensures source { self.new.source ≡ self.old.source }
        ensures failed { OnErr result (rest self.new ≡ rest self.old) }
        ensures tuple { IfOk result (λ found. IsTrue found → IsTuple self.new.source self.new.tuple) }
    {
        while self.left() > 0 {
            if self.step()? {
                return Ok(true);
            }
        }
        Ok(false)
    }

    /// The tuple that `next` has read.
    pub fn tuple(&self) -> Tuple<'_>
        ensures { tuple_of result ≡ self.now.tuple }
    {
        self.room.tuple(&self.shared)
    }
}
