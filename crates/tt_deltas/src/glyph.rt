//! The points of a glyph at an instance. OpenType, "gvar", "'glyphVariationData' table".

ghost use Rattle.std.specs.Prelude.{◌≡◌, ◌+◌, ◌<◌, ◌≤◌, ◌^◌, length, vec_capacity, All, IfOk, ℕ, option_copied};
ghost use Rattle.tt_core.specs.Limits.{font_limit};
ghost use Rattle.tt_core.specs.Outcomes.{FontGives, Gives};
ghost use Rattle.tt_deltas_inference.specs.Bounds.{AreContourEnds};
ghost use Rattle.tt_tuples.specs.Tuples.{rest, tuples_of};
ghost use Rattle.tt_tuples.specs.Views.{named_points, source_of, tuple_of};
ghost use Rattle.tt_tuples.specs.declared.source.TupleTable.TheVariants.{Gvar as in_gvar};
ghost use Rattle.tt_deltas.specs.Along.{IsStill, IsWithin};
ghost use Rattle.tt_deltas.specs.Glyphs.{IsFor, numbers_of, points_by_all, varied_by, varied_glyph};

use crate::along::{AxisTuple, vary_along};
use crate::gvar::Gvar;
use crate::varied::Varied;
use std::alloc::Global;
use tt_axes::InstanceCoordinates;
use tt_core::{Fault, FontFault};
use tt_deltas_inference::AxisPoint;
use tt_tuples::{Tuple, TuplePoints, TupleSource, TupleTable, Tuples};

/// The numbers of the points that a tuple names; none: all points.
pub(crate) fn numbers_of<'a>(points: TuplePoints<'a>) -> Option<&'a [u16]>
    ensures { option_copied result ≡ numbers_of (named_points points.entry) }
{
    match points {
        TuplePoints::All => None,
        TuplePoints::Listed(numbers) => Some(numbers),
    }
}

/// Adds a tuple's deltas along both axes.
fn vary_by(
    tuple: Tuple,
    xs: &mut [Varied],
    ys: &mut [Varied],
    ends: &[u16],
    room: &mut Vec<AxisPoint>,
)
    requires tuple { IsFor (length xs.old) (tuple_of tuple) }
    requires count { length ys.old ≡ length xs.old }
    requires contours { AreContourEnds 0 ends.now (length xs.old) }
    requires room { length xs.old ≤ vec_capacity room.old }
    requires x { All (IsWithin (2 ^ 46)) xs.old }
    requires y { All (IsWithin (2 ^ 46)) ys.old }
    ensures exact { record { xs = xs.new; ys = ys.new }
        ≡ varied_by ends.now (record { xs = xs.old; ys = ys.old }) (tuple_of tuple.entry) }
    ensures x { (most : ℕ) → All (IsWithin most) xs.old → All (IsWithin (most + 2 ^ 34)) xs.new }
    ensures y { (most : ℕ) → All (IsWithin most) ys.old → All (IsWithin (most + 2 ^ 34)) ys.new }
    ensures capacity { vec_capacity room.new ≡ vec_capacity room.old }
{
    let share = tuple.share;
    let numbers = numbers_of(tuple.points);
    let x = AxisTuple {
        share,
        numbers,
        deltas: tuple.xs,
    };
    let y = AxisTuple {
        share,
        numbers,
        deltas: tuple.ys,
    };
    vary_along(xs, ends, x, room);
    vary_along(ys, ends, y, room);
}

/// Adds the deltas of all tuples that are left.
fn vary_by_all(
    tuples: &mut Tuples,
    xs: &mut [Varied],
    ys: &mut [Varied],
    ends: &[u16],
    room: &mut Vec<AxisPoint>,
) -> Result<(), Fault>
    requires few { tuples.old.left < 4096 }
    requires source { (tuples.old.source.store.table ≡ in_gvar) × (tuples.old.source.points ≡ length xs.old) }
    requires count { length ys.old ≡ length xs.old }
    requires contours { AreContourEnds 0 ends.now (length xs.old) }
    requires room { length xs.old ≤ vec_capacity room.old }
    requires x { All IsStill xs.old }
    requires y { All IsStill ys.old }
    ensures exact { Gives (λ u. record { xs = xs.new; ys = ys.new }) result
        (points_by_all ends.now (record { xs = xs.old; ys = ys.old }) (rest tuples.old)) }
    ensures x { All (IsWithin (2 ^ 46)) xs.new }
    ensures y { All (IsWithin (2 ^ 46)) ys.new }
{
    while tuples.next()? {
        vary_by(tuples.tuple(), xs, ys, ends, room);
    }
    Ok(())
}

/// Adds the deltas of all tuples of a glyph's data.
#[tactic(auto, unfolding(crate::specs::Glyphs::points_by_all))]
fn vary_points(
    alloc: Global,
    source: TupleSource,
    xs: &mut [Varied],
    ys: &mut [Varied],
    ends: &[u16],
) -> Result<(), FontFault>
    requires source { (source.store.table ≡ in_gvar) × (source.points ≡ length xs.old) }
    requires count { (length ys.old ≡ length xs.old) × (length xs.old ≤ font_limit) }
    requires contours { AreContourEnds 0 ends.now (length xs.old) }
    requires x { All IsStill xs.old }
    requires y { All IsStill ys.old }
    ensures exact { FontGives (λ u. record { xs = xs.new; ys = ys.new }) result
        (points_by_all ends.now (record { xs = xs.old; ys = ys.old }) (tuples_of (source_of source.entry))) }
    ensures x { IfOk result (λ u. All (IsWithin (2 ^ 46)) xs.new) }
    ensures y { IfOk result (λ u. All (IsWithin (2 ^ 46)) ys.new) }
{
    let points = source.points;
    let mut tuples = Tuples::open(alloc, source)?;
    let mut room = Vec::with_capacity(alloc, points)?;
    vary_by_all(&mut tuples, xs, ys, ends, &mut room)?;
    Ok(())
}

impl<'a> Gvar<'a> {
    /// Adds the deltas of a glyph at the coordinates of an instance to its points: for a simple glyph all its points, for
    /// a composite glyph its components, and then four phantom points. `ends` has the last point of each contour; it is
    /// empty for other glyphs. The deltas are 0 before. Of an error nothing is known but the fault: GlyphVariation at
    /// the place of the defect in gvar, or Memory.
    #[tactic(auto, unfolding(crate::specs::Glyphs::varied_glyph))]
    pub fn vary(
        &self,
        alloc: Global,
        g: u16,
        coordinates: &InstanceCoordinates,
        xs: &mut [Varied],
        ys: &mut [Varied],
        ends: &[u16],
    ) -> Result<(), FontFault>
        requires count { (length ys.old ≡ length xs.old) × (length xs.old ≤ font_limit) }
        requires contours { AreContourEnds 0 ends.now (length xs.old) }
        requires x { All IsStill xs.old }
        requires y { All IsStill ys.old }
        ensures exact { FontGives (λ u. record { xs = xs.new; ys = ys.new }) result
            (varied_glyph self.now g coordinates.now ends.now (record { xs = xs.old; ys = ys.old })) }
        ensures x { IfOk result (λ u. All (IsWithin (2 ^ 46)) xs.new) }
        ensures y { IfOk result (λ u. All (IsWithin (2 ^ 46)) ys.new) }
    {
        let Some(data) = self.data(g)? else {
            return Ok(());
        };
        let source = TupleSource::new(
            TupleTable::Gvar,
            data.start,
            data.bytes,
            self.shared(),
            coordinates,
            xs.len(),
        );
        vary_points(alloc, source, xs, ys, ends)
    }
}
