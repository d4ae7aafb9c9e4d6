//! Control values at an instance. OpenType, "cvar".

ghost use Rattle.std.specs.Prelude.{◌≡◌, ◌<◌, ◌≤◌, ◌^◌, ◌*◌, length, map, vec_capacity, All, IfOk, unsigned_abs};
ghost use Rattle.tt_core.specs.Limits.{font_limit};
ghost use Rattle.tt_core.specs.Outcomes.{FontGives, Gives};
ghost use Rattle.tt_tuples.specs.Tuples.{rest, tuples_of};
ghost use Rattle.tt_tuples.specs.Views.{source_of};
ghost use Rattle.tt_tuples.specs.declared.source.TupleTable.TheVariants.{Cvar as in_cvar};
ghost use Rattle.tt_deltas.specs.Along.{IsStill, IsWithin};
ghost use Rattle.tt_deltas.specs.ControlValues.{is_cvar, moved_control_value, still_at, values_by_all, varied_values};

use crate::along::{AxisTuple, vary_along};
use crate::glyph::numbers_of;
use crate::gvar::Gvar;
use crate::varied::Varied;
use std::alloc::{AllocError, Global};
use tt_axes::InstanceCoordinates;
use tt_core::{Fault, FontFault, u32_at};
use tt_deltas_inference::AxisPoint;
use tt_tuples::{TupleSource, TupleTable, Tuples};

/// Adds the deltas of all tuples that are left.
fn vary_by_all(
    tuples: &mut Tuples,
    values: &mut [Varied],
    room: &mut Vec<AxisPoint>,
) -> Result<(), Fault>
    requires few { tuples.old.left < 4096 }
    requires source { (tuples.old.source.store.table ≡ in_cvar) × (tuples.old.source.points ≡ length values.old) }
    requires room { length values.old ≤ vec_capacity room.old }
    requires still { All IsStill values.old }
    ensures exact { Gives (λ u. values.new) result (values_by_all values.old (rest tuples.old)) }
    ensures within { All (IsWithin (2 ^ 46)) values.new }
{
    while tuples.next()? {
        let tuple = tuples.tuple();
        let along = AxisTuple {
            share: tuple.share,
            numbers: numbers_of(tuple.points),
            deltas: tuple.xs,
        };
        vary_along(values, &[], along, room);
    }
    Ok(())
}

/// Adds the deltas of all tuples of cvar.
#[tactic(auto, unfolding(crate::specs::ControlValues::values_by_all))]
fn vary_values(alloc: Global, source: TupleSource, values: &mut [Varied]) -> Result<(), FontFault>
    requires source { (source.store.table ≡ in_cvar) × (source.points ≡ length values.old) }
    requires count { length values.old ≤ font_limit }
    requires still { All IsStill values.old }
    ensures exact { FontGives (λ u. values.new) result (values_by_all values.old (tuples_of (source_of source.entry))) }
    ensures within { IfOk result (λ u. All (IsWithin (2 ^ 46)) values.new) }
{
    let points = source.points;
    let mut tuples = Tuples::open(alloc, source)?;
    let mut room = Vec::with_capacity(alloc, points)?;
    vary_by_all(&mut tuples, values, &mut room)?;
    Ok(())
}

/// Whether a table is a cvar of version 1.0.
pub(crate) fn is_cvar(table: &[u8]) -> bool
    ensures { result ≡ is_cvar table.now }
{
    table.len() >= 8 && u32_at(table, 0) == Some(0x0001_0000)
}

/// Values that have not moved.
fn still(alloc: Global, values: &[i16]) -> Result<Vec<Varied>, AllocError>
    ensures exact { IfOk result (λ v. v.items ≡ map still_at values.now) }
    ensures still { IfOk result (λ v. All IsStill v.items) }
{
    values
        .iter()
        .map(|value| Varied {
            at: *value,
            delta: 0,
        })
        .collect(alloc)
}

impl<'a> Gvar<'a> {
    /// The control values with their deltas at the coordinates of an instance. Tuples of cvar may have their peaks among
    /// gvar's shared tuples (profile). A table cvar of another version, or with any defect in what is read, is taken as
    /// missing (profile): no value moves. Error: memory ran out.
    #[tactic(auto, unfolding(crate::specs::ControlValues::varied_values))]
    pub fn control_value_deltas(
        &self,
        alloc: Global,
        cvar: &[u8],
        coordinates: &InstanceCoordinates,
        values: &[i16],
    ) -> Result<Vec<Varied>, AllocError>
        requires table { length cvar.now ≤ font_limit }
        requires values { length values.now ≤ font_limit }
        ensures exact { IfOk result (λ v. v.items ≡ varied_values self.now cvar.now coordinates.now values.now) }
        ensures within { IfOk result (λ v. All (IsWithin (2 ^ 46)) v.items) }
    {
        let mut varied = still(alloc, values)?;
        if !is_cvar(cvar) {
            return Ok(varied);
        }
        let source = TupleSource::new(
            TupleTable::Cvar,
            0,
            cvar,
            self.shared(),
            coordinates,
            values.len(),
        );
        match vary_values(alloc, source, &mut varied) {
            Ok(()) => Ok(varied),
            Err(FontFault::Font(_)) => still(alloc, values),
            Err(FontFault::Memory) => Err(AllocError),
        }
    }
}

/// A control value in 1/64 of a font unit, kept to the range of a 16-bit value (profile).
pub fn moved_control_value(value: Varied) -> i32
    requires { unsigned_abs value.delta ≤ 2 ^ 46 }
    ensures exact { result ≡ moved_control_value value }
    ensures bound { unsigned_abs result ≤ 64 * 32768 }
{
    value.sixty_fourths().clamp(-64 * 32768, 64 * 32767) as i32
}
