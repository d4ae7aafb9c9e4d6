//! The coordinates of an instance that a job asks for. OpenType, "fvar: Font Variations Table".

ghost use Rattle.std.specs.Prelude.{◌≡◌, ◌<◌, ◌≤◌, true, length, map, IfOk, IfErr, IfSome, OnOk, unsigned_abs};
ghost use Rattle.std.specs.List.{range_with_len};
ghost use Rattle.tt_core.specs.Directory.{HasNo};
ghost use Rattle.tt_core.specs.Outcomes.{Gives};
ghost use Rattle.tt_axes.specs.Fvar.{axis_count, instance_count};
ghost use Rattle.tt_axes.specs.InstanceCoordinates.{coordinates_of, IsInstanceDefect};
ghost use Rattle.tt_axes.specs.Instances.{coordinate_of, coordinates_in, first_place, has_axis, has_instance, last_value, missing_axis, IsWrongInstance};

use crate::avar::Avar;
use crate::coordinates::InstanceCoordinates;
use crate::fvar::{FVAR, Fvar};
use crate::values::AxisValue;
use tt_core::{Dir, Fault, Why};

/// The last value of a tag, or else `first`.
fn last_value(values: &[AxisValue], tag: [u8; 4], first: i32) -> i32
    ensures { result ≡ last_value values.now tag first }
{
    let mut value = first;
    for given in values {
        if given.tag == tag {
            value = given.value;
        }
    }
    value
}

impl<'a> Fvar<'a> {
    /// Whether an axis has the tag of a value.
    #[tactic(auto, using(tt_core::specs::Search::first_from_next, tt_core::specs::Search::first_from_here))]
    fn has_axis(&self, value: AxisValue) -> bool
        ensures { result ≡ has_axis self.now value }
    {
        for i in 0..self.axis_count() {
            if self.axis_tag(i) == value.tag {
                return true;
            }
        }
        false
    }

    /// The tag of the first value without an axis.
    pub fn missing_axis(&self, values: &[AxisValue]) -> Option<[u8; 4]>
        ensures { result ≡ missing_axis self.now values.now }
    {
        for value in values {
            if !self.has_axis(*value) {
                return Some(value.tag);
            }
        }
        None
    }

    /// Whether a named instance is there, if a number is given.
    fn has_instance(&self, named: Option<u32>) -> bool
        ensures exact { result ≡ has_instance self.now named }
        ensures there { result ≡ true → IfSome named (λ k. k < instance_count self.now) }
    {
        match named {
            Some(k) => (k as usize) < self.instance_count(),
            None => true,
        }
    }

    /// The place on an axis before the job's own values.
    fn first_place(&self, named: Option<u32>, i: usize) -> i32
        requires named { IfSome named (λ k. k < instance_count self.now) }
        requires axis { i < axis_count self.now }
        ensures { result ≡ first_place self.now named i }
    {
        match named {
            Some(k) => self.place(k as usize, i),
            None => self.axis(i).default,
        }
    }

    /// The coordinate on an axis.
    fn coordinate(&self, named: Option<u32>, values: &[AxisValue], i: usize) -> i32
        requires named { IfSome named (λ k. k < instance_count self.now) }
        requires axis { i < axis_count self.now }
        ensures exact { result ≡ coordinate_of self.now named values.now i }
        ensures within { unsigned_abs result ≤ 65536 }
    {
        let first = self.first_place(named, i);
        let place = last_value(values, self.axis_tag(i), first);
        self.axis(i).coordinate(place)
    }

    /// The coordinates on all axes.
    fn all_coordinates(&self, named: Option<u32>, values: &[AxisValue]) -> InstanceCoordinates
        requires { IfSome named (λ k. k < instance_count self.now) }
        ensures exact { result ≡ map (coordinate_of self.now named values.now) (range_with_len 0 (axis_count self.now)) }
        ensures count { length result ≡ axis_count self.now }
    {
        let mut coordinates = InstanceCoordinates::new();
        for i in 0..self.axis_count() {
            coordinates.push(self.coordinate(named, values, i));
        }
        coordinates
    }

    /// The coordinates of an instance before avar: those of a named instance, or of the defaults, with the job's values
    /// in order. Errors: NoInstance, NoAxis.
    #[tactic(auto, unfolding(crate::specs::Instances::coordinates_in))]
    pub fn coordinates(
        &self,
        named: Option<u32>,
        values: &[AxisValue],
    ) -> Result<InstanceCoordinates, Fault>
        ensures exact { Gives (λ c. c) result (coordinates_in self.now named values.now) }
        ensures count { IfOk result (λ c. length c ≡ axis_count self.now) }
        ensures sound { OnOk result (HasNo (IsWrongInstance self.now named values.now)) }
        ensures fault { IfErr result (IsWrongInstance self.now named values.now) }
    {
        if !self.has_instance(named) {
            return Err(Fault::new(FVAR, 12, Why::NoInstance));
        }
        if self.missing_axis(values).is_some() {
            return Err(Fault::new(FVAR, 8, Why::NoAxis));
        }
        Ok(self.all_coordinates(named, values))
    }
}

/// The coordinates of an instance of a font, by fvar and by avar where it is there. Errors: NoTable, TableRange,
/// VariationShape, NoInstance, NoAxis.
#[tactic(auto, unfolding(crate::specs::InstanceCoordinates::coordinates_of))]
pub fn coordinates_of(
    dir: &Dir,
    named: Option<u32>,
    values: &[AxisValue],
) -> Result<InstanceCoordinates, Fault>
    ensures exact { Gives (λ c. c) result (coordinates_of dir.now named values.now) }
    ensures sound { OnOk result (HasNo (IsInstanceDefect dir.now named values.now)) }
    ensures fault { IfErr result (IsInstanceDefect dir.now named values.now) }
{
    let fvar = Fvar::open(dir)?;
    let coordinates = fvar.coordinates(named, values)?;
    match Avar::open(dir, fvar.axis_count()) {
        Some(avar) => Ok(avar.mapped(&coordinates)),
        None => Ok(coordinates),
    }
}
