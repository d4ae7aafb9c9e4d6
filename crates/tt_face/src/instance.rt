//! The instance that a job asks for, and the instance of a face. OpenType, "OpenType Font Variations Overview".

ghost use Rattle.std.specs.Prelude.{◌≡◌, ◌≤◌, length, option_map, unwrap_or, IfErr, IfOk, IfSome, OnOk};
ghost use Rattle.tt_core.specs.Directory.{HasNo};
ghost use Rattle.tt_core.specs.Limits.{font_limit};
ghost use Rattle.tt_core.specs.Outcomes.{Gives};
ghost use Rattle.tt_axes.specs.Fvar.{instance_count, IsFvarDefect};
ghost use Rattle.tt_face.specs.Instance.{asked_coordinates, asked_number, first_with_name, has_name, named_count, number_of, IsAskedDefect};
ghost use Rattle.tt_face.specs.Views.{asked_view, named_view};

use crate::names::{is_told, string_of};
use std::marker::Model;
use tt_axes::{AxisValue, Fvar, InstanceCoordinates, coordinates_of};
use tt_core::{Dir, Fault};
use tt_deltas::Gvar;

/// How many named instances a list of faces has of a font: the first ones. These can be asked for by their names
/// (profile).
pub const LISTED_INSTANCES: usize = 256;

/// Which named instance a job asks for.
#[derive(Clone, Copy)]
pub enum NamedBy<'i> {
    /// By its number, from 0 on.
    Number(u32),
    /// By its whole name, as a list of faces has it: at most 64 characters in ASCII. The first of the first 256
    /// instances that has the name counts.
    Name(&'i [u8]),
}

/// The instance that a job asks for: a named one, or else the default, and then values of axes, in order.
#[derive(Clone, Copy)]
pub struct AskedInstance<'i> {
    pub named: Option<NamedBy<'i>>,
    pub axes: &'i [AxisValue],
}

/// The instance of a face that is not the default: its coordinates, the table gvar, and the bytes of cvar, none where
/// the font lacks it. Clauses see these.
#[derive(Drop)]
pub struct FaceInstance<'a> {
    coordinates: InstanceCoordinates,
    gvar: Gvar<'a>,
    cvar: &'a [u8],
}

impl<'a> Model for FaceInstance<'a> {
    ghost use Rattle.std.specs.Prelude.{◌≤◌, length};
    ghost use Rattle.tt_core.specs.Limits.{font_limit};
    ghost use Rattle.tt_face.specs.Faces as faces;

    ghost Value = { faces.FaceInstance };

    ghost view = { λ i. record { coordinates = i.coordinates; gvar = i.gvar; cvar = i.cvar.now } };

    ghost invariant = { λ i. length i.cvar.now ≤ font_limit };
}

impl<'a> FaceInstance<'a> {
    pub(crate) fn new(
        coordinates: &InstanceCoordinates,
        gvar: Gvar<'a>,
        cvar: &'a [u8],
    ) -> FaceInstance<'a>
        requires { length cvar.now ≤ font_limit }
        ensures { result ≡ record { coordinates = coordinates.now; gvar = gvar.entry; cvar = cvar.now } }
    {
        FaceInstance {
            coordinates: coordinates.copy(),
            gvar,
            cvar,
        }
    }

    /// A copy. The tables' bytes are not copied.
    pub fn copy(&self) -> FaceInstance<'a>
        ensures { result ≡ self.now }
    {
        FaceInstance {
            coordinates: self.coordinates.copy(),
            gvar: self.gvar.copy(),
            cvar: self.cvar,
        }
    }

    /// The coordinates, of which at least one is not 0.
    pub fn coordinates(&self) -> &InstanceCoordinates
        ensures { result.now ≡ self.now.coordinates }
    {
        &self.coordinates
    }

    /// The variations of glyphs.
    pub fn gvar(&self) -> &Gvar<'a>
        ensures { result.now ≡ self.now.gvar }
    {
        &self.gvar
    }

    /// The bytes of cvar.
    pub fn cvar(&self) -> &'a [u8]
        ensures exact { result.now ≡ self.now.cvar }
        ensures size { length result.now ≤ font_limit }
    {
        self.cvar
    }
}

/// The number of the first instance with a name. The empty text is none's name.
#[tactic(auto, using(tt_core::specs::Search::first_from_next, tt_core::specs::Search::first_from_here))]
fn first_with_name(dir: &Dir, fvar: &Fvar, name: &[u8]) -> Option<usize>
    ensures exact { result ≡ first_with_name dir.now fvar.now name.now }
    ensures bound { IfSome result (λ k. k ≤ 256) }
{
    if name.is_empty() {
        return None;
    }
    let count = LISTED_INSTANCES.min(fvar.instance_count());
    for k in 0..count {
        if is_told(string_of(dir, fvar.instance(k).name), name) {
            return Some(k);
        }
    }
    None
}

/// The number of a named instance; the count of instances where none has the name.
fn number_of(dir: &Dir, fvar: &Fvar, named: NamedBy) -> u32
    ensures { result ≡ number_of dir.now fvar.now (named_view named.entry) }
{
    match named {
        NamedBy::Number(k) => k,
        NamedBy::Name(name) => match first_with_name(dir, fvar, name) {
            Some(k) => k as u32,
            None => fvar.instance_count() as u32,
        },
    }
}

/// The number of the named instance that is asked for, if one is. Errors: NoTable, TableRange, VariationShape.
fn asked_number(dir: &Dir, named: Option<NamedBy>) -> Result<Option<u32>, Fault>
    ensures exact { Gives (λ n. n) result (asked_number dir.now (option_map named_view named.entry)) }
    ensures fault { IfErr result (IsFvarDefect dir.now) }
{
    match named {
        Some(named) => {
            let fvar = Fvar::open(dir)?;
            Ok(Some(number_of(dir, &fvar, named)))
        }
        None => Ok(None),
    }
}

/// The coordinates of an asked instance, by fvar and by avar where it is there. Errors: NoTable, TableRange,
/// VariationShape, NoInstance, NoAxis.
#[tactic(auto, unfolding(crate::specs::Instance::asked_coordinates))]
pub(crate) fn asked_coordinates(
    dir: &Dir,
    asked: AskedInstance,
) -> Result<InstanceCoordinates, Fault>
    ensures exact { Gives (λ c. c) result (asked_coordinates dir.now (asked_view asked.entry)) }
    ensures sound { OnOk result (HasNo (IsAskedDefect dir.now (asked_view asked.entry))) }
    ensures fault { IfErr result (IsAskedDefect dir.now (asked_view asked.entry)) }
{
    let named = asked_number(dir, asked.named)?;
    let coordinates = coordinates_of(dir, named, asked.axes)?;
    Ok(coordinates)
}
