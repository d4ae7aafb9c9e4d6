//! Control values and places at an instance, for the font's programs. OpenType, "cvar".

ghost use Rattle.std.specs.Prelude.{◌≡◌, ◌*◌, ◌+◌, ◌≤◌, ◌^◌, length, map, unsigned_abs, IfOk};
ghost use Rattle.tt_core.specs.Limits.{font_limit};
ghost use Rattle.tt_core.specs.Scales.{IsScale};
ghost use Rattle.tt_fit.specs.ControlValues.{control_word, control_words, cvar_read, instance_control_values, places_of};
ghost use Rattle.tt_fit_hinting.specs.state.Instances.{f2dot14, instance_of};
ghost use Rattle.tt_fit_variation.specs.Fine.{varied_control_value};

use crate::delta_counting::{DELTA_LIMIT, control_count, control_work};
use crate::programs::Fit;
use std::alloc::{AllocError, Global};
use tt_axes::InstanceCoordinates;
use tt_core::{Scale, i16_at};
use tt_deltas::Varied;
use tt_face::FaceInstance;
use tt_fit_hinting::Instance;
use tt_fit_variation::varied_control_value;

/// A control value in font units.
fn control_word(cvt: &[u8], i: usize) -> i16
    requires { 2 * i + 2 ≤ length cvt.now }
    ensures { result ≡ control_word cvt.now i }
{
    match i16_at(cvt, 2 * i) {
        Some(v) => v,
        None => unreachable!(),
    }
}

/// The control values in font units.
fn control_words(alloc: Global, cvt: &[u8]) -> Result<Vec<i16>, AllocError>
    ensures exact { IfOk result (λ v. v.items ≡ control_words cvt.now) }
    ensures few { IfOk result (λ v. length v.items ≤ font_limit) }
{
    let count = control_count(cvt);
    let mut words = Vec::with_capacity(alloc, count)?;
    for i in 0..count {
        words.push(control_word(cvt, i))?;
    }
    Ok(words)
}

/// A control value at an instance in 26.6 pixels.
fn pixels(scale: Scale, value: Varied) -> i32
    requires valid { IsScale scale }
    requires near { unsigned_abs value.delta ≤ 2 ^ 46 }
    ensures { result ≡ varied_control_value scale value }
{
    varied_control_value(scale, value) as i32
}

/// The bytes of cvar that are read. With `Fit::Best` none, where the work of their deltas exceeds what a job may ask for.
pub(crate) fn cvar_read<'a>(fit: Fit, instance: &FaceInstance<'a>, cvt: &[u8]) -> &'a [u8]
    ensures exact { result.now ≡ cvar_read fit instance.now cvt.now }
    ensures size { length result.now ≤ font_limit }
{
    match fit {
        Fit::Full | Fit::None | Fit::Fallback => instance.cvar(),
        Fit::Best => {
            if DELTA_LIMIT < control_work(instance, cvt) {
                return &[];
            }
            instance.cvar()
        }
    }
}

/// The control values at an instance in 26.6 pixels, by the scale of control values. Error: out of memory.
pub(crate) fn instance_control_values(
    alloc: Global,
    instance: &FaceInstance,
    scale: Scale,
    cvar: &[u8],
    cvt: &[u8],
) -> Result<Vec<i32>, AllocError>
    requires valid { IsScale scale }
    requires size { length cvar.now ≤ font_limit }
    ensures exact { IfOk result (λ v. v.items ≡ instance_control_values instance.now scale cvar.now cvt.now) }
{
    let words = control_words(alloc, cvt)?;
    let coordinates = instance.coordinates();
    let varied = instance
        .gvar()
        .control_value_deltas(alloc, cvar, coordinates, &words)?;
    let mut values = Vec::with_capacity(alloc, varied.len())?;
    for i in 0..varied.len() {
        values.push(pixels(scale, varied[i]))?;
    }
    Ok(values)
}

/// The instance's place on each axis, as programs read it.
pub(crate) fn places_of(instance: &Option<FaceInstance>) -> Instance
    ensures { instance_of result ≡ places_of instance.now }
{
    match instance {
        Some(own) => places(own.coordinates()),
        None => Instance::none(),
    }
}

/// Coordinates as programs read them.
fn places(coordinates: &InstanceCoordinates) -> Instance
    ensures { instance_of result ≡ map f2dot14 coordinates.now }
{
    let mut places = Instance::none();
    for i in 0..coordinates.count() {
        places.push(coordinates.at(i));
    }
    places
}
