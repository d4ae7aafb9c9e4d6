//! The parts of a machine at the start of the font program, the control value program or a glyph's program. Apple
//! TrueType Reference Manual, "Instructing TrueType Glyphs".

ghost use Rattle.std.specs.Prelude.{◌≡◌, ◌+◌, ◌*◌, ◌≤◌, length, option_map, IfOk};
ghost use Rattle.tt_exec.specs.Parts.{parts_of};
ghost use Rattle.tt_exec.specs.state.Instances.{instance_of};
ghost use Rattle.tt_fit_outline.specs.Outline.{phantom_of};
ghost use Rattle.tt_core.specs.Limits.{size_limit};
ghost use Rattle.tt_fit_hinting.specs.Parts.{begun_parts, control_value, control_values, glyph_state, left_to_glyphs, originals_by, parts_with, pointers_set_back, without_glyph};
ghost use Rattle.tt_fit_outline.specs.Views.{outline_of, size_view, units_view};
ghost use Rattle.tt_exec.specs.zones.Views.{zones_view};

use crate::glyph_zone::{contours, glyph_zone, untouched};
use crate::ready_glyph::ReadyGlyph;
use std::alloc::{AllocError, Global};
use tt_core::{Halves, Scale, i16_at};
use tt_exec::{Copies, Functions, Instance, Originals, Parts, Zones};
use tt_fit_outline::{FontSize, OutlineRules, Units};
use tt_metrics::Metrics;
use tt_state::GraphicsState;

/// A control value in 26.6 pixels.
fn control_value(size: FontSize, cvt: &[u8], i: usize) -> i32
    requires { 2 * i + 2 ≤ length cvt.now }
    ensures { result ≡ control_value (size_view size) cvt.now i }
{
    match i16_at(cvt, 2 * i) {
        Some(v) => size.control_values.scaled(i32::from(v)) as i32,
        None => unreachable!(),
    }
}

/// The control values in 26.6 pixels.
fn control_values(alloc: Global, size: FontSize, cvt: &[u8]) -> Result<Vec<i32>, AllocError>
    ensures { IfOk result (λ v. v.items ≡ control_values (size_view size) cvt.now) }
{
    let mut values = Vec::with_capacity(alloc, cvt.len() / 2)?;
    for i in 0..cvt.len() / 2 {
        values.push(control_value(size, cvt, i))?;
    }
    Ok(values)
}

/// The zones of a program without a glyph: `twilight` twilight points, all at the origin.
fn without_glyph(alloc: Global, halves: Halves, twilight: u16) -> Result<Zones, AllocError>
    ensures exact { IfOk result (λ z. zones_view z ≡ without_glyph halves twilight) }
{
    Ok(Zones {
        twilight: vec![in alloc; untouched((0, 0), (0, 0), true); usize::from(twilight)]?,
        glyph: Vec::new(alloc),
        contours: Vec::new(alloc),
        originals: Originals::in_pixels(halves),
    })
}

/// The parts at the start of the font program and of the control value program, at an instance of the font.
pub fn begun_parts<'a>(
    alloc: Global,
    metrics: &Metrics,
    cvt: &[u8],
    ppem: u32,
    rules: OutlineRules,
    instance: Instance,
) -> Result<Parts<'a>, AllocError>
    requires { ppem ≤ size_limit }
    ensures { IfOk result (λ p. parts_of p ≡ begun_parts metrics.now cvt.now ppem rules (instance_of instance)) }
{
    let size = FontSize::of(metrics, ppem, rules.scaling);
    Ok(Parts {
        scale: size.scale,
        ppem,
        cvt: control_values(alloc, size, cvt)?,
        storage: vec![in alloc; 0; usize::from(metrics.storage())]?,
        zones: without_glyph(alloc, size.scale.halves, metrics.twilight())?,
        functions: Functions::new(alloc),
        instructions: Functions::new(alloc),
        state: GraphicsState::new(rules.whole),
        instance,
        tolerance: rules.tolerance,
        skip_glyphs: false,
        default_state: false,
    })
}

/// Parts at the same size, with nothing that a run copies.
pub(crate) fn without_contents<'a>(
    alloc: Global,
    parts: &Parts<'a>,
) -> Result<Parts<'a>, AllocError> {
    Ok(Parts {
        scale: parts.scale,
        ppem: parts.ppem,
        cvt: Vec::new(alloc),
        storage: Vec::new(alloc),
        zones: without_glyph(alloc, parts.scale.halves, 0)?,
        functions: Functions::new(alloc),
        instructions: Functions::new(alloc),
        state: parts.state,
        instance: parts.instance,
        tolerance: parts.tolerance,
        skip_glyphs: parts.skip_glyphs,
        default_state: parts.default_state,
    })
}

/// Sets the vectors, the reference points, the zone pointers and the loop to their defaults.
fn pointers_set_back(state: &GraphicsState) -> GraphicsState
    ensures { result ≡ pointers_set_back state.now }
{
    let default = GraphicsState::new(state.whole);
    GraphicsState {
        proj: default.proj,
        dual: default.dual,
        free: default.free,
        rp0: default.rp0,
        rp1: default.rp1,
        rp2: default.rp2,
        zp0: default.zp0,
        zp1: default.zp1,
        zp2: default.zp2,
        loops: default.loops,
        ..*state
    }
}

/// The graphics state at the start of glyph programs: the defaults, if the control value program requested them.
fn glyph_state(by_default: bool, state: &GraphicsState) -> GraphicsState
    ensures { result ≡ glyph_state by_default state.now }
{
    if by_default {
        return GraphicsState::new(state.whole);
    }
    pointers_set_back(state)
}

/// The parts that the control value program gives to the glyphs.
pub fn left_to_glyphs<'a>(left: Parts<'a>) -> Parts<'a>
    ensures { parts_of result ≡ left_to_glyphs (parts_of left.entry) }
{
    let mut parts = left;
    parts.state = glyph_state(parts.default_state, &parts.state);
    parts
}

/// The unit of a glyph's originals.
fn originals_by(scale: Scale, units: Option<Units>) -> Originals
    ensures { result ≡ originals_by scale (option_map units_view units.entry) }
{
    match units {
        Some(_) => Originals {
            units: Some(scale),
            halves: scale.halves,
        },
        None => Originals::in_pixels(scale.halves),
    }
}

/// A glyph's zones: the twilight points after the control value program, and the outline's points and contours. They
/// reuse the memory of other zones, whose contents are dropped. The twilight points are copied by an allowance.
pub(crate) fn glyph_zones(
    room: Zones,
    parts: &Parts,
    glyph: &ReadyGlyph,
    copies: &mut Copies,
) -> Result<Zones, AllocError>
    requires { length parts.now.zones.twilight.items ≤ copies.old.left }
    ensures exact { IfOk result (λ z. zones_view z ≡ (parts_with (parts_of parts.now) (option_map units_view glyph.now.units) (outline_of glyph.now.outline.now) (phantom_of glyph.now.grid)).zones) }
    ensures used { copies.new.left + length parts.now.zones.twilight.items ≡ copies.old.left }
    ensures rest { copies.new.rest ≡ copies.old.rest }
{
    let mut twilight = room.twilight;
    copies.copy(&mut twilight, &parts.zones.twilight)?;
    Ok(Zones {
        twilight,
        glyph: glyph_zone(room.glyph, glyph)?,
        contours: contours(room.contours, &glyph.outline.ends)?,
        originals: originals_by(parts.scale, glyph.units),
    })
}
