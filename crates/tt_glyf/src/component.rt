//! A component record. OpenType, "The 'glyf' table", "Composite Glyph Description".

ghost use Rattle.std.specs.Prelude.{◌≡◌, ◌+◌, ◌*◌, ◌≤◌, length, IsTrue, IfOk, IfErr};
ghost use Rattle.tt_core.specs.Limits.{font_limit};
ghost use Rattle.tt_core.specs.Outcomes.{Gives};
ghost use Rattle.tt_glyf.specs.Composite.{argument_at, transform_at, scales_offsets, is_identity, transform_of, has_arguments_zero, asks_scaled_offset, record_at};
ghost use Rattle.tt_glyf.specs.Format.{argument_size, transform_size, record_size};
ghost use Rattle.tt_glyf.specs.Meaning.{HasArguments, IsArgument};
ghost use Rattle.tt_glyf.specs.Views.{transform_view};

use crate::bytes::GlyphBytes;
use crate::component_flags::{ComponentFlags, has_flag};
use crate::format::{ARGUMENTS_OFFSET, GLYPH_INDEX_OFFSET, WORD_SIZE};
use crate::raw::Record;
use tt_core::{Fault, Why};

/// One, as a 2.14 fixed-point number.
const ONE: i16 = 16_384;

/// Bytes of an argument.
fn argument_size(flags: u16) -> usize
    ensures exact { result ≡ argument_size flags }
    ensures bound { result ≤ 2 }
{
    if has_flag(flags, ComponentFlags::ARG_1_AND_2_ARE_WORDS) {
        WORD_SIZE
    } else {
        1
    }
}

/// Bytes of the transform. If several of the three flags are set, the first counts (profile).
fn transform_size(flags: u16) -> usize
    ensures exact { result ≡ transform_size flags }
    ensures bound { result ≤ 8 }
{
    if has_flag(flags, ComponentFlags::WE_HAVE_A_SCALE) {
        WORD_SIZE
    } else if has_flag(flags, ComponentFlags::WE_HAVE_AN_X_AND_Y_SCALE) {
        2 * WORD_SIZE
    } else if has_flag(flags, ComponentFlags::WE_HAVE_A_TWO_BY_TWO) {
        4 * WORD_SIZE
    } else {
        0
    }
}

/// Bytes of a record.
pub(crate) fn record_size(flags: u16) -> usize
    ensures exact { result ≡ record_size flags }
    ensures bound { result ≤ 16 }
{
    ARGUMENTS_OFFSET + 2 * argument_size(flags) + transform_size(flags)
}

/// An argument of a record with these flags. Error: GlyphShort.
#[tactic(auto, unfolding(crate::specs::Composite::argument_at))]
fn argument_at(glyph: &GlyphBytes, flags: u16, at: usize) -> Result<i32, Fault>
    ensures exact { Gives (λ a. a) result (argument_at glyph.now flags at) }
    ensures bound { IfOk result (IsArgument flags) }
    ensures room { IfOk result (λ a. at + argument_size flags ≤ length glyph.now.bytes) }
{
    let signed = has_flag(flags, ComponentFlags::ARGS_ARE_XY_VALUES);
    if has_flag(flags, ComponentFlags::ARG_1_AND_2_ARE_WORDS) {
        if signed {
            return Ok(i32::from(glyph.signed(at)?));
        }
        return Ok(i32::from(glyph.word(at)?));
    }
    let byte = i32::from(glyph.byte(at)?);
    if signed && byte >= 128 {
        return Ok(byte - 256);
    }
    Ok(byte)
}

/// x' = xx x + xy y and y' = yx x + yy y.
#[derive(Clone, Copy)]
struct Transform {
    xx: i16,
    yx: i16,
    xy: i16,
    yy: i16,
}

/// The transform of a record with these flags. Error: GlyphShort.
#[tactic(auto, unfolding(crate::specs::Composite::transform_at, crate::specs::Composite::two_scales_at, crate::specs::Composite::two_by_two_at))]
fn transform_at(glyph: &GlyphBytes, flags: u16, at: usize) -> Result<Transform, Fault>
    requires { at ≤ length glyph.now.bytes }
    ensures exact { Gives transform_view result (transform_at glyph.now flags at) }
    ensures room { IfOk result (λ t. at + transform_size flags ≤ length glyph.now.bytes) }
{
    if has_flag(flags, ComponentFlags::WE_HAVE_A_SCALE) {
        let scale = glyph.signed(at)?;
        return Ok(Transform {
            xx: scale,
            yx: 0,
            xy: 0,
            yy: scale,
        });
    }
    if has_flag(flags, ComponentFlags::WE_HAVE_AN_X_AND_Y_SCALE) {
        let xx = glyph.signed(at)?;
        let yy = glyph.signed(at + WORD_SIZE)?;
        return Ok(Transform {
            xx,
            yx: 0,
            xy: 0,
            yy,
        });
    }
    if has_flag(flags, ComponentFlags::WE_HAVE_A_TWO_BY_TWO) {
        let xx = glyph.signed(at)?;
        let yx = glyph.signed(at + WORD_SIZE)?;
        let xy = glyph.signed(at + 2 * WORD_SIZE)?;
        let yy = glyph.signed(at + 3 * WORD_SIZE)?;
        return Ok(Transform { xx, yx, xy, yy });
    }
    Ok(Transform {
        xx: ONE,
        yx: 0,
        xy: 0,
        yy: ONE,
    })
}

/// Whether offsets are to be transformed.
fn scales_offsets(flags: u16) -> bool
    ensures { result ≡ scales_offsets flags }
{
    has_flag(flags, ComponentFlags::SCALED_COMPONENT_OFFSET)
        && !has_flag(flags, ComponentFlags::UNSCALED_COMPONENT_OFFSET)
        && has_flag(flags, ComponentFlags::ARGS_ARE_XY_VALUES)
}

fn is_identity(part: Record) -> bool
    ensures { result ≡ is_identity (transform_of part) }
{
    part.xx == ONE && part.yx == 0 && part.xy == 0 && part.yy == ONE
}

fn has_arguments_zero(part: Record) -> bool
    ensures { result ≡ has_arguments_zero part }
{
    part.arg1 == 0 && part.arg2 == 0
}

/// Whether a record requests a transform of its offset, and the transform would change the offset.
fn asks_scaled_offset(part: Record) -> bool
    ensures { result ≡ asks_scaled_offset part }
{
    scales_offsets(part.flags) && !is_identity(part) && !has_arguments_zero(part)
}

/// The component record at an offset. A record that requests a transform of its offset is refused, unless the transform
/// would not change the offset (profile). Errors: GlyphShort, ComponentGlyph, ScaledOffset.
#[tactic(auto, unfolding(crate::specs::Composite::record_at, crate::specs::Composite::known_glyph, crate::specs::Composite::arguments_at, crate::specs::Composite::unscaled))]
pub(crate) fn record_at(glyph: &GlyphBytes, glyphs: u16, at: usize) -> Result<Record, Fault>
    requires { at ≤ length glyph.now.bytes }
    ensures exact { Gives (λ r. r) result (record_at glyphs glyph.now at) }
    ensures arguments { IfOk result HasArguments }
    ensures room { IfOk result (λ r. at + record_size r.flags ≤ length glyph.now.bytes) }
    ensures limit { length glyph.now.bytes ≤ font_limit }
{
    let flags = glyph.word(at)?;
    let number = glyph.word(at + GLYPH_INDEX_OFFSET)?;
    if number >= glyphs {
        return Err(glyph.fault(at, Why::ComponentGlyph));
    }
    let arguments = at + ARGUMENTS_OFFSET;
    let arg1 = argument_at(glyph, flags, arguments)?;
    let arg2 = argument_at(glyph, flags, arguments + argument_size(flags))?;
    let t = transform_at(glyph, flags, arguments + 2 * argument_size(flags))?;
    let part = Record {
        at: glyph.place(at),
        flags,
        glyph: number,
        arg1,
        arg2,
        xx: t.xx,
        yx: t.yx,
        xy: t.xy,
        yy: t.yy,
    };
    if asks_scaled_offset(part) {
        return Err(glyph.fault(at, Why::ScaledOffset));
    }
    Ok(part)
}
