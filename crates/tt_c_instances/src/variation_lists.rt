//! The axes and the named instances of a face, in a caller's room. OpenType, "fvar: Font Variations Table".

ghost use Rattle.std.specs.Prelude.{◌≡◌, ◌≢◌, ◌++◌, ◌≤◌, ◌<◌, IfOk, drop, length};
ghost use Rattle.tt_axes.specs.Fvar.{instance_count};
ghost use Rattle.tt_core.specs.Outcomes.{GivesUnless, IfTold};
ghost use Rattle.tt_face.specs.Files.{IsFaceDefectBy};
ghost use Rattle.tt_c_calls.specs.Asked.{face_reading};
ghost use Rattle.tt_c_calls.specs.Measures.{IsEntriesSmall};
ghost use Rattle.tt_c_calls.specs.Refusals.{call_font_fault, call_refusal};
ghost use Rattle.tt_c_instances.specs.VariationLists.{AreEntriesTold, TellsAxes, TellsInstances, axes_in, axes_wanted, axis_told, instance_told, instances_in, instances_wanted, places_told, told_name};

use std::alloc::{AllocError, Global};
use tt_axes::{Fvar, VariationAxis};
use tt_c_calls::{CAnswer, CallFault, DONE, ROOM, answer_of, face_of, face_reading, sized};
use tt_core::AXIS_LIMIT;
use tt_face::LISTED_INSTANCES;
use tt_strike::Face;

/// The bytes of a name: those of its characters in ASCII, at most 67, and then zeros.
const NAME_ROOM: usize = 68;

/// An axis of a font. Values are in 16.16.
#[repr(C)]
#[derive(Clone, Copy)]
pub struct CAxisRange {
    /// The four bytes of the tag as a number, the first byte as the highest.
    pub tag: u32,
    pub least: i32,
    pub default_value: i32,
    pub greatest: i32,
    /// In ASCII, with zeros at its end.
    pub name: [u8; NAME_ROOM],
}

/// A named instance of a font.
#[repr(C)]
#[derive(Clone, Copy)]
pub struct CInstance {
    /// Its number in a job: k + 1 for instance k.
    pub instance: u32,
    /// Its place on each axis in 16.16, in the order of the axes; 0 past the last axis.
    pub place: [i32; AXIS_LIMIT],
    /// In ASCII, with zeros at its end.
    pub name: [u8; NAME_ROOM],
}

/// Writes a text at the front of a room.
fn put(text: &[u8], room: &mut [u8])
    requires { length text.now ≤ length room.old }
    ensures { room.new ≡ text.now ++ drop (length text.now) room.old }
{
    room[..text.len()].copy_from_slice(text);
}

/// A name with zeros at its end.
fn told_name(name: &[u8]) -> [u8; NAME_ROOM]
    ensures { result ≡ told_name name.now }
{
    let count = name.len().min(NAME_ROOM - 1);
    let mut told = [0; NAME_ROOM];
    put(&name[..count], &mut told);
    told
}

/// An axis for C.
fn axis_told(axis: VariationAxis, name: &[u8]) -> CAxisRange
    ensures { result ≡ axis_told axis name.now }
{
    CAxisRange {
        tag: u32::from_be_bytes(axis.tag),
        least: axis.least,
        default_value: axis.default,
        greatest: axis.greatest,
        name: told_name(name),
    }
}

/// The places of a named instance, with zeros past the last axis.
fn places_told(fvar: &Fvar, k: usize) -> [i32; AXIS_LIMIT]
    requires { k < instance_count fvar.now }
    ensures { result ≡ places_told fvar.now k }
{
    let mut places = [0; AXIS_LIMIT];
    for i in 0..fvar.axis_count() {
        places[i] = fvar.place(k, i);
    }
    places
}

/// A named instance for C.
fn instance_told(fvar: &Fvar, k: usize, name: &[u8]) -> CInstance
    requires there { k < instance_count fvar.now }
    requires few { k < 256 }
    ensures { result ≡ instance_told fvar.now k name.now }
{
    CInstance {
        instance: k as u32 + 1,
        place: places_told(fvar, k),
        name: told_name(name),
    }
}

/// The axes of a face, none where its table fvar is not whole. Error: memory ran out.
fn axes_in(alloc: Global, face: &Face) -> Result<Vec<CAxisRange>, AllocError>
    ensures { IfOk result (λ axes. axes.items ≡ axes_in face.now.directory) }
{
    let mut axes = Vec::new(alloc);
    let Some(fvar) = face.variations() else {
        return Ok(axes);
    };
    for i in 0..fvar.axis_count() {
        let axis = fvar.axis(i);
        let name = face.name(alloc, axis.name)?;
        axes.push(axis_told(axis, &name))?;
    }
    Ok(axes)
}

/// The first 256 named instances of a face, none where its table fvar is not whole. Error: memory ran out.
fn instances_in(alloc: Global, face: &Face) -> Result<Vec<CInstance>, AllocError>
    ensures { IfOk result (λ instances. instances.items ≡ instances_in face.now.directory) }
{
    let mut instances = Vec::new(alloc);
    let Some(fvar) = face.variations() else {
        return Ok(instances);
    };
    for k in 0..LISTED_INSTANCES.min(fvar.instance_count()) {
        let name = face.name(alloc, fvar.instance(k).name)?;
        instances.push(instance_told(&fvar, k, &name))?;
    }
    Ok(instances)
}

/// The axes of a face of a font file. Errors: FontLarge, and those of the tables that every text needs.
#[tactic(auto, unfolding(crate::specs::VariationLists::axes_wanted))]
fn axes_of(alloc: Global, font: &[u8], face: u32) -> Result<Vec<CAxisRange>, CallFault>
    ensures exact { GivesUnless call_refusal (λ axes. axes.items) result (axes_wanted (face_reading face) font.now) }
    ensures defects { IfTold call_font_fault result (IsFaceDefectBy font.now (face_reading face)) }
{
    let opened = face_of(font, face_reading(face))?;
    match axes_in(alloc, &opened) {
        Ok(axes) => Ok(axes),
        Err(_) => Err(CallFault::Memory),
    }
}

/// The named instances of a face of a font file. Errors: as `axes_of`.
#[tactic(auto, unfolding(crate::specs::VariationLists::instances_wanted))]
fn instances_of(alloc: Global, font: &[u8], face: u32) -> Result<Vec<CInstance>, CallFault>
    ensures exact { GivesUnless call_refusal (λ instances. instances.items) result (instances_wanted (face_reading face) font.now) }
    ensures defects { IfTold call_font_fault result (IsFaceDefectBy font.now (face_reading face)) }
{
    let opened = face_of(font, face_reading(face))?;
    match instances_in(alloc, &opened) {
        Ok(instances) => Ok(instances),
        Err(_) => Err(CallFault::Memory),
    }
}

/// Writes entries at the front of a caller's room. Answers: done; or the room is too small, and nothing is written.
fn write_axes(axes: &[CAxisRange], room: &mut [CAxisRange]) -> CAnswer
    ensures done { result.status ≡ 0 → AreEntriesTold axes.now room.old room.new result }
    ensures small { result.status ≢ 0 → IsEntriesSmall (length axes.now) (length room.old) result }
    ensures kept { result.status ≢ 0 → room.new ≡ room.old }
{
    let count = axes.len();
    if count > room.len() {
        return sized(ROOM, 0, count as u64);
    }
    room[..count].copy_from_slice(axes);
    sized(DONE, 0, count as u64)
}

/// Writes entries at the front of a caller's room. Answers: done; or the room is too small, and nothing is written.
fn write_instances(instances: &[CInstance], room: &mut [CInstance]) -> CAnswer
    ensures done { result.status ≡ 0 → AreEntriesTold instances.now room.old room.new result }
    ensures small { result.status ≢ 0 → IsEntriesSmall (length instances.now) (length room.old) result }
    ensures kept { result.status ≢ 0 → room.new ≡ room.old }
{
    let count = instances.len();
    if count > room.len() {
        return sized(ROOM, 0, count as u64);
    }
    room[..count].copy_from_slice(instances);
    sized(DONE, 0, count as u64)
}

/// Writes the axes of a face, in the order of the table fvar. The face is as in a job. A face whose table fvar is not
/// whole has none. Answers: done, with the number of axes; the font is refused, or too large; memory was refused; the
/// room is too small. Unless the answer is done, `room` is unchanged.
pub fn axes(alloc: Global, font: &[u8], face: u32, room: &mut [CAxisRange]) -> CAnswer
    ensures { TellsAxes (face_reading face) font.now room.old room.new result }
{
    match axes_of(alloc, font, face) {
        Ok(axes) => write_axes(&axes, room),
        Err(fault) => answer_of(fault),
    }
}

/// Writes the named instances of a face, the first 256 of the table fvar. Answers: as `axes`, with the number of
/// instances.
pub fn instances(alloc: Global, font: &[u8], face: u32, room: &mut [CInstance]) -> CAnswer
    ensures { TellsInstances (face_reading face) font.now room.old room.new result }
{
    match instances_of(alloc, font, face) {
        Ok(instances) => write_instances(&instances, room),
        Err(fault) => answer_of(fault),
    }
}
