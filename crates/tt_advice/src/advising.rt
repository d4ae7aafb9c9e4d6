//! The advice to people about a refused font.

ghost use Rattle.std.specs.Prelude.{◌≡◌, ◌≤◌, is_some, length};
ghost use Rattle.tt_advice.specs.Advice.{advice, axis_advice, count_advice, cut_advice, face_advice, has_cff, has_pictures, has_record, is_limit, lack_advice, lacking_axis, plain_advice, told_axis, version_advice};
ghost use Rattle.tt_core.specs.Directory.{record_of};
ghost use Rattle.tt_core.specs.Limits.{font_limit};

use crate::hint::{FixedHint, Hint};
use crate::kinds::{begins, kind_at};
use tt_axes::{AxisValue, Fvar};
use tt_core::{Dir, Fault, Reading, u32_at};

/// Whether a record of a directory has the tag.
fn names(dir: &Dir, tag: [u8; 4]) -> bool
    ensures { result ≡ is_some (record_of dir.now tag) }
{
    !matches!(dir.table(tag), Ok(None))
}

/// Whether a record of the directory of a face has the tag.
#[tactic(auto, unfolding(crate::specs::Advice::has_record))]
pub fn has_record(file: &[u8], face: u32, tag: [u8; 4]) -> bool
    requires { length file.now ≤ font_limit }
    ensures { result ≡ has_record file.now face tag }
{
    match Dir::read(file, Reading::Wide { face }) {
        Ok(dir) => names(&dir, tag),
        Err(_) => false,
    }
}

/// Whether a face has CFF outlines.
#[tactic(auto, unfolding(crate::specs::Advice::has_cff))]
fn has_cff(file: &[u8], face: u32) -> bool
    requires { length file.now ≤ font_limit }
    ensures { result ≡ has_cff file.now face }
{
    has_record(file, face, *b"CFF ") || has_record(file, face, *b"CFF2")
}

/// Whether a face has bitmaps or colour pictures.
#[tactic(auto, unfolding(crate::specs::Advice::has_pictures))]
fn has_pictures(file: &[u8], face: u32) -> bool
    requires { length file.now ≤ font_limit }
    ensures { result ≡ has_pictures file.now face }
{
    has_record(file, face, *b"CBDT")
        || has_record(file, face, *b"sbix")
        || has_record(file, face, *b"EBDT")
        || has_record(file, face, *b"bdat")
        || has_record(file, face, *b"SVG ")
}

/// The advice about a directory that is cut off.
fn cut_advice(fault: Fault, file: &[u8]) -> Hint
    ensures { result ≡ cut_advice fault file.now }
{
    if file.is_empty() && fault.table == *b"file" {
        Hint::Fixed(FixedHint::Empty)
    } else {
        Hint::Fixed(FixedHint::Cut)
    }
}

/// The advice about a collection of so many faces.
fn count_advice(count: u32) -> Hint
    ensures { result ≡ count_advice count }
{
    if count == 0 {
        Hint::Fixed(FixedHint::NoFaces)
    } else {
        Hint::Faces(count)
    }
}

/// The advice about a file without the requested face.
#[tactic(auto, unfolding(crate::specs::Advice::face_advice))]
fn face_advice(file: &[u8]) -> Hint
    ensures { result ≡ face_advice file.now }
{
    if !begins(file, b"ttcf") {
        return Hint::Fixed(FixedHint::NoCollection);
    }
    match u32_at(file, 8) {
        Some(count) => count_advice(count),
        None => Hint::Fixed(FixedHint::NoFaces),
    }
}

/// The advice about a missing table.
fn lack_advice(fault: Fault, file: &[u8], face: u32) -> Hint
    requires { length file.now ≤ font_limit }
    ensures { result ≡ lack_advice fault file.now face }
{
    if fault.table == *b"fvar" {
        Hint::Fixed(FixedHint::NotVariable)
    } else if has_cff(file, face) {
        Hint::Fixed(FixedHint::Cff)
    } else if has_pictures(file, face) {
        Hint::Fixed(FixedHint::Bitmaps)
    } else {
        Hint::Lacks(fault)
    }
}

/// The advice about another version of maxp.
fn version_advice(fault: Fault, file: &[u8], face: u32) -> Hint
    requires { length file.now ≤ font_limit }
    ensures { result ≡ version_advice fault file.now face }
{
    if has_cff(file, face) {
        Hint::Fixed(FixedHint::Cff)
    } else {
        Hint::Damaged(fault)
    }
}

/// Whether a fault with this number is a limit of what is drawn.
fn is_limit(number: u8) -> bool
    ensures { result ≡ is_limit number }
{
    number == 17 || number == 18 || number == 21 || number == 22 || number == 23
}

/// The advice about a fault with this number, which needs no byte of the file.
fn plain_advice(number: u8, fault: Fault) -> Hint
    ensures { result ≡ plain_advice number fault }
{
    if number == 4 {
        Hint::Fixed(FixedHint::Cut)
    } else if number == 10 {
        Hint::Fixed(FixedHint::NoMap)
    } else if is_limit(number) {
        Hint::Fixed(FixedHint::Beyond)
    } else if number == 24 {
        Hint::Fixed(FixedHint::Version)
    } else if number == 28 {
        Hint::Fixed(FixedHint::NoInstance)
    } else if number >= 30 {
        Hint::Fixed(FixedHint::Program)
    } else {
        Hint::Damaged(fault)
    }
}

/// The advice about a font with this fault, by the bytes of its file and the number of its face.
#[tactic(auto, unfolding(crate::specs::Advice::advice))]
pub fn advice(fault: Fault, file: &[u8], face: u32) -> Hint
    requires { length file.now ≤ font_limit }
    ensures { result ≡ advice fault file.now face }
{
    let number = fault.why.number();
    if number == 1 {
        Hint::Fixed(kind_at(file, fault.offset as usize))
    } else if number == 2 {
        cut_advice(fault, file)
    } else if number == 3 {
        lack_advice(fault, file, face)
    } else if number == 8 {
        version_advice(fault, file, face)
    } else if number == 25 {
        face_advice(file)
    } else {
        plain_advice(number, fault)
    }
}

/// The tag of the first of these axes that a face lacks. None where the face has all, or no whole table fvar.
#[tactic(auto, unfolding(crate::specs::Advice::lacking_axis))]
fn lacking_axis(file: &[u8], face: u32, axes: &[AxisValue]) -> Option<[u8; 4]>
    requires { length file.now ≤ font_limit }
    ensures { result ≡ lacking_axis file.now face axes.now }
{
    match Dir::read(file, Reading::Wide { face }) {
        Ok(dir) => match Fvar::open(&dir) {
            Ok(fvar) => fvar.missing_axis(axes),
            Err(_) => None,
        },
        Err(_) => None,
    }
}

/// The advice about a font without an axis of this tag.
fn told_axis(tag: Option<[u8; 4]>, fault: Fault) -> Hint
    ensures { result ≡ told_axis tag fault }
{
    match tag {
        Some(tag) => Hint::NoAxis(tag),
        None => Hint::Damaged(fault),
    }
}

/// The advice about a font with this fault for a request that gives values to these axes.
#[tactic(auto, unfolding(crate::specs::Advice::axis_advice))]
pub fn axis_advice(fault: Fault, file: &[u8], face: u32, axes: &[AxisValue]) -> Hint
    requires { length file.now ≤ font_limit }
    ensures { result ≡ axis_advice fault file.now face axes.now }
{
    if fault.why.number() == 27 {
        told_axis(lacking_axis(file, face, axes), fault)
    } else {
        advice(fault, file, face)
    }
}
