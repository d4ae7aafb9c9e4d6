//! The faces of a file. OpenType, "TrueType Collections".

ghost use Rattle.std.specs.Prelude.{◌≡◌, ℕ, ◌≤◌, length, IfOk, IfErr, OnOk};
ghost use Rattle.tt_core.specs.Collections.{offset_of, face_offset, count_of, IsOffsetDefect, IsBadFace};
ghost use Rattle.tt_core.specs.Directory.{HasNo};
ghost use Rattle.tt_core.specs.Limits.{font_limit};
ghost use Rattle.tt_core.specs.Outcomes.{Gives};

use crate::directory::FILE;
use crate::fault::{Fault, Why};
use crate::number::{u16_at, u32_at};

/// How a job reads a font (profile).
#[derive(Clone, Copy, Debug, PartialEq, Eq)]
pub enum Reading {
    /// The file has one font. Its character map has format 4 or 12.
    Strict,
    /// A face of the file, which may be a collection. More formats of character maps are read, and more maps.
    Wide {
        /// The number of the face, from 0 on.
        face: u32,
    },
}

/// The first four bytes of a collection: 'ttcf'.
const COLLECTION: u32 = 0x7474_6366;

/// Bytes before the offsets of a collection, and of a directory before its records.
const HEADER: usize = 12;

/// The offset of a face's directory, in a file with room for a header. Errors: NoFace, CollectionVersion, DirShort.
#[tactic(auto, unfolding(crate::specs::Collections::face_offset))]
fn face_offset(file: &[u8], face: u32) -> Result<u32, Fault>
    requires size { length file.now ≤ font_limit }
    requires header { 12 ≤ length file.now }
    ensures exact { Gives (λ at. at) result (face_offset file.now face) }
    ensures fault { IfErr result (IsBadFace file.now face) }
{
    if u32_at(file, 0).unwrap() != COLLECTION {
        if face != 0 {
            return Err(Fault::new(FILE, 0, Why::NoFace));
        }
        return Ok(0);
    }
    let version = u16_at(file, 4).unwrap();
    if version != 1 && version != 2 {
        return Err(Fault::new(FILE, 4, Why::CollectionVersion));
    }
    if u32_at(file, 8).unwrap() <= face {
        return Err(Fault::new(FILE, 8, Why::NoFace));
    }
    match u32_at(file, HEADER + 4 * face as usize) {
        Some(at) => Ok(at),
        None => Err(Fault::new(FILE, file.len() as u32, Why::DirShort)),
    }
}

/// The offset of the directory in a file. Errors: DirShort, and with a face NoFace and CollectionVersion.
#[tactic(auto, unfolding(crate::specs::Collections::offset_of))]
pub(crate) fn directory_offset(file: &[u8], reading: Reading) -> Result<u32, Fault>
    requires { length file.now ≤ font_limit }
    ensures exact { Gives (λ at. at) result (offset_of file.now reading) }
    ensures room { OnOk result (12 ≤ length file.now) }
    ensures sound { OnOk result (HasNo (IsOffsetDefect file.now reading)) }
    ensures fault { IfErr result (IsOffsetDefect file.now reading) }
{
    if file.len() < HEADER {
        return Err(Fault::new(FILE, file.len() as u32, Why::DirShort));
    }
    match reading {
        Reading::Strict => Ok(0),
        Reading::Wide { face } => face_offset(file, face),
    }
}

/// The count of a file's faces: 1 where the file is no collection. Errors: those of the first face's offset.
#[tactic(auto, unfolding(crate::specs::Collections::count_of))]
pub fn face_count(file: &[u8]) -> Result<u32, Fault>
    requires { length file.now ≤ font_limit }
    ensures exact { Gives (λ n. n) result (count_of file.now) }
{
    directory_offset(file, Reading::Wide { face: 0 })?;
    if u32_at(file, 0).unwrap() != COLLECTION {
        return Ok(1);
    }
    Ok(u32_at(file, 8).unwrap())
}
