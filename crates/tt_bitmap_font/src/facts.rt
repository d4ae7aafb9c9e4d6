//! The facts of a font in its file.

ghost use Rattle.std.specs.Prelude.{◌≡◌, ◌≤◌, IfOk};
ghost use Rattle.tt_bdf.specs.Facts.{facts_of};
ghost use Rattle.tt_bitmap_font.specs.Facts.{face_facts};
ghost use Rattle.tt_core.specs.Limits.{size_limit};

use std::alloc::{AllocError, Global};
use tt_bdf::{BdfFont, family_name, is_bold, is_italic};
use tt_face::Face;
use tt_line::{depth, rise};

/// The facts of a face at a size. Error: memory ran out.
pub(crate) fn face_facts(alloc: Global, face: &Face, size: u32) -> Result<BdfFont, AllocError>
    requires { size ≤ size_limit }
    ensures facts { IfOk result (λ f. facts_of f ≡ face_facts face.now size) }
    ensures size { IfOk result (λ f. f.size ≤ size_limit) }
    ensures em { IfOk result (λ f. 16 ≤ f.em) }
{
    let told = face.family_name(alloc)?;
    let family = family_name(alloc, &told)?;
    let style = face.style();
    let metrics = face.metrics();
    Ok(BdfFont {
        family,
        bold: is_bold(style),
        italic: is_italic(style),
        size,
        em: metrics.units_per_em(),
        rise: rise(metrics, size),
        depth: depth(metrics, size),
    })
}
