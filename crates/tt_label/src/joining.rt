//! The glyphs of several lines one after the other, as those of one line.

ghost use Rattle.std.specs.List.{flat_map};
ghost use Rattle.std.specs.Prelude.{◌≡◌, ℕ, length, All, IfNone, IfOk, IfSome};
ghost use Rattle.tt_face.specs.Faces.{Face};
ghost use Rattle.tt_label.specs.Label.{joint};
ghost use Rattle.tt_label.specs.Made.{AreLaid};
ghost use Rattle.tt_label.specs.Views.{placements_of};
ghost use Rattle.tt_line.specs.Outcome.{placement_of};

use std::alloc::{AllocError, Global};
use tt_line::Line;
use tt_strike::Laid;

/// The glyphs of some lines with their steps. Error: Memory.
pub(crate) fn joined_steps(
    alloc: Global,
    lines: &[Vec<(u16, u32)>],
) -> Result<Vec<(u16, u32)>, AllocError>
    ensures { IfOk result (λ v. v.items ≡ flat_map (λ l. l.items) lines.now) }
{
    let mut all = Vec::new(alloc);
    for line in lines {
        all.extend_from_slice(line)?;
    }
    Ok(all)
}

/// The glyphs of some lines with their pens. Error: Memory.
fn joined_glyphs(alloc: Global, lines: &[Laid]) -> Result<Vec<(u16, u32)>, AllocError>
    ensures { IfOk result (λ v. v.items ≡ flat_map (λ l. l.line.glyphs.items) lines.now) }
{
    let mut all = Vec::new(alloc);
    for laid in lines {
        all.extend_from_slice(&laid.line.glyphs)?;
    }
    Ok(all)
}

/// The glyphs of several lines of one picture as those of one line. None for one line, which is not copied. Error: Memory.
pub(crate) fn joint_line(
    alloc: Global,
    lines: &[Laid],
    margin: u32,
) -> Result<Option<Laid>, AllocError>
    requires { (face : Face) × AreLaid face margin lines.now }
    ensures line { IfOk result (λ o. IfSome o (λ l. placement_of l.line ≡ joint (placements_of lines.now))) }
    ensures margin { IfOk result (λ o. IfSome o (λ l. l.margin ≡ margin)) }
    ensures none { IfOk result (λ o. IfNone o (length lines.now ≡ 1)) }
{
    if lines.len() == 1 {
        return Ok(None);
    }
    let glyphs = joined_glyphs(alloc, lines)?;
    let first = &lines[0].line;
    let line = Line {
        width: first.width,
        height: first.height,
        rise: first.rise,
        glyphs,
    };
    Ok(Some(Laid { line, margin }))
}

/// Some lines of one picture as one line: the joint line, or the only one.
pub(crate) fn joint_of<'l>(lines: &'l [Laid], joined: &'l Option<Laid>) -> &'l Laid
    requires line { IfSome joined.now (λ l. placement_of l.line ≡ joint (placements_of lines.now)) }
    requires none { IfNone joined.now (length lines.now ≡ 1) }
    ensures line { placement_of result.now.line ≡ joint (placements_of lines.now) }
    ensures margin { (margin : ℕ) → IfSome joined.now (λ l. l.margin ≡ margin) → All (λ l. l.margin ≡ margin) lines.now
        → result.now.margin ≡ margin }
{
    match joined {
        Some(line) => line,
        None => &lines[0],
    }
}
