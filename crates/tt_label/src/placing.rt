//! The lines of a label in one picture, each with its own base line.

ghost use Rattle.std.specs.Prelude.{◌≡◌, map, IfOk};
ghost use Rattle.tt_label.specs.Views.{placed_parts, laid_parts};

use std::alloc::{AllocError, Global};
use tt_picture::PlacedLine;
use tt_strike::Laid;

/// Some lines at their places in the picture. Error: Memory.
pub fn placed_lines(alloc: Global, lines: &[Laid]) -> Result<Vec<PlacedLine<'_>>, AllocError>
    ensures { IfOk result (λ v. map placed_parts v.items ≡ map laid_parts lines.now) }
{
    let mut made = Vec::with_capacity(alloc, lines.len())?;
    for laid in lines {
        made.push(laid.placed())?;
    }
    Ok(made)
}
