//! Enlarges the picture of a label so that the ink of no line is cut.

ghost use Rattle.std.specs.Prelude.{◌≡◌, ℕ, map, All, IfOk, Option};
ghost use Rattle.tt_bitmap.specs.declared.ink.LeastBox.{LeastBox};
ghost use Rattle.tt_core.specs.Outcomes.{Gives, JobGives};
ghost use Rattle.tt_label.specs.Label.{grown_lines, label_ink};
ghost use Rattle.tt_label.specs.Views.{placements_of};
ghost use Rattle.tt_line.specs.Outcome.{placement_of};
ghost use Rattle.tt_picture.specs.Glyphs.{numbers_of};
ghost use Rattle.tt_picture.specs.Lines.{HasGlyphsOf};
ghost use Rattle.tt_strike.specs.Grown.{grown};

use std::alloc::{AllocError, Global};
use tt_core::{DrawFault, JobFault};
use tt_picture::{InkBox, joined};
use tt_strike::{InkedGlyphs, Laid, grown, line_ink};

/// The least box of the ink of some lines, whose glyphs are among these.
pub fn label_ink(lines: &[Laid], inked: &InkedGlyphs) -> Option<InkBox>
    requires { All (λ l. HasGlyphsOf (numbers_of inked.now.glyphs.made.items) l.line.glyphs.items) lines.now }
    ensures { (ink : ℕ → Option LeastBox) (margin : ℕ) → inked.now.inks.items ≡ map ink (numbers_of inked.now.glyphs.made.items)
        → All (λ l. l.margin ≡ margin) lines.now → result ≡ label_ink ink margin (placements_of lines.now) }
{
    let mut all = None;
    for laid in lines {
        all = joined(all, line_ink(laid.placed(), inked));
    }
    all
}

/// A line in whose picture this ink is not cut. Error: PictureLarge.
fn grown_line(laid: Laid, ink: Option<InkBox>) -> Result<Laid, JobFault>
    ensures exact { Gives (λ l. placement_of l.line) result (grown (placement_of laid.line) ink) }
    ensures margin { IfOk result (λ l. l.margin ≡ laid.margin) }
{
    let Laid { line, margin } = laid;
    Ok(Laid {
        line: grown(line, ink)?,
        margin,
    })
}

/// Some lines of one picture with the fewest added columns and rows such that this ink is not cut. Errors: PictureLarge,
/// Memory.
pub(crate) fn grown_lines(
    alloc: Global,
    lines: Vec<Laid>,
    ink: Option<InkBox>,
) -> Result<Vec<Laid>, DrawFault>
    ensures exact { JobGives (λ v. placements_of v.items) result (grown_lines (placements_of lines.items) ink) }
    ensures margin { IfOk result (λ v. (margin : ℕ) → All (λ l. l.margin ≡ margin) lines.items → All (λ l. l.margin ≡ margin) v.items) }
{
    let mut made = Vec::with_capacity(alloc, lines.len())?;
    for laid in lines {
        let larger = grown_line(laid, ink)?;
        match made.push(larger) {
            Ok(()) => {}
            Err(refused) => return Err(AllocError::from(refused).into()),
        }
    }
    Ok(made)
}
