//! Draws a label.

ghost use Rattle.std.specs.Prelude.{◌≡◌, Ok, IfOk};
ghost use Rattle.tt_core.specs.Outcomes.{GivesUnless, draw_font_fault};
ghost use Rattle.tt_label.specs.Label.{label_cost, label_glyphs, label_outcome, label_report};
ghost use Rattle.tt_picture.specs.Cached.{limit_of};
ghost use Rattle.tt_picture.specs.Pictures.{IsReady, image_of};
ghost use Rattle.tt_picture.specs.Unfitted.{ListsOnce};
ghost use Rattle.tt_strike.specs.Defects.{IsLineDefect, TellsDefects};
ghost use Rattle.tt_strike.specs.Refusals.{refusal};
ghost use Rattle.tt_strike.specs.Strikes.{IsCacheOf, job_by, job_of};

use crate::growing::{grown_lines, label_ink};
use crate::made::{MadeLabel, make_label};
use crate::placing::placed_lines;
use tt_core::DrawFault;
use tt_line::Align;
use tt_picture::{Cache, Picture, glyph_inks};
use tt_strike::{InkedGlyphs, SizedFace, Strike};

/// The picture of a text's lines by a face at a size, whose glyphs come from this cache. Errors: as `label`.
fn draw_label(
    sized: &mut SizedFace,
    text: &str,
    margin: u32,
    align: Align,
    cache: &mut Cache,
) -> Result<Picture, DrawFault>
    requires cache { IsCacheOf sized.old cache.old }
    ensures exact { GivesUnless refusal image_of result (label_outcome sized.old.face (job_by sized.old text.now margin) align) }
    ensures valid { IfOk result IsReady }
    ensures report { IfOk result (λ p. label_report sized.old.face (job_by sized.old text.now margin) align ≡ Ok p.unfitted) }
    ensures once { IfOk result (λ p. ListsOnce p.unfitted) }
    ensures cost { IfOk result (λ p. label_cost sized.old.face (job_by sized.old text.now margin) align ≡ Ok p.cost) }
    ensures defects { TellsDefects draw_font_fault (IsLineDefect sized.old.face (job_by sized.old text.now margin) (label_glyphs sized.old.face.cmap text.now)) result }
    ensures cache { IsCacheOf sized.old cache.new }
    ensures limit { limit_of cache.new ≡ limit_of cache.old }
    ensures same { sized.new ≡ sized.old }
{
    let alloc = sized.alloc();
    let made = make_label(sized, text, margin, align, cache)?;
    let MadeLabel { lines, glyphs } = made;
    let inks = glyph_inks(alloc, &glyphs.made)?;
    let inked = InkedGlyphs { glyphs, inks };
    let ink = label_ink(&lines, &inked);
    let lines = grown_lines(alloc, lines, ink)?;
    let frame = lines[0].frame();
    let placed = placed_lines(alloc, &lines)?;
    let picture = Picture::new(alloc, frame, &inked.glyphs, &placed)?;
    let InkedGlyphs { glyphs, .. } = inked;
    sized.give_back(glyphs);
    Ok(picture)
}

/// The picture of a text's lines, one below the other, with a margin of 0 to 64 pixels and the fewest added columns and
/// rows such that no ink is cut. A text of one line has the picture of `Strike::grown_line`, but is never refused as
/// empty: its picture has at least one column and one row.
///
/// Errors, the first of: MarginRange, TextLong; PictureLarge; those of loca and glyf; those of the programs; those of
/// the glyphs in the order of the text; PictureLarge of the larger picture. With `Fit::Best` the first PictureLarge comes
/// after those of the glyphs. Before the glyphs comes WorkLarge of their points, and of their deltas, and after it
/// WorkLarge of their chords and of their crossings. With any other fit, at an instance without HVAR, those of loca and
/// glyf and of the glyphs' advances come before the first PictureLarge. Memory may come at any allocation. A refused
/// label too may change the cached glyphs. `draw_label` is apart (for the prover): that function has the face and the
/// cache one by one.
pub fn label(
    strike: &mut Strike,
    text: &str,
    margin: u32,
    align: Align,
) -> Result<Picture, DrawFault>
    ensures exact { GivesUnless refusal image_of result (label_outcome strike.old.face (job_of strike.old text.now margin) align) }
    ensures valid { IfOk result IsReady }
    ensures report { IfOk result (λ p. label_report strike.old.face (job_of strike.old text.now margin) align ≡ Ok p.unfitted) }
    ensures once { IfOk result (λ p. ListsOnce p.unfitted) }
    ensures cost { IfOk result (λ p. label_cost strike.old.face (job_of strike.old text.now margin) align ≡ Ok p.cost) }
    ensures defects { TellsDefects draw_font_fault (IsLineDefect strike.old.face (job_of strike.old text.now margin) (label_glyphs strike.old.face.cmap text.now)) result }
    ensures same { strike.new ≡ record strike.old { kept = strike.new.kept } }
{
    draw_label(&mut strike.sized, text, margin, align, &mut strike.cache)
}
