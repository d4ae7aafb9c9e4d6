//! Draws a label of a given width, whose lines are broken into rows.

ghost use Rattle.std.specs.List.{sum_by};
ghost use Rattle.std.specs.Prelude.{◌≡◌, ℕ, ◌+◌, ◌-◌, ◌*◌, ◌≤◌, length, map, All, Bool, Ok, IfOk, Option};
ghost use Rattle.tt_core.specs.Limits.{margin_limit, size_limit, text_limit, width_limit};
ghost use Rattle.tt_core.specs.Outcomes.{GivesUnless, IfTold, JobGives, draw_font_fault};
ghost use Rattle.tt_label.specs.Gathered.{gathered, units_glyphs};
ghost use Rattle.tt_label.specs.Label.{label_glyphs};
ghost use Rattle.tt_label.specs.RowViews.{AreRows, cut_view, rows_view};
ghost use Rattle.tt_label.specs.Widths.{cut_left, cut_right, laid_in_width, rows_drawn, upright, width_outcome};
ghost use Rattle.tt_bitmap.specs.declared.ink.LeastBox.{LeastBox};
ghost use Rattle.tt_fit.specs.Fitting.{Fitter};
ghost use Rattle.tt_picture.specs.Glyphs.{AreDrawn, numbers_of};
ghost use Rattle.tt_picture.specs.Lines.{HasGlyphsOf};
ghost use Rattle.tt_label_rows.specs.Rows.{text_rows};
ghost use Rattle.tt_picture.specs.Cached.{limit_of};
ghost use Rattle.tt_picture.specs.Pictures.{IsPictureFrame, IsReady, image, image_of, narrowed};
ghost use Rattle.tt_picture.specs.Unfitted.{ListsOnce, unfitted_standing};
ghost use Rattle.tt_rows.specs.Rows.{one_at_least};
ghost use Rattle.tt_strike.specs.Costs.{line_cost};
ghost use Rattle.tt_strike.specs.Defects.{IsLineDefect, TellsDefects};
ghost use Rattle.tt_strike.specs.Refusals.{refusal};
ghost use Rattle.tt_strike.specs.Report.{line_report};
ghost use Rattle.tt_strike.specs.Strikes.{IsCacheOf, job_by, job_of};

use crate::begun::{BegunLabel, begin_label, finish_label};
use crate::growing::{grown_lines, label_ink};
use crate::made::with_margin;
use crate::placing::placed_lines;
use std::alloc::{AllocError, Global};
use tt_core::DrawFault;
use tt_label_rows::{
    RowsPicture, TextRows, lay_rows, row_heights, text_rows, widest, width_picture,
};
use tt_line::Align;
use tt_metrics::Metrics;
use tt_picture::{Cache, InkBox, Picture, glyph_inks};
use tt_rows::RowUnit;
use tt_strike::{InkedGlyphs, Laid, SizedFace, Strike};

/// Rows in their picture.
#[derive(Drop)]
pub struct LaidRows {
    pub picture: RowsPicture,
    pub lines: Vec<Laid>,
}

/// A label of a given width, and how many columns of ink it lacks on each side.
#[derive(Drop)]
pub struct WidthLabel {
    pub picture: Picture,
    pub left: u64,
    pub right: u64,
}

/// The rows of some lines in a picture of this width. Errors: PictureLarge, Memory.
fn rows_in_width(
    alloc: Global,
    metrics: &Metrics,
    ppem: u32,
    units: &[Vec<RowUnit>],
    margin: u32,
    align: Align,
    width: u32,
) -> Result<LaidRows, DrawFault>
    requires size { ppem ≤ size_limit }
    requires margin { margin ≤ margin_limit }
    requires width { (2 * margin + 1 ≤ width) × (width ≤ width_limit) }
    requires few { All (λ l. length l.items ≤ text_limit) units.now }
    requires rows { sum_by (λ l. one_at_least (length l.items)) units.now ≤ text_limit }
    requires some { 1 ≤ length units.now }
    ensures exact { JobGives rows_view result (laid_in_width metrics.now ppem margin align width (text_rows (width - 2 * margin) (map (λ l. l.items) units.now))) }
    ensures rows { IfOk result (AreRows margin) }
    ensures wide { IfOk result (λ r. (r.picture.skipped + width ≤ r.picture.width)) }
{
    let heights = row_heights(metrics, ppem);
    let broken = text_rows(alloc, units, width - 2 * margin)?;
    let TextRows { rows, .. } = broken;
    let more = rows.len().saturating_sub(1);
    let picture = width_picture(heights, more, widest(&rows), width, margin, align)?;
    let laid = lay_rows(alloc, rows, picture, heights.rise, heights.step)?;
    let lines = with_margin(alloc, laid, margin)?;
    Ok(LaidRows { picture, lines })
}

/// Ink that needs no more columns.
fn upright(ink: Option<InkBox>) -> Option<InkBox>
    ensures { result ≡ upright ink }
{
    match ink {
        Some(ink) => Some(InkBox {
            left: 0,
            top: ink.top,
            right: 0,
            bottom: ink.bottom,
        }),
        None => None,
    }
}

/// The columns of ink that are cut at the left of a picture whose first columns are skipped.
fn cut_left(skipped: u32, ink: Option<InkBox>) -> u64
    ensures { result ≡ cut_left skipped ink }
{
    let Some(ink) = ink else {
        return 0;
    };
    if ink.left < 0 {
        return u64::from(skipped) + ink.left.unsigned_abs();
    }
    u64::from(skipped).saturating_sub(ink.left.unsigned_abs())
}

/// The columns of ink that are cut at the right of a picture of this width, whose first columns are skipped.
fn cut_right(skipped: u32, width: u32, ink: Option<InkBox>) -> u64
    requires skipped { skipped ≤ width_limit }
    requires width { width ≤ width_limit }
    ensures { result ≡ cut_right skipped width ink }
{
    let Some(ink) = ink else {
        return 0;
    };
    let count = i64::from(skipped) + i64::from(width);
    if ink.right < count {
        return 0;
    }
    (ink.right - count).unsigned_abs() + 1
}

/// So many columns of a picture from column `from` on, as a picture; the picture itself where these are all columns.
/// Error: Memory.
fn shown_columns(
    alloc: Global,
    picture: Picture,
    from: u32,
    width: u32,
) -> Result<Picture, AllocError>
    requires ready { IsReady picture }
    requires frame { IsPictureFrame picture.frame }
    requires some { 1 ≤ width }
    requires within { from + width ≤ picture.frame.width }
    ensures exact { IfOk result (λ p. (black : ℕ → ℕ → Bool) → image_of picture ≡ image picture.frame black
        → image_of p ≡ image (narrowed picture.frame width) (λ c r. black (from + c) r)) }
    ensures valid { IfOk result IsReady }
    ensures width { IfOk result (λ p. p.frame.width ≡ width) }
    ensures unfitted { IfOk result (λ p. p.unfitted ≡ picture.unfitted) }
    ensures cost { IfOk result (λ p. p.cost ≡ picture.cost) }
{
    if from == 0 && width == picture.width() {
        return Ok(picture);
    }
    picture.columns(alloc, from, width)
}

/// The picture of rows that are laid out, by their glyphs, which are made. Errors: PictureLarge of the higher picture,
/// Memory.
fn draw_rows(
    alloc: Global,
    rows: LaidRows,
    inked: &InkedGlyphs,
    width: u32,
) -> Result<WidthLabel, DrawFault>
    requires rows { (margin : ℕ) × AreRows margin rows }
    requires among { All (λ l. HasGlyphsOf (numbers_of inked.now.glyphs.made.items) l.line.glyphs.items) rows.lines.items }
    requires some { 1 ≤ width }
    requires wide { rows.picture.skipped + width ≤ rows.picture.width }
    requires width { width ≤ width_limit }
    ensures exact { (ink : ℕ → Option LeastBox) (maker : ℕ → Fitter) (margin : ℕ)
        → inked.now.inks.items ≡ map ink (numbers_of inked.now.glyphs.made.items) → AreDrawn maker inked.now.glyphs.made.items
        → All (λ l. l.margin ≡ margin) rows.lines.items
        → JobGives cut_view result (rows_drawn ink maker margin width (rows_view rows)) }
    ensures valid { IfOk result (λ w. IsReady w.picture) }
    ensures width { IfOk result (λ w. w.picture.frame.width ≡ width) }
    ensures unfitted { IfOk result (λ w. w.picture.unfitted ≡ unfitted_standing inked.now.glyphs.made.items) }
    ensures cost { IfOk result (λ w. w.picture.cost ≡ inked.now.glyphs.cost) }
    ensures font { IfTold draw_font_fault result (λ _. ⊥) }
{
    let LaidRows {
        picture: place,
        lines,
    } = rows;
    let ink = label_ink(&lines, inked);
    let larger = grown_lines(alloc, lines, upright(ink))?;
    let frame = larger[0].frame();
    let placed = placed_lines(alloc, &larger)?;
    let whole = Picture::new(alloc, frame, &inked.glyphs, &placed)?;
    let picture = shown_columns(alloc, whole, place.skipped, width)?;
    Ok(WidthLabel {
        picture,
        left: cut_left(place.skipped, ink),
        right: cut_right(place.skipped, width, ink),
    })
}

/// The picture of a text in rows of a given width by a face at a size, whose glyphs come from this cache. Errors: as
/// `label_in_width`.
fn draw_in_width(
    sized: &mut SizedFace,
    text: &str,
    margin: u32,
    align: Align,
    width: u32,
    cache: &mut Cache,
) -> Result<WidthLabel, DrawFault>
    requires cache { IsCacheOf sized.old cache.old }
    requires width { (2 * margin + 1 ≤ width) × (width ≤ width_limit) }
    ensures exact { GivesUnless refusal cut_view result (width_outcome sized.old.face (job_by sized.old text.now margin) align width) }
    ensures valid { IfOk result (λ w. IsReady w.picture) }
    ensures width { IfOk result (λ w. w.picture.frame.width ≡ width) }
    ensures report { IfOk result (λ w. line_report sized.old.face (job_by sized.old text.now margin) (gathered (units_glyphs sized.old.face (job_by sized.old text.now margin))) ≡ Ok w.picture.unfitted) }
    ensures once { IfOk result (λ w. ListsOnce w.picture.unfitted) }
    ensures cost { IfOk result (λ w. line_cost sized.old.face (job_by sized.old text.now margin) (gathered (units_glyphs sized.old.face (job_by sized.old text.now margin))) ≡ Ok w.picture.cost) }
    ensures defects { TellsDefects draw_font_fault (IsLineDefect sized.old.face (job_by sized.old text.now margin) (label_glyphs sized.old.face.cmap text.now)) result }
    ensures cache { IsCacheOf sized.old cache.new }
    ensures limit { limit_of cache.new ≡ limit_of cache.old }
    ensures same { sized.new ≡ sized.old }
{
    let alloc = sized.alloc();
    let begun = begin_label(sized, text, margin, cache)?;
    let BegunLabel {
        lines,
        gathered,
        stage,
    } = begun;
    let metrics = sized.face().metrics();
    let ppem = sized.ppem();
    let rows = rows_in_width(alloc, metrics, ppem, &lines, margin, align, width)?;
    let glyphs = finish_label(sized, text, &gathered, stage, cache)?;
    let inks = glyph_inks(alloc, &glyphs.made)?;
    let inked = InkedGlyphs { glyphs, inks };
    let label = draw_rows(alloc, rows, &inked, width)?;
    let InkedGlyphs { glyphs, .. } = inked;
    sized.give_back(glyphs);
    Ok(label)
}

/// The picture of a text in rows of a given width, 1 to 16,384 columns and more than both margins. Each line of the text is
/// broken into rows that are no wider than the room between the margins, as far as it can be. Rows are added above and
/// below so that no ink is cut there. Ink past the sides is cut, and the columns of ink that are cut are counted.
///
/// Errors, the first of: MarginRange, TextLong; those of loca and glyf, of the programs; with `Fit::Best` WorkLarge of the
/// points, and of the deltas; those of the glyphs in the order of the text; PictureLarge; with `Fit::Best` WorkLarge of the
/// chords and of the crossings; PictureLarge of the higher picture. With any other fit, at an instance without HVAR, those
/// of loca and glyf and of the glyphs' advances come before those of the programs. PictureLarge comes where the picture
/// has more than 4,096 rows, or where the widest row and the columns that are skipped at its left have more than 16,384
/// columns. Memory may come at any allocation. A refused label too may change the cached glyphs. `draw_in_width` is apart
/// (for the prover): that function has the face and the cache one by one.
pub fn label_in_width(
    strike: &mut Strike,
    text: &str,
    margin: u32,
    align: Align,
    width: u32,
) -> Result<WidthLabel, DrawFault>
    requires width { (2 * margin + 1 ≤ width) × (width ≤ width_limit) }
    ensures exact { GivesUnless refusal cut_view result (width_outcome strike.old.face (job_of strike.old text.now margin) align width) }
    ensures valid { IfOk result (λ w. IsReady w.picture) }
    ensures width { IfOk result (λ w. w.picture.frame.width ≡ width) }
    ensures report { IfOk result (λ w. line_report strike.old.face (job_of strike.old text.now margin) (gathered (units_glyphs strike.old.face (job_of strike.old text.now margin))) ≡ Ok w.picture.unfitted) }
    ensures once { IfOk result (λ w. ListsOnce w.picture.unfitted) }
    ensures cost { IfOk result (λ w. line_cost strike.old.face (job_of strike.old text.now margin) (gathered (units_glyphs strike.old.face (job_of strike.old text.now margin))) ≡ Ok w.picture.cost) }
    ensures defects { TellsDefects draw_font_fault (IsLineDefect strike.old.face (job_of strike.old text.now margin) (label_glyphs strike.old.face.cmap text.now)) result }
    ensures same { strike.new ≡ record strike.old { kept = strike.new.kept } }
{
    draw_in_width(
        &mut strike.sized,
        text,
        margin,
        align,
        width,
        &mut strike.cache,
    )
}
