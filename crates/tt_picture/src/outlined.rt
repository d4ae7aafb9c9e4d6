//! The outline of a glyph that is made, before its edges are.

ghost use Rattle.std.specs.Prelude.{◌≡◌, ◌⊎◌, ◌<◌, ◌≤◌, ◌^◌, nat_le, length, IfOk, IfSome, None, Some, Ok};
ghost use Rattle.tt_fit.specs.Counting.{points_asked};
ghost use Rattle.tt_fit.specs.DeltaCounting.{deltas_asked};
ghost use Rattle.tt_fit.specs.Fitting.{Fitter, fitted_outline};
ghost use Rattle.tt_fit.specs.outline.Outline as shape;
ghost use Rattle.tt_fit.specs.outline.Outline.{IsOutline};
ghost use Rattle.tt_fit.specs.outline.Views.{outline_of};
ghost use Rattle.tt_scan.specs.Contours.{AreEnds, contours_at};
ghost use Rattle.tt_scan_gaps.specs.Boxes.{ExtentsFit};
ghost use Rattle.tt_picture.specs.Cached.{IsCacheFor, limit_of};
ghost use Rattle.tt_picture.specs.Fitted.{IsMadeOutline, outline_crossings};
ghost use Rattle.tt_picture.specs.Glyphs.{IsDrawn, crossings_cut};
ghost use Rattle.tt_picture.specs.Shapes.{contours_of, edges_at, extents_of, rule_by, rules_for};
ghost use Rattle.tt_picture.specs.Steps.{chords_of};

use crate::cache::Cache;
use crate::cutting::CutLimits;
use crate::glyph::{Glyph, LargeGlyph};
use std::alloc::{AllocError, Global};
use std::marker::Model;
use tt_arc::{ChordRule, OutlineEdges, edges, points_box};
use tt_core::POINT_WORK_LIMIT;
use tt_fit::{DELTA_LIMIT, DropoutRules, Fitter, Outline};
use tt_glyph_pixels::glyph_frame;
use tt_scan::Tape;
use tt_scan_dropouts::{BoxedRules, Extents, Rules};
use tt_strike_kept::{GlyphFacts, KeptCounts};

/// An outline with its chord rule and the rules for filling its dropouts.
#[derive(Drop)]
pub(crate) struct MadeOutline {
    pub(crate) outline: Outline,
    pub(crate) rule: ChordRule,
    /// The rules for filling its dropouts, with its box at pen 0.
    pub(crate) filled: Option<BoxedRules>,
    /// None where the glyph is not to be cached.
    pub(crate) counts: Option<KeptCounts>,
}

impl Model for MadeOutline {
    ghost use Rattle.tt_fit.specs.outline.Views.{outline_of};
    ghost use Rattle.tt_picture.specs.Fitted as fitted;

    ghost Value = { fitted.MadeOutline };

    ghost view = { λ m. record { outline = outline_of m.outline; rule = m.rule; filled = m.filled; counts = m.counts; unfitted = m.outline.unfitted } };
}

impl MadeOutline {
    /// The glyph with its pixels, in a bitmap where that takes no more than the limits. The glyph is cached if it may be
    /// and is small enough. Error: Memory. The outline is dropped.
    #[inline(never)]
    pub(crate) fn into_glyph(
        self,
        alloc: Global,
        number: u16,
        cache: &mut Cache,
        limits: CutLimits,
    ) -> Result<Glyph, AllocError>
        requires made { (s : Fitter) × (o : shape.Outline) × IsMadeOutline s number o self }
        ensures number { IfOk result (λ g. g.number ≡ number) }
        ensures chords { IfOk result (λ g. g.chords ≡ chords_of self.rule self.outline) }
        ensures crossings { IfOk result (λ g. g.crossings ≡ outline_crossings self) }
        ensures cut { IfOk result (λ g. crossings_cut g.crossings g.body ≤ limits.crossings) }
        ensures valid { IfOk result (λ g. (s : Fitter) (o : shape.Outline) → fitted_outline s number ≡ Ok o → IsMadeOutline s number o self → IsDrawn s g) }
        ensures cached { (s : Fitter) (o : shape.Outline) → IsMadeOutline s number o self → IsCacheFor s cache.old → IsCacheFor s cache.new }
        ensures limit { limit_of cache.new ≡ limit_of cache.old }
    {
        let MadeOutline {
            outline,
            rule,
            filled,
            counts,
        } = self;
        let extents = box_of(&outline, filled);
        let made = edges_of(alloc, &outline, rule, filled)?;
        let OutlineEdges { list, ends, chords } = made;
        let tape = Tape::of(alloc, glyph_frame(extents, filled), list)?;
        tt_arc::laws::contours_joined();
        let edged = LargeGlyph { tape, ends, filled };
        let facts = GlyphFacts {
            advance_left: outline.advance_left(),
            chords,
            crossings: edged.crossings(),
            unfitted: outline.unfitted,
        };
        let body = edged.into_body(alloc, extents, facts, limits)?;
        let glyph = Glyph { number, body };
        glyph.cache_in(cache, counts)?;
        Ok(glyph)
    }
}

/// A count in 32 bits, as the cache has it; None where there is no count, or a greater one.
fn narrowed(count: Option<u64>) -> Option<u32>
    ensures { IfSome result (λ n. count ≡ Some n) }
{
    match u32::try_from(count?) {
        Ok(count) => Some(count),
        Err(_) => None,
    }
}

/// The points of a glyph; None where there is no cache, or they are too many for a line. Error: Memory.
pub(crate) fn points_of(
    fitter: &Fitter,
    number: u16,
    cached: bool,
) -> Result<Option<u32>, AllocError>
    requires { number < fitter.now.tables.glyphs }
    ensures { IfOk result (λ p. IfSome p (λ n. n ≡ points_asked fitter.now.tables fitter.now.levels number)) }
{
    if !cached {
        return Ok(None);
    }
    Ok(narrowed(fitter.points(number, POINT_WORK_LIMIT)?))
}

/// The deltas of a glyph; None where its points are not counted, or the deltas are too many for a line. Error: Memory.
pub(crate) fn deltas_of(
    fitter: &Fitter,
    number: u16,
    counted: bool,
) -> Result<Option<u32>, AllocError>
    requires { number < fitter.now.tables.glyphs }
    ensures { IfOk result (λ d. IfSome d (λ n. n ≡ deltas_asked fitter.now.instance fitter.now.tables fitter.now.levels number)) }
{
    if !counted {
        return Ok(None);
    }
    Ok(narrowed(fitter.deltas(number, DELTA_LIMIT)?))
}

/// The cost of a glyph's programs: 0 where work is not bounded.
pub(crate) fn cost_of(work: Option<u64>, cost: Option<u64>) -> Option<u64>
    ensures { IfSome result (λ n. ((work ≡ None) × (n ≡ 0)) ⊎ (cost ≡ Some n)) }
{
    match work {
        None => Some(0),
        Some(_) => cost,
    }
}

/// What a glyph counts, where its points, its deltas and its cost are known.
pub(crate) fn counts_of(
    points: Option<u32>,
    deltas: Option<u32>,
    cost: Option<u64>,
) -> Option<KeptCounts>
    ensures points { IfSome result (λ n. points ≡ Some n.points) }
    ensures deltas { IfSome result (λ n. deltas ≡ Some n.deltas) }
    ensures cost { IfSome result (λ n. cost ≡ Some n.cost) }
{
    match (points, deltas, cost) {
        (Some(points), Some(deltas), Some(cost)) => Some(KeptCounts {
            points,
            deltas,
            cost,
        }),
        _ => None,
    }
}

/// How many chords curves have, by the job's remaining work: with best, whose work is bounded, by their bend.
pub fn rule_by(work: Option<u64>) -> ChordRule
    ensures { result ≡ rule_by work }
{
    match work {
        None => ChordRule::Eight,
        Some(_) => ChordRule::ByBend,
    }
}

/// The box of an outline's points, where its first phantom point is at the left end of the line.
fn extents_of(outline: &Outline) -> Extents
    requires outline { IsOutline (outline_of outline.now) }
    ensures exact { result ≡ extents_of (outline_of outline.now) }
    ensures fits { ExtentsFit result }
{
    let origin = outline.phantom[0].0;
    points_box(outline, -i64::from(origin), 0)
}

/// The box of an outline's points, where its first phantom point is at the left end of the line. The rules for filling
/// its dropouts have the same box.
pub fn box_of(outline: &Outline, filled: Option<BoxedRules>) -> Extents
    requires outline { IsOutline (outline_of outline.now) }
    requires same { IfSome filled (λ rules. rules.extents ≡ extents_of (outline_of outline.now)) }
    ensures exact { result ≡ extents_of (outline_of outline.now) }
    ensures fits { ExtentsFit result }
{
    match filled {
        Some(rules) => rules.extents,
        None => extents_of(outline),
    }
}

/// The dropout rules in the scan converter's type, with the outline's box, which is needed only there.
pub fn rules_for(outline: &Outline, rules: Option<DropoutRules>) -> Option<BoxedRules>
    requires outline { IsOutline (outline_of outline.now) }
    ensures exact { result ≡ rules_for (extents_of (outline_of outline.now)) rules }
    ensures fits { IfSome result (λ b. ExtentsFit b.extents) }
{
    match rules {
        Some(rules) => Some(BoxedRules {
            rules: Rules {
                stubs: rules.stubs,
                smart: rules.smart,
                dots: rules.dots,
            },
            extents: extents_of(outline),
        }),
        None => None,
    }
}

/// Whether an outline has at most so many chords and straight edges. None of them is made.
pub fn has_chords_within(outline: &Outline, rule: ChordRule, most: usize) -> bool
    requires outline { IsOutline (outline_of outline.now) }
    ensures { result ≡ nat_le (chords_of rule (outline_of outline.now)) most }
{
    let origin = outline.phantom[0].0;
    tt_arc::has_chords_within(outline, rule, -i64::from(origin), 0, most)
}

/// The edges of an outline whose first phantom point is at the left end of the line. The ends of its contours are told
/// if its dropouts are filled.
pub fn edges_of(
    alloc: Global,
    outline: &Outline,
    rule: ChordRule,
    filled: Option<BoxedRules>,
) -> Result<OutlineEdges, AllocError>
    requires outline { IsOutline (outline_of outline.now) }
    ensures exact { IfOk result (λ e. e.list.edges ≡ edges_at rule 0 (outline_of outline.now)) }
    ensures few { IfOk result (λ e. length e.list.edges ≤ 2 ^ 19) }
    ensures chords { IfOk result (λ e. e.chords ≡ chords_of rule (outline_of outline.now)) }
    ensures contours { IfOk result (λ e. IfSome filled (λ rules. contours_at e.list.edges e.ends.items ≡ contours_of rule 0 (outline_of outline.now))) }
    ensures ends { IfOk result (λ e. IfSome filled (λ rules. AreEnds (length e.list.edges) e.ends.items)) }
{
    let origin = outline.phantom[0].0;
    edges(
        alloc,
        outline,
        rule,
        -i64::from(origin),
        0,
        filled.is_some(),
    )
}
