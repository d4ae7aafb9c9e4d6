//! A glyph of a line that is fitted, before its edges are made: by its outline, or from the cache.

ghost use Rattle.std.specs.Prelude.{◌≡◌, ◌<◌, ◌≤◌, nat_le, IfOk, OnOk, Err};
ghost use Rattle.tt_core.specs.Outcomes.{IfTold, font_fault};
ghost use Rattle.tt_fit.specs.Fitting.{Fitter, fitted_outline, after_glyph};
ghost use Rattle.tt_picture.specs.Cached.{IsCacheFor, limit_of};
ghost use Rattle.tt_picture.specs.Fitted.{IsFitted, body_chords, body_advance, made_crossings, newly_cut};
ghost use Rattle.tt_picture.specs.Glyphs.{IsDrawn};

use crate::cache::Cache;
use crate::cutting::CutLimits;
use crate::glyph::Glyph;
use crate::outlined::{
    MadeOutline, cost_of, counts_of, deltas_of, has_chords_within, points_of, rule_by, rules_for,
};
use std::alloc::{AllocError, Global};
use std::marker::Model;
use tt_core::FontFault;
use tt_fit::{Fitter, OutlineAtCost};
use tt_strike_kept::KeptGlyph;

/// The part of a fitted glyph that gives its edges or its pixels. An outline is large, so it is behind a pointer.
#[derive(Drop)]
pub(crate) enum FittedBody {
    /// Its outline.
    Outline(Box<MadeOutline>),
    /// Its pixels, from the cache.
    Kept(KeptGlyph),
}

/// A glyph by its number in the font, with its outline or its cached pixels.
#[derive(Drop)]
pub struct FittedGlyph {
    number: u16,
    body: FittedBody,
}

impl Model for FittedGlyph {
    ghost use Rattle.tt_picture.specs.Fitted as fitted;
    ghost use Rattle.tt_picture.specs.Views.{fitted_view};

    ghost Value = { fitted.FittedGlyph };

    ghost view = { λ g. record { number = g.number; body = fitted_view g.body } };
}

impl FittedGlyph {
    /// A glyph from the cache, where its cost is left of the job's work: the cost is paid. Else the glyph is made. The
    /// fitter then serves later glyphs. Errors: those of its outline, Memory.
    pub(crate) fn of(
        alloc: Global,
        fitter: &mut Fitter,
        number: u16,
        cache: &Cache,
    ) -> Result<FittedGlyph, FontFault>
        requires known { number < fitter.old.tables.glyphs }
        requires cache { IsCacheFor fitter.old cache.now }
        ensures number { IfOk result (λ g. g.number ≡ number) }
        ensures fitted { IfOk result (IsFitted fitter.old) }
        ensures after { OnOk result (fitter.new ≡ after_glyph fitter.old number) }
        ensures fault { IfTold font_fault result (λ f. fitted_outline fitter.old number ≡ Err f) }
    {
        if let Some(kept) = cache.find(number) {
            if fitter.pay(kept.counts.cost) {
                return Ok(FittedGlyph {
                    number,
                    body: FittedBody::Kept(kept),
                });
            }
        }
        FittedGlyph::made(alloc, fitter, number, cache.is_there())
    }

    /// A glyph whose outline is made. What it counts is told where it may be cached. The fitter then serves later glyphs.
    /// Errors: those of its outline, Memory. Not inline: a glyph from the cache needs no room for an outline.
    #[inline(never)]
    fn made(
        alloc: Global,
        fitter: &mut Fitter,
        number: u16,
        cached: bool,
    ) -> Result<FittedGlyph, FontFault>
        requires known { number < fitter.old.tables.glyphs }
        ensures number { IfOk result (λ g. g.number ≡ number) }
        ensures fitted { IfOk result (IsFitted fitter.old) }
        ensures after { OnOk result (fitter.new ≡ after_glyph fitter.old number) }
        ensures fault { IfTold font_fault result (λ f. fitted_outline fitter.old number ≡ Err f) }
    {
        let points = points_of(fitter, number, cached)?;
        let deltas = deltas_of(fitter, number, points.is_some())?;
        let work = fitter.work();
        let made = fitter.fit_with_cost(number)?;
        let OutlineAtCost { outline, cost } = made;
        let filled = rules_for(&outline, fitter.dropouts(&outline));
        let counts = counts_of(points, deltas, cost_of(work, cost));
        let outlined = MadeOutline {
            outline,
            rule: rule_by(work),
            filled,
            counts,
        };
        Ok(FittedGlyph {
            number,
            body: FittedBody::Outline(Box::new(alloc, outlined)?),
        })
    }

    /// The distance of the advance's two ends, in 26.6 pixels.
    pub fn advance_left(&self) -> i32
        ensures { result ≡ body_advance self.now.body }
    {
        match &self.body {
            FittedBody::Outline(made) => made.outline.advance_left(),
            FittedBody::Kept(kept) => kept.cut.facts.advance_left,
        }
    }

    /// Whether the glyph has at most so many chords and straight edges. None of them is made.
    pub(crate) fn has_chords_within(&self, most: usize) -> bool
        requires fitted { (s : Fitter) × IsFitted s self.now }
        ensures { result ≡ nat_le (body_chords self.now.body) most }
    {
        match &self.body {
            FittedBody::Outline(made) => has_chords_within(&made.outline, made.rule, most),
            FittedBody::Kept(kept) => kept.cut.facts.chords <= most,
        }
    }

    /// The glyph with its pixels, in a bitmap where that takes no more than the limits. The glyph is cached if it may be
    /// and is small enough. Error: Memory. The outline is dropped.
    #[inline(always)]
    pub(crate) fn into_glyph(
        self,
        alloc: Global,
        cache: &mut Cache,
        limits: CutLimits,
    ) -> Result<Glyph, AllocError>
        requires fitted { (s : Fitter) × IsFitted s self }
        ensures number { IfOk result (λ g. g.number ≡ self.number) }
        ensures chords { IfOk result (λ g. g.chords ≡ body_chords self.body) }
        ensures crossings { IfOk result (λ g. g.crossings ≡ made_crossings self.body) }
        ensures cut { IfOk result (λ g. newly_cut self.body g ≤ limits.crossings) }
        ensures valid { IfOk result (λ g. (s : Fitter) → IsFitted s self → IsDrawn s g) }
        ensures cached { (s : Fitter) → IsFitted s self → IsCacheFor s cache.old → IsCacheFor s cache.new }
        ensures limit { limit_of cache.new ≡ limit_of cache.old }
    {
        let FittedGlyph { number, body } = self;
        match body {
            FittedBody::Outline(made) => {
                Box::into_inner(made).into_glyph(alloc, number, cache, limits)
            }
            FittedBody::Kept(kept) => Ok(Glyph::cached(number, kept)),
        }
    }
}
