//! The outlines of a list's distinct glyphs. A refused glyph has its fault, and the others are made.

ghost use Rattle.std.specs.Prelude.{◌≡◌, ℕ, ◌<◌, true, List, map, All, Ok, Err, IfErr, IfOk, OnOk};
ghost use Rattle.tt_fit.specs.Fitting.{Fitter, after_glyph};
ghost use Rattle.tt_fit.specs.outline.Outline.{Outline};
ghost use Rattle.tt_glyphs.specs.Tried.{AreTriedBy, IsRuledBody, tried_glyph, tried_numbers};
ghost use Rattle.tt_picture.specs.Distinct.{fitter_after, fitter_for};
ghost use Rattle.tt_picture.specs.Steps.{outlines_by};
ghost use Rattle.tt_picture.specs.Unfitted.{all_differ};

use crate::ruled::{RuledOutline, TriedBody, TriedGlyph};
use std::alloc::{AllocError, Global};
use tt_core::Fault;
use tt_fit::{Fitter, TriedOutline};
use tt_picture::{rule_by, rules_for};

/// A glyph's outline with its rules, or its fault. The fitter then serves later glyphs. Error: memory ran out.
fn try_glyph(fitter: &mut Fitter, number: u16) -> Result<TriedGlyph, AllocError>
    requires { number < fitter.old.tables.glyphs }
    ensures tried { IfOk result (λ t. t ≡ tried_glyph fitter.old number) }
    ensures ruled { IfOk result (λ t. IsRuledBody t.body) }
    ensures after { OnOk result (fitter.new ≡ after_glyph fitter.old number) }
{
    let rule = rule_by(fitter.work());
    let body = match fitter.try_fit(number)? {
        TriedOutline::Made(outline) => {
            let filled = rules_for(&outline, fitter.dropouts(&outline));
            TriedBody::Ruled(RuledOutline {
                outline,
                rule,
                filled,
            })
        }
        TriedOutline::Refused(fault) => TriedBody::Refused(fault),
    };
    Ok(TriedGlyph { number, body })
}

/// The outlines of distinct glyphs, made in order. Error: memory ran out.
pub(crate) fn try_glyphs(
    alloc: Global,
    fitter: &mut Fitter,
    numbers: &[u16],
) -> Result<Vec<TriedGlyph>, AllocError>
    requires known { All (λ n. n < fitter.old.tables.glyphs) numbers.now }
    requires differ { all_differ numbers.now ≡ true }
    ensures tried { IfOk result (λ v. v.items ≡ map (λ n. tried_glyph (fitter_for fitter.old numbers.now n) n) numbers.now) }
    ensures ruled { IfOk result (λ v. All (λ t. IsRuledBody t.body) v.items) }
    ensures after { OnOk result (fitter.new ≡ fitter_after fitter.old numbers.now) }
{
    let mut tried = Vec::with_capacity(alloc, numbers.len())?;
    for number in numbers {
        tried.push(try_glyph(fitter, *number)?)?;
    }
    Ok(tried)
}

/// Tests that no outline is refused. Error: the fault of the first that is.
pub(crate) fn test_outlines(tried: &[TriedGlyph]) -> Result<(), Fault>
    ensures sound { OnOk result ((maker : ℕ → Fitter) → AreTriedBy maker tried.now → (os : List Outline) × (outlines_by maker (tried_numbers tried.now) ≡ Ok os)) }
    ensures fault { IfErr result (λ f. (maker : ℕ → Fitter) → AreTriedBy maker tried.now → outlines_by maker (tried_numbers tried.now) ≡ Err f) }
{
    for glyph in tried {
        if let TriedBody::Refused(fault) = &glyph.body {
            return Err(*fault);
        }
    }
    Ok(())
}
