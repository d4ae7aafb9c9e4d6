//! What a glyph costs of a job's work, and how a glyph that need not be made anew is paid for (profile).

ghost use Rattle.std.specs.Prelude.{◌≡◌, ◌<◌, true, Option, ℕ, IfOk, IfSome, OnErr, OnOk};
ghost use Rattle.tt_core.specs.Faults.{Fault};
ghost use Rattle.tt_core.specs.Outcomes.{FontGives};
ghost use Rattle.tt_fit.specs.Fitting.{after_glyph, fitted_outline, unfitted_fault, with_work};
ghost use Rattle.tt_fit.specs.GlyphCost.{HadWork, IsMade, IsMadeFor, Pays, work_more};
ghost use Rattle.tt_fit.specs.Views.{fallback_view};
ghost use Rattle.tt_fit_outline.specs.Outline as outline;
ghost use Rattle.tt_fit_outline.specs.Views.{outline_of};

use crate::fallback::Fallback;
use crate::fitting::Fitter;
use tt_core::{Fault, FontFault, Why};
use tt_fit_hinting::Work;
use tt_fit_outline::Outline;

/// An outline with the cost of its glyph. The cost is None where the glyph may have lacked work.
#[derive(Drop)]
pub struct OutlineAtCost {
    pub outline: Outline,
    pub cost: Option<u64>,
}

/// Whether a glyph that is unfitted for this fault, or fitted, certainly had enough work.
fn had_work(fallback: Fallback, unfitted: Option<Fault>) -> bool
    ensures { result ≡ true → HadWork (fallback_view fallback) unfitted }
{
    match fallback {
        Fallback::Never | Fallback::Everywhere(_) => true,
        Fallback::WhereRefused => match unfitted {
            None => true,
            Some(fault) => !matches!(fault.why, Why::StepLimit),
        },
    }
}

/// What was used of a job's work; 0 where it is not bounded.
fn used(before: Work, after: Work) -> Option<u64>
    ensures { IfSome result (λ cost. before.left ≡ work_more cost after.left) }
{
    match (before.left, after.left) {
        (None, None) => Some(0),
        (Some(before), Some(after)) => before.checked_sub(after),
        _ => None,
    }
}

/// The cost of a glyph by the work before and after; None where the glyph may have lacked work.
fn cost_of(fallback: Fallback, unfitted: Option<Fault>, before: Work, after: Work) -> Option<u64>
    ensures had { IfSome result (λ cost. HadWork (fallback_view fallback) unfitted) }
    ensures cost { IfSome result (λ cost. before.left ≡ work_more cost after.left) }
{
    if had_work(fallback, unfitted) {
        used(before, after)
    } else {
        None
    }
}

impl<'a> Fitter<'a> {
    /// As `fit`, and gives the glyph's cost. Wherever so much of a job's work remains, the glyph is made the same, and
    /// the rest remains.
    pub fn fit_with_cost(&mut self, g: u16) -> Result<OutlineAtCost, FontFault>
        requires { g < self.old.tables.glyphs }
        ensures exact { FontGives (λ p. outline_of p.outline) result (fitted_outline self.old g) }
        ensures unfitted { IfOk result (λ p. p.outline.unfitted ≡ unfitted_fault self.old g) }
        ensures cost { IfOk result (λ p. IfSome p.cost (λ cost. IsMadeFor self.old g cost (outline_of p.outline) p.outline.unfitted)) }
        ensures after { OnOk result (self.new ≡ after_glyph self.old g) }
        ensures kept { OnErr result (self.new ≡ self.old) }
    {
        let fallback = self.fallback;
        let before = self.work;
        let outline = self.fit(g)?;
        let cost = cost_of(fallback, outline.unfitted, before, self.work);
        Ok(OutlineAtCost { outline, cost })
    }

    /// Sets the job's remaining work; None where it is not bounded. Where glyphs and charges alone changed the fitter, and
    /// this is the work before them, the fitter is again the one before them.
    pub fn renew(&mut self, left: Option<u64>)
        ensures exact { self.new ≡ with_work self.old left }
    {
        self.work = Work { left };
    }

    /// Pays the cost of a glyph that need not be made anew. False where less work remains; then nothing is paid, and the
    /// glyph has to be made.
    pub fn pay(&mut self, cost: u64) -> bool
        ensures exact { Pays cost self.old result self.new }
        // The glyph would be made so, and would leave this fitter.
        ensures made { result ≡ true → (g : ℕ) (o : outline.Outline) (reason : Option Fault) → IsMadeFor self.old g cost o reason → IsMade self.old g o reason self.new }
    {
        match self.work.left {
            None => true,
            Some(left) => match left.checked_sub(cost) {
                Some(rest) => {
                    self.work = Work::of(rest);
                    true
                }
                None => false,
            },
        }
    }
}
