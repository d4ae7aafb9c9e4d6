//! Runs the font program and the control value program before the first glyph. Apple TrueType Reference Manual,
//! "Instructing TrueType Glyphs".

ghost use Rattle.std.specs.Prelude.{◌≡◌, ◌≤◌, length, IfOk, IsTrue, Ok};
ghost use Rattle.tt_core.specs.Faults.{is_ascii};
ghost use Rattle.tt_core.specs.Limits.{font_limit};
ghost use Rattle.tt_core.specs.Outcomes.{FontGives};
ghost use Rattle.tt_core.specs.Scales.{IsScale};
ghost use Rattle.tt_metrics.specs.Metrics.{units_per_em_of};
ghost use Rattle.tt_fit_hinting.specs.machine.Parts.{parts_of};
ghost use Rattle.tt_fit_hinting.specs.step.Views.{code_of};
ghost use Rattle.tt_face.specs.Programs.{program_tables};
ghost use Rattle.tt_fit.specs.Preparation.{default_parts, hinting_left, left_by_programs, programs_work, without_fallback, within_work, begun_at, left_at, work_from, work_at, prepared};
ghost use Rattle.tt_fit.specs.Fallback.{everywhere};
ghost use Rattle.tt_fit_hinting.specs.Hinting.{off};
ghost use Rattle.tt_fit.specs.Rules.{rules_of, work_of};
ghost use Rattle.tt_fit_hinting.specs.Views.{hinting_view};
ghost use Rattle.tt_fit.specs.Views.{preparation_view};
ghost use Rattle.tt_fit_hinting.specs.Work.{Makes, WorkGives};
ghost use Rattle.tt_fit_outline.specs.Size.{size_by};

use crate::control_values::{cvar_read, instance_control_values, places_of};
use crate::fallback::Fallback;
use crate::programs::{Fit, ProgramsAtSize};
use crate::rules::{cvt_read, instance_read, rules_of, runs_programs, work_of};
use std::alloc::{AllocError, Global};
use std::mem::swap;
use tt_core::{Fault, FontFault, Scale};
use tt_fit_hinting::{
    Code, Hinting, OutlineFault, Parts, Work, begun_parts, left_to_glyphs, run, unbounded,
};
use tt_fit_outline::FontSize;

/// The state for glyph programs, which glyphs are unfitted, and the job's remaining work.
#[derive(Drop)]
pub(crate) struct Preparation<'a> {
    pub(crate) hinting: Hinting<'a>,
    pub(crate) fallback: Fallback,
    pub(crate) work: Work,
}

/// The program of a table without other contents.
fn whole_table<'a>(table: [u8; 4], bytes: &'a [u8]) -> Code<'a>
    requires ascii { IsTrue (is_ascii table) }
    requires fits { length bytes.now ≤ font_limit }
    ensures { code_of result ≡ record { table = table; base = 0; bytes = bytes.now } }
{
    Code {
        table,
        base: 0,
        bytes,
    }
}

/// What the control value program gives to the glyphs: nothing where it switched glyph programs off.
fn hinting_left<'a>(left: Parts<'a>) -> Hinting<'a>
    ensures { hinting_view result ≡ hinting_left (parts_of left.entry) }
{
    if left.skip_glyphs {
        return Hinting::Off;
    }
    Hinting::Ready(left_to_glyphs(left))
}

/// No glyph is unfitted.
fn without_fallback<'a>(hinting: Hinting<'a>) -> Preparation<'a>
    ensures { preparation_view result ≡ without_fallback (hinting_view hinting.entry) }
{
    Preparation {
        hinting,
        fallback: Fallback::Never,
        work: Work::unbounded(),
    }
}

/// Every glyph is unfitted, for this fault.
fn all_unfitted<'a>(fault: Fault, work: Work) -> Preparation<'a>
    ensures { preparation_view result ≡ record { hinting = off; fallback = everywhere fault; work = work.left } }
{
    Preparation {
        hinting: Hinting::Off,
        fallback: Fallback::Everywhere(fault),
        work,
    }
}

impl<'a> ProgramsAtSize<'_, 'a> {
    /// The scale of control values.
    fn control_scale(&self) -> Scale
        ensures exact { result ≡ (size_by (rules_of self.now.fit).scaling self.now.ppem (units_per_em_of self.now.metrics.now)).control_values }
        ensures valid { IsScale result }
    {
        FontSize::of(self.metrics, self.ppem, rules_of(self.fit).scaling).control_values
    }

    /// The parts by the font's default, at the places that programs can read. Error: out of memory.
    fn default_parts(&self, alloc: Global, cvt: &[u8]) -> Result<Parts<'a>, AllocError>
        ensures { IfOk result (λ p. parts_of p ≡ default_parts self.now.metrics.now cvt.now self.now.instance.now self.now.ppem self.now.fit) }
    {
        let rules = rules_of(self.fit);
        let places = instance_read(self.fit, places_of(self.instance));
        begun_parts(alloc, self.metrics, cvt, self.ppem, rules, places)
    }

    /// The parts at the start of the two programs. Error: out of memory.
    fn begun(&self, alloc: Global) -> Result<Parts<'a>, AllocError>
        ensures { IfOk result (λ p. parts_of p ≡ begun_at self.now.metrics.now (program_tables self.now.programs) self.now.instance.now self.now.ppem self.now.fit) }
    {
        let cvt = cvt_read(self.fit, self.programs.cvt);
        let mut parts = self.default_parts(alloc, cvt)?;
        if let Some(own) = self.instance {
            let cvar = cvar_read(self.fit, own, cvt);
            parts.cvt = instance_control_values(alloc, own, self.control_scale(), cvar, cvt)?;
        }
        Ok(parts)
    }

    /// The state after both programs. Errors: theirs, Memory, Spent.
    #[tactic(auto, unfolding(crate::specs::Preparation::left_by_programs, crate::specs::Preparation::programs_work))]
    fn left_by_programs(&self, alloc: Global, work: &mut Work) -> Result<Hinting<'a>, OutlineFault>
        ensures exact { let tables = program_tables self.now.programs in
            Makes hinting_view result (left_by_programs (begun_at self.now.metrics.now tables self.now.instance.now self.now.ppem self.now.fit) tables) }
        ensures work { let tables = program_tables self.now.programs in
            WorkGives result work.new.left (programs_work (begun_at self.now.metrics.now tables self.now.instance.now self.now.ppem self.now.fit) tables work.old.left) }
    {
        let begun = self.begun(alloc)?;
        let fpgm = whole_table(*b"fpgm", self.programs.fpgm);
        let mut font = run(alloc, begun, fpgm, work)?;
        let mut prep_parts = self.begun(alloc)?;
        swap(&mut prep_parts.functions, &mut font.functions);
        swap(&mut prep_parts.instructions, &mut font.instructions);
        let prep = whole_table(*b"prep", self.programs.prep);
        let left = run(alloc, prep_parts, prep, work)?;
        Ok(hinting_left(left))
    }

    /// The state after both programs, where they are run. Errors: theirs, Memory, Spent.
    fn left(&self, alloc: Global, work: &mut Work) -> Result<Hinting<'a>, OutlineFault>
        ensures exact { Makes hinting_view result (left_at self.now.metrics.now (program_tables self.now.programs) self.now.instance.now self.now.ppem self.now.fit) }
        ensures work { WorkGives result work.new.left (work_from self.now.metrics.now (program_tables self.now.programs) self.now.instance.now self.now.ppem self.now.fit work.old.left) }
    {
        if runs_programs(self.fit, self.programs) {
            self.left_by_programs(alloc, work)
        } else {
            Ok(Hinting::Off)
        }
    }

    /// The state after both programs. After a fault of either, every glyph is unfitted. Error: Memory.
    fn with_fallback(&self, alloc: Global) -> Result<Preparation<'a>, FontFault>
        ensures exact { let tables = program_tables self.now.programs in
            FontGives preparation_view result (Ok (within_work (work_at self.now.metrics.now tables self.now.instance.now self.now.ppem self.now.fit) (left_at self.now.metrics.now tables self.now.instance.now self.now.ppem self.now.fit))) }
    {
        let mut work = work_of(self.fit);
        match self.left(alloc, &mut work) {
            Ok(hinting) => Ok(Preparation {
                hinting,
                fallback: Fallback::WhereRefused,
                work,
            }),
            Err(refusal) => match refusal {
                OutlineFault::Font(fault) => Ok(all_unfitted(fault, work)),
                OutlineFault::Memory => Err(FontFault::Memory),
                OutlineFault::Spent(fault) => Ok(all_unfitted(fault, Work::of(0))),
            },
        }
    }

    /// The preparation for the glyphs at this size. Errors: those of the programs, except with `Fit::Fallback` and
    /// `Fit::Best`; Memory.
    #[tactic(auto, unfolding(crate::specs::Preparation::prepared))]
    pub(crate) fn prepared(&self, alloc: Global) -> Result<Preparation<'a>, FontFault>
        ensures exact { FontGives preparation_view result (prepared self.now.metrics.now (program_tables self.now.programs) self.now.instance.now self.now.ppem self.now.fit) }
    {
        match self.fit {
            Fit::Full => {
                let mut work = Work::unbounded();
                match self.left(alloc, &mut work) {
                    Ok(hinting) => Ok(without_fallback(hinting)),
                    Err(refusal) => Err(unbounded(refusal)),
                }
            }
            Fit::None => Ok(without_fallback(Hinting::Off)),
            Fit::Fallback | Fit::Best => self.with_fallback(alloc),
        }
    }
}
