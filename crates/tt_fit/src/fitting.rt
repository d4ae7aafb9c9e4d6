//! The outlines of a font at a size.

ghost use Rattle.std.specs.Prelude.{◌≡◌, ◌<◌, ◌≤◌, Err, IfOk, IfSome, OnOk, OnErr, length};
ghost use Rattle.tt_core.specs.Directory.{HasNo};
ghost use Rattle.tt_core.specs.Limits.{font_limit, size_limit};
ghost use Rattle.tt_core.specs.Outcomes.{FontGives, IfTold, font_fault};
ghost use Rattle.tt_face.specs.Programs.{program_tables};
ghost use Rattle.tt_fit.specs.Counting.{points_asked, counted};
ghost use Rattle.tt_fit.specs.Defects.{IsOutlineDefect};
ghost use Rattle.tt_fit.specs.DeltaCounting.{deltas_asked};
ghost use Rattle.tt_fit.specs.Dropouts.{dropouts_of};
ghost use Rattle.tt_fit.specs.Fallback.{where_refused};
ghost use Rattle.tt_fit.specs.Fitting.{IsFitter, with_hinting, outline_at, glyph_work, unfitted_fault, fitted_outline, after_glyph, charged_fitter};
ghost use Rattle.tt_fit.specs.Preparation.{fitter_of};
ghost use Rattle.tt_fit.specs.Tried.{IfMade, IfRefused, outcome_of};
ghost use Rattle.tt_fit_outline.specs.Views.{outline_of};
ghost use Rattle.tt_fit_hinting.specs.Views.{hinting_view};
ghost use Rattle.tt_fit_hinting.specs.Work.{RefusalLeaves, outline_fault};
ghost use Rattle.tt_metrics.specs.Metrics.{loca_format_of, glyphs_of};

use crate::counting::Counter;
use crate::delta_counting::control_deltas;
use crate::dropouts::{DropoutRules, DropoutsBy, program_rules};
use crate::fallback::{Fallback, is_program_fault};
use crate::font::{FittedFont, instance_copy};
use crate::preparation::Preparation;
use crate::programs::{Fit, ProgramsAtSize};
use crate::rules::{dropouts_by, grid_of, levels_of, rules_of};
use crate::tried::TriedOutline;
use std::alloc::{AllocError, Global};
use std::marker::Model;
use tt_core::{Fault, FontFault};
use tt_face::{FaceInstance, Programs};
use tt_fit_hinting::{GlyphMachine, Hinting, OutlineFault, Runner, Work, unbounded};
use tt_fit_outline::{GridRule, Outline, Scaling};
use tt_glyf::Glyf;
use tt_metrics::Metrics;

/// Makes the outlines of a font at an instance and a size. Clauses see the glyph data, the metrics, the instance, the
/// size, and when distances are rounded to whole pixels. They see what the font's programs gave, and which glyphs are
/// unfitted. They also see the depth limit of components, the job's remaining work, the work of control values' deltas, and
/// the source of the dropout rules. The large parts are in boxes, since each line moves the fitter.
#[derive(Drop)]
pub struct Fitter<'a> {
    pub(crate) alloc: Global,
    pub(crate) font: Box<FittedFont<'a>>,
    pub(crate) glyf: Glyf<'a>,
    pub(crate) ppem: u32,
    pub(crate) scaling: Scaling,
    pub(crate) grid: GridRule,
    pub(crate) hinting: Box<Hinting<'a>>,
    /// Reused for the program of each glyph; None before the first. Not visible to clauses.
    pub(crate) machine: GlyphMachine<'a>,
    pub(crate) fallback: Fallback,
    pub(crate) levels: u32,
    pub(crate) work: Work,
    /// The work of the deltas of control values, where work is bounded.
    pub(crate) control_deltas: u64,
    pub(crate) dropouts: DropoutsBy,
}

impl<'a> Model for Fitter<'a> {
    ghost use Rattle.tt_fit.specs.Fitting.{IsFitter};
    ghost use Rattle.tt_fit.specs.Fitting as fitting;
    ghost use Rattle.tt_fit_hinting.specs.Views.{hinting_view};
    ghost use Rattle.tt_fit.specs.Views.{fallback_view};

    ghost Value = { fitting.Fitter };

    ghost view = { λ f. record { tables = f.glyf; metrics = f.font.value.metrics; instance = f.font.value.instance; ppem = f.ppem; scaling = f.scaling; grid = f.grid; hinting = hinting_view f.hinting.value; fallback = fallback_view f.fallback; levels = f.levels; work = f.work.left; control_deltas = f.control_deltas; dropouts = f.dropouts } };

    ghost invariant = { λ f. IsFitter (record { tables = f.glyf; metrics = f.font.value.metrics; instance = f.font.value.instance; ppem = f.ppem; scaling = f.scaling; grid = f.grid; hinting = hinting_view f.hinting.value; fallback = fallback_view f.fallback; levels = f.levels; work = f.work.left; control_deltas = f.control_deltas; dropouts = f.dropouts }) };
}

impl<'a> Fitter<'a> {
    /// Takes a font's metrics, glyph data and programs, and its instance, if that is not the default. `Fit::Full` runs the
    /// font program and the control value program at this size, in pixels per em. `Fit::None` ignores them. Control values
    /// are those of the instance, whose places programs can read with `Fit::Best`. Errors: those of the two programs,
    /// Memory. With `Fit::Fallback` and `Fit::Best` a fault of the two programs makes every glyph unfitted.
    #[tactic(auto, using(crate::proofs::Hintings::is_hinting), unfolding(crate::specs::Preparation::fitter_of))]
    pub fn new(
        alloc: Global,
        metrics: &Metrics<'a>,
        glyf: Glyf<'a>,
        programs: Programs<'a>,
        instance: &Option<FaceInstance<'a>>,
        ppem: u32,
        fit: Fit,
    ) -> Result<Fitter<'a>, FontFault>
        requires low { 1 ≤ ppem }
        requires high { ppem ≤ size_limit }
        requires format { glyf.format ≡ loca_format_of metrics.now }
        requires glyphs { glyf.glyphs ≡ glyphs_of metrics.now }
        requires fpgm { length programs.fpgm.now ≤ font_limit }
        requires prep { length programs.prep.now ≤ font_limit }
        ensures exact { FontGives (λ f. f) result (fitter_of metrics.now glyf.entry (program_tables programs.entry) instance.now ppem fit) }
        ensures valid { IfOk result IsFitter }
        ensures tables { IfOk result (λ f. f.tables ≡ glyf.entry) }
        ensures metrics { IfOk result (λ f. f.metrics ≡ metrics.now) }
        ensures instance { IfOk result (λ f. f.instance ≡ instance.now) }
        ensures ppem { IfOk result (λ f. f.ppem ≡ ppem) }
    {
        let sized = ProgramsAtSize {
            metrics,
            programs,
            ppem,
            fit,
            instance,
        };
        let Preparation {
            hinting,
            fallback,
            work,
        } = sized.prepared(alloc)?;
        let font = FittedFont {
            metrics: metrics.copy(),
            instance: instance_copy(instance),
        };
        let font = Box::new(alloc, font)?;
        let hinting = Box::new(alloc, hinting)?;
        Ok(Fitter {
            alloc,
            font,
            glyf,
            ppem,
            scaling: rules_of(fit).scaling,
            grid: grid_of(fit),
            hinting,
            machine: None,
            fallback,
            levels: levels_of(fit),
            work,
            control_deltas: control_deltas(fit, instance, programs.cvt),
            dropouts: dropouts_by(fit),
        })
    }

    /// How many points a glyph has, counted before it is made. A component counts each time it is used, and each glyph
    /// counts its contours and phantom points too. None where there are more than `most`; at most `most` are counted.
    /// Error: out of memory.
    pub fn points(&self, g: u16, most: u64) -> Result<Option<u64>, AllocError>
        requires { g < self.now.tables.glyphs }
        ensures exact { IfOk result (λ n. n ≡ counted most (points_asked self.now.tables self.now.levels g)) }
    {
        let counter = Counter {
            alloc: self.alloc,
            glyf: &self.glyf,
        };
        match counter.left(self.levels, g, most)? {
            Some(left) => Ok(Some(most - left)),
            None => Ok(None),
        }
    }

    /// The work of a glyph's deltas at the instance, counted from headers before the glyph is made; 0 by the font's
    /// default. A component counts each time it is used. None where it is more than `most`. Error: out of memory.
    #[tactic(auto, unfolding(crate::specs::DeltaCounting::deltas_asked))]
    pub fn deltas(&self, g: u16, most: u64) -> Result<Option<u64>, AllocError>
        requires { g < self.now.tables.glyphs }
        ensures exact { IfOk result (λ n. n ≡ counted most (deltas_asked self.now.instance self.now.tables self.now.levels g)) }
    {
        match self.instance() {
            None => Ok(Some(0)),
            Some(instance) => match self.deltas_left(instance, g, most)? {
                Some(left) => Ok(Some(most - left)),
                None => Ok(None),
            },
        }
    }

    /// The work of the deltas of control values at the instance, where work is bounded; else 0.
    pub fn control_deltas(&self) -> u64
        ensures { result ≡ self.now.control_deltas }
    {
        self.control_deltas
    }

    /// The outline of a glyph, in 26.6 pixels. Errors: those of reading a glyph, GlyphVariation, CoordRange, ComponentDepth,
    /// MatchPoint, PointLimit, those of the programs of the glyph and its components, Memory. With `Fit::Fallback` and
    /// `Fit::Best` a program's fault is reported with the outline, whose points, also those of components, are then
    /// only scaled. `Fit::Best` does this for StepLimit too, where the programs exceed the job's remaining work.
    pub fn fitted(&self, g: u16) -> Result<Outline, FontFault>
        requires { g < self.now.tables.glyphs }
        ensures exact { FontGives outline_of result (fitted_outline self.now g) }
        ensures unfitted { IfOk result (λ o. o.unfitted ≡ unfitted_fault self.now g) }
        // Ok means that the glyph and its components have no defect; a fault names a defect they have.
        ensures sound { OnOk result (HasNo (IsOutlineDefect self.now g)) }
        ensures fault { IfTold font_fault result (IsOutlineDefect self.now g) }
    {
        let mut runner = Runner {
            alloc: self.alloc,
            machine: None,
            work: self.work,
        };
        self.fitted_within(g, &mut runner)
    }

    /// As `fitted`, and charges the work of the programs to the job, where work is bounded.
    pub fn fit(&mut self, g: u16) -> Result<Outline, FontFault>
        requires { g < self.old.tables.glyphs }
        ensures exact { FontGives outline_of result (fitted_outline self.old g) }
        ensures unfitted { IfOk result (λ o. o.unfitted ≡ unfitted_fault self.old g) }
        // Ok means that the glyph and its components have no defect; a fault names a defect they have.
        ensures sound { OnOk result (HasNo (IsOutlineDefect self.old g)) }
        ensures fault { IfTold font_fault result (IsOutlineDefect self.old g) }
        ensures after { OnOk result (self.new ≡ after_glyph self.old g) }
        ensures kept { OnErr result (self.new ≡ self.old) }
    {
        let mut runner = Runner {
            alloc: self.alloc,
            machine: self.machine.take(),
            work: self.work,
        };
        let outline = self.fitted_within(g, &mut runner)?;
        self.machine = runner.machine;
        self.work = runner.work;
        Ok(outline)
    }

    /// As `fit`, but a refused glyph is no error: its fault is the answer, and the work that its programs took is charged
    /// too. Error: out of memory.
    pub fn try_fit(&mut self, g: u16) -> Result<TriedOutline, AllocError>
        requires { g < self.old.tables.glyphs }
        ensures exact { IfOk result (λ tried. outcome_of tried ≡ fitted_outline self.old g) }
        ensures unfitted { IfOk result (λ tried. IfMade tried (λ o. o.unfitted ≡ unfitted_fault self.old g)) }
        ensures fault { IfOk result (λ tried. IfRefused tried (IsOutlineDefect self.old g)) }
        ensures after { OnOk result (self.new ≡ after_glyph self.old g) }
    {
        let mut runner = Runner {
            alloc: self.alloc,
            machine: self.machine.take(),
            work: self.work,
        };
        let made = self.fitted_within(g, &mut runner);
        let Runner { machine, work, .. } = runner;
        self.machine = machine;
        self.work = work;
        match made {
            Ok(outline) => Ok(TriedOutline::Made(outline)),
            Err(fault) => TriedOutline::refused_by(fault),
        }
    }

    /// The job's remaining work; None where it is not bounded.
    pub fn work(&self) -> Option<u64>
        ensures { result ≡ self.now.work }
    {
        self.work.left
    }

    /// Charges a cost to the job, where work is bounded. No work remains where there was less.
    pub fn charge(&mut self, cost: u64)
        ensures { self.new ≡ charged_fitter self.old cost }
    {
        if let Some(left) = self.work.left {
            self.work.left = Some(left.saturating_sub(cost));
        }
    }

    /// The rules for filling the dropouts of a glyph's outline; None where none are filled.
    pub fn dropouts(&self, outline: &Outline) -> Option<DropoutRules>
        ensures { result ≡ dropouts_of self.now outline.now.unfitted (outline_of outline.now) }
    {
        match self.dropouts {
            DropoutsBy::Nobody => None,
            DropoutsBy::Programs => match outline.unfitted {
                Some(_) => Some(DropoutRules::DEFAULT),
                None => program_rules(&self.hinting, outline.scan),
            },
        }
    }

    /// The outline of a glyph within the job's remaining work, with the fault of a program that makes it unfitted.
    #[tactic(auto, unfolding(crate::specs::Fitting::fitted_outline, crate::specs::Fitting::unfitted_fault))]
    fn fitted_within(&self, g: u16, runner: &mut Runner<'a>) -> Result<Outline, FontFault>
        requires known { g < self.now.tables.glyphs }
        requires work { runner.old.work.left ≡ self.now.work }
        ensures exact { FontGives outline_of result (fitted_outline self.now g) }
        ensures unfitted { IfOk result (λ o. o.unfitted ≡ unfitted_fault self.now g) }
        ensures left { OnOk result (runner.new.work.left ≡ (after_glyph self.now g).work) }
        ensures refused { IfTold font_fault result (λ _. runner.new.work.left ≡ (after_glyph self.now g).work) }
    {
        let hinting = self.hinting.as_ref();
        match self.fallback {
            Fallback::Never => self.marked(hinting, g, None, runner),
            Fallback::Everywhere(fault) => self.marked(&Hinting::Off, g, Some(fault), runner),
            Fallback::WhereRefused => {
                match self.outline(hinting, self.levels, g, runner) {
                    Ok(mut outline) => {
                        outline.unfitted = None;
                        Ok(outline)
                    }
                    Err(refusal) => self.refused(g, refusal, runner),
                }
            }
        }
    }

    /// After a refusal with programs: the outline without them if a program is at fault or exceeds the work, else the
    /// refusal.
    #[cold]
    #[inline(never)]
    #[tactic(auto, unfolding(crate::specs::Fitting::fitted_outline, crate::specs::Fitting::unfitted_fault))]
    fn refused(
        &self,
        g: u16,
        refusal: OutlineFault,
        runner: &mut Runner<'a>,
    ) -> Result<Outline, FontFault>
        requires known { g < self.now.tables.glyphs }
        requires fallback { self.now.fallback ≡ where_refused }
        requires work { RefusalLeaves refusal runner.old.work.left (glyph_work self.now g self.now.work) }
        requires fault { IfSome (outline_fault refusal) (λ f. outline_at (with_hinting self.now self.now.hinting) self.now.levels g ≡ Err f) }
        ensures exact { FontGives outline_of result (fitted_outline self.now g) }
        ensures unfitted { IfOk result (λ o. o.unfitted ≡ unfitted_fault self.now g) }
        ensures left { OnOk result (runner.new.work.left ≡ (after_glyph self.now g).work) }
        ensures refused { IfTold font_fault result (λ _. runner.new.work.left ≡ (after_glyph self.now g).work) }
    {
        match refusal {
            OutlineFault::Font(fault) => {
                if !is_program_fault(fault) {
                    return Err(FontFault::Font(fault));
                }
                self.marked(&Hinting::Off, g, Some(fault), runner)
            }
            OutlineFault::Memory => Err(FontFault::Memory),
            OutlineFault::Spent(over) => {
                runner.work = Work::of(0);
                self.marked(&Hinting::Off, g, Some(over), runner)
            }
        }
    }

    /// The outline of a glyph by `hinting`, marked with the fault that makes it unfitted. Work is not bounded meanwhile.
    #[inline(never)]
    fn marked(
        &self,
        hinting: &Hinting<'a>,
        g: u16,
        unfitted: Option<Fault>,
        runner: &mut Runner<'a>,
    ) -> Result<Outline, FontFault>
        requires known { g < self.now.tables.glyphs }
        ensures exact { FontGives outline_of result (outline_at (with_hinting self.now (hinting_view hinting.now)) self.now.levels g) }
        ensures unfitted { IfOk result (λ o. o.unfitted ≡ unfitted) }
        ensures left { runner.new.work.left ≡ runner.old.work.left }
    {
        let left = runner.work;
        runner.work = Work::unbounded();
        let made = self.outline(hinting, self.levels, g, runner);
        runner.work = left;
        match made {
            Ok(mut outline) => {
                outline.unfitted = unfitted;
                Ok(outline)
            }
            Err(refusal) => Err(unbounded(refusal)),
        }
    }
}
