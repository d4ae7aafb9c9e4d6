//! The fitter of a font at a size, opened when the first line is drawn.

ghost use Rattle.std.specs.Prelude.{◌≡◌, IfOk};
ghost use Rattle.tt_fit.specs.Fitting.{with_work};
ghost use Rattle.tt_core.specs.Outcomes.{FontGives, font_fault};
ghost use Rattle.tt_strike.specs.Defects.{IsSettingDefect, TellsDefects};
ghost use Rattle.tt_strike.specs.Makers.{IsMaker, IsSetting, job_at};
ghost use Rattle.tt_strike.specs.declared.maker.Maker.TheVariants.{Ready};
ghost use Rattle.tt_strike.specs.Picture.{setting};

use crate::programs::open_programs;
use crate::source::FitterSource;
use std::mem;
use tt_core::{Fault, FontFault};
use tt_fit::Fitter;

/// The state of a strike's fitter.
#[derive(Drop)]
pub enum Maker<'a> {
    /// Not opened yet, or dropped.
    Unmade,
    Ready(Fitter<'a>),
    /// There is no fitter, for this defect.
    Refused(Fault),
}

impl<'f, 'a> FitterSource<'f, 'a> {
    /// The fitter, at the face's instance. Errors, the first of: those of loca and glyf; TableRange of the control
    /// values and the two programs; those of running the two. Memory may come at any allocation. Not inline: only a
    /// strike's first line opens its fitter, and the frame of each line would have room for the tables.
    #[cold]
    #[inline(never)]
    #[tactic(auto, unfolding(crate::specs::Picture::setting))]
    fn open(&self) -> Result<Fitter<'a>, FontFault>
        ensures exact { FontGives (λ f. f) result (setting self.now.face.now self.now.ppem self.now.fit) }
        ensures setting { IfOk result (IsSetting self.now.face.now self.now.ppem self.now.fit) }
        ensures defects { TellsDefects font_fault (IsSettingDefect self.now.face.now (job_at self.now.ppem self.now.fit)) result }
    {
        tt_fit::laws::work_unfits();
        let glyf = self.face.glyf()?;
        let programs = open_programs(self.face, self.fit)?;
        let metrics = self.face.metrics();
        Ok(Fitter::new(
            self.alloc,
            metrics,
            glyf,
            programs,
            self.face.instance(),
            self.ppem,
            self.fit,
        )?)
    }
}

impl<'a> Maker<'a> {
    /// Takes the fitter out, and opens it first if it is missing. Errors: as `open`. A defect of the font is recorded.
    pub fn take(&mut self, source: &FitterSource<'_, 'a>) -> Result<Fitter<'a>, FontFault>
        requires maker { IsMaker source.now.face.now source.now.ppem source.now.fit self.old }
        ensures exact { FontGives (λ f. f) result (setting source.now.face.now source.now.ppem source.now.fit) }
        ensures setting { IfOk result (IsSetting source.now.face.now source.now.ppem source.now.fit) }
        ensures defects { TellsDefects font_fault (IsSettingDefect source.now.face.now (job_at source.now.ppem source.now.fit)) result }
        ensures maker { IsMaker source.now.face.now source.now.ppem source.now.fit self.new }
    {
        match mem::replace(self, Maker::Unmade) {
            Maker::Ready(fitter) => Ok(fitter),
            Maker::Refused(fault) => {
                *self = Maker::Refused(fault);
                Err(FontFault::Font(fault))
            }
            Maker::Unmade => {
                let made = source.open();
                if let Err(FontFault::Font(fault)) = &made {
                    *self = Maker::Refused(*fault);
                }
                made
            }
        }
    }

    /// Puts the fitter back for later lines, with the work that it had before this line.
    pub fn give_back(&mut self, fitter: Fitter<'a>, work: Option<u64>)
        ensures { self.new ≡ Ready (with_work fitter.entry work) }
    {
        let mut fitter = fitter;
        fitter.renew(work);
        *self = Maker::Ready(fitter);
    }
}
