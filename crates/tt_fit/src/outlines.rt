//! The outline of a glyph with its components, by the state after the font's programs. OpenType, "The 'glyf' table".

ghost use Rattle.std.specs.Prelude.{◌≡◌, ◌<◌, All};
ghost use Rattle.tt_glyf.specs.Meaning.{HasArguments};
ghost use Rattle.tt_fit.specs.Fitting.{added, added_work, finished, finished_work, joined, outline_at, outline_work, with_hinting};
ghost use Rattle.tt_fit.specs.Views.{begun_view};
ghost use Rattle.tt_fit.specs.Work.{joined_work};
ghost use Rattle.tt_fit_hinting.specs.Views.{hinting_view};
ghost use Rattle.tt_fit_hinting.specs.Work.{Makes, WorkGives};
ghost use Rattle.tt_fit_outline.specs.Views.{outline_of};

use crate::begun::Begun;
use crate::fitting::Fitter;
use tt_core::Why;
use tt_fit_hinting::{Hinting, OutlineFault, Runner};
use tt_fit_outline::{Outline, glyf_fault, placed};
use tt_glyf::Record;

impl<'a> Fitter<'a> {
    /// The outline of a glyph, with this many levels of components allowed below it.
    #[cycle(outlines)]
    pub(crate) fn outline(
        &self,
        hinting: &Hinting<'a>,
        levels: u32,
        g: u16,
        runner: &mut Runner<'a>,
    ) -> Result<Outline, OutlineFault>
        requires known { g < self.now.tables.glyphs }
        ensures exact { Makes outline_of result (outline_at (with_hinting self.now (hinting_view hinting.now)) levels g) }
        ensures work { WorkGives result runner.new.work.left (outline_work (with_hinting self.now (hinting_view hinting.now)) levels g runner.old.work.left) }
    {
        let raw = self.glyf.read(self.alloc, g)?;
        let begun = self.begun(hinting, g, raw)?;
        self.finished(hinting, levels, begun, runner)
    }

    /// The outline of a glyph that is begun: its components are added, and its program is run.
    #[cycle(outlines)]
    fn finished(
        &self,
        hinting: &Hinting<'a>,
        levels: u32,
        begun: Begun<'a>,
        runner: &mut Runner<'a>,
    ) -> Result<Outline, OutlineFault>
        requires known { All (λ r. r.glyph < self.now.tables.glyphs) begun.records.items }
        ensures exact { Makes outline_of result (finished (with_hinting self.now (hinting_view hinting.now)) (added (with_hinting self.now (hinting_view hinting.now)) levels) (begun_view begun.entry)) }
        ensures work { WorkGives result runner.new.work.left (finished_work (with_hinting self.now (hinting_view hinting.now)) (added (with_hinting self.now (hinting_view hinting.now)) levels) (added_work (with_hinting self.now (hinting_view hinting.now)) levels) (begun_view begun.entry) runner.old.work.left) }
    {
        let Begun {
            outline,
            records,
            program,
        } = begun;
        let joined = self.joined(hinting, levels, records.as_slice(), outline, runner)?;
        runner.hinted(hinting, program.borrowed(), joined)
    }

    /// Adds each record in order to the outline so far.
    #[cycle(outlines)]
    fn joined(
        &self,
        hinting: &Hinting<'a>,
        levels: u32,
        records: &[Record],
        start: Outline,
        runner: &mut Runner<'a>,
    ) -> Result<Outline, OutlineFault>
        requires known { All (λ r. r.glyph < self.now.tables.glyphs) records.now }
        requires arguments { All HasArguments records.now }
        ensures exact { Makes outline_of result (joined (added (with_hinting self.now (hinting_view hinting.now)) levels) records.now (outline_of start)) }
        ensures work { WorkGives result runner.new.work.left (joined_work (added (with_hinting self.now (hinting_view hinting.now)) levels) (added_work (with_hinting self.now (hinting_view hinting.now)) levels) records.now (outline_of start) runner.old.work.left) }
    {
        let mut so_far = start;
        for part in records {
            so_far = self.added(hinting, levels, *part, so_far, runner)?;
        }
        Ok(so_far)
    }

    /// Adds one record: makes its component's outline, places it, and drops it.
    #[cycle(outlines)]
    #[tactic(auto, using(crate::proofs::Levels::one_level, crate::proofs::Levels::one_level_work), unfolding(crate::specs::Fitting::added, crate::specs::Fitting::added_work))]
    fn added(
        &self,
        hinting: &Hinting<'a>,
        levels: u32,
        part: Record,
        so_far: Outline,
        runner: &mut Runner<'a>,
    ) -> Result<Outline, OutlineFault>
        requires known { part.glyph < self.now.tables.glyphs }
        requires arguments { HasArguments part }
        ensures exact { Makes outline_of result (added (with_hinting self.now (hinting_view hinting.now)) levels part (outline_of so_far)) }
        ensures work { WorkGives result runner.new.work.left (added_work (with_hinting self.now (hinting_view hinting.now)) levels part runner.old.work.left) }
    {
        if levels == 0 {
            return Err(OutlineFault::Font(glyf_fault(part.at, Why::ComponentDepth)));
        }
        let component = self.outline(hinting, levels - 1, part.glyph, runner)?;
        let grid = self.glyph_grid(hinting);
        Ok(placed(grid, self.size(), part, &component, so_far)?)
    }
}
