//! Runs a glyph's program over its outline. Apple TrueType Reference Manual, "Instructing TrueType Glyphs".

ghost use Rattle.std.specs.Prelude.{◌≡◌};
ghost use Rattle.tt_exec.specs.Parts.{parts_of};
ghost use Rattle.tt_exec.specs.step.Views.{code_of};
ghost use Rattle.tt_fit_hinting.specs.GlyphZone.{program_in_glyf};
ghost use Rattle.tt_fit_hinting.specs.Hinting.{by_program, grid_by, hinted, run_of};
ghost use Rattle.tt_fit_outline.specs.Views.{outline_of};
ghost use Rattle.tt_fit_hinting.specs.Views.{hinting_view, program_view};
ghost use Rattle.tt_fit_hinting.specs.Work.{Makes, WorkGives, code_work, hinted_work, program_work};

use crate::glyph_program::GlyphProgram;
use crate::glyph_zone::{left_outline, on_grid};
use crate::outline_fault::{OutlineFault, refusal_of};
use crate::parts::{glyph_zones, without_contents};
use crate::ready_glyph::ReadyGlyph;
use std::alloc::{AllocError, Global};
use tt_core::Why;
use tt_exec::{Code, Machine, Parts, Work};
use tt_fit_outline::{Grid, GridRule, Outline, glyf_fault};

/// The machine that runs the programs of all glyphs in turn; None before the first.
pub type GlyphMachine<'a> = Option<Box<Machine<'a>>>;

/// What the font program and the control value program give to a glyph and its components.
#[derive(Drop)]
pub enum Hinting<'a> {
    /// Hinting is off: no glyph program is run.
    Off,
    /// Hinting is on: the parts of a machine for a glyph's program.
    Ready(Parts<'a>),
}

impl Hinting<'_> {
    /// The grid of a glyph and its components.
    pub fn grid(&self, rule: GridRule) -> Grid
        ensures { result ≡ grid_by rule (hinting_view self.now) }
    {
        match rule {
            GridRule::Always => Grid::Away,
            GridRule::WhereHinted => match self {
                Hinting::Off => Grid::Unrounded,
                Hinting::Ready(_) => Grid::Up,
            },
        }
    }
}

/// A machine's parts after a program. Errors: those of the program, Memory, Spent.
#[tactic(auto, unfolding(crate::specs::Hinting::run_of))]
pub fn run<'a>(
    alloc: Global,
    parts: Parts<'a>,
    code: Code<'a>,
    work: &mut Work,
) -> Result<Parts<'a>, OutlineFault>
    ensures exact { Makes parts_of result (run_of (code_of code.entry) (parts_of parts.entry)) }
    ensures work { WorkGives result work.new.left (code_work (code_of code.entry) (parts_of parts.entry) work.old.left) }
{
    let mut machine = Machine::new(alloc, parts)?;
    if let Err(fault) = machine.run_within(code, work) {
        return Err(refusal_of(fault));
    }
    match machine.into_parts() {
        Some(left) => Ok(left),
        None => unreachable!(),
    }
}

fn code_in_glyf<'a>(program: GlyphProgram<'a, '_>) -> Code<'a>
    ensures { code_of result ≡ program_in_glyf (program_view program.entry) }
{
    Code {
        table: *b"glyf",
        base: program.code_at,
        bytes: program.code,
    }
}

/// A machine for the programs of all glyphs. It copies nothing: the first glyph is put into it like each later one. Not
/// inline: a machine takes 100 kB, and each glyph's frame would have room for one.
#[inline(never)]
fn first_machine<'a>(alloc: Global, parts: &Parts<'a>) -> Result<Box<Machine<'a>>, AllocError> {
    let parts = without_contents(alloc, parts)?;
    Ok(Box::new(alloc, Machine::new(alloc, parts)?)?)
}

/// Runs the programs of glyphs. They share one machine and the job's work.
#[derive(Drop)]
pub struct Runner<'a> {
    pub alloc: Global,
    pub machine: GlyphMachine<'a>,
    /// The job's remaining work.
    pub work: Work,
}

impl<'a> Runner<'a> {
    /// The outline after a glyph's program. The machine is first begun again with the parts and the glyph. Without work
    /// for the copies nothing is copied. Errors: CoordRange of a phantom point, those of the program, Memory, Spent. Not
    /// inline: its caller does little where no program is run.
    #[inline(never)]
    #[tactic(auto, unfolding(crate::specs::Hinting::by_program, crate::specs::Work::program_work))]
    fn by_program(
        &mut self,
        machine: &mut Machine<'a>,
        parts: &Parts<'a>,
        program: GlyphProgram<'a, '_>,
        outline: Outline,
    ) -> Result<Outline, OutlineFault>
        ensures exact { Makes outline_of result (by_program (parts_of parts.now) (program_view program.entry) (outline_of outline)) }
        ensures work { WorkGives result self.new.work.left (program_work (parts_of parts.now) (program_view program.entry) (outline_of outline) self.old.work.left) }
    {
        let grid = on_grid(program.grid, program.glyph_at, &outline)?;
        let Some(mut copies) = parts.pay(&mut self.work) else {
            return Err(OutlineFault::Spent(glyf_fault(program.code_at, Why::StepLimit)));
        };
        let glyph = ReadyGlyph {
            outline: &outline,
            grid,
            units: program.units,
        };
        let room = machine.take_zones(self.alloc);
        let zones = glyph_zones(room, parts, &glyph, &mut copies)?;
        machine.begin_again(parts, zones, &mut copies)?;
        match machine.run_paid(code_in_glyf(program), copies, &mut self.work) {
            Ok(_) => Ok(left_outline(outline, machine.glyph_points(), machine.scan())?),
            Err(fault) => Err(refusal_of(fault)),
        }
    }

    /// The outline after a glyph's program, from scaled points or joined components. The machine is reused for each
    /// glyph. Errors: CoordRange of a phantom point, those of the program, Memory, Spent.
    pub fn hinted(
        &mut self,
        hinting: &Hinting<'a>,
        program: GlyphProgram<'a, '_>,
        outline: Outline,
    ) -> Result<Outline, OutlineFault>
        ensures exact { Makes outline_of result (hinted (hinting_view hinting.now) (program_view program.entry) (outline_of outline)) }
        ensures work { WorkGives result self.new.work.left (hinted_work (hinting_view hinting.now) (program_view program.entry) (outline_of outline) self.old.work.left) }
    {
        match hinting {
            Hinting::Off => Ok(outline),
            Hinting::Ready(parts) => {
                if program.code.is_empty() {
                    return Ok(outline);
                }
                let mut own = match self.machine.take() {
                    Some(own) => own,
                    None => first_machine(self.alloc, parts)?,
                };
                let made = self.by_program(own.as_mut(), parts, program, outline);
                self.machine = Some(own);
                made
            }
        }
    }
}
