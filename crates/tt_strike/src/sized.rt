//! A face at a size: its fitter is opened once, and makes the glyphs of line after line.

ghost use Rattle.std.specs.Prelude.{◌≡◌, ◌≤◌, IfErr, IfOk};
ghost use Rattle.tt_core.specs.Limits.{size_limit};
ghost use Rattle.tt_core.specs.Outcomes.{Gives};
ghost use Rattle.tt_face.specs.Faces.{finds_advances};
ghost use Rattle.tt_strike.specs.Job.{size_tested, IsSizeRefusal};

use crate::job::test_size;
use crate::maker::Maker;
use crate::place_table::PlaceTable;
use crate::source::FitterSource;
use std::alloc::Global;
use std::marker::Model;
use tt_core::JobFault;
use tt_face::Face;
use tt_fit::Fit;
use tt_line::KnownAdvances;
use tt_picture::Glyphs;

/// A face at a size, with a fit. Clauses see these three. They do not see the fitter, the recent characters and the table
/// of places, which change no answer.
#[derive(Drop)]
pub struct SizedFace<'f, 'a> {
    pub source: FitterSource<'f, 'a>,
    pub maker: Maker<'a>,
    /// The glyphs and the advances of recent characters.
    pub known: KnownAdvances<'f, 'a>,
    /// The table of a line's places, while no line has it.
    pub table: PlaceTable,
}

impl<'f, 'a> Model for SizedFace<'f, 'a> {
    ghost use Rattle.std.specs.Prelude.{◌≡◌};
    ghost use Rattle.tt_strike.specs.Makers.{IsMaker};
    ghost use Rattle.tt_strike.specs.Strikes as strikes;

    ghost Value = { strikes.SizedFace };

    ghost view = { λ z. record { face = z.source.face.now; ppem = z.source.ppem; fit = z.source.fit } };

    ghost invariant = { λ z. IsMaker z.source.face.now z.source.ppem z.source.fit z.maker
        × (z.known ≡ strikes.advances_of z.source.face.now z.source.ppem) };
}

impl<'f, 'a> SizedFace<'f, 'a> {
    /// A face at a size in pixels per em, 1 to 300. Error: SizeRange.
    pub fn new(
        alloc: Global,
        face: &'f Face<'a>,
        ppem: u32,
        fit: Fit,
    ) -> Result<SizedFace<'f, 'a>, JobFault>
        ensures tested { Gives (λ z. tt) result (size_tested ppem) }
        ensures exact { IfOk result (λ z. z ≡ record { face = face.now; ppem = ppem; fit = fit }) }
        ensures refused { IfErr result (IsSizeRefusal ppem) }
    {
        test_size(ppem)?;
        let source = FitterSource {
            alloc,
            face,
            ppem,
            fit,
        };
        Ok(SizedFace {
            source,
            maker: Maker::Unmade,
            known: KnownAdvances::new(face.metrics(), face.cmap(), ppem),
            table: PlaceTable::new(alloc),
        })
    }

    /// Where memory comes from.
    pub fn alloc(&self) -> Global {
        self.source.alloc
    }

    /// The font's tables.
    pub fn face(&self) -> &'f Face<'a>
        ensures { result.now ≡ self.now.face }
    {
        self.source.face
    }

    /// Whether the data of glyphs give their advances: at an instance without HVAR.
    pub fn finds_advances(&self) -> bool
        ensures { result ≡ finds_advances self.now.face }
    {
        self.source.face.finds_advances()
    }

    /// The size in pixels per em.
    pub fn ppem(&self) -> u32
        ensures exact { result ≡ self.now.ppem }
        ensures some { 1 ≤ result }
        ensures limit { result ≤ size_limit }
    {
        self.source.ppem
    }

    /// How outlines are fitted.
    pub fn fit(&self) -> Fit
        ensures { result ≡ self.now.fit }
    {
        self.source.fit
    }

    /// Drops the glyphs of a line, and keeps the table of their places for later lines.
    pub fn give_back(&mut self, glyphs: Glyphs)
        ensures { self.new ≡ self.old }
    {
        let Glyphs { places, made, .. } = glyphs;
        self.table.give_back(places, &made);
    }
}
