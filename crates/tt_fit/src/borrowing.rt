//! A glyph's program, which borrows the units of its originals. Apart from the program's own file (for the prover), whose
//! facts the views name.

ghost use Rattle.std.specs.Prelude.{◌≡◌};
ghost use Rattle.tt_fit.specs.Views.{own_program_view};
ghost use Rattle.tt_fit_hinting.specs.Views.{program_view};

use crate::begun::OwnProgram;
use tt_fit_hinting::GlyphProgram;
use tt_fit_outline::Units;

impl<'a> OwnProgram<'a> {
    /// The program, which borrows its units.
    pub(crate) fn borrowed(&self) -> GlyphProgram<'a, '_>
        ensures { program_view result ≡ own_program_view self.now }
    {
        let units = match &self.units {
            Some(own) => Some(Units {
                points: own.points.as_slice(),
                phantom: own.phantom,
            }),
            None => None,
        };
        GlyphProgram {
            code: self.code,
            code_at: self.code_at,
            glyph_at: self.glyph_at,
            grid: self.grid,
            units,
        }
    }
}
