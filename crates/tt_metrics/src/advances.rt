//! The advances of an instance. OpenType, "HVAR: Horizontal Metrics Variations Table".

ghost use Rattle.std.specs.Prelude.{◌≡◌, Some};
ghost use Rattle.tt_metrics.specs.Varied.{advance_by};

use std::marker::Model;
use tt_axes::InstanceCoordinates;
use tt_variation_store::Hvar;

/// HVAR, and the coordinates of an instance. Clauses see both.
#[derive(Drop)]
pub(crate) struct VariedAdvances<'a> {
    hvar: Hvar<'a>,
    coordinates: InstanceCoordinates,
}

impl<'a> Model for VariedAdvances<'a> {
    ghost use Rattle.tt_metrics.specs.Varied as varied;

    ghost Value = { varied.VariedAdvances };

    ghost view = { λ a. record { hvar = a.hvar; coordinates = a.coordinates } };
}

impl<'a> VariedAdvances<'a> {
    pub(crate) fn new(hvar: Hvar<'a>, coordinates: &InstanceCoordinates) -> VariedAdvances<'a>
        ensures { result ≡ record { hvar = hvar.entry; coordinates = coordinates.now } }
    {
        VariedAdvances {
            hvar,
            coordinates: coordinates.copy(),
        }
    }

    /// A copy. The table's bytes are not copied.
    pub(crate) fn copy(&self) -> VariedAdvances<'a>
        ensures { result ≡ self.now }
    {
        VariedAdvances {
            hvar: self.hvar.copy(),
            coordinates: self.coordinates.copy(),
        }
    }

    /// A glyph's advance at the instance, by its advance in hmtx, in font units. Apart (for the prover): `Metrics` sees
    /// no part of it.
    pub(crate) fn advance(&self, g: u16, advance: u16) -> u16
        ensures { result ≡ advance_by (Some self.now) g advance }
    {
        self.hvar.advance(g, advance, &self.coordinates)
    }
}
