//! An outline with what its edges and its dropouts are made by.

use std::marker::Model;
use tt_arc::ChordRule;
use tt_core::Fault;
use tt_fit::Outline;
use tt_scan_dropouts::BoxedRules;

/// An outline with its chord rule and the rules for filling its dropouts.
#[derive(Drop)]
pub(crate) struct RuledOutline {
    pub(crate) outline: Outline,
    pub(crate) rule: ChordRule,
    pub(crate) filled: Option<BoxedRules>,
}

impl Model for RuledOutline {
    ghost use Rattle.tt_fit.specs.outline.Views.{outline_of};
    ghost use Rattle.tt_glyphs.specs.Ruled as ruled;

    ghost Value = { ruled.RuledOutline };

    ghost view = { λ m. record { outline = outline_of m.outline; rule = m.rule; filled = m.filled; unfitted = m.outline.unfitted } };
}

/// An outline, or the fault that refuses it.
#[derive(Drop)]
pub(crate) enum TriedBody {
    Ruled(RuledOutline),
    Refused(Fault),
}

/// A glyph with its outline, or with the fault that refuses the outline.
#[derive(Drop)]
pub(crate) struct TriedGlyph {
    pub(crate) number: u16,
    pub(crate) body: TriedBody,
}
