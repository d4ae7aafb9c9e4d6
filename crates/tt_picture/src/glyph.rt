//! A distinct glyph of some lines: its pixels at pen 0, made once however often it appears.

ghost use Rattle.std.specs.Prelude.{◌≡◌, ◌+◌, IfNone, IfOk, IfSome, Some, None};
ghost use Rattle.tt_bitmap.specs.Inks.{IsNear};
ghost use Rattle.tt_fit.specs.Fitting.{Fitter};
ghost use Rattle.tt_picture.specs.Fitted as fitted;
ghost use Rattle.tt_picture.specs.Fitted.{IsFitted};
ghost use Rattle.tt_picture.specs.Glyphs.{IsDrawn, body_ink};
ghost use Rattle.tt_picture.specs.Ink.{filled_ink, ink_by};
ghost use Rattle.tt_picture.specs.Shapes.{filling_crossings};
ghost use Rattle.tt_picture.specs.Views.{facts_of};
ghost use Rattle.tt_scan.specs.Contours.{contours_at};
ghost use Rattle.tt_scan_dropouts.specs.Counted.{edges_counted};

use crate::cutting::tape_crossings;
use crate::report::Unfitted;
use std::alloc::{AllocError, Global};
use std::marker::Model;
use std::rc::Rc;
use tt_bitmap::LeastBox;
use tt_scan::Tape;
use tt_scan_dropouts::BoxedRules;
use tt_scan_ink::{dropouts_ink, edges_ink};
use tt_strike_kept::{CutGlyph, GlyphFacts, KeptGlyph};

/// The edges of a glyph whose bitmap would take too many bytes. Its pixels are cut from them when it is painted.
#[derive(Drop)]
pub(crate) struct LargeGlyph {
    /// Its edges at pen 0, of which no row was cut. The tape's frame does not matter.
    pub(crate) tape: Tape,
    /// The number of edges up to the end of each contour; empty where no dropouts are filled.
    pub(crate) ends: Vec<usize>,
    /// The rules for filling its dropouts, with its box at pen 0.
    pub(crate) filled: Option<BoxedRules>,
}

impl Model for LargeGlyph {
    ghost use Rattle.std.specs.Prelude.{◌≡◌};
    ghost use Rattle.tt_picture.specs.Glyphs as glyphs;

    ghost Value = { glyphs.LargeGlyph };

    ghost view = { λ g. record { edges = g.tape.edges; ends = g.ends.items; filled = g.filled } };

    ghost invariant = { λ g. glyphs.CanBeCut (record { edges = g.tape.edges; ends = g.ends.items; filled = g.filled }) × (g.tape.crosses ≡ 0) };
}

impl LargeGlyph {
    /// The crossings of the glyph at one pen, in a picture and outside. Where dropouts are filled, the search for them
    /// counts too.
    pub(crate) fn crossings(&self) -> u64
        ensures { result ≡ edges_counted self.now.edges + filling_crossings self.now.filled self.now.edges }
    {
        tape_crossings(&self.tape, self.filled)
    }

    /// The least box of the dropouts at pen 0, if they are filled. Error: Memory.
    fn filled_ink(&self, alloc: Global) -> Result<Option<LeastBox>, AllocError>
        ensures exact { IfOk result (λ ink. ink ≡ filled_ink self.now.filled (contours_at self.now.edges self.now.ends)) }
        ensures near { IfOk result (λ ink. IfSome ink IsNear) }
    {
        match self.filled {
            Some(rules) => dropouts_ink(alloc, rules, &self.tape, &self.ends),
            None => Ok(None),
        }
    }

    /// The least box of the black pixels at pen 0. Error: Memory.
    fn ink(&self, alloc: Global) -> Result<Option<LeastBox>, AllocError>
        ensures exact { IfOk result (λ ink. ink ≡ ink_by self.now.edges (contours_at self.now.edges self.now.ends) self.now.filled) }
        ensures near { IfOk result (λ ink. IfSome ink IsNear) }
    {
        let filled = self.filled_ink(alloc)?;
        let edges = edges_ink(alloc, self.tape.copied()?.into_list())?;
        Ok(tt_bitmap::joined(edges, filled))
    }
}

/// A glyph that is not cut, and its facts.
#[derive(Drop)]
pub(crate) struct UncutGlyph {
    pub(crate) large: LargeGlyph,
    pub(crate) facts: GlyphFacts,
}

/// The pixels of a glyph at pen 0, and its facts. Both are behind a pointer: glyphs are moved often.
#[derive(Drop)]
pub(crate) enum GlyphBody {
    /// Cut into a bitmap. The glyph may have other owners.
    Small(Rc<CutGlyph>),
    /// Not cut.
    Large(Box<UncutGlyph>),
}

impl GlyphBody {
    /// The facts of the glyph beside its pixels.
    #[inline(always)]
    fn facts(&self) -> GlyphFacts
        ensures { result ≡ facts_of self.now }
    {
        match self {
            GlyphBody::Small(cut) => cut.facts,
            GlyphBody::Large(uncut) => uncut.facts,
        }
    }
}

/// A glyph by its number in the font, with its pixels.
#[derive(Drop)]
pub struct Glyph {
    pub(crate) number: u16,
    pub(crate) body: GlyphBody,
}

impl Model for Glyph {
    ghost use Rattle.tt_picture.specs.Glyphs as glyphs;
    ghost use Rattle.tt_picture.specs.Views.{glyph_view};

    ghost Value = { glyphs.Glyph };

    ghost view = { λ g. glyph_view g.number g.body };
}

impl Glyph {
    /// A glyph from the cache.
    pub(crate) fn cached(number: u16, kept: KeptGlyph) -> Glyph
        ensures number { result.number ≡ number }
        ensures chords { result.chords ≡ kept.chords }
        ensures crossings { result.crossings ≡ kept.crossings }
        ensures valid { (s : Fitter) → IsFitted s (record { number = number; body = fitted.kept kept }) → IsDrawn s result }
    {
        let KeptGlyph { cut, .. } = kept;
        Glyph {
            number,
            body: GlyphBody::Small(cut),
        }
    }

    /// The report of the glyph, if its outline is not fitted.
    pub(crate) fn unfitted(&self) -> Option<Unfitted>
        ensures none { IfNone result (self.now.unfitted ≡ None) }
        ensures some { IfSome result (λ u. (self.now.unfitted ≡ Some u.fault) × (u.glyph ≡ self.now.number)) }
    {
        match self.body.facts().unfitted {
            Some(fault) => Some(Unfitted {
                glyph: self.number,
                fault,
            }),
            None => None,
        }
    }

    /// The bytes of its bitmap; 0 where there is none.
    pub(crate) fn bytes(&self) -> usize {
        match &self.body {
            GlyphBody::Small(cut) => cut.bitmap.bytes(),
            GlyphBody::Large(_) => 0,
        }
    }

    /// The least box of its black pixels at pen 0; None where it is blank. Error: Memory.
    pub(crate) fn ink(&self, alloc: Global) -> Result<Option<LeastBox>, AllocError>
        ensures exact { IfOk result (λ ink. ink ≡ body_ink self.now.body) }
        ensures near { IfOk result (λ ink. IfSome ink IsNear) }
    {
        match &self.body {
            GlyphBody::Small(cut) => Ok(cut.ink),
            GlyphBody::Large(uncut) => uncut.large.ink(alloc),
        }
    }

    /// The number of its chords and straight edges.
    pub(crate) fn chords(&self) -> usize
        ensures { result ≡ self.now.chords }
    {
        self.body.facts().chords
    }

    /// Its crossings at one pen, in a picture and outside, with the search for dropouts.
    pub(crate) fn crossings(&self) -> u64
        ensures { result ≡ self.now.crossings }
    {
        self.body.facts().crossings
    }

    /// Its number in the font.
    pub fn number(&self) -> u16
        ensures { result ≡ self.now.number }
    {
        self.number
    }

    /// The distance of its advance's two ends, in 26.6 pixels.
    pub fn advance_left(&self) -> i32
        ensures { result ≡ self.now.advance_left }
    {
        self.body.facts().advance_left
    }
}
