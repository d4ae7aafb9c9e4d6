//! The kerning of two neighbouring glyphs.

ghost use Rattle.std.specs.Prelude.{◌≡◌, ◌+◌, ◌^◌, ◌<◌, ◌≤◌, length, IfSome, Some, option_copied, unsigned_abs};
ghost use Rattle.tt_core.specs.Limits.{font_limit};
ghost use Rattle.tt_kern.specs.Kerning.{kerning};
ghost use Rattle.tt_kern.specs.Listed.{pairs_of, sum_from};
ghost use Rattle.tt_kern.specs.Reads.{opening_reads, reads_from, reads_of};
ghost use Rattle.tt_kern.specs.Variation.{no_variation, store_of};

pub(crate) mod tally;

use crate::feature::feature_of;
use crate::kern_table::kern_sum;
use crate::kerning::tally::Tally;
use crate::pair::GlyphPair;
use crate::pairs::list::PairList;
use crate::pairs::pairs_of;
use crate::sum::pair_sum;
use crate::variation::{PairVariation, VariedPair};
use crate::words::Words;
use std::marker::Model;
use tt_variation_store::{StoreAtInstance, VariationStore};

/// The kerning of two neighbouring glyphs.
#[derive(Clone, Copy)]
pub struct PairKerning {
    /// How much farther the second glyph stands, in font units.
    pub value: i32,
    /// The count of numbers that were read from GPOS or kern.
    pub reads: u32,
}

/// The tables GPOS and kern of a font, GPOS's pair subtables, which are found once, and how GPOS's values vary. Clauses see
/// the bytes of both tables and the variation.
#[derive(Drop)]
pub struct Kerning<'a> {
    gpos: Words<'a>,
    kern: Words<'a>,
    feature: Option<usize>,
    pairs: PairList,
    reads: u32,
    variation: PairVariation<'a>,
}

impl<'a> Model for Kerning<'a> {
    ghost use Rattle.std.specs.Prelude.{◌≡◌, ◌<◌, ◌≤◌, length};
    ghost use Rattle.tt_core.specs.Limits.{font_limit};
    ghost use Rattle.tt_kern.specs.Feature.{feature_of};
    ghost use Rattle.tt_kern.specs.Kerning.{Tables};
    ghost use Rattle.tt_kern.specs.Listed.{pairs_of};
    ghost use Rattle.tt_kern.specs.Reads.{opening_reads};

    ghost Value = { Tables };

    ghost view = { λ k. record { gpos = k.gpos; kern = k.kern; variation = k.variation } };

    ghost invariant = { λ k. (k.feature ≡ feature_of k.gpos) × (k.pairs ≡ pairs_of k.gpos)
        × (length k.kern ≤ font_limit) × (k.reads ≡ opening_reads k.gpos) × (k.reads < 10000) };
}

impl<'a> Kerning<'a> {
    /// Opens both tables, and finds the pair subtables of GPOS. A table that a font lacks is an empty slice; so is a
    /// table whose record passes the file's end (profile). No defect of either table is an error, and no value varies.
    /// `reads` is the count of numbers read.
    pub fn open(gpos: &'a [u8], kern: &'a [u8]) -> Kerning<'a>
        requires gpos { length gpos.now ≤ font_limit }
        requires kern { length kern.now ≤ font_limit }
        ensures exact { result ≡ record { gpos = gpos.now; kern = kern.now; variation = no_variation } }
    {
        let gpos = Words::new(gpos);
        let kern = Words::new(kern);
        let mut reads = Tally::none();
        let feature = feature_of(&gpos, &mut reads);
        let pairs = pairs_of(&gpos, feature, &mut reads);
        Kerning {
            gpos,
            kern,
            feature,
            pairs,
            reads: reads.count(),
            variation: PairVariation::none(),
        }
    }

    /// Varies GPOS's values by a variation from now on. The table kern does not vary.
    pub fn set_variation(&mut self, variation: PairVariation<'a>)
        ensures { self.new ≡ record self.old { variation = variation.entry } }
    {
        self.variation = variation;
    }

    /// A copy, with the pair subtables that were found. The tables' bytes are not copied, and no number is read.
    pub fn copy(&self) -> Kerning<'a>
        ensures { result ≡ self.now }
    {
        Kerning {
            gpos: self.gpos.copy(),
            kern: self.kern.copy(),
            feature: self.feature,
            pairs: self.pairs.copy(),
            reads: self.reads,
            variation: self.variation.copy(),
        }
    }

    /// The count of numbers that `open` read from GPOS.
    pub fn reads(&self) -> u32
        ensures count { result ≡ opening_reads self.now.gpos }
        ensures few { result < 10000 }
    {
        self.reads
    }

    /// The value by GPOS, with GDEF's store at the instance where there is one.
    fn sum_with(
        &self,
        glyphs: GlyphPair,
        store: Option<&StoreAtInstance<'a>>,
        reads: &mut Tally,
    ) -> i32
        requires room { reads.old + 5120 < 2 ^ 32 }
        requires store { store_of (option_copied store) ≡ self.now.variation.store }
        requires coordinates { IfSome (option_copied store) (λ s. s.coordinates ≡ self.now.variation.coordinates) }
        ensures exact { result ≡ sum_from self.now.variation self.now.gpos glyphs.left glyphs.right 0 (pairs_of self.now.gpos) }
        ensures bound { unsigned_abs result ≤ 2 ^ 20 }
        ensures count { reads.new ≡ reads.old + reads_from self.now.variation self.now.gpos glyphs.left glyphs.right 0 (pairs_of self.now.gpos) }
        ensures few { reads.new ≤ reads.old + 5120 }
    {
        let variation = VariedPair::new(store, &self.variation.coordinates);
        pair_sum(&self.gpos, &self.pairs, glyphs, &variation, reads)
    }

    /// The value by GPOS at an instance. The shares of the store's regions are found once for the pair.
    fn varied_sum(&self, glyphs: GlyphPair, store: &VariationStore<'a>, reads: &mut Tally) -> i32
        requires room { reads.old + 5120 < 2 ^ 32 }
        requires store { Some store.now ≡ self.now.variation.store }
        ensures exact { result ≡ sum_from self.now.variation self.now.gpos glyphs.left glyphs.right 0 (pairs_of self.now.gpos) }
        ensures bound { unsigned_abs result ≤ 2 ^ 20 }
        ensures count { reads.new ≡ reads.old + reads_from self.now.variation self.now.gpos glyphs.left glyphs.right 0 (pairs_of self.now.gpos) }
        ensures few { reads.new ≤ reads.old + 5120 }
    {
        let kept = StoreAtInstance::new(store.copy(), &self.variation.coordinates);
        self.sum_with(glyphs, Some(&kept), reads)
    }

    /// The value by GPOS.
    fn gpos_value(&self, glyphs: GlyphPair, reads: &mut Tally) -> i32
        requires { reads.old + 5120 < 2 ^ 32 }
        ensures exact { result ≡ sum_from self.now.variation self.now.gpos glyphs.left glyphs.right 0 (pairs_of self.now.gpos) }
        ensures bound { unsigned_abs result ≤ 2 ^ 20 }
        ensures count { reads.new ≡ reads.old + reads_from self.now.variation self.now.gpos glyphs.left glyphs.right 0 (pairs_of self.now.gpos) }
        ensures few { reads.new ≤ reads.old + 5120 }
    {
        match &self.variation.store {
            Some(store) => self.varied_sum(glyphs, store, reads),
            None => self.sum_with(glyphs, None, reads),
        }
    }

    fn value(&self, left: u16, right: u16, reads: &mut Tally) -> i32
        requires { reads.old + 5120 < 2 ^ 32 }
        ensures exact { result ≡ kerning self.now left right }
        ensures bound { unsigned_abs result ≤ 2 ^ 20 }
        ensures count { reads.new ≡ reads.old + reads_of self.now left right }
        ensures few { reads.new ≤ reads.old + 5120 }
    {
        let glyphs = GlyphPair { left, right };
        match self.feature {
            Some(_) => self.gpos_value(glyphs, reads),
            None => kern_sum(&self.kern, glyphs, reads),
        }
    }

    /// The kerning of two neighbouring glyphs, and the count of numbers that were read.
    pub fn look_up(&self, left: u16, right: u16) -> PairKerning
        ensures exact { result.value ≡ kerning self.now left right }
        ensures bound { unsigned_abs result.value ≤ 2 ^ 20 }
        ensures count { result.reads ≡ reads_of self.now left right }
        ensures few { result.reads ≤ 5120 }
    {
        let mut reads = Tally::none();
        let value = self.value(left, right, &mut reads);
        PairKerning {
            value,
            reads: reads.count(),
        }
    }

    /// The kerning of two neighbouring glyphs, in font units: how much farther the second stands. `look_up` also has
    /// the count of numbers read.
    pub fn kerning(&self, left: u16, right: u16) -> i32
        ensures exact { result ≡ kerning self.now left right }
        ensures bound { unsigned_abs result ≤ 2 ^ 20 }
    {
        self.look_up(left, right).value
    }
}
