//! The values of pairs at an instance. OpenType, "OpenType Layout Common Table Formats", VariationIndex tables.

ghost use Rattle.std.specs.Prelude.{◌≡◌, ◌+◌, ◌^◌, ◌<◌, ◌≤◌, IfSome, option_copied, unsigned_abs};
ghost use Rattle.tt_kern.specs.Reads.{device_reads, if_some, indexes_reads, offset_reads};
ghost use Rattle.tt_kern.specs.Variation.{device_offset, indexes_of, low_bits, no_variation, store_of, varied_advance};

use crate::kerning::tally::Tally;
use crate::words::Words;
use std::marker::Model;
use tt_axes::InstanceCoordinates;
use tt_variation_store::{DeltaSetIndex, StoreAtInstance, VariationStore};

/// The format of a VariationIndex table.
const VARIATION_INDEX: usize = 0x8000;

/// GDEF's store, and the coordinates of an instance. Without a store no value varies. Clauses see both.
#[derive(Drop)]
pub struct PairVariation<'a> {
    pub(crate) store: Option<VariationStore<'a>>,
    pub(crate) coordinates: InstanceCoordinates,
}

impl<'a> Model for PairVariation<'a> {
    ghost use Rattle.tt_kern.specs.Variation as variation;

    ghost Value = { variation.PairVariation };

    ghost view = { λ v. record { store = v.store; coordinates = v.coordinates } };
}

/// How values vary while one pair is looked up: GDEF's store, whose shares are found once for the pair, and the
/// coordinates. Clauses see the store and the coordinates.
#[derive(Drop)]
pub(crate) struct VariedPair<'s, 'a> {
    store: Option<&'s StoreAtInstance<'a>>,
    coordinates: &'s InstanceCoordinates,
}

impl<'s, 'a> Model for VariedPair<'s, 'a> {
    ghost use Rattle.std.specs.Prelude.{◌≡◌, IfSome, option_copied};
    ghost use Rattle.tt_kern.specs.Variation.{store_of};
    ghost use Rattle.tt_kern.specs.Variation as variation;

    ghost Value = { variation.PairVariation };

    ghost view = { λ v. record { store = store_of (option_copied v.store); coordinates = v.coordinates.now } };

    ghost invariant = { λ v. IfSome (option_copied v.store) (λ s. s.coordinates ≡ v.coordinates.now) };
}

fn copied<'a>(store: &Option<VariationStore<'a>>) -> Option<VariationStore<'a>>
    ensures { result ≡ store.now }
{
    match store {
        Some(store) => Some(store.copy()),
        None => None,
    }
}

/// The count of the six lowest bits that are set.
fn low_bits(format: usize) -> usize
    ensures exact { result ≡ low_bits format }
    ensures bound { result ≤ 6 }
{
    format % 2
        + format / 2 % 2
        + format / 4 % 2
        + format / 8 % 2
        + format / 16 % 2
        + format / 32 % 2
}

/// The offset of the advance's device table, in the values at an offset; 0 if there is none.
fn device_offset(table: &Words, at: usize, values: usize, reads: &mut Tally) -> usize
    requires place { at < 2 ^ 34 }
    requires values { values < 2 ^ 50 }
    requires room { reads.old + 2 < 2 ^ 32 }
    ensures exact { result ≡ device_offset table.now at values }
    ensures bound { result < 65536 }
    ensures count { reads.new ≡ reads.old + offset_reads table.now at }
    ensures few { reads.new ≤ reads.old + 2 }
{
    let format = table.word(at + 4, reads);
    if format / 64 % 2 == 1 {
        table.word(values + 2 * low_bits(format), reads)
    } else {
        0
    }
}

/// The indexes of a device table by its offset from its parent; None if it is no VariationIndex table.
fn indexes_of(
    table: &Words,
    parent: usize,
    offset: usize,
    reads: &mut Tally,
) -> Option<DeltaSetIndex>
    requires parent { parent < 2 ^ 36 }
    requires offset { offset < 65536 }
    requires room { reads.old + 3 < 2 ^ 32 }
    ensures exact { result ≡ indexes_of table.now parent offset }
    ensures count { reads.new ≡ reads.old + indexes_reads table.now parent offset }
    ensures few { reads.new ≤ reads.old + 3 }
{
    if offset == 0 {
        return None;
    }
    let device = parent + offset;
    if table.word(device + 4, reads) != VARIATION_INDEX {
        return None;
    }
    Some(DeltaSetIndex {
        outer: table.word(device, reads),
        inner: table.word(device + 2, reads),
    })
}

/// The indexes of the advance's device table, in the values at an offset of a subtable.
#[tactic(auto, unfolding(crate::specs::Reads::device_reads))]
fn indexes_in(
    table: &Words,
    at: usize,
    parent: usize,
    values: usize,
    reads: &mut Tally,
) -> Option<DeltaSetIndex>
    requires place { at < 2 ^ 34 }
    requires parent { parent < 2 ^ 36 }
    requires values { values < 2 ^ 50 }
    requires room { reads.old + 5 < 2 ^ 32 }
    ensures exact { result ≡ indexes_of table.now parent (device_offset table.now at values) }
    ensures count { reads.new ≡ reads.old + device_reads table.now at parent values }
    ensures few { reads.new ≤ reads.old + 5 }
{
    let offset = device_offset(table, at, values, reads);
    indexes_of(table, parent, offset, reads)
}

impl<'a> PairVariation<'a> {
    /// That of the font's default: no value varies.
    pub fn none() -> PairVariation<'a>
        ensures { result ≡ no_variation }
    {
        PairVariation {
            store: None,
            coordinates: InstanceCoordinates::new(),
        }
    }

    /// The variation of an instance, by GDEF's store.
    pub fn new(
        store: Option<VariationStore<'a>>,
        coordinates: &InstanceCoordinates,
    ) -> PairVariation<'a>
        ensures { result ≡ record { store = store.entry; coordinates = coordinates.now } }
    {
        PairVariation {
            store,
            coordinates: coordinates.copy(),
        }
    }

    /// A copy. The bytes are not copied.
    pub fn copy(&self) -> PairVariation<'a>
        ensures { result ≡ self.now }
    {
        PairVariation {
            store: copied(&self.store),
            coordinates: self.coordinates.copy(),
        }
    }
}

impl<'s, 'a> VariedPair<'s, 'a> {
    /// The variation of a pair.
    pub(crate) fn new(
        store: Option<&'s StoreAtInstance<'a>>,
        coordinates: &'s InstanceCoordinates,
    ) -> VariedPair<'s, 'a>
        requires { IfSome (option_copied store) (λ s. s.coordinates ≡ coordinates.now) }
        ensures { result ≡ record { store = store_of (option_copied store.entry); coordinates = coordinates.now } }
    {
        VariedPair { store, coordinates }
    }

    /// An advance at the instance, in the values at an offset of the subtable at another. Without a store no number is
    /// read.
    pub(crate) fn varied(
        &self,
        table: &Words,
        at: usize,
        parent: usize,
        values: usize,
        advance: i32,
        reads: &mut Tally,
    ) -> i32
        requires place { at < 2 ^ 34 }
        requires parent { parent < 2 ^ 36 }
        requires values { values < 2 ^ 50 }
        requires advance { unsigned_abs advance ≤ 32768 }
        requires room { reads.old + 5 < 2 ^ 32 }
        ensures exact { result ≡ varied_advance self.now table.now at parent values advance }
        ensures bound { unsigned_abs result ≤ 32768 }
        ensures count { reads.new ≡ reads.old + if_some self.now.store (device_reads table.now at parent values) }
        ensures few { reads.new ≤ reads.old + 5 }
    {
        match self.store {
            Some(store) => {
                let indexes = indexes_in(table, at, parent, values, reads);
                store.value(advance, indexes)
            }
            None => advance,
        }
    }
}
