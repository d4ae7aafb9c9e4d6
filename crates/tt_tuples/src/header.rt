//! Headers of tuples. OpenType, "OpenType Font Variations Common Table Formats".

ghost use Rattle.std.specs.Prelude.{◌≡◌, ◌+◌, ◌*◌, ◌<◌, ◌≤◌, length, IfOk};
ghost use Rattle.tt_core.specs.Outcomes.{Gives};
ghost use Rattle.tt_tuples.specs.Headers.{has, header_at, header_place, peak_at, shared_peak, sides_at, tuple_count, tuple_header_at};
ghost use Rattle.tt_tuples.specs.Views.{store_of, header_of, peak_of, sides_read, source_of, tuple_header_of};

use crate::region::{Region, RegionSides};
use crate::source::{TupleSource, TupleTable};
use crate::tuple_store::TupleStore;
use tt_axes::Share;
use tt_core::{Fault, u16_at};

const TUPLES: u16 = 4096;

const SHARED_POINT_NUMBERS: u16 = 0x8000;

const EMBEDDED_PEAK_TUPLE: u16 = 0x8000;

const INTERMEDIATE_REGION: u16 = 0x4000;

const PRIVATE_POINT_NUMBERS: u16 = 0x2000;

#[inline(always)]
fn has(word: u16, bit: u16) -> bool
    ensures { result ≡ has word bit }
{
    word & bit == bit
}

impl TupleTable {
    /// Where the header begins.
    pub(crate) fn header_place(self) -> usize
        ensures exact { result ≡ header_place self }
        ensures bound { result ≤ 4 }
    {
        match self {
            TupleTable::Gvar => 0,
            TupleTable::Cvar => 4,
        }
    }
}

/// How many tuples there are, whether they share point numbers, and where these or the tuples' data begin.
#[derive(Clone, Copy)]
pub(crate) struct TupleStoreHeader {
    pub(crate) tuples: usize,
    pub(crate) shares_points: bool,
    pub(crate) data_at: usize,
}

/// The header at a place.
#[tactic(auto, unfolding(crate::specs::Headers::header_at))]
pub(crate) fn header_at(store: &TupleStore, at: usize) -> Result<TupleStoreHeader, Fault>
    requires { at ≤ 4 }
    ensures exact { Gives header_of result (header_at (store_of store.now) at) }
    ensures few { IfOk result (λ h. h.tuples < 4096) }
    ensures data { IfOk result (λ h. h.data_at < 65536) }
    ensures room { IfOk result (λ h. at + 4 ≤ length store.now.bytes.now) }
{
    let count = store.word(at)?;
    let data_at = usize::from(store.word(at + 2)?);
    if data_at > store.bytes.len() {
        return Err(store.broken(at + 2));
    }
    Ok(TupleStoreHeader {
        tuples: usize::from(count % TUPLES),
        shares_points: has(count, SHARED_POINT_NUMBERS),
        data_at,
    })
}

/// The count of tuples in a header, 0 where the count is missing.
#[tactic(auto, unfolding(crate::specs::Headers::tuple_count))]
pub fn tuple_count(table: TupleTable, bytes: &[u8]) -> usize
    ensures exact { result ≡ tuple_count table bytes.now }
    ensures few { result < 4096 }
{
    match u16_at(bytes, table.header_place()) {
        Some(count) => usize::from(count % TUPLES),
        None => 0,
    }
}

/// A tuple's peak, and the place after it.
#[derive(Clone, Copy)]
struct Peak<'a> {
    peak: &'a [u8],
    next: usize,
}

/// A tuple's ends, and the place after them.
#[derive(Clone, Copy)]
struct PlacedSides<'a> {
    sides: Option<RegionSides<'a>>,
    next: usize,
}

/// A tuple's size, how much of it holds, whether it has point numbers of its own, and the place after its header.
#[derive(Clone, Copy)]
pub(crate) struct TupleHeader {
    pub(crate) size: usize,
    pub(crate) share: Share,
    pub(crate) own_points: bool,
    pub(crate) next: usize,
}

impl<'a> TupleSource<'a> {
    /// The bytes of a tuple's numbers, one for each axis.
    fn tuple_size(&self) -> usize
        ensures exact { result ≡ 2 * length self.now.coordinates.now }
        ensures bound { result ≤ 128 }
    {
        2 * self.coordinates.count()
    }

    /// The shared peak that an index names, for the tuple at a place.
    fn shared_peak(&self, at: usize, index: u16) -> Result<Peak<'a>, Fault>
        requires place { at + 4 ≤ length self.now.store.bytes.now }
        ensures exact { Gives peak_of result (shared_peak (source_of self.now) at index) }
        ensures next { IfOk result (λ p. p.next ≡ at + 4) }
    {
        let size = self.tuple_size();
        let from = size * usize::from(index % 4096);
        if from + size > self.shared.len() {
            return Err(self.store.broken(at + 2));
        }
        Ok(Peak {
            peak: &self.shared[from..from + size],
            next: at + 4,
        })
    }

    /// The peak of the tuple at a place.
    #[tactic(auto, unfolding(crate::specs::Headers::peak_at))]
    fn peak_at(&self, at: usize, index: u16) -> Result<Peak<'a>, Fault>
        requires place { at + 4 ≤ length self.now.store.bytes.now }
        ensures exact { Gives peak_of result (peak_at (source_of self.now) at index) }
        ensures room { IfOk result (λ p. p.next ≤ length self.now.store.bytes.now) }
    {
        if !has(index, EMBEDDED_PEAK_TUPLE) {
            return self.shared_peak(at, index);
        }
        let size = self.tuple_size();
        Ok(Peak {
            peak: self.store.slice(at + 4, size)?,
            next: at + 4 + size,
        })
    }

    /// The ends of a tuple's region, from a place on.
    #[tactic(auto, unfolding(crate::specs::Headers::sides_at))]
    fn sides_at(&self, at: usize, index: u16) -> Result<PlacedSides<'a>, Fault>
        requires place { at ≤ length self.now.store.bytes.now }
        ensures exact { Gives sides_read result (sides_at (source_of self.now) at index) }
        ensures room { IfOk result (λ s. s.next ≤ length self.now.store.bytes.now) }
    {
        if !has(index, INTERMEDIATE_REGION) {
            return Ok(PlacedSides {
                sides: None,
                next: at,
            });
        }
        let size = self.tuple_size();
        let start = self.store.slice(at, size)?;
        let end = self.store.slice(at + size, size)?;
        Ok(PlacedSides {
            sides: Some(RegionSides { start, end }),
            next: at + size + size,
        })
    }

    /// The header of the tuple at a place.
    #[tactic(auto, unfolding(crate::specs::Headers::tuple_header_at))]
    pub(crate) fn tuple_header_at(&self, at: usize) -> Result<TupleHeader, Fault>
        requires place { at ≤ length self.now.store.bytes.now }
        ensures exact { Gives tuple_header_of result (tuple_header_at (source_of self.now) at) }
        ensures bound { IfOk result (λ h. h.size < 65536) }
        ensures room { IfOk result (λ h. h.next ≤ length self.now.store.bytes.now) }
    {
        let size = self.store.word(at)?;
        let index = self.store.word(at + 2)?;
        let peak = self.peak_at(at, index)?;
        let sides = self.sides_at(peak.next, index)?;
        let region = Region {
            peak: peak.peak,
            sides: sides.sides,
        };
        Ok(TupleHeader {
            size: usize::from(size),
            share: region.share(self.coordinates),
            own_points: has(index, PRIVATE_POINT_NUMBERS),
            next: sides.next,
        })
    }
}
