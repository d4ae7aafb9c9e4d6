//! A list of at most 64 pair subtables.

ghost use Rattle.std.specs.Prelude.{◌≡◌, ◌+◌, ◌∷◌, ◌++◌, [], ◌^◌, ◌<◌, ◌≤◌, length, take, drop};
ghost use Rattle.tt_kern.specs.Listed.{IsNear};

use std::marker::Model;

/// A pair subtable: its lookup's number in the feature, from 0 on, and its offset in GPOS.
#[derive(Clone, Copy)]
pub(crate) struct PairSubtable {
    pub(crate) lookup: usize,
    pub(crate) at: usize,
}

/// Offsets below which those of all pair subtables are.
const MOST: u64 = 1 << 33;

/// Pair subtables, lookup by lookup. Each is one number, since a face with these is often moved: its offset, and 2^33 for
/// each lookup before its own. Clauses see a list.
#[derive(Drop)]
pub(crate) struct PairList {
    codes: [u64; 64],
    count: usize,
}

impl Model for PairList {
    ghost use Rattle.std.specs.Prelude.{◌≡◌, ◌<◌, ◌≤◌, ◌^◌, List, take, length, map};
    ghost use Rattle.std.specs.List.{All};
    ghost use Rattle.tt_kern.specs.Listed.{subtable_of};
    ghost use Rattle.tt_kern.specs.declared.pairs.list.PairSubtable.{PairSubtable};

    ghost Value = { List PairSubtable };

    ghost view = { λ l. map subtable_of (take l.count l.codes) };

    ghost invariant = { λ l. (l.count ≤ 64) × (length l.codes ≡ 64) × All (λ c. c < 2 ^ 38) (take l.count l.codes) };
}

impl PairList {
    pub(super) fn new() -> PairList
        ensures { result ≡ [] }
    {
        PairList {
            codes: [0; 64],
            count: 0,
        }
    }

    /// Appends a subtable, unless 64 are listed (profile).
    pub(super) fn note(&mut self, subtable: PairSubtable)
        requires { IsNear subtable }
        ensures { self.new ≡ take 64 (self.old ++ subtable ∷ []) }
    {
        if self.count < 64 {
            self.codes[self.count] = MOST * subtable.lookup as u64 + subtable.at as u64;
            self.count += 1;
        }
    }

    pub(crate) fn copy(&self) -> PairList
        ensures { result ≡ self.now }
    {
        PairList {
            codes: self.codes,
            count: self.count,
        }
    }

    pub(crate) fn count(&self) -> usize
        ensures exact { result ≡ length self.now }
        ensures bound { result ≤ 64 }
    {
        self.count
    }

    pub(crate) fn get(&self, i: usize) -> PairSubtable
        requires { i < length self.now }
        ensures next { drop i self.now ≡ result ∷ drop (i + 1) self.now }
        ensures near { IsNear result }
    {
        let codes = &self.codes;
        let code = codes[i];
        PairSubtable {
            lookup: (code / MOST) as usize,
            at: (code % MOST) as usize,
        }
    }
}
