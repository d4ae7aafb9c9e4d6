//! The sum over the lookups of a feature. OpenType, "GPOS": each lookup ends at its first subtable that applies.

ghost use Rattle.std.specs.Prelude.{◌≡◌, ◌+◌, ◌*◌, ◌^◌, ◌<◌, ◌≤◌, ◌∷◌, ◌+ℤ◌, List, unsigned_abs};
ghost use Rattle.tt_kern.specs.Listed.{IsNear, sum_from};
ghost use Rattle.tt_kern.specs.Reads.{reads_from};
ghost use Rattle.tt_kern.specs.declared.pairs.list.PairSubtable as is;

use crate::kerning::tally::Tally;
use crate::pair::{GlyphPair, pair_value};
use crate::pairs::list::{PairList, PairSubtable};
use crate::variation::VariedPair;
use crate::words::Words;

/// The sum so far. Lookups below `ended` have ended.
#[derive(Clone, Copy)]
struct SumSoFar {
    total: i32,
    ended: usize,
}

/// The sum after a subtable.
fn after_pair(
    gpos: &Words,
    glyphs: GlyphPair,
    so_far: SumSoFar,
    pair: PairSubtable,
    variation: &VariedPair,
    reads: &mut Tally,
) -> SumSoFar
    requires total { unsigned_abs so_far.total ≤ 32768 * so_far.ended }
    requires ended { so_far.ended ≤ 32 }
    requires near { IsNear pair }
    requires room { reads.old + 76 < 2 ^ 32 }
    ensures exact { (rest : List is.PairSubtable) → result.total +ℤ sum_from variation.now gpos.now glyphs.left glyphs.right result.ended rest
        ≡ so_far.total +ℤ sum_from variation.now gpos.now glyphs.left glyphs.right so_far.ended (pair ∷ rest) }
    ensures total { unsigned_abs result.total ≤ 32768 * result.ended }
    ensures ended { result.ended ≤ 32 }
    ensures count { (rest : List is.PairSubtable) → reads.new + reads_from variation.now gpos.now glyphs.left glyphs.right result.ended rest
        ≡ reads.old + reads_from variation.now gpos.now glyphs.left glyphs.right so_far.ended (pair ∷ rest) }
    ensures few { reads.new ≤ reads.old + 76 }
{
    if pair.lookup < so_far.ended {
        return so_far;
    }
    match pair_value(gpos, pair.at, glyphs, variation, reads) {
        Some(value) => SumSoFar {
            total: so_far.total + value,
            ended: pair.lookup + 1,
        },
        None => so_far,
    }
}

/// The sum over the lookups. At most 4,864 numbers are read, 76 for each of 64 subtables.
pub(crate) fn pair_sum(
    gpos: &Words,
    pairs: &PairList,
    glyphs: GlyphPair,
    variation: &VariedPair,
    reads: &mut Tally,
) -> i32
    requires room { reads.old + 4864 < 2 ^ 32 }
    ensures exact { result ≡ sum_from variation.now gpos.now glyphs.left glyphs.right 0 pairs.now }
    ensures bound { unsigned_abs result ≤ 2 ^ 20 }
    ensures count { reads.new ≡ reads.old + reads_from variation.now gpos.now glyphs.left glyphs.right 0 pairs.now }
    ensures few { reads.new ≤ reads.old + 4864 }
{
    let mut so_far = SumSoFar { total: 0, ended: 0 };
    for i in 0..pairs.count() {
        so_far = after_pair(gpos, glyphs, so_far, pairs.get(i), variation, reads);
    }
    so_far.total
}
