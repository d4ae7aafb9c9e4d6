//! Lists in the order of their last characters, and the binary search in them.

ghost use Rattle.std.specs.Prelude.{◌≡◌, ℕ, ◌+◌, ◌^◌, ◌<◌, ◌≤◌, nat_le};
ghost use Rattle.tt_cmap.specs.Halves.{asked, reached};

use crate::lookup::reads::Reads;

/// Entries, each with a last character. The entries are numbered from 0.
pub(crate) trait RangeEnds {
    ghost count_of: { Self → ℕ };

    // The last character of an entry.
    ghost end_of: { Self → ℕ → ℕ };

    // A bound of all last characters.
    ghost most_end: { Self → ℕ };

    // A bound of the tests of a binary search.
    ghost most_asked: { Self → ℕ };

    fn count(&self) -> usize
        ensures exact { result ≡ count_of self.now }
        ensures bound { result < 2 ^ most_asked self.now }
        ensures few { result < 2 ^ 24 };

    /// The last character of an entry.
    fn end(&self, i: usize, reads: &mut Reads) -> usize
        requires range { i < count_of self.now }
        requires room { reads.old + 1 < 2 ^ 32 }
        ensures exact { result ≡ end_of self.now i }
        ensures most { result ≤ most_end self.now }
        ensures count { reads.new ≡ reads.old + 1 };
}

/// The entry where a binary search for an end at the character or after it ends; the count, if past all entries.
pub(crate) fn reach<E: RangeEnds>(ends: &E, c: usize, reads: &mut Reads) -> usize
    requires room { reads.old + 2 ^ 30 < 2 ^ 32 }
    ensures exact { result ≡ reached (E.count_of ends.now) (λ i. nat_le c (E.end_of ends.now i)) }
    ensures bound { result ≤ E.count_of ends.now }
    ensures most { result < E.count_of ends.now → c ≤ E.most_end ends.now }
    ensures count { reads.new ≡ reads.old + asked (λ i. nat_le c (E.end_of ends.now i)) 0 (E.count_of ends.now) }
    ensures few { asked (λ i. nat_le c (E.end_of ends.now i)) 0 (E.count_of ends.now) ≤ E.most_asked ends.now }
{
    let count = ends.count();
    let mut low = 0;
    let mut high = count;
    while low < high {
        let middle = low + (high - low) / 2;
        if ends.end(middle, reads) < c {
            low = middle + 1;
        } else {
            high = middle;
        }
    }
    low
}
