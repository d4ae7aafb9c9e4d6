//! The lists of a subtable of variation sequences. OpenType, "cmap", format 14.

ghost use Rattle.std.specs.Prelude.{◌≡◌, ◌+◌, ◌*◌, ◌<◌, ◌≤◌, ◌^◌, length, IfSome, Option};
ghost use Rattle.tt_core.specs.Limits.{font_limit};
ghost use Rattle.tt_core.specs.Numbers.{unsigned_at};
ghost use Rattle.tt_cmap.specs.Variations.{entry_offset, fitting, entry_count, entry_place, entry_start, entry_for, entry_glyph, default_offset, other_offset};
ghost use Rattle.tt_cmap.specs.WideReads.{entry_ends_read};
ghost use Rattle.tt_cmap.specs.declared.entries.EntryKind.TheVariants.{Selectors, Others};

use crate::ends::{RangeEnds, reach};
use crate::lookup::reads::Reads;
use crate::table::Table;
use std::marker::Model;
use tt_core::u32_at;

/// The entries of a list.
#[derive(Clone, Copy)]
pub(crate) enum EntryKind {
    /// A selector, and the offsets of its two lists: 11 bytes.
    Selectors,
    /// A range of characters whose glyphs are their own: 4 bytes.
    Defaults,
    /// A character and its other glyph: 5 bytes.
    Others,
}

/// The offset of an entry after the first.
fn entry_offset(kind: EntryKind, i: usize) -> usize
    requires { i < 2 ^ 26 }
    ensures exact { result ≡ entry_offset kind i }
    ensures few { result ≤ 11 * i }
{
    match kind {
        EntryKind::Selectors => 11 * i,
        EntryKind::Defaults => 4 * i,
        EntryKind::Others => 5 * i,
    }
}

/// The count of entries that fit into a number of bytes.
fn fitting(kind: EntryKind, bytes: usize) -> usize
    ensures exact { result ≡ fitting kind bytes }
    ensures few { 4 * result ≤ bytes }
{
    match kind {
        EntryKind::Selectors => bytes / 11,
        EntryKind::Defaults => bytes / 4,
        EntryKind::Others => bytes / 5,
    }
}

/// A list with as many of its entries as fit in cmap. Clauses see the kind, the bytes of cmap and the list's offset.
#[derive(Drop)]
pub(crate) struct Entries<'a> {
    kind: EntryKind,
    table: Table<'a>,
    at: usize,
    count: usize,
}

impl<'a> Model for Entries<'a> {
    ghost use Rattle.std.specs.Prelude.{◌≡◌, ◌+◌, ◌*◌, ◌<◌, ◌≤◌, ◌^◌, length};
    ghost use Rattle.tt_core.specs.Limits.{font_limit};
    ghost use Rattle.tt_cmap.specs.Variations.{entry_count, entry_offset};
    ghost use Rattle.tt_cmap.specs.Variations as variations;

    ghost Value = { variations.Entries };

    ghost view = { λ e. record { kind = e.kind; table = e.table; at = e.at } };

    ghost invariant = { λ e. (e.count ≡ entry_count (record { kind = e.kind; table = e.table; at = e.at }))
        × (length e.table ≤ font_limit) × (e.count < 2 ^ 24) × (e.at < 2 ^ 34) };
}

impl<'a> Entries<'a> {
    /// The list at an offset of cmap.
    pub(crate) fn open(table: &'a [u8], kind: EntryKind, at: usize) -> Entries<'a>
        requires size { length table.now ≤ font_limit }
        requires place { at < 2 ^ 34 }
        ensures exact { result ≡ record { kind = kind; table = table.now; at = at } }
    {
        let room = fitting(kind, table.len().saturating_sub(at + 4));
        let count = match u32_at(table, at) {
            Some(count) => room.min(count as usize),
            None => 0,
        };
        let table = Table::new(table);
        Entries {
            kind,
            table,
            at,
            count,
        }
    }

    /// The offset of an entry in cmap.
    fn place(&self, i: usize) -> usize
        requires { i < entry_count self.now }
        ensures exact { result ≡ entry_place self.now i }
        ensures fits { result + entry_offset self.now.kind 1 ≤ length self.now.table }
        ensures size { length self.now.table ≤ font_limit }
    {
        self.at + 4 + entry_offset(self.kind, i)
    }

    /// The entry where a binary search for a character ends.
    #[tactic(auto, unfolding(crate::specs::WideReads::entry_ends_read))]
    pub(crate) fn entry_for(&self, c: usize, reads: &mut Reads) -> Option<usize>
        requires room { reads.old + 2 ^ 30 < 2 ^ 32 }
        ensures exact { result ≡ entry_for self.now c }
        ensures bound { IfSome result (λ i. i < entry_count self.now) }
        ensures count { reads.new ≡ reads.old + entry_ends_read self.now c }
        ensures few { entry_ends_read self.now c ≤ 24 }
    {
        let i = reach(self, c, reads);
        if i < self.count { Some(i) } else { None }
    }

    /// The selector, the first character or the character of an entry.
    pub(crate) fn start(&self, i: usize, reads: &mut Reads) -> usize
        requires range { i < entry_count self.now }
        requires room { reads.old + 1 < 2 ^ 32 }
        ensures exact { result ≡ entry_start self.now i }
        ensures count { reads.new ≡ reads.old + 1 }
    {
        self.table.triple(self.place(i), reads)
    }

    /// The glyph of an entry.
    pub(crate) fn glyph(&self, i: usize, reads: &mut Reads) -> usize
        requires kind { self.now.kind ≡ Others }
        requires range { i < entry_count self.now }
        requires room { reads.old + 1 < 2 ^ 32 }
        ensures exact { result ≡ entry_glyph self.now i }
        ensures count { reads.new ≡ reads.old + 1 }
    {
        self.table.word(self.place(i) + 3, reads)
    }

    /// The offsets in the subtable of a selector's ranges of default glyphs, and of its characters with other glyphs.
    pub(crate) fn offsets(&self, i: usize, reads: &mut Reads) -> (usize, usize)
        requires kind { self.now.kind ≡ Selectors }
        requires range { i < entry_count self.now }
        requires room { reads.old + 2 < 2 ^ 32 }
        ensures defaults { result.0 ≡ default_offset self.now i }
        ensures others { result.1 ≡ other_offset self.now i }
        ensures defaults_fit { result.0 < 2 ^ 32 }
        ensures others_fit { result.1 < 2 ^ 32 }
        ensures count { reads.new ≡ reads.old + 2 }
    {
        let place = self.place(i);
        let defaults = self.table.long(place + 3, reads);
        (defaults, self.table.long(place + 7, reads))
    }
}

impl<'a> RangeEnds for Entries<'a> {
    ghost use Rattle.tt_cmap.specs.Variations.{entry_count, entry_end};

    ghost count_of = { entry_count };

    ghost end_of = { entry_end };

    ghost most_end = { λ e. 4294967550 };

    ghost most_asked = { λ e. 24 };

    fn count(&self) -> usize {
        self.count
    }

    fn end(&self, i: usize, reads: &mut Reads) -> usize {
        let place = self.place(i);
        match self.kind {
            EntryKind::Defaults => self.table.span_end(place, reads),
            EntryKind::Selectors | EntryKind::Others => self.table.triple(place, reads),
        }
    }
}
