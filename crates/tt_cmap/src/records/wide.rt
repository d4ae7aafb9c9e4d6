//! The choice of the wide reading. OpenType, "cmap", encoding records.

ghost use Rattle.std.specs.Prelude.{◌≡◌, ◌+◌, ◌<◌, ◌≤◌, length, IfSome};
ghost use Rattle.tt_cmap.specs.Subtables.{record_count};
ghost use Rattle.tt_cmap.specs.WideChoice.{has_encoding, way_of, choice_at, first_choice, wide_choice, is_variations, variations_of};
ghost use Rattle.tt_cmap.specs.WideSubtables.{readable_at};

use crate::records::Records;
use crate::wide_subtable::{Readable, readable_of};
use tt_core::{u16_at, u32_at};

/// The encoding of a record, in the order of choice.
#[derive(Clone, Copy)]
pub(crate) enum Encoding {
    /// Platform 3, encoding 10: the full repertoire of Unicode.
    Full,
    /// Platform 0, any encoding.
    Unicode,
    /// Platform 3, encoding 1: the Basic Multilingual Plane.
    Basic,
    /// Platform 3, encoding 0: symbols.
    Symbol,
    /// Platform 1, encoding 0: Macintosh Roman.
    Roman,
}

/// The codes of an encoding.
#[derive(Clone, Copy)]
pub(crate) enum CodeWay {
    /// The code is the character.
    Plain,
    /// The code is the character; without a glyph, a character below U+0100 has that of U+F000 and more (profile).
    Symbol,
    /// The code is the character's byte in Macintosh Roman.
    Roman,
}

/// The chosen subtable: its format, its offset in cmap, and its codes.
#[derive(Clone, Copy)]
pub(crate) struct WideChoice {
    pub(crate) format: Readable,
    pub(crate) at: usize,
    pub(crate) way: CodeWay,
}

fn way_of(encoding: Encoding) -> CodeWay
    ensures { result ≡ way_of encoding }
{
    match encoding {
        Encoding::Full | Encoding::Unicode | Encoding::Basic => CodeWay::Plain,
        Encoding::Symbol => CodeWay::Symbol,
        Encoding::Roman => CodeWay::Roman,
    }
}

impl<'a> Records<'a> {
    fn has_encoding(&self, encoding: Encoding, i: usize) -> bool
        requires { i < record_count self.now }
        ensures { result ≡ has_encoding encoding self.now i }
    {
        let platform = u16_at(self.table, 4 + 8 * i).unwrap();
        let number = u16_at(self.table, 4 + 8 * i + 2).unwrap();
        match encoding {
            Encoding::Full => platform == 3 && number == 10,
            Encoding::Unicode => platform == 0,
            Encoding::Basic => platform == 3 && number == 1,
            Encoding::Symbol => platform == 3 && number == 0,
            Encoding::Roman => platform == 1 && number == 0,
        }
    }

    /// The format of the subtable at an offset, if the subtable has a format word and the format is read.
    fn readable(&self, at: usize) -> Option<Readable>
        ensures exact { result ≡ readable_at self.now at }
        ensures within { IfSome result (λ f. at + 2 ≤ length self.now) }
    {
        match u16_at(self.table, at) {
            Some(number) => readable_of(number),
            None => None,
        }
    }

    /// A record as a choice, if it has the encoding and its subtable's format is read.
    fn choice_at(&self, encoding: Encoding, i: usize) -> Option<WideChoice>
        requires { i < record_count self.now }
        ensures exact { result ≡ choice_at encoding self.now i }
        ensures within { IfSome result (λ p. p.at + 2 ≤ length self.now) }
    {
        if !self.has_encoding(encoding, i) {
            return None;
        }
        let at = u32_at(self.table, 4 + 8 * i + 4).unwrap() as usize;
        match self.readable(at) {
            Some(format) => Some(WideChoice {
                format,
                at,
                way: way_of(encoding),
            }),
            None => None,
        }
    }

    /// The first record with the encoding whose subtable's format is read.
    #[tactic(auto, using(crate::proofs::Firsts::first_some_next, crate::proofs::Firsts::first_some_here))]
    fn first_choice(&self, encoding: Encoding) -> Option<WideChoice>
        ensures exact { result ≡ first_choice encoding self.now }
        ensures within { IfSome result (λ p. p.at + 2 ≤ length self.now) }
    {
        for i in 0..self.count {
            if let Some(choice) = self.choice_at(encoding, i) {
                return Some(choice);
            }
        }
        None
    }

    /// The chosen subtable, if there is one: that of the strict reading, or the first of another encoding or format.
    pub(crate) fn wide_choice(&self) -> Option<WideChoice>
        ensures exact { result ≡ wide_choice self.now }
        ensures within { IfSome result (λ p. p.at + 2 ≤ length self.now) }
    {
        if let Some(choice) = self.chosen() {
            return Some(WideChoice {
                format: Readable::Ranged(choice.format),
                at: choice.at,
                way: CodeWay::Plain,
            });
        }
        if let Some(choice) = self.first_choice(Encoding::Full) {
            return Some(choice);
        }
        if let Some(choice) = self.first_choice(Encoding::Unicode) {
            return Some(choice);
        }
        if let Some(choice) = self.first_choice(Encoding::Basic) {
            return Some(choice);
        }
        if let Some(choice) = self.first_choice(Encoding::Symbol) {
            return Some(choice);
        }
        self.first_choice(Encoding::Roman)
    }

    fn is_variations(&self, i: usize) -> bool
        requires { i < record_count self.now }
        ensures { result ≡ is_variations self.now i }
    {
        let at = u32_at(self.table, 4 + 8 * i + 4).unwrap() as usize;
        u16_at(self.table, 4 + 8 * i).unwrap() == 0
            && u16_at(self.table, 4 + 8 * i + 2).unwrap() == 5
            && u16_at(self.table, at) == Some(14)
    }

    /// The offset of the first subtable of variation sequences.
    #[tactic(auto, using(tt_core::specs::Search::first_from_next, tt_core::specs::Search::first_from_here))]
    pub(crate) fn variations(&self) -> Option<usize>
        ensures exact { result ≡ variations_of self.now }
        ensures within { IfSome result (λ at. at + 2 ≤ length self.now) }
    {
        for i in 0..self.count {
            if self.is_variations(i) {
                return Some(u32_at(self.table, 4 + 8 * i + 4).unwrap() as usize);
            }
        }
        None
    }
}
