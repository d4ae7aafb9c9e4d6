//! The choice of cmap's subtable by its encoding records. OpenType, "cmap", encoding records.

ghost use Rattle.std.specs.Prelude.{◌≡◌, ◌+◌, ◌<◌, ◌≤◌, length, IsTrue, IfOk, IfErr, IfSome};
ghost use Rattle.tt_core.specs.Limits.{font_limit};
ghost use Rattle.tt_core.specs.Outcomes.{Gives};
ghost use Rattle.tt_cmap.specs.Subtables.{records_of, record_count, record_place, format_number, windows_encoding, is_for, first_subtable, first_of, chosen_subtable};
ghost use Rattle.tt_cmap.specs.Defects.{IsBadRecords};

pub(crate) mod wide;

use std::marker::Model;
use tt_core::{Fault, Why, u16_at, u32_at};

pub(crate) const CMAP: [u8; 4] = *b"cmap";

/// The platform of an encoding record.
#[derive(Clone, Copy)]
pub(crate) enum Platform {
    /// Platform 3.
    Windows,
    /// Platform 0, any encoding.
    Unicode,
}

/// The format of a subtable.
#[derive(Clone, Copy)]
pub(crate) enum Format {
    /// Format 4, segment mapping to delta values: the Basic Multilingual Plane.
    Segments,
    /// Format 12, segmented coverage: the full repertoire.
    Groups,
}

/// The chosen subtable: its format, and its offset in cmap.
#[derive(Clone, Copy)]
pub(crate) struct Choice {
    pub(crate) format: Format,
    pub(crate) at: usize,
}

/// The number of a format.
fn format_number(format: Format) -> u16
    ensures { result ≡ format_number format }
{
    match format {
        Format::Segments => 4,
        Format::Groups => 12,
    }
}

/// The encoding of Windows for a format.
fn windows_encoding(format: Format) -> u16
    ensures { result ≡ windows_encoding format }
{
    match format {
        Format::Segments => 1,
        Format::Groups => 10,
    }
}

/// The encoding records of cmap. Clauses see the bytes of cmap.
#[derive(Drop)]
pub(crate) struct Records<'a> {
    table: &'a [u8],
    count: usize,
}

impl<'a> Model for Records<'a> {
    ghost use Rattle.std.specs.Prelude.{◌≡◌, ◌<◌, ◌≤◌, ℕ, List, length};
    ghost use Rattle.tt_cmap.specs.Subtables.{record_count, record_place};

    ghost Value = { List ℕ };

    ghost view = { λ r. r.table.now };

    ghost invariant = { λ r. (r.count ≡ record_count r.table.now) × (r.count < 65536)
        × (record_place r.count ≤ length r.table.now) };
}

impl<'a> Records<'a> {
    /// The records, if the header and all records fit. Error: CmapShape.
    #[tactic(auto, unfolding(crate::specs::Subtables::records_of))]
    pub(crate) fn open(table: &'a [u8]) -> Result<Records<'a>, Fault>
        requires { length table.now ≤ font_limit }
        ensures exact { Gives record_count result (records_of table.now) }
        ensures whole { IfOk result (λ r. r ≡ table.now) }
        ensures fit { IfOk result (λ r. record_place (record_count r) ≤ length r) }
        ensures fault { IfErr result (IsBadRecords table.now) }
    {
        let short = Fault::new(CMAP, table.len() as u32, Why::CmapShape);
        if table.len() < 4 {
            return Err(short);
        }
        let count = usize::from(u16_at(table, 2).unwrap());
        if table.len() < 4 + 8 * count {
            return Err(short);
        }
        Ok(Records { table, count })
    }

    fn is_meant_for(&self, platform: Platform, format: Format, i: usize) -> bool
        requires { i < record_count self.now }
        ensures { result ≡ is_for platform format self.now i }
    {
        let table = self.table;
        let place = 4 + 8 * i;
        let number = u16_at(table, place).unwrap();
        match platform {
            Platform::Windows => {
                number == 3 && u16_at(table, place + 2).unwrap() == windows_encoding(format)
            }
            Platform::Unicode => number == 0,
        }
    }

    #[tactic(auto, using(tt_core::specs::Search::first_from_next, tt_core::specs::Search::first_from_here))]
    fn first_subtable(&self, platform: Platform, format: Format) -> Option<usize>
        ensures exact { result ≡ first_subtable platform format self.now }
        ensures within { IfSome result (λ at. at + 2 ≤ length self.now) }
    {
        for i in 0..self.count {
            let at = u32_at(self.table, 8 + 8 * i).unwrap() as usize;
            let number = u16_at(self.table, at);
            if self.is_meant_for(platform, format, i) && number == Some(format_number(format)) {
                return Some(at);
            }
        }
        None
    }

    /// The first subtable of a format: that of Windows before that of Unicode.
    fn first_of(&self, format: Format) -> Option<Choice>
        ensures exact { result ≡ first_of format self.now }
        ensures within { IfSome result (λ p. p.at + 2 ≤ length self.now) }
    {
        if let Some(at) = self.first_subtable(Platform::Windows, format) {
            return Some(Choice { format, at });
        }
        match self.first_subtable(Platform::Unicode, format) {
            Some(at) => Some(Choice { format, at }),
            None => None,
        }
    }

    /// The chosen subtable, if there is one: format 12 before format 4.
    pub(crate) fn chosen(&self) -> Option<Choice>
        ensures exact { result ≡ chosen_subtable self.now }
        ensures within { IfSome result (λ p. p.at + 2 ≤ length self.now) }
    {
        match self.first_of(Format::Groups) {
            Some(choice) => Some(choice),
            None => self.first_of(Format::Segments),
        }
    }
}
