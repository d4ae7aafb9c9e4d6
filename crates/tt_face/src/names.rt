//! The names of a face. OpenType, "name: Naming Table".

ghost use Rattle.std.specs.Prelude.{◌≡◌, ◌<◌, ◌≤◌, length, is_some, bytes_eq, IfOk, IfSome};
ghost use Rattle.tt_core.specs.Directory.{table_of};
ghost use Rattle.tt_core.specs.Limits.{font_limit};
ghost use Rattle.tt_face.specs.Names.{name_tag, string_of, name_count, has_records, is_name, first_name, chosen_name, string_at, chosen_string, told_character, told_text};

use std::alloc::{AllocError, Global};
use std::marker::Model;
use tt_core::{Dir, u16_at};

/// The number of the name of a family.
pub(crate) const FAMILY_NAME: u16 = 1;

/// The number of a full name.
pub(crate) const FULL_NAME: u16 = 4;

/// Characters of a name that are printed (profile).
const TOLD: usize = 64;

/// The records of a table of names. Clauses see the bytes of the table.
#[derive(Drop)]
pub(crate) struct Names<'a> {
    table: &'a [u8],
    count: usize,
}

impl<'a> Model for Names<'a> {
    ghost use Rattle.std.specs.Prelude.{◌≡◌, ◌<◌, ◌≤◌, ℕ, List, length};
    ghost use Rattle.tt_core.specs.Limits.{font_limit};
    ghost use Rattle.tt_face.specs.Names.{name_count, name_place};

    ghost Value = { List ℕ };

    ghost view = { λ n. n.table.now };

    ghost invariant = { λ n. (n.count ≡ name_count n.table.now) × (n.count < 65536)
        × (name_place n.count ≤ length n.table.now) × (length n.table.now ≤ font_limit) };
}

impl<'a> Names<'a> {
    /// The records, if the header and all records fit.
    pub(crate) fn open(table: &'a [u8]) -> Option<Names<'a>>
        requires { length table.now ≤ font_limit }
        ensures fit { is_some result ≡ has_records table.now }
        ensures whole { IfSome result (λ n. n ≡ table.now) }
    {
        if table.len() < 6 {
            return None;
        }
        let count = usize::from(u16_at(table, 2).unwrap());
        if table.len() < 6 + 12 * count {
            return None;
        }
        Some(Names { table, count })
    }

    /// Whether a record is a name with this number for Windows, and in American English if that is wanted.
    fn is_name(&self, id: u16, english: bool, i: usize) -> bool
        requires { i < name_count self.now }
        ensures { result ≡ is_name id english self.now i }
    {
        let table = self.table;
        let place = 6 + 12 * i;
        u16_at(table, place).unwrap() == 3
            && u16_at(table, place + 6).unwrap() == id
            && (!english || u16_at(table, place + 4).unwrap() == 0x0409)
    }

    /// The first record of a name.
    #[tactic(auto, using(tt_core::specs::Search::first_from_next, tt_core::specs::Search::first_from_here))]
    fn first_name(&self, id: u16, english: bool) -> Option<usize>
        ensures exact { result ≡ first_name id english self.now }
        ensures within { IfSome result (λ i. i < name_count self.now) }
    {
        for i in 0..self.count {
            if self.is_name(id, english, i) {
                return Some(i);
            }
        }
        None
    }

    /// The record of the name that is printed: in American English before any other.
    fn chosen_name(&self, id: u16) -> Option<usize>
        ensures exact { result ≡ chosen_name id self.now }
        ensures within { IfSome result (λ i. i < name_count self.now) }
    {
        match self.first_name(id, true) {
            Some(i) => Some(i),
            None => self.first_name(id, false),
        }
    }

    /// The string of a record, empty if the string does not fit.
    fn string_at(&self, i: usize) -> &'a [u8]
        requires { i < name_count self.now }
        ensures exact { result.now ≡ string_at self.now i }
        ensures size { length result.now ≤ font_limit }
    {
        let table = self.table;
        let place = 6 + 12 * i;
        let strings = usize::from(u16_at(table, 4).unwrap());
        let start = strings + usize::from(u16_at(table, place + 10).unwrap());
        let end = start + usize::from(u16_at(table, place + 8).unwrap());
        if table.len() < end {
            return &[];
        }
        &table[start..end]
    }

    /// The string of the name that is printed, empty without one.
    pub(crate) fn chosen_string(&self, id: u16) -> &'a [u8]
        ensures exact { result.now ≡ chosen_string id self.now }
        ensures size { length result.now ≤ font_limit }
    {
        match self.chosen_name(id) {
            Some(i) => self.string_at(i),
            None => &[],
        }
    }
}

/// A character as ASCII: itself if it can be printed, else a question mark.
fn told_character(word: u16) -> u8
    ensures { result ≡ told_character word }
{
    if (0x20..=0x7E).contains(&word) {
        word as u8
    } else {
        b'?'
    }
}

/// The first characters of a string as ASCII. Error: memory ran out.
pub(crate) fn told_text(alloc: Global, string: &[u8]) -> Result<Vec<u8>, AllocError>
    requires { length string.now ≤ font_limit }
    ensures { IfOk result (λ text. text.items ≡ told_text string.now) }
{
    let mut text = Vec::new(alloc);
    let count = TOLD.min(string.len() / 2);
    for k in 0..count {
        text.push(told_character(u16_at(string, 2 * k).unwrap()))?;
    }
    Ok(text)
}

/// Whether a text is the first characters of a string as ASCII.
pub(crate) fn is_told(string: &[u8], text: &[u8]) -> bool
    requires { length string.now ≤ font_limit }
    ensures { result ≡ bytes_eq (told_text string.now) text.now }
{
    let count = TOLD.min(string.len() / 2);
    if text.len() != count {
        return false;
    }
    for k in 0..count {
        if told_character(u16_at(string, 2 * k).unwrap()) != text[k] {
            return false;
        }
    }
    true
}

/// The string of a face's name with this number, empty if its table has a defect.
pub(crate) fn string_of<'a>(dir: &Dir<'a>, id: u16) -> &'a [u8]
    ensures exact { result.now ≡ string_of id (table_of dir.now name_tag) }
    ensures size { length result.now ≤ font_limit }
{
    let Ok(Some(table)) = dir.table(*b"name") else {
        return &[];
    };
    match Names::open(table) {
        Some(names) => names.chosen_string(id),
        None => &[],
    }
}
