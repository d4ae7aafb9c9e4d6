//! The table directory. Apple TrueType Reference Manual, "The Font Directory".

ghost use Rattle.std.specs.Prelude.{◌≡◌, ◌<◌, ◌≤◌, false, ℕ, length, IsTrue, IfOk, IfErr, OnOk, IfSome, is_some, option_copied};
ghost use Rattle.tt_core.specs.Collections.{directory_by, IsDirectoryDefectBy};
ghost use Rattle.tt_core.specs.Directory.{Directory, directory_of, file_directory, read_directory, directory_end, record_count, record_of, has_tag, named_by, table_of, needed_table, HasNo, IsDirectoryDefect, RecordPassesEnd, PassesEnd, IsTableDefect};
ghost use Rattle.tt_core.specs.Faults.{is_ascii};
ghost use Rattle.tt_core.specs.Limits.{font_limit};
ghost use Rattle.tt_core.specs.Outcomes.{Gives};
ghost use Rattle.tt_core.specs.Search.{IsLeast};

use crate::collection::{Reading, directory_offset};
use crate::fault::{Fault, Why};
use crate::number::{u16_at, u32_at};
use std::marker::Model;

pub(crate) const FILE: [u8; 4] = *b"file";

/// A directory that fits in its font file. Clauses see the file's bytes and the directory's offset.
#[derive(Drop)]
pub struct Dir<'a> {
    file: &'a [u8],
    at: usize,
    count: usize,
}

impl<'a> Model for Dir<'a> {
    ghost use Rattle.std.specs.Prelude.{◌≡◌, ◌≤◌, length};
    ghost use Rattle.tt_core.specs.Directory.{Directory, directory_end, record_count};
    ghost use Rattle.tt_core.specs.Limits.{font_limit};

    ghost Value = { Directory };

    ghost view = { λ d. record { file = d.file.now; at = d.at } };

    ghost invariant = { λ d. (d.count ≡ record_count (record { file = d.file.now; at = d.at }))
        × (directory_end (record { file = d.file.now; at = d.at }) ≤ length d.file.now)
        × (length d.file.now ≤ font_limit) };
}

impl<'a> Dir<'a> {
    /// Opens a file with one font by the head of its directory. Errors: DirShort, BadVersion.
    pub fn open(file: &'a [u8]) -> Result<Dir<'a>, Fault>
        requires { length file.now ≤ font_limit }
        ensures exact { Gives (λ d. d) result (directory_of file.now) }
        ensures whole { IfOk result (λ d. d ≡ file_directory file.now) }
        ensures sound { OnOk result (HasNo (IsDirectoryDefect (file_directory file.now))) }
        ensures fault { IfErr result (IsDirectoryDefect (file_directory file.now)) }
    {
        Dir::at(file, 0)
    }

    /// Opens the directory that a reading asks for. Errors: DirShort, NoFace, CollectionVersion, BadVersion.
    #[tactic(auto, unfolding(crate::specs::Collections::directory_by))]
    pub fn read(file: &'a [u8], reading: Reading) -> Result<Dir<'a>, Fault>
        requires { length file.now ≤ font_limit }
        ensures exact { Gives (λ d. d) result (directory_by file.now reading) }
        ensures whole { IfOk result (λ d. d.file ≡ file.now) }
        ensures sound { OnOk result (HasNo (IsDirectoryDefectBy file.now reading)) }
        ensures fault { IfErr result (IsDirectoryDefectBy file.now reading) }
    {
        let at = directory_offset(file, reading)?;
        Dir::at(file, at)
    }

    /// Opens a directory by its head at an offset in a file. Errors: DirShort, BadVersion.
    #[tactic(auto, unfolding(crate::specs::Directory::read_directory))]
    fn at(file: &'a [u8], at: u32) -> Result<Dir<'a>, Fault>
        requires { length file.now ≤ font_limit }
        ensures exact { Gives (λ d. d) result (read_directory (record { file = file.now; at = at })) }
        ensures whole { IfOk result (λ d. d ≡ record { file = file.now; at = at }) }
        ensures sound { OnOk result (HasNo (IsDirectoryDefect (record { file = file.now; at = at }))) }
        ensures fault { IfErr result (IsDirectoryDefect (record { file = file.now; at = at })) }
    {
        let short = Fault::new(FILE, file.len() as u32, Why::DirShort);
        let place = at as usize;
        if file.len() < place + 12 {
            return Err(short);
        }
        let version = u32_at(file, place).unwrap();
        if version != 0x0001_0000 && version != 0x7472_7565 {
            return Err(Fault::new(FILE, at, Why::BadVersion));
        }
        let count = usize::from(u16_at(file, place + 4).unwrap());
        if file.len() < place + 12 + 16 * count {
            return Err(short);
        }
        Ok(Dir {
            file,
            at: place,
            count,
        })
    }

    /// The table with a tag, or None if no record has the tag. The first record with the tag counts (profile). Error:
    /// TableRange.
    #[tactic(auto, unfolding(crate::specs::Directory::table_of))]
    pub fn table(&self, tag: [u8; 4]) -> Result<Option<&'a [u8]>, Fault>
        ensures exact { Gives option_copied result (table_of self.now tag) }
        ensures first { (i : ℕ) → IsLeast (has_tag self.now tag) (record_count self.now) i
            → Gives option_copied result (named_by self.now (Some i)) }
        ensures absent { ((i : ℕ) → i < record_count self.now → has_tag self.now tag i ≡ false)
            → Gives option_copied result (Ok None) }
        ensures found { IfOk result (λ o. is_some o ≡ is_some (record_of self.now tag)) }
        ensures size { IfOk result (λ o. IfSome o (λ table. length table.now ≤ font_limit)) }
        ensures sound { OnOk result (HasNo (PassesEnd self.now tag)) }
        ensures fault { IfErr result (PassesEnd self.now tag) }
    {
        self.named(self.record(tag))
    }

    /// The table that the record with this number names. None gives None. Error: TableRange.
    fn named(&self, number: Option<usize>) -> Result<Option<&'a [u8]>, Fault>
        requires { IfSome number (λ i. i < record_count self.now) }
        ensures exact { Gives option_copied result (named_by self.now number) }
        ensures found { IfOk result (λ o. is_some o ≡ is_some number) }
        ensures size { IfOk result (λ o. IfSome o (λ table. length table.now ≤ font_limit)) }
        ensures sound { OnOk result (HasNo (RecordPassesEnd self.now number)) }
        ensures fault { IfErr result (RecordPassesEnd self.now number) }
    {
        let file = self.file;
        let Some(i) = number else {
            return Ok(None);
        };
        let place = self.at + 12 + 16 * i;
        let offset = u32_at(file, place + 8).unwrap() as usize;
        let length = u32_at(file, place + 12).unwrap() as usize;
        if file.len() < offset + length {
            return Err(Fault::new(FILE, place as u32, Why::TableRange));
        }
        Ok(Some(&file[offset..offset + length]))
    }

    /// A table that the font must have. Errors: TableRange, NoTable.
    #[tactic(auto, unfolding(crate::specs::Directory::needed_table))]
    pub fn needed(&self, tag: [u8; 4]) -> Result<&'a [u8], Fault>
        requires { IsTrue (is_ascii tag) }
        ensures exact { Gives (λ table. table.now) result (needed_table self.now tag) }
        ensures size { IfOk result (λ table. length table.now ≤ font_limit) }
        ensures sound { OnOk result (HasNo (IsTableDefect self.now tag)) }
        ensures fault { IfErr result (IsTableDefect self.now tag) }
    {
        match self.table(tag)? {
            Some(table) => Ok(table),
            None => Err(Fault::new(tag, 0, Why::NoTable)),
        }
    }

    #[tactic(auto, using(crate::specs::Search::first_from_next, crate::specs::Search::first_from_here))]
    fn record(&self, tag: [u8; 4]) -> Option<usize>
        ensures exact { result ≡ record_of self.now tag }
        ensures bound { IfSome result (λ i. i < record_count self.now) }
        ensures room { directory_end self.now ≤ length self.now.file }
        ensures size { length self.now.file ≤ font_limit }
    {
        for i in 0..self.count {
            let place = self.at + 12 + 16 * i;
            if self.file[place..place + 4] == tag[..] {
                return Some(i);
            }
        }
        None
    }
}
