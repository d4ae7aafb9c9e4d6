//! The table of the places of a line's distinct glyphs. Line after line takes the same table.

ghost use Rattle.std.specs.Prelude.{◌≡◌, [], length, IfOk};
ghost use Rattle.tt_picture.specs.Glyphs.{ArePlaces, numbers_of};

use std::alloc::{AllocError, Global};
use std::marker::Model;
use std::mem;
use tt_picture::Glyph;

/// The memory of such a table between two lines: empty, or a table in which no glyph has a place. So a line clears the
/// places of its own glyphs alone. Clauses see the length.
#[derive(Drop)]
pub struct PlaceTable {
    alloc: Global,
    spare: Vec<u16>,
}

impl Model for PlaceTable {
    ghost use Rattle.std.specs.Prelude.{ℕ, [], length};
    ghost use Rattle.tt_picture.specs.Glyphs.{ArePlaces};

    ghost Value = { ℕ };

    ghost view = { λ t. length t.spare.items };

    ghost invariant = { λ t. ArePlaces t.spare.items [] };
}

impl PlaceTable {
    /// An empty table, which has no memory.
    pub fn new(alloc: Global) -> PlaceTable {
        PlaceTable {
            alloc,
            spare: Vec::new(alloc),
        }
    }

    /// A table for so many glyphs, in which none has a place: the spare one, if it has this length. Error: out of
    /// memory.
    pub(crate) fn take(&mut self, count: usize) -> Result<Vec<u16>, AllocError>
        ensures room { IfOk result (λ v. length v.items ≡ count) }
        ensures clear { IfOk result (λ v. ArePlaces v.items []) }
    {
        if self.spare.len() == count {
            return Ok(mem::replace(&mut self.spare, Vec::new(self.alloc)));
        }
        let made = vec![in self.alloc; 0u16; count]?;
        Ok(made)
    }

    /// Keeps a table for later lines, once the places of these glyphs are cleared. No other glyph has a place in it.
    pub(crate) fn give_back(&mut self, places: Vec<u16>, made: &[Glyph])
        requires { ArePlaces places.items (numbers_of made.now) }
    {
        let mut table = places;
        for glyph in made {
            table[usize::from(glyph.number())] = 0;
        }
        self.spare = table;
    }
}
