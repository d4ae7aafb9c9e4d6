//! The bytes of tuples. OpenType, "Tuple Variation Store".

ghost use Rattle.std.specs.Prelude.{◌+◌, ◌≤◌, length};
ghost use Rattle.tt_core.specs.Limits.{font_limit};

use crate::source::TupleTable;

/// The data of a glyph in gvar, or the whole table cvar.
#[derive(Clone, Copy)]
pub struct TupleStore<'a> {
    pub table: TupleTable,
    /// The offset of the bytes in the table.
    pub start: usize,
    pub bytes: &'a [u8],
    pub ghost fits: { start + length bytes.now ≤ font_limit },
}
