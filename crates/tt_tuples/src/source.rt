//! The sources of tuples.

ghost use Rattle.std.specs.Prelude.{◌≡◌, ◌+◌, ◌≤◌, length, IsTrue};
ghost use Rattle.tt_core.specs.Faults.{is_ascii};
ghost use Rattle.tt_core.specs.Limits.{font_limit};
ghost use Rattle.tt_tuples.specs.Bytes.{tag_of};
ghost use Rattle.tt_tuples.specs.Views.{source_of};

use crate::tuple_store::TupleStore;
use tt_axes::InstanceCoordinates;

const GVAR: [u8; 4] = *b"gvar";

const CVAR: [u8; 4] = *b"cvar";

/// The table that has the tuples.
#[derive(Clone, Copy, Debug, PartialEq, Eq)]
pub enum TupleTable {
    /// Deltas along x and y of a glyph's points. The header is in front of a glyph's data.
    Gvar,
    /// Deltas of control values. The header follows the table's first four bytes.
    Cvar,
}

impl TupleTable {
    pub(crate) fn tag(self) -> [u8; 4]
        ensures exact { result ≡ tag_of self }
        ensures ascii { IsTrue (is_ascii result) }
    {
        match self {
            TupleTable::Gvar => GVAR,
            TupleTable::Cvar => CVAR,
        }
    }
}

/// The source of a reader of tuples.
#[derive(Clone, Copy)]
pub struct TupleSource<'a> {
    pub store: TupleStore<'a>,
    /// The shared tuples of gvar, each a 2.14 for each axis. Tuples of cvar name them too.
    pub shared: &'a [u8],
    /// The coordinates of the instance.
    pub coordinates: &'a InstanceCoordinates,
    /// How many points the glyph has, with its four phantom points; or how many control values there are.
    pub points: usize,
}

impl<'a> TupleSource<'a> {
    /// The source of tuples in bytes of a table that begin at an offset.
    pub fn new(
        table: TupleTable,
        start: usize,
        bytes: &'a [u8],
        shared: &'a [u8],
        coordinates: &'a InstanceCoordinates,
        points: usize,
    ) -> TupleSource<'a>
        requires { start + length bytes.now ≤ font_limit }
        ensures exact { source_of result ≡ record {
          store = record { table = table; start = start; bytes = bytes.now };
          shared = shared.now;
          coordinates = coordinates.now;
          points = points;
        } }
        ensures table { result.store.table ≡ table }
        ensures points { result.points ≡ points }
    {
        let store = TupleStore {
            table,
            start,
            bytes,
        };
        TupleSource {
            store,
            shared,
            coordinates,
            points,
        }
    }
}
