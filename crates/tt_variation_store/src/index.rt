//! The indexes of a row of deltas.

ghost use Rattle.std.specs.Prelude.{◌≡◌, ◌<◌, ◌^◌};
ghost use Rattle.tt_variation_store.specs.Mvar.{index_at};

use crate::numbers::word;

/// Which row of deltas: the outer index is that of an item variation data, the inner that of its row.
#[derive(Clone, Copy)]
pub struct DeltaSetIndex {
    pub outer: usize,
    pub inner: usize,
}

/// The two indexes at an offset, the outer first.
pub(crate) fn index_at(table: &[u8], at: usize) -> DeltaSetIndex
    requires { at < 2 ^ 62 }
    ensures { result ≡ index_at table.now at }
{
    DeltaSetIndex {
        outer: word(table, at),
        inner: word(table, at + 2),
    }
}
