//! The work of variations, counted from headers before any is done (profile).

ghost use Rattle.std.specs.Prelude.{◌≡◌, ◌^◌, ◌<◌, ◌≤◌, ◌*◌, ◌+◌, length};
ghost use Rattle.tt_core.specs.Limits.{font_limit};
ghost use Rattle.tt_deltas.specs.Work.{control_value_work, glyph_work, tuples_work};

use crate::control_values::is_cvar;
use crate::gvar::Gvar;
use tt_tuples::{TupleTable, tuple_count};

fn tuples_work(tuples: usize, axes: usize, size: usize) -> u64
    requires tuples { tuples < 4096 }
    requires axes { axes ≤ 64 }
    requires size { size ≤ font_limit }
    ensures exact { result ≡ tuples_work tuples axes size }
    ensures bound { result < 2 ^ 39 }
{
    tuples as u64 * (axes as u64 + size as u64)
}

impl<'a> Gvar<'a> {
    /// The work of a glyph's deltas: each tuple in its data, times 4, the axes and the glyph's size. The size is the count
    /// of points and contours that a simple glyph declares, or of components. It is 0 for a glyph without data.
    pub fn work(&self, g: u16, size: u32) -> u64
        requires { size < 2 ^ 17 }
        ensures exact { result ≡ glyph_work self.now g size }
        ensures bound { result < 2 ^ 39 }
    {
        match self.data(g) {
            Ok(Some(data)) => {
                let tuples = tuple_count(TupleTable::Gvar, data.bytes);
                tuples_work(tuples, self.axes(), 4 + size as usize)
            }
            Ok(None) => 0,
            Err(_) => 0,
        }
    }
}

/// The work of the deltas of control values: each tuple of cvar, times the axes and the values. It is 0 for a table that
/// is taken as missing by its header.
pub fn control_value_work(cvar: &[u8], axes: usize, values: usize) -> u64
    requires axes { axes ≤ 64 }
    requires values { values ≤ font_limit }
    ensures exact { result ≡ control_value_work cvar.now axes values }
    ensures bound { result < 2 ^ 39 }
{
    if !is_cvar(cvar) {
        return 0;
    }
    tuples_work(tuple_count(TupleTable::Cvar, cvar), axes, values)
}
