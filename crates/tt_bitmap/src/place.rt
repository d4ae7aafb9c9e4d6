//! Where the rows of a bitmap and their words go in the rows of a band.

ghost use Rattle.std.specs.Prelude.{◌+◌, ◌*◌, ◌^◌, ◌<◌, ◌≤◌, min, unsigned_abs};

/// A word's columns as they are ORed to eight bytes from byte `start` on: those that `mask` has, turned right by `turn`.
#[derive(Clone, Copy)]
pub(crate) struct WordPlace {
    pub(crate) start: usize,
    pub(crate) mask: u64,
    pub(crate) turn: u32,
    pub(crate) ghost low: { turn < 64 },
}

/// Word `strip` of the `strips` words of each of some rows, and its place in the rows of a band of as many rows.
#[derive(Clone, Copy)]
pub(crate) struct StripPlace {
    pub(crate) strips: usize,
    pub(crate) strip: usize,
    pub(crate) rows: usize,
    pub(crate) bytes: usize,
    pub(crate) place: WordPlace,
    pub(crate) ghost has: { strip < strips },
    pub(crate) ghost fits: { place.start + min 8 bytes ≤ bytes },
}

/// A row of words in a row of a band: `columns` columns from column `at` of the band on. The band's row has `width`
/// pixels, in `bytes` bytes.
#[derive(Clone, Copy)]
pub(crate) struct RowPlace {
    pub(crate) at: i64,
    pub(crate) columns: u32,
    pub(crate) width: u32,
    pub(crate) bytes: usize,
    pub(crate) ghost near: { unsigned_abs at < 2 ^ 40 + 2 ^ 20 },
    pub(crate) ghost narrow: { columns < 2 ^ 20 },
    pub(crate) ghost room: { width ≤ 8 * bytes },
    pub(crate) ghost few: { bytes < 2 ^ 32 },
}
