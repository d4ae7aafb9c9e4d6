//! The distinct glyphs of a line.

ghost use Rattle.std.specs.Prelude.{◌≡◌, ◌<◌, ◌≤◌, length, map, All, IfOk};
ghost use Rattle.tt_core.specs.Limits.{text_limit};
ghost use Rattle.tt_picture.specs.Distinct.{distinct};
ghost use Rattle.tt_picture.specs.Glyphs.{ArePlaces};

use crate::place_table::PlaceTable;
use std::alloc::{AllocError, Global};

/// The distinct glyphs of a line, in order of first appearance.
#[derive(Drop)]
pub struct DistinctGlyphs {
    /// For each glyph of the font 0, or one more than its place in `numbers`.
    pub places: Vec<u16>,
    pub numbers: Vec<u16>,
}

/// The distinct glyphs of a line, in order of first appearance. The table comes from this one, to which it is given back
/// after the line. Error: out of memory.
pub fn distinct(
    alloc: Global,
    table: &mut PlaceTable,
    glyphs: u16,
    line: &[(u16, u32)],
) -> Result<DistinctGlyphs, AllocError>
    requires known { All (λ g. g.0 < glyphs) line.now }
    requires few { length line.now ≤ text_limit }
    ensures room { IfOk result (λ d. length d.places.items ≡ glyphs) }
    ensures places { IfOk result (λ d. ArePlaces d.places.items d.numbers.items) }
    ensures numbers { IfOk result (λ d. d.numbers.items ≡ distinct (map (λ g. g.0) line.now)) }
    ensures known { IfOk result (λ d. All (λ n. n < glyphs) d.numbers.items) }
{
    let mut places = table.take(usize::from(glyphs))?;
    // There is room for all, so that no push asks for memory.
    let mut numbers = Vec::with_capacity(alloc, line.len())?;
    for placed in line {
        let (number, _) = *placed;
        if places[usize::from(number)] == 0 {
            numbers.push_reserved(number);
            places[usize::from(number)] = numbers.len() as u16;
        }
    }
    Ok(DistinctGlyphs { places, numbers })
}
