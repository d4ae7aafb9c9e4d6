//! From a character to its glyph. OpenType, "cmap: Character to Glyph Index Mapping Table".
#![tactic(auto)]

mod ends;
mod entries;
mod format12;
mod format4;
mod glyphs;
mod known;
pub mod laws;
mod lists;
mod lookup;
mod maps;
mod missing;
mod ranges;
mod records;
mod roman;
mod subtable;
mod table;
mod units;
mod variations;
mod wide_subtable;

pub use known::KnownGlyphs;
pub use lookup::wide::WideCmap;
pub use lookup::{Cmap, Lookup};
pub use maps::CharacterMap;
pub use missing::lacking;
pub use units::{TextUnit, TextUnits};
