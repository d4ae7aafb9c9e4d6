//! Glyph data: the contents of loca and glyf for each glyph.
#![tactic(auto)]

mod bytes;
mod component;
mod component_flags;
mod composite;
mod coordinates;
mod flags;
mod format;
mod glyf;
pub mod laws;
mod loca;
mod raw;
mod simple;
mod told;

pub use component_flags::ComponentFlags;
pub use glyf::Glyf;
pub use loca::Loca;
pub use raw::{Raw, RawPoint, Record};
/// The error of a refused glyph, under the name in this crate's interface.
pub use tt_core::FontFault as GlyfFault;
