//! The variations of glyphs and of control values: the tables gvar and cvar. OpenType, "gvar" and "cvar".
#![tactic(auto)]

mod along;
mod control_values;
mod glyph;
mod gvar;
pub mod laws;
mod naming;
mod varied;
mod work;

pub use control_values::moved_control_value;
pub use gvar::{GlyphData, Gvar};
pub use varied::Varied;
pub use work::control_value_work;
