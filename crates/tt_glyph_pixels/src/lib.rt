//! All black pixels of one glyph at pen 0, in the bitmap of its box: those that the edges blacken by the scan converter's
//! rules 1 and 2, and the dropouts where they are filled. A bitmap knows no picture: it is painted wherever the glyph is.
//!
//! ```text
//! reach.rt     the columns and the lines that black pixels may lie in, as a window and as a frame
//! rows.rt      the lines of a window, cut from edges
//! rising.rt    whether there may be dropouts beside the pixels that the edges blacken
//! filling.rt   the dropouts in a window
//! pixels.rt    the bitmap of a glyph, and the least box of its black pixels
//! ```
#![tactic(auto)]

mod filling;
mod pixels;
mod reach;
mod rising;
mod rows;

pub use pixels::{GlyphPixels, pixels_of};
pub use reach::glyph_frame;
