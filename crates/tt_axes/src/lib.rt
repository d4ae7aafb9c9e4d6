//! The axes of a variable font, the coordinates of an instance, and how much of a variation holds there.
#![tactic(auto)]

mod avar;
mod axis;
mod axis_words;
mod coordinates;
mod fvar;
mod instance;
pub mod laws;
mod region;
mod rounding;
mod share;
mod shown;
mod values;
mod words;

pub use avar::Avar;
pub use axis::VariationAxis;
pub use axis_words::read_axis_values;
pub use coordinates::InstanceCoordinates;
pub use fvar::Fvar;
pub use instance::coordinates_of;
pub use region::RegionEnds;
pub use rounding::{product_quotient, sixty_fourths, whole_units};
pub use share::Share;
pub use shown::value_text;
pub use values::{AxisValue, NamedInstance};
