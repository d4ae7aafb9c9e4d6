//! The instructions that set or read a program's settings and values, and move no point. These are the graphics state
//! with its vectors, the storage area, the control values, the size, the engine's version and the instance of a variable
//! font. Apple TrueType Reference Manual, "Instruction set".
#![tactic(auto)]

mod instance;
mod instruction;
pub mod laws;
mod queries;
mod settings;
mod size;
mod stored_values;
mod variations;
mod vectors;

pub use instance::Instance;
pub use instruction::{GraphicsSetting, Query, StoredValues, Variation, Vectors};
pub use queries::answer;
pub use settings::set_state;
pub use size::Size;
pub use stored_values::access_values;
pub use variations::answer_variation;
pub use vectors::access_vectors;
