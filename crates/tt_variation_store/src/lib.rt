//! Item variation stores, and the tables whose numbers vary by one: HVAR, MVAR and GDEF. OpenType, "OpenType Font
//! Variations Common Table Formats".
#![tactic(auto)]

mod at_instance;
mod data;
mod gdef;
mod hvar;
mod index;
mod index_map;
pub mod laws;
mod mvar;
mod numbers;
mod regions;
mod store;

pub use at_instance::StoreAtInstance;
pub use gdef::{gdef_store, variation_index};
pub use hvar::Hvar;
pub use index::DeltaSetIndex;
pub use mvar::{Height, Mvar};
pub use store::VariationStore;
