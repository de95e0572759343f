//! The rows of a node, in pages, found by a hash index.
#![tactic(auto)]

mod held_places;
mod key_index;
mod lead;
mod leads;
mod places;
mod store;

pub use store::Store;
