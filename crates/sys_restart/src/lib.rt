//! What the disks of a cluster say when it is started again, and how they are made ready for its next
//! life, so that a stop at any moment loses nothing.
#![tactic(auto)]

mod groups;
mod held;
mod lack;
mod latest;
mod life;
mod lost;
mod name;
mod on_node;
mod outdated;
mod own;
mod places;
mod prepare;
mod restored;
mod restoring;
mod rows;
mod same;
mod settle;
mod slot_rows;
mod table;

pub use life::{is_used_up, prepare_life};
pub use name::name_node;
pub use on_node::of_node;
pub use own::restore_own;
pub use places::{Places, free_of, places_of};
pub use prepare::prepare_node;
pub use restored::Restored;
pub use restoring::restore;
pub use rows::read_rows;
pub use settle::settle_disks;
