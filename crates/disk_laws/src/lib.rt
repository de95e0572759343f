//! What the disks of nodes have of their hosts at each moment of a life.
#![tactic(auto)]

mod laws;
mod owners;
mod shapes;
mod told;

pub use laws::{ready_disks_keep_up, requests_are_kept, steps_are_kept, what_is_kept_is_found};
pub use owners::{owners_are_found, owners_are_kept};
pub use shapes::{shapes_are_kept, shapes_are_read};
pub use told::told_slots_are_kept;
